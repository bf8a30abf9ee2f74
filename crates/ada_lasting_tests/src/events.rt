//! The events of the last request to a kernel that lives on, in names that last, once its journal was made shorter and
//! numbers in it are no names.

use crate::asking::{
    ENTRY, MAIN, MAIN_BODY, abort, accept, assert_accepted, assert_compacts, assert_release, call,
    create, end, start_to_call,
};
use ada_border::events::{PlainEvent, blank};
use ada_events::{Choice, Choices, Family, Pause, Pauses, Tail};
use ada_lasting::{LastingMaster, LastingRequest, LastingTasks, LongKernel};
use std::process::Abort;
use std::test::Fail;

// An event of a kind, of a task.
fn of_task(kind: u32, task: u64) -> PlainEvent {
    PlainEvent {
        task,
        ..blank(kind)
    }
}

// The last request appended these events, and no more.
fn assert_events<R: Abort>(rt: &R, kernel: &LongKernel, wanted: &[PlainEvent]) {
    assert_eq!(rt; kernel.events(), wanted.len());
    for (at, event) in wanted.iter().enumerate() {
        assert_eq!(rt; kernel.event(at), Some(*event), "{at}");
    }
    assert_eq!(rt; kernel.event(wanted.len()), None);
}

// The first of them names these tasks, and no more.
fn assert_names<R: Abort>(rt: &R, kernel: &LongKernel, wanted: &[u64]) {
    for (place, task) in wanted.iter().enumerate() {
        assert_eq!(rt; kernel.event_task(0, place), Some(*task), "{place}");
    }
    assert_eq!(rt; kernel.event_task(0, wanted.len()), None);
    match kernel.event_lengths(0) {
        Some(lengths) => assert_eq!(rt; lengths.tasks, wanted.len() as u64),
        None => assert!(rt; false),
    }
}

fn assert_no_events<R: Abort>(rt: &R, kernel: &LongKernel) {
    assert_events(rt, kernel, &[]);
    assert_eq!(rt; kernel.event_lengths(0), None);
    assert_eq!(rt; kernel.event_task(0, 0), None);
    assert!(rt; kernel.event_families(0).is_empty());
    assert!(rt; kernel.event_choices(0).is_empty());
    assert!(rt; kernel.event_delays(0).is_empty());
}

#[test]
fn events_have_lasting_names(rt: HostRuntime) -> Result<(), Fail> {
    let mut kernel = LongKernel::new(rt.alloc(), 4096)?;
    start_to_call(&rt, &mut kernel);
    assert_no_events(&rt, &kernel);
    assert_accepted(&rt, &mut kernel, accept(2), 19);
    let met = PlainEvent {
        call: 18,
        position: 19,
        ..blank(15)
    };
    assert_events(&rt, &kernel, &[of_task(6, 2), met]);
    assert_compacts(&rt, &mut kernel);
    assert_no_events(&rt, &kernel);
    assert_accepted(&rt, &mut kernel, abort(MAIN, 3), 21);
    assert_events(&rt, &kernel, &[of_task(11, MAIN)]);
    assert_names(&rt, &kernel, &[3]);
    assert_compacts(&rt, &mut kernel);
    assert_accepted(&rt, &mut kernel, end(2), 22);
    let ended = PlainEvent {
        call: 18,
        ..of_task(8, 2)
    };
    assert_events(&rt, &kernel, &[ended, of_task(13, 3), of_task(20, 3)]);
    assert_names(&rt, &kernel, &[]);
    Ok(())
}

#[test]
fn a_creation_names_its_block_and_shows_its_families(rt: HostRuntime) -> Result<(), Fail> {
    let mut kernel = LongKernel::new(rt.alloc(), 4096)?;
    start_to_call(&rt, &mut kernel);
    assert_accepted(&rt, &mut kernel, LastingRequest::Open { by: MAIN }, 19);
    assert_events(&rt, &kernel, &[of_task(1, MAIN)]);
    assert_compacts(&rt, &mut kernel);
    let block = LastingMaster::Block(19);
    assert_accepted(&rt, &mut kernel, create(MAIN, block), 20);
    let made = PlainEvent {
        under_kind: 1,
        under: 19,
        master_kind: 1,
        master: 19,
        ..of_task(2, MAIN)
    };
    assert_events(&rt, &kernel, &[made]);
    assert_eq!(&rt;
        kernel.event_families(0),
        [Family { low: 0, high: 0 }].as_slice()
    );
    assert_accepted(&rt, &mut kernel, create(MAIN, MAIN_BODY), 21);
    let made = PlainEvent {
        master_kind: 0,
        master: 0,
        ..made
    };
    assert_events(&rt, &kernel, &[made]);
    let both = LastingTasks::from_slice(&[4, 5]);
    let start = LastingRequest::Activate {
        by: MAIN,
        tasks: both,
    };
    assert_accepted(&rt, &mut kernel, start, 22);
    assert_events(&rt, &kernel, &[of_task(3, MAIN)]);
    assert_names(&rt, &kernel, &[4, 5]);
    Ok(())
}

#[test]
fn a_call_names_the_callee(rt: HostRuntime) -> Result<(), Fail> {
    let mut kernel = LongKernel::new(rt.alloc(), 4096)?;
    start_to_call(&rt, &mut kernel);
    assert_accepted(&rt, &mut kernel, accept(2), 19);
    assert_accepted(&rt, &mut kernel, end(2), 21);
    assert_compacts(&rt, &mut kernel);
    assert_accepted(&rt, &mut kernel, call(3, 2), 22);
    let called = PlainEvent {
        callee: 2,
        ..of_task(5, 3)
    };
    assert_events(&rt, &kernel, &[called]);
    Ok(())
}

#[test]
fn a_wait_shows_its_alternatives(rt: HostRuntime) -> Result<(), Fail> {
    let mut kernel = LongKernel::new(rt.alloc(), 4096)?;
    start_to_call(&rt, &mut kernel);
    let choice = Choice {
        guard: false,
        entry: ENTRY,
    };
    let open = Pause {
        guard: true,
        duration: 50,
    };
    let closed = Pause {
        guard: false,
        duration: 50,
    };
    let wait = LastingRequest::Wait {
        by: 2,
        choices: Choices::from_slice(&[choice]),
        tail: Tail::Delays(Pauses::from_slice(&[open, closed])),
        pick: 7,
    };
    assert_accepted(&rt, &mut kernel, wait, 19);
    let waiting = PlainEvent {
        form: 2,
        number: 7,
        ..of_task(6, 2)
    };
    assert_events(&rt, &kernel, &[waiting]);
    assert_eq!(&rt; kernel.event_choices(0), [choice].as_slice());
    assert_eq!(&rt; kernel.event_delays(0), [Some(50i64), None].as_slice());
    Ok(())
}

#[test]
fn a_release_shows_no_events(rt: HostRuntime) -> Result<(), Fail> {
    let mut kernel = LongKernel::new(rt.alloc(), 4096)?;
    start_to_call(&rt, &mut kernel);
    assert_accepted(&rt, &mut kernel, abort(MAIN, 3), 19);
    // Abnormal and not in a rendezvous, it completes, and is terminated (9.4, 9.10).
    let events = [of_task(11, MAIN), of_task(13, 3), of_task(20, 3)];
    assert_events(&rt, &kernel, &events);
    assert_release(&rt, &mut kernel, 3, Ok(()));
    assert_no_events(&rt, &kernel);
    Ok(())
}
