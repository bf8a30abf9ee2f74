//! The limits of a kernel that lives on: its tasks at a time, its thresholds, and that its journal is never full.

use crate::asking::{
    MAIN, MAIN_BODY, abort, accept, activate, assert_accepted, assert_not_done, assert_refused,
    assert_release, assert_terminated, call, call_in_vain, create, end, up,
};
use ada_compact::NotCompacted;
use ada_events::Refusal;
use ada_events::limits::{MOST_APPENDED, MOST_EVENTS};
use ada_lasting::{LastingRequest, LongKernel, NotDone};
use std::process::Abort;
use std::test::Fail;

/// How many tasks there may be beside the main program.
const MOST: u64 = 255;

fn fill<R: Abort>(rt: &R, kernel: &mut LongKernel) {
    for task in 0..MOST {
        assert_accepted(rt, kernel, create(MAIN, MAIN_BODY), task.wrapping_add(1));
    }
}

#[test]
fn no_task_is_made_beside_256_until_a_terminated_one_is_released(
    rt: HostRuntime,
) -> Result<(), Fail> {
    let mut kernel = LongKernel::new(rt.alloc(), 4096)?;
    fill(&rt, &mut kernel);
    assert_refused(
        &rt,
        &mut kernel,
        create(MAIN, MAIN_BODY),
        Refusal::TooManyTasks,
    );
    // An abort at 256, by which the task is halted and gone.
    assert_accepted(&rt, &mut kernel, abort(MAIN, 7), 256);
    assert_terminated(&rt, &kernel, 7, Some(true));
    assert_refused(
        &rt,
        &mut kernel,
        create(MAIN, MAIN_BODY),
        Refusal::TooManyTasks,
    );
    assert_release(&rt, &mut kernel, 7, Ok(()));
    assert_accepted(&rt, &mut kernel, create(MAIN, MAIN_BODY), 259);
    assert_terminated(&rt, &kernel, 256, Some(false));
    assert_refused(
        &rt,
        &mut kernel,
        create(MAIN, MAIN_BODY),
        Refusal::TooManyTasks,
    );
    Ok(())
}

// Two tasks that are up at 6, whose activations end at 4 and 8.
fn make_two<R: Abort>(rt: &R, kernel: &mut LongKernel) {
    for task in 1..3u64 {
        let at = task.wrapping_mul(4);
        assert_accepted(rt, kernel, create(MAIN, MAIN_BODY), at.wrapping_sub(3));
        assert_accepted(rt, kernel, activate(MAIN, task), at.wrapping_sub(2));
        assert_accepted(rt, kernel, up(task), at.wrapping_sub(1));
    }
}

// Rendezvous of four events each: the call, the wait and the meeting, and the end.
fn meet<R: Abort>(rt: &R, kernel: &mut LongKernel, rounds: u64) {
    for round in 0..rounds {
        let at = round.wrapping_mul(4).wrapping_add(9);
        assert_accepted(rt, kernel, call(1, 2), at);
        assert_accepted(rt, kernel, accept(2), at.wrapping_add(1));
        assert_accepted(rt, kernel, end(2), at.wrapping_add(3));
    }
}

#[test]
fn positions_are_the_same_at_each_threshold(rt: HostRuntime) -> Result<(), Fail> {
    for threshold in [0, 1, 12, 65_535, 65_536, 65_537, u32::MAX] {
        let mut kernel = LongKernel::new(rt.alloc(), threshold)?;
        make_two(&rt, &mut kernel);
        meet(&rt, &mut kernel, 100);
    }
    Ok(())
}

// Ticks of a kernel whose journal has so many events; their moments rise from 0.
fn tick<R: Abort>(rt: &R, kernel: &mut LongKernel, events: u64, ticks: u64) {
    for before in 0..ticks {
        let now = (before % 1_000_000) as i64;
        let at = events.wrapping_add(before).wrapping_add(1);
        assert_accepted(rt, kernel, LastingRequest::Tick { now }, at);
    }
}

fn assert_length<R: Abort>(rt: &R, kernel: &LongKernel, length: u32) {
    assert_eq!(rt; kernel.kept(), length);
}

// A shorter journal of the main program alone has one event, a tick to the present moment. The next tick follows it.
#[test]
fn the_present_journal_is_made_shorter_at_its_threshold(rt: HostRuntime) -> Result<(), Fail> {
    for threshold in [8u32, 100, 4096] {
        let mut kernel = LongKernel::new(rt.alloc(), threshold)?;
        let ticks = u64::from(threshold);
        tick(&rt, &mut kernel, 0, ticks);
        assert_length(&rt, &kernel, threshold);
        let later = LastingRequest::Tick { now: 1_000_000 };
        assert_accepted(&rt, &mut kernel, later, ticks.wrapping_add(1));
        assert_length(&rt, &kernel, 2);
    }
    Ok(())
}

#[test]
fn the_journal_is_never_full(rt: HostRuntime) -> Result<(), Fail> {
    let ticks = MOST_EVENTS as u64 + 1000;
    for threshold in [4096, u32::MAX] {
        let mut kernel = LongKernel::new(rt.alloc(), threshold)?;
        tick(&rt, &mut kernel, 0, ticks);
        assert!(&rt; (kernel.kept() as usize) < MOST_EVENTS);
    }
    Ok(())
}

#[test]
fn with_no_room_for_a_helper_a_full_present_journal_takes_no_more(
    rt: HostRuntime,
) -> Result<(), Fail> {
    let mut kernel = LongKernel::new(rt.alloc(), 4096)?;
    fill(&rt, &mut kernel);
    assert_accepted(&rt, &mut kernel, activate(MAIN, 1), 256);
    assert_accepted(&rt, &mut kernel, up(1), 257);
    assert_accepted(&rt, &mut kernel, call_in_vain(), 259);
    // The last of them is event 64,768, after which no request has room for all that it may append.
    let ticks = (MOST_EVENTS - MOST_APPENDED) as u64 - 259;
    tick(&rt, &mut kernel, 260, ticks);
    let full = NotDone::NotCompacted(NotCompacted::NoRoom(Refusal::TooManyTasks));
    assert_not_done(&rt, &mut kernel, abort(MAIN, 7), full);
    assert_not_done(
        &rt,
        &mut kernel,
        LastingRequest::Tick { now: 1_000_000 },
        full,
    );
    assert_terminated(&rt, &kernel, 7, Some(false));
    Ok(())
}
