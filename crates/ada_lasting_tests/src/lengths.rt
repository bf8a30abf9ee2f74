//! How often the journal of a kernel that lives on is made shorter, how short it is then, how many tasks are given up,
//! and that entries of tasks that are gone make room.

use crate::asking::{
    MAIN, MAIN_BODY, abort, accept, activate, assert_accepted, assert_compacts, assert_kept_tasks,
    assert_refused, assert_release, call, call_in_vain, complete, create, end, live_and_end,
    make_up, up,
};
use ada_events::limits::MOST_TASKS;
use ada_events::{Families, Family, Refusal};
use ada_lasting::{LastingMaster, LastingRequest, LongKernel};
use std::process::Abort;
use std::test::Fail;

const LATE: u32 = 4096;

fn length(kernel: &LongKernel) -> u32 {
    kernel.kept()
}

// The next position.
fn next(kernel: &LongKernel) -> u64 {
    kernel.length().saturating_add(1)
}

fn assert_done<R: Abort>(rt: &R, kernel: &mut LongKernel, request: LastingRequest) {
    let at = next(kernel);
    assert_accepted(rt, kernel, request, at);
}

fn tick<R: Abort>(rt: &R, kernel: &mut LongKernel, now: u32) {
    let now = i64::from(now);
    assert_done(rt, kernel, LastingRequest::Tick { now });
}

/// What a test has seen of the lengths of a present journal.
#[derive(Clone, Copy)]
struct Lengths {
    // After it was made shorter last.
    short: u32,
    // How often it was made shorter.
    times: u32,
}

impl Lengths {
    // One more request was made, which appended one event to a journal that had so many. Made shorter, it had twice
    // as many as after the last time.
    fn follow<R: Abort>(&mut self, rt: &R, before: u32, after: u32) {
        if after <= before {
            assert_eq!(rt; before, self.short.wrapping_mul(2));
            self.short = after.wrapping_sub(1);
            self.times = self.times.wrapping_add(1);
        }
    }
}

// With no threshold the journal of ten tasks that live is made shorter at twice its length, not before each request.
#[test]
fn a_short_journal_grows_to_twice_its_length(rt: HostRuntime) -> Result<(), Fail> {
    let mut kernel = LongKernel::new(rt.alloc(), 0)?;
    for _ in 0..10 {
        let at = next(&kernel);
        make_up(&rt, &mut kernel, MAIN, MAIN_BODY, at);
    }
    assert_compacts(&rt, &mut kernel);
    let mut lengths = Lengths {
        short: length(&kernel),
        times: 0,
    };
    let ticks = lengths.short.wrapping_mul(10);
    for now in 0..ticks {
        let before = length(&kernel);
        tick(&rt, &mut kernel, now);
        lengths.follow(&rt, before, length(&kernel));
    }
    assert!(&rt; lengths.times >= 8, "{}", lengths.times);
    Ok(())
}

// 256 tasks live, all that there may be, and a shorter journal would take one more.
fn crowd<R: Abort>(rt: &R, kernel: &mut LongKernel) {
    for _ in 1..MOST_TASKS {
        assert_done(rt, kernel, create(MAIN, MAIN_BODY));
    }
    assert_done(rt, kernel, activate(MAIN, 1));
    assert_done(rt, kernel, up(1));
    assert_done(rt, kernel, call_in_vain());
}

// Ticks until the present journal has so many events.
fn tick_to<R: Abort>(rt: &R, kernel: &mut LongKernel, events: u32) {
    for now in length(kernel)..events {
        tick(rt, kernel, now);
    }
    assert_eq!(rt; length(kernel), events);
}

// At its threshold of 300 events the journal can't be made shorter. Then a task makes room. It is tried again at 600.
#[test]
fn what_was_in_vain_is_tried_again_at_twice_the_length(rt: HostRuntime) -> Result<(), Fail> {
    let mut kernel = LongKernel::new(rt.alloc(), 300)?;
    crowd(&rt, &mut kernel);
    tick_to(&rt, &mut kernel, 301);
    assert_done(&rt, &mut kernel, abort(MAIN, 7));
    assert_release(&rt, &mut kernel, 7, Ok(()));
    let mut lengths = Lengths {
        short: 300,
        times: 0,
    };
    for now in 301..601u32 {
        let before = length(&kernel);
        tick(&rt, &mut kernel, now);
        lengths.follow(&rt, before, length(&kernel));
    }
    assert_eq!(&rt; lengths.times, 1);
    Ok(())
}

// With a threshold of 64 the journal is made shorter at 64 events each time, also after a release.
#[test]
fn a_release_changes_no_threshold(rt: HostRuntime) -> Result<(), Fail> {
    let mut kernel = LongKernel::new(rt.alloc(), 64)?;
    live_and_end(&rt, &mut kernel, MAIN, MAIN_BODY, 1);
    let mut times = 0u32;
    for now in 0..200u32 {
        if now == 30 {
            assert_release(&rt, &mut kernel, 1, Ok(()));
        }
        let before = length(&kernel);
        tick(&rt, &mut kernel, now);
        if length(&kernel) <= before {
            assert_eq!(&rt; before, 64);
            times = times.wrapping_add(1);
        }
    }
    assert!(&rt; times >= 2, "{times}");
    Ok(())
}

// A block of the main program in which two tasks meet, which is left when both are terminated.
fn meet_in_a_block<R: Abort>(rt: &R, kernel: &mut LongKernel) {
    let block = next(kernel);
    assert_accepted(rt, kernel, LastingRequest::Open { by: MAIN }, block);
    let server = kernel.tasks();
    let client = server.wrapping_add(1);
    for _ in 0..2 {
        let at = next(kernel);
        make_up(rt, kernel, MAIN, LastingMaster::Block(block), at);
    }
    assert_done(rt, kernel, call(client, server));
    assert_done(rt, kernel, accept(server));
    assert_done(rt, kernel, end(server));
    assert_done(rt, kernel, complete(client));
    assert_done(rt, kernel, complete(server));
    assert_done(rt, kernel, LastingRequest::Close { by: MAIN });
}

fn given_up(kernel: &LongKernel) -> u64 {
    let made = kernel.tasks();
    (0..made)
        .filter(|task| kernel.terminated(*task).is_none())
        .count() as u64
}

// Ten such blocks of 19 events each: all tasks are given up, and nothing of them is left. The main program only left a
// block last, so it opens one again, closes it, and leaves it.
#[test]
fn what_is_gone_takes_no_event(rt: HostRuntime) -> Result<(), Fail> {
    let mut kernel = LongKernel::new(rt.alloc(), LATE)?;
    for _ in 0..10 {
        meet_in_a_block(&rt, &mut kernel);
    }
    assert_eq!(&rt; length(&kernel), 190);
    assert_kept_tasks(&rt, &kernel, 21);
    assert_eq!(&rt; given_up(&kernel), 0);
    assert_compacts(&rt, &mut kernel);
    assert_eq!(&rt; given_up(&kernel), 20);
    assert_kept_tasks(&rt, &kernel, 1);
    assert_eq!(&rt; length(&kernel), 3);
    Ok(())
}

// Task 1 has called task 2 in vain. It gets the same outcome in a shorter journal by a call of a helper, which is kept
// beside the main program and both, and isn't one of the tasks that were made.
#[test]
fn a_helper_is_kept(rt: HostRuntime) -> Result<(), Fail> {
    let mut kernel = LongKernel::new(rt.alloc(), LATE)?;
    make_up(&rt, &mut kernel, MAIN, MAIN_BODY, 1);
    make_up(&rt, &mut kernel, MAIN, MAIN_BODY, 5);
    assert_done(&rt, &mut kernel, call_in_vain());
    assert_kept_tasks(&rt, &kernel, 3);
    assert_compacts(&rt, &mut kernel);
    assert_kept_tasks(&rt, &kernel, 4);
    assert_eq!(&rt; kernel.tasks(), 3);
    Ok(())
}

// In a long life of such blocks no more than two tasks live beside the main program. Each time that the journal is made
// shorter it has as few events as these want: for each task its creation, activation and what it waits for or did last,
// and for that a helper that does it with it.
#[test]
fn a_short_journal_is_as_long_as_what_lives(rt: HostRuntime) -> Result<(), Fail> {
    let mut kernel = LongKernel::new(rt.alloc(), 64)?;
    let mut times = 0u32;
    for _ in 0..500 {
        let before = length(&kernel);
        meet_in_a_block(&rt, &mut kernel);
        let after = length(&kernel);
        if after < before.wrapping_add(19) {
            times = times.wrapping_add(1);
            assert!(&rt; after <= 60, "{after}");
        }
    }
    assert!(&rt; times >= 100, "{times}");
    Ok(())
}

// A task with 16 entries.
fn create_wide(master: LastingMaster) -> LastingRequest {
    LastingRequest::Create {
        by: MAIN,
        master,
        families: Families::from_slice(&[Family { low: 1, high: 16 }]),
    }
}

// A task with 16 entries lives and ends in a block of its own.
fn live_wide<R: Abort>(rt: &R, kernel: &mut LongKernel) {
    let block = next(kernel);
    assert_accepted(rt, kernel, LastingRequest::Open { by: MAIN }, block);
    let task = kernel.tasks();
    assert_done(rt, kernel, create_wide(LastingMaster::Block(block)));
    assert_done(rt, kernel, activate(MAIN, task));
    assert_done(rt, kernel, up(task));
    assert_done(rt, kernel, complete(task));
    assert_done(rt, kernel, LastingRequest::Close { by: MAIN });
}

// 64 such tasks have all the entries that there may be. 200 of them, one after another, find room long before the
// journal is due.
#[test]
fn entries_of_tasks_that_are_gone_make_room(rt: HostRuntime) -> Result<(), Fail> {
    let mut kernel = LongKernel::new(rt.alloc(), LATE)?;
    for _ in 0..200 {
        live_wide(&rt, &mut kernel);
    }
    assert!(&rt; length(&kernel) < LATE);
    Ok(())
}

// 64 tasks that live have all the entries that there may be, until one is terminated and released.
#[test]
fn entries_of_tasks_that_live_count(rt: HostRuntime) -> Result<(), Fail> {
    let mut kernel = LongKernel::new(rt.alloc(), LATE)?;
    live_and_end(&rt, &mut kernel, MAIN, MAIN_BODY, 1);
    assert_release(&rt, &mut kernel, 1, Ok(()));
    for _ in 0..64 {
        assert_done(&rt, &mut kernel, create_wide(MAIN_BODY));
    }
    let full = Refusal::TooManySlots;
    assert_refused(&rt, &mut kernel, create_wide(MAIN_BODY), full);
    assert_done(&rt, &mut kernel, abort(MAIN, 2));
    assert_refused(&rt, &mut kernel, create_wide(MAIN_BODY), full);
    assert_release(&rt, &mut kernel, 2, Ok(()));
    assert_done(&rt, &mut kernel, create_wide(MAIN_BODY));
    Ok(())
}
