//! Kernels that are filled to the end of their journal, and the longest chain of rendezvous.

use crate::asserts::{
    assert_accepted, assert_board, assert_event, assert_events, assert_outcome, assert_refused,
};
use crate::crowd::make_tasks;
use ada_events::limits::{MOST_APPENDED, MOST_EVENTS};
use ada_events::{Board, Event, Outcome, Refusal, Request, TaskNo};
use ada_kernel::Kernel;
use ada_test_requests::{abort, accept, call, end};
use std::process::Abort;
use std::test::Fail;

/// The last position at which a request is accepted: behind fewer events, the most that one request
/// appends have room.
const LAST_ACCEPTED: u32 = (MOST_EVENTS - MOST_APPENDED + 1) as u32;

// So many ticks, of which each is accepted.
fn all_ticks_fit<R: Abort>(rt: &R, kernel: &mut Kernel, ticks: u32) {
    for tick in 1..=ticks {
        let now = i64::from(tick);
        assert_accepted(rt, kernel, Request::Tick { now }, tick);
    }
}

// What is refused behind the last tick that had room.
fn no_more_fits<R: Abort>(rt: &R, kernel: &mut Kernel) {
    let late = Request::Tick { now: 64_769 };
    assert_refused(rt, kernel, late, Refusal::JournalFull);
    let open = Request::Open { by: TaskNo(0) };
    assert_refused(rt, kernel, open, Refusal::JournalFull);
    let early = Request::Tick { now: 64_767 };
    assert_refused(rt, kernel, early, Refusal::MomentBack);
    assert_events(rt, kernel, LAST_ACCEPTED);
    assert_board(rt, kernel, 1, 0, LAST_ACCEPTED);
}

#[test]
fn as_many_ticks_as_there_may_be(rt: HostRuntime) -> Result<(), Fail> {
    assert_eq!(rt; LAST_ACCEPTED, 64_768);
    let mut kernel = Kernel::new(rt.alloc())?;
    all_ticks_fit(&rt, &mut kernel, LAST_ACCEPTED);
    no_more_fits(&rt, &mut kernel);
    Ok(())
}

// A tick may leave the moment where it is.
fn all_idle_ticks_fit<R: Abort>(rt: &R, kernel: &mut Kernel) {
    for tick in 1..=LAST_ACCEPTED {
        assert_accepted(rt, kernel, Request::Tick { now: 0 }, tick);
    }
    assert_refused(rt, kernel, Request::Tick { now: 0 }, Refusal::JournalFull);
    assert_events(rt, kernel, LAST_ACCEPTED);
}

#[test]
fn as_many_ticks_to_moment_0(rt: HostRuntime) -> Result<(), Fail> {
    let mut kernel = Kernel::new(rt.alloc())?;
    all_idle_ticks_fit(&rt, &mut kernel);
    Ok(())
}

/// The events before the first rendezvous: two tasks made, their activation begun, ended by each, and
/// ended.
const BEFORE: u32 = 6;

/// The events of a rendezvous: a call, a wait, their meeting, and its end.
const EACH: u32 = 4;

// So many rendezvous between tasks 2 and 1, each at the positions that are due.
fn all_rendezvous_fit<R: Abort>(rt: &R, kernel: &mut Kernel, rounds: u32) {
    assert!(rt; make_tasks(kernel, 2));
    for round in 0..rounds {
        let behind = round.wrapping_mul(EACH).wrapping_add(BEFORE);
        assert_accepted(rt, kernel, call(2, 1, 0), behind.wrapping_add(1));
        assert_accepted(rt, kernel, accept(1, 0), behind.wrapping_add(2));
        assert_accepted(rt, kernel, end(1, false), behind.wrapping_add(4));
    }
}

// The last call is accepted at position 64,767 and its wait at 64,768; they meet, and don't end.
fn the_last_meets<R: Abort>(rt: &R, kernel: &mut Kernel) {
    assert_accepted(rt, kernel, call(2, 1, 0), 64_767);
    assert_accepted(rt, kernel, accept(1, 0), LAST_ACCEPTED);
    assert_refused(rt, kernel, end(1, false), Refusal::JournalFull);
    assert_refused(rt, kernel, call(0, 1, 0), Refusal::JournalFull);
    assert_refused(rt, kernel, call(2, 1, 0), Refusal::NotRunning);
    let met = Event::Met {
        call: 64_767,
        wait: 64_768,
    };
    assert_event(rt, kernel, 64_769, Some(&met));
    assert_events(rt, kernel, 64_769);
    let accepted = Outcome::Accepted {
        call: 64_767,
        choice: 0,
    };
    assert_outcome(rt, kernel, 1, accepted);
    assert_outcome(rt, kernel, 2, Outcome::Held);
}

#[test]
fn as_many_rendezvous_as_there_may_be(rt: HostRuntime) -> Result<(), Fail> {
    let mut kernel = Kernel::new(rt.alloc())?;
    all_rendezvous_fit(&rt, &mut kernel, (LAST_ACCEPTED - BEFORE) / EACH);
    the_last_meets(&rt, &mut kernel);
    Ok(())
}

/// Makes a chain of so many rendezvous: main calls task 1, which accepts and calls task 2, and so on to the
/// last. Before it each task has two events, its making and the end of its activation, and two are of
/// them all.
pub fn chain<R: Abort>(rt: &R, kernel: &mut Kernel, last: u16) {
    assert!(rt; make_tasks(kernel, last));
    for callee in 1..=last {
        assert!(rt; kernel.step(call(callee - 1, callee, 0)).is_ok());
        assert!(rt; kernel.step(accept(callee, 0)).is_ok());
    }
}

// Each rendezvous has three events, its call first. Behind the abort of a chain the last task completes at once; then
// the first call fails, and with each further call its caller completes.
fn assert_callers_fail(rt: &impl Abort, kernel: &Kernel, last: u16) {
    let length = u32::from(last);
    for task in 1..last {
        let number = u32::from(task);
        let failed = Event::Failed {
            call: 2 * length + 3 + 3 * number,
        };
        let halted = Event::Halted { task: TaskNo(task) };
        let place = 5 * length + 4 + 2 * number;
        assert_event(rt, kernel, place, Some(&failed));
        assert_event(rt, kernel, place + 1, Some(&halted));
    }
}

// At last all tasks of the chain terminate.
fn assert_all_terminate(rt: &impl Abort, kernel: &Kernel, last: u16) {
    let behind = 7 * u32::from(last) + 3;
    for task in 1..=last {
        let gone = Event::Gone { task: TaskNo(task) };
        assert_event(rt, kernel, behind + u32::from(task), Some(&gone));
    }
}

// The last task of a chain of so many aborts all.
fn chain_is_aborted<R: Abort>(rt: &R, kernel: &mut Kernel, last: u16) {
    let length = u32::from(last);
    let at = 5 * length + 3;
    assert_accepted(rt, kernel, abort(last, 1, last), at);
    let halted = Event::Halted { task: TaskNo(last) };
    assert_event(rt, kernel, at + 1, Some(&halted));
    let first = Event::Failed {
        call: 2 * length + 3,
    };
    assert_event(rt, kernel, at + 2, Some(&first));
    assert_callers_fail(rt, kernel, last);
    assert_all_terminate(rt, kernel, last);
    assert_events(rt, kernel, at + 3 * length);
}

// On the board of 256 tasks main alone is left, and no call waits.
fn main_is_left<R: Abort>(rt: &R, board: &Board) {
    assert!(rt; board.callable[0]);
    assert!(rt; !board.terminated[0]);
    assert!(rt; board.callable.iter().skip(1).all(|callable| !*callable));
    assert!(rt;
        board
            .terminated
            .iter()
            .skip(1)
            .all(|terminated| *terminated)
    );
    assert!(rt; board.counts.iter().all(|count| *count == 0));
}

#[test]
fn the_longest_chain_of_rendezvous_is_aborted(rt: HostRuntime) -> Result<(), Fail> {
    let mut kernel = Kernel::new(rt.alloc())?;
    chain(&rt, &mut kernel, 255);
    chain_is_aborted(&rt, &mut kernel, 255);
    assert_board(&rt, &kernel, 256, 255, 2043);
    main_is_left(&rt, &kernel.board());
    assert_outcome(&rt, &kernel, 0, Outcome::TaskingError);
    Ok(())
}
