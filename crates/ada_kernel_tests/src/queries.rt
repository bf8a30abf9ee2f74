//! What a kernel answers about its tasks and entries.

use crate::asserts::{
    assert_accepted, assert_board, assert_callable, assert_count, assert_counted, assert_events,
    assert_outcome, assert_slot, assert_terminated,
};
use crate::crowd::make_tasks;
use ada_events::{Entry, Family, Outcome, Refusal, Request, TaskNo};
use ada_kernel::Kernel;
use ada_test_requests::{
    MAIN, SINGLE, abort, accept, activate, call, create, end, entry, timed_call, up,
};
use std::process::Abort;
use std::test::Fail;

/// Makes a server, task 1 with two entries, and two clients, tasks 2 and 3, and activates all: eight events.
fn make_clients<R: Abort>(rt: &R, kernel: &mut Kernel) {
    assert_accepted(rt, kernel, create(0, MAIN, &[SINGLE, SINGLE]), 1);
    assert_accepted(rt, kernel, create(0, MAIN, &[]), 2);
    assert_accepted(rt, kernel, create(0, MAIN, &[]), 3);
    assert_accepted(rt, kernel, activate(0, 1, 3), 4);
    assert_accepted(rt, kernel, up(1), 5);
    assert_accepted(rt, kernel, up(2), 6);
    assert_outcome(rt, kernel, 0, Outcome::Held);
    assert_accepted(rt, kernel, up(3), 7);
    assert_outcome(rt, kernel, 0, Outcome::ActivationOk);
    assert_events(rt, kernel, 8);
}

// The board of a kernel before its first request.
fn opens_with_main<R: Abort>(rt: &R, kernel: &Kernel) {
    assert_board(rt, kernel, 1, 0, 0);
    assert_counted(rt, kernel, 0, 0);
    let board = kernel.board();
    assert!(rt; board.callable[0]);
    assert!(rt; !board.terminated[0]);
    assert!(rt; !board.callable[1]);
}

#[test]
fn an_opening_board(rt: HostRuntime) -> Result<(), Fail> {
    let kernel = Kernel::new(rt.alloc())?;
    opens_with_main(&rt, &kernel);
    Ok(())
}

// A call is counted on the board until its time is over; an abort makes its task not callable.
fn calls_are_counted<R: Abort>(rt: &R, kernel: &mut Kernel) {
    assert_accepted(rt, kernel, timed_call(2, 1, 0, 5), 9);
    assert_board(rt, kernel, 4, 2, 9);
    assert_counted(rt, kernel, 0, 1);
    assert_counted(rt, kernel, 1, 0);
    assert_accepted(rt, kernel, Request::Tick { now: 5 }, 10);
    assert_counted(rt, kernel, 0, 0);
    assert_outcome(rt, kernel, 2, Outcome::Cancelled);
    assert_accepted(rt, kernel, abort(0, 1, 1), 12);
    assert_callable(rt, kernel, 1, Some(false));
}

#[test]
fn boards_follow_the_steps(rt: HostRuntime) -> Result<(), Fail> {
    let mut kernel = Kernel::new(rt.alloc())?;
    make_clients(&rt, &mut kernel);
    calls_are_counted(&rt, &mut kernel);
    Ok(())
}

// A task that was aborted is gone from the board.
fn the_aborted_is_gone<R: Abort>(rt: &R, kernel: &mut Kernel) {
    assert_accepted(rt, kernel, abort(0, 1, 1), 9);
    let board = kernel.board();
    assert!(rt; !board.callable[1]);
    assert!(rt; board.terminated[1]);
    assert_outcome(rt, kernel, 1, Outcome::Dead);
    assert_terminated(rt, kernel, 1, Some(true));
    assert_callable(rt, kernel, 4, None);
}

#[test]
fn boards_follow_an_abort(rt: HostRuntime) -> Result<(), Fail> {
    let mut kernel = Kernel::new(rt.alloc())?;
    make_clients(&rt, &mut kernel);
    the_aborted_is_gone(&rt, &mut kernel);
    Ok(())
}

/// An entry of a family.
fn member(family: u8, index: i32) -> Entry {
    Entry { family, index }
}

// Slots of single entries, of a family, and of a family without entries.
fn slots_are_numbered<R: Abort>(rt: &R, kernel: &mut Kernel) {
    let three = Family { low: 1, high: 3 };
    let none = Family { low: 2, high: 1 };
    assert_accepted(rt, kernel, create(0, MAIN, &[three, none, SINGLE]), 9);
    assert_slot(rt, kernel, 1, entry(0), Some(0));
    assert_slot(rt, kernel, 1, entry(1), Some(1));
    assert_slot(rt, kernel, 4, member(0, 1), Some(2));
    assert_slot(rt, kernel, 4, member(0, 3), Some(4));
    assert_slot(rt, kernel, 4, member(1, 2), None);
    assert_slot(rt, kernel, 4, entry(2), Some(5));
}

#[test]
fn slots_of_families(rt: HostRuntime) -> Result<(), Fail> {
    let mut kernel = Kernel::new(rt.alloc())?;
    make_clients(&rt, &mut kernel);
    slots_are_numbered(&rt, &mut kernel);
    Ok(())
}

// A rendezvous within a rendezvous: the inner one ends by an exception, the outer one plainly.
fn an_exception_is_raised<R: Abort>(rt: &R, kernel: &mut Kernel) {
    assert_accepted(rt, kernel, accept(1, 0), 9);
    assert_accepted(rt, kernel, call(2, 1, 0), 10);
    let accepted = Outcome::Accepted {
        call: 10,
        choice: 0,
    };
    assert_outcome(rt, kernel, 1, accepted);
    assert_accepted(rt, kernel, call(3, 1, 1), 12);
    assert_accepted(rt, kernel, accept(1, 1), 13);
    assert_accepted(rt, kernel, end(1, true), 15);
    assert_outcome(rt, kernel, 1, Outcome::Raised);
    assert_outcome(rt, kernel, 3, Outcome::Raised);
    assert_outcome(rt, kernel, 2, Outcome::Held);
    assert_accepted(rt, kernel, end(1, false), 16);
    assert_outcome(rt, kernel, 2, Outcome::Served);
    assert_outcome(rt, kernel, 1, Outcome::Raised);
}

#[test]
fn outcomes_of_an_exception(rt: HostRuntime) -> Result<(), Fail> {
    let mut kernel = Kernel::new(rt.alloc())?;
    make_clients(&rt, &mut kernel);
    an_exception_is_raised(&rt, &mut kernel);
    Ok(())
}

// A task fails in its activation.
fn an_activation_fails<R: Abort>(rt: &R, kernel: &mut Kernel) {
    assert_accepted(rt, kernel, create(0, MAIN, &[]), 1);
    assert_accepted(rt, kernel, activate(0, 1, 1), 2);
    let fail = Request::Elaborated {
        by: TaskNo(1),
        ok: false,
    };
    assert_accepted(rt, kernel, fail, 3);
    assert_outcome(rt, kernel, 0, Outcome::ActivationFailed);
    assert_callable(rt, kernel, 1, Some(false));
}

#[test]
fn the_outcome_of_a_failed_activation(rt: HostRuntime) -> Result<(), Fail> {
    let mut kernel = Kernel::new(rt.alloc())?;
    an_activation_fails(&rt, &mut kernel);
    Ok(())
}

// The call that is being served isn't counted.
fn the_queued_are_counted<R: Abort>(rt: &R, kernel: &mut Kernel) {
    assert!(rt; make_tasks(kernel, 3));
    assert!(rt; kernel.step(accept(1, 0)).is_ok());
    assert_count(rt, kernel, 1, entry(0), Err(Refusal::NotRunning));
    assert!(rt; kernel.step(call(2, 1, 0)).is_ok());
    assert_count(rt, kernel, 1, entry(0), Ok(0));
    assert!(rt; kernel.step(call(3, 1, 0)).is_ok());
    assert!(rt; kernel.step(call(0, 1, 0)).is_ok());
    assert_count(rt, kernel, 1, entry(0), Ok(2));
    assert_count(rt, kernel, 1, member(0, 1), Err(Refusal::ConstraintError));
}

#[test]
fn counts_leave_out_the_served_call(rt: HostRuntime) -> Result<(), Fail> {
    let mut kernel = Kernel::new(rt.alloc())?;
    the_queued_are_counted(&rt, &mut kernel);
    Ok(())
}
