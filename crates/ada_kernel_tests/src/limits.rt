//! The kernel's first answers, its limits, and the abort of many tasks at once.

use crate::asserts::{
    assert_accepted, assert_callable, assert_count, assert_event, assert_events, assert_outcome,
    assert_refused, assert_running, assert_slot, assert_terminated,
};
use crate::crowd::make_tasks;
use crate::filling::chain;
use ada_events::{Event, Family, Outcome, Refusal, Request, TaskNo};
use ada_kernel::Kernel;
use ada_test_requests::{MAIN, SINGLE, abort, accept, call, complete, create, entry};
use std::process::Abort;
use std::test::Fail;

// What a kernel answers before its first request.
fn is_new<R: Abort>(rt: &R, kernel: &Kernel) {
    assert!(rt; kernel.journal().is_empty());
    assert_events(rt, kernel, 0);
    assert_event(rt, kernel, 0, None);
    assert_event(rt, kernel, 1, None);
    assert_outcome(rt, kernel, 0, Outcome::Nothing);
    assert_callable(rt, kernel, 0, Some(true));
    assert_terminated(rt, kernel, 0, Some(false));
    assert_running(rt, kernel, 0, Some(true));
    assert_running(rt, kernel, 1, None);
    assert_slot(rt, kernel, 0, entry(0), None);
    assert!(rt; !kernel.finished());
}

#[test]
fn a_new_kernel(rt: HostRuntime) -> Result<(), Fail> {
    let kernel = Kernel::new(rt.alloc())?;
    is_new(&rt, &kernel);
    Ok(())
}

// The main program completes, and is gone.
fn main_goes_alone<R: Abort>(rt: &R, kernel: &mut Kernel) {
    assert_accepted(rt, kernel, complete(0), 1);
    assert_events(rt, kernel, 2);
    assert_event(rt, kernel, 2, Some(&Event::Gone { task: TaskNo(0) }));
    assert_outcome(rt, kernel, 0, Outcome::Dead);
    assert!(rt; kernel.finished());
}

#[test]
fn the_main_program_alone(rt: HostRuntime) -> Result<(), Fail> {
    let mut kernel = Kernel::new(rt.alloc())?;
    main_goes_alone(&rt, &mut kernel);
    Ok(())
}

// Main makes 255 tasks, and no more.
fn tasks_are_limited<R: Abort>(rt: &R, kernel: &mut Kernel) {
    assert_eq!(rt; kernel.tasks(), 1);
    for made in 1..=255u32 {
        assert_accepted(rt, kernel, create(0, MAIN, &[]), made);
    }
    assert_refused(rt, kernel, create(0, MAIN, &[]), Refusal::TooManyTasks);
    assert_eq!(rt; kernel.tasks(), 256);
    assert_events(rt, kernel, 255);
}

#[test]
fn as_many_tasks_as_there_may_be(rt: HostRuntime) -> Result<(), Fail> {
    let mut kernel = Kernel::new(rt.alloc())?;
    tasks_are_limited(&rt, &mut kernel);
    Ok(())
}

// Main makes a task with 1,024 entries, and no further entry.
fn slots_are_limited<R: Abort>(rt: &R, kernel: &mut Kernel) {
    let all = Family { low: 0, high: 1023 };
    assert_accepted(rt, kernel, create(0, MAIN, &[all]), 1);
    assert_refused(
        rt,
        kernel,
        create(0, MAIN, &[SINGLE]),
        Refusal::TooManySlots,
    );
}

#[test]
fn as_many_slots_as_there_may_be(rt: HostRuntime) -> Result<(), Fail> {
    let mut kernel = Kernel::new(rt.alloc())?;
    slots_are_limited(&rt, &mut kernel);
    Ok(())
}

// The widest family has more entries than there may be.
fn the_widest_is_refused<R: Abort>(rt: &R, kernel: &mut Kernel) {
    let widest = Family {
        low: i32::MIN,
        high: i32::MAX,
    };
    assert_refused(
        rt,
        kernel,
        create(0, MAIN, &[widest]),
        Refusal::TooManySlots,
    );
}

#[test]
fn the_widest_family_is_too_wide(rt: HostRuntime) -> Result<(), Fail> {
    let mut kernel = Kernel::new(rt.alloc())?;
    the_widest_is_refused(&rt, &mut kernel);
    Ok(())
}

// Main opens 32 blocks, and no more.
fn depth_is_limited<R: Abort>(rt: &R, kernel: &mut Kernel) {
    for opened in 1..=32u32 {
        assert_accepted(rt, kernel, Request::Open { by: TaskNo(0) }, opened);
    }
    assert_refused(
        rt,
        kernel,
        Request::Open { by: TaskNo(0) },
        Refusal::TooDeep,
    );
}

#[test]
fn as_deep_as_a_nest_may_be(rt: HostRuntime) -> Result<(), Fail> {
    let mut kernel = Kernel::new(rt.alloc())?;
    depth_is_limited(&rt, &mut kernel);
    Ok(())
}

// What is asked of an entry that isn't declared, and of a task that isn't there.
fn families_are_declared<R: Abort>(rt: &R, kernel: &mut Kernel) {
    assert!(rt; make_tasks(kernel, 1));
    assert_refused(rt, kernel, accept(1, 2), Refusal::NoSuchFamily);
    assert_count(rt, kernel, 1, entry(2), Err(Refusal::NoSuchFamily));
    assert_count(rt, kernel, 2, entry(0), Err(Refusal::UnknownTask));
    assert_count(rt, kernel, 1, entry(0), Ok(0));
}

#[test]
fn a_family_that_is_not_declared(rt: HostRuntime) -> Result<(), Fail> {
    let mut kernel = Kernel::new(rt.alloc())?;
    families_are_declared(&rt, &mut kernel);
    Ok(())
}

// After the abort each of the 63 tasks is halted, in their order, then main's call fails, and then each is gone.
fn assert_all_end<R: Abort>(rt: &R, kernel: &Kernel) {
    for number in 1..=63u16 {
        let task = TaskNo(number);
        let after = u32::from(number);
        assert_event(rt, kernel, 192 + after, Some(&Event::Halted { task }));
        assert_event(rt, kernel, 256 + after, Some(&Event::Gone { task }));
    }
}

// Of 63 tasks all others and main call the first, which aborts them all.
fn one_aborts_all<R: Abort>(rt: &R, kernel: &mut Kernel) {
    assert!(rt; make_tasks(kernel, 63));
    assert_events(rt, kernel, 128);
    for caller in 2..=63u16 {
        assert!(rt; kernel.step(call(caller, 1, 0)).is_ok());
    }
    assert_accepted(rt, kernel, call(0, 1, 0), 191);
    assert_accepted(rt, kernel, abort(1, 1, 63), 192);
    assert_all_end(rt, kernel);
    assert_event(rt, kernel, 256, Some(&Event::Failed { call: 191 }));
    assert_events(rt, kernel, 319);
}

#[test]
fn everybody_calls_one_that_aborts_all(rt: HostRuntime) -> Result<(), Fail> {
    let mut kernel = Kernel::new(rt.alloc())?;
    one_aborts_all(&rt, &mut kernel);
    Ok(())
}

// The last task of a chain of 63 rendezvous aborts all.
fn the_last_aborts_63<R: Abort>(rt: &R, kernel: &mut Kernel) {
    assert_events(rt, kernel, 317);
    assert_accepted(rt, kernel, abort(63, 1, 63), 318);
    assert_event(rt, kernel, 319, Some(&Event::Halted { task: TaskNo(63) }));
    assert_event(rt, kernel, 320, Some(&Event::Failed { call: 129 }));
    assert_event(rt, kernel, 321, Some(&Event::Failed { call: 132 }));
    assert_event(rt, kernel, 322, Some(&Event::Halted { task: TaskNo(1) }));
    assert_events(rt, kernel, 507);
}

#[test]
fn a_chain_of_rendezvous_is_aborted(rt: HostRuntime) -> Result<(), Fail> {
    let mut kernel = Kernel::new(rt.alloc())?;
    chain(&rt, &mut kernel, 63);
    the_last_aborts_63(&rt, &mut kernel);
    Ok(())
}
