//! Why tasks wait, for whom, and what can let a kernel's journal go on.

use crate::asserts::{assert_accepted, assert_events};
use ada_events::{Master, Request, TaskNo};
use ada_kernel::Kernel;
use ada_reference::{reason_of, verdict_of, waits_for};
use ada_test_requests::{
    MAIN, SINGLE, accept, activate, call, complete, create, end, timed_call, up,
};
use ada_waiting::{Reason, Verdict, first_awaited, reason_in, verdict_in};
use std::process::Abort;
use std::test::Fail;

/// Why a task doesn't go on, by a search and by what the kernel keeps.
fn assert_reason<R: Abort>(rt: &R, kernel: &Kernel, task: u16, reason: Option<Reason>) {
    let events = kernel.journal().as_slice();
    assert_eq!(rt; reason_of(events, TaskNo(task)), reason);
    assert_eq!(rt; reason_in(kernel, TaskNo(task)), reason);
}

/// What can let the journal go on, by a search and by what the kernel keeps.
fn assert_verdict<R: Abort>(rt: &R, kernel: &Kernel, verdict: Verdict) {
    assert_eq!(rt; verdict_of(kernel.journal().as_slice()), verdict);
    assert_eq!(rt; verdict_in(kernel), verdict);
}

/// Of the tasks 0 to 4, for which a task waits, by a search and by what the kernel keeps.
fn assert_awaited<R: Abort>(rt: &R, kernel: &Kernel, task: u16, awaited: [bool; 5]) {
    let events = kernel.journal().as_slice();
    for other in 0..5u16 {
        let waits = waits_for(events, TaskNo(task), TaskNo(other));
        assert_eq!(rt; Some(&waits), awaited.get(usize::from(other)), "{other}");
        let found = first_awaited(kernel, TaskNo(task), TaskNo(other)) == Some(TaskNo(other));
        assert_eq!(rt; found, waits, "{other}");
    }
}

/// Makes a server, task 1, and a client, task 2, and activates both: six events.
fn make_two<R: Abort>(rt: &R, kernel: &mut Kernel) {
    assert_accepted(rt, kernel, create(0, MAIN, &[SINGLE]), 1);
    assert_accepted(rt, kernel, create(0, MAIN, &[SINGLE]), 2);
    assert_reason(rt, kernel, 1, Some(Reason::NotStarted));
    assert_reason(rt, kernel, 3, None);
    assert_awaited(rt, kernel, 1, [true, false, false, false, false]);
    assert_accepted(rt, kernel, activate(0, 1, 2), 3);
    assert_reason(rt, kernel, 1, None);
    assert_accepted(rt, kernel, up(1), 4);
    assert_reason(rt, kernel, 0, Some(Reason::Activating { start: 3 }));
    assert_awaited(rt, kernel, 0, [false, false, true, false, false]);
    assert_accepted(rt, kernel, up(2), 5);
    assert_reason(rt, kernel, 0, None);
    assert_events(rt, kernel, 6);
}

// The client calls, is served, and both wait.
fn they_meet<R: Abort>(rt: &R, kernel: &mut Kernel) {
    assert_accepted(rt, kernel, call(2, 1, 0), 7);
    assert_reason(rt, kernel, 2, Some(Reason::Queued { call: 7 }));
    assert_awaited(rt, kernel, 2, [false, true, false, false, false]);
    assert_accepted(rt, kernel, accept(1, 0), 8);
    assert_reason(rt, kernel, 2, Some(Reason::InRendezvous { call: 7 }));
    assert_awaited(rt, kernel, 2, [false, true, false, false, false]);
    assert_reason(rt, kernel, 1, None);
    assert_accepted(rt, kernel, end(1, false), 10);
    assert_reason(rt, kernel, 2, None);
    assert_accepted(rt, kernel, accept(1, 0), 11);
    assert_reason(rt, kernel, 1, Some(Reason::Waiting { wait: 11 }));
    assert_awaited(rt, kernel, 1, [false; 5]);
    assert_verdict(rt, kernel, Verdict::GoesOn);
}

// Main leaves a block with a task in it, and all are delayed but the server.
fn they_wait<R: Abort>(rt: &R, kernel: &mut Kernel) {
    let delay = |by, duration| Request::Delay {
        by: TaskNo(by),
        duration,
    };
    assert_accepted(rt, kernel, delay(2, 7), 12);
    assert_reason(rt, kernel, 2, Some(Reason::Delayed { pause: 12 }));
    assert_accepted(rt, kernel, Request::Open { by: TaskNo(0) }, 13);
    assert_accepted(rt, kernel, create(0, Master::Block(13), &[]), 14);
    assert_accepted(rt, kernel, activate(0, 3, 3), 15);
    assert_accepted(rt, kernel, up(3), 16);
    assert_accepted(rt, kernel, Request::Close { by: TaskNo(0) }, 18);
    assert_reason(rt, kernel, 0, Some(Reason::Leaving { close: 18 }));
    assert_awaited(rt, kernel, 0, [false, false, false, true, false]);
    assert_verdict(rt, kernel, Verdict::GoesOn);
    assert_accepted(rt, kernel, delay(3, 5), 19);
    assert_verdict(rt, kernel, Verdict::WaitsForTick { until: 5 });
}

#[test]
fn each_reason(rt: HostRuntime) -> Result<(), Fail> {
    let mut kernel = Kernel::new(rt.alloc())?;
    make_two(&rt, &mut kernel);
    they_meet(&rt, &mut kernel);
    they_wait(&rt, &mut kernel);
    Ok(())
}

// Two tasks call one another while main is at its end: no tick helps.
fn they_call_one_another<R: Abort>(rt: &R, kernel: &mut Kernel) {
    assert_accepted(rt, kernel, call(1, 2, 0), 7);
    assert_accepted(rt, kernel, call(2, 1, 0), 8);
    assert_awaited(rt, kernel, 1, [false, false, true, false, false]);
    assert_awaited(rt, kernel, 2, [false, true, false, false, false]);
    assert_verdict(rt, kernel, Verdict::GoesOn);
    assert_accepted(rt, kernel, complete(0), 9);
    assert_reason(rt, kernel, 0, Some(Reason::Completed));
    assert_awaited(rt, kernel, 0, [false, true, true, false, false]);
    assert_verdict(rt, kernel, Verdict::Stuck);
    assert_accepted(rt, kernel, Request::Tick { now: 1_000 }, 10);
    assert_verdict(rt, kernel, Verdict::Stuck);
}

#[test]
fn a_circle_is_stuck(rt: HostRuntime) -> Result<(), Fail> {
    let mut kernel = Kernel::new(rt.alloc())?;
    make_two(&rt, &mut kernel);
    they_call_one_another(&rt, &mut kernel);
    Ok(())
}

// A timed call that is served waits no longer for its moment, but for its server.
fn the_server_sleeps<R: Abort>(rt: &R, kernel: &mut Kernel) {
    assert_accepted(rt, kernel, timed_call(2, 1, 0, 5), 7);
    assert_accepted(rt, kernel, complete(0), 8);
    assert_accepted(rt, kernel, accept(1, 0), 9);
    let delay = Request::Delay {
        by: TaskNo(1),
        duration: 100,
    };
    assert_accepted(rt, kernel, delay, 11);
    assert_verdict(rt, kernel, Verdict::WaitsForTick { until: 100 });
}

#[test]
fn a_served_call_waits_for_its_server(rt: HostRuntime) -> Result<(), Fail> {
    let mut kernel = Kernel::new(rt.alloc())?;
    make_two(&rt, &mut kernel);
    the_server_sleeps(&rt, &mut kernel);
    Ok(())
}

#[test]
fn main_alone_finishes(rt: HostRuntime) -> Result<(), Fail> {
    let mut kernel = Kernel::new(rt.alloc())?;
    assert_verdict(&rt, &kernel, Verdict::GoesOn);
    assert_accepted(&rt, &mut kernel, complete(0), 1);
    assert_reason(&rt, &kernel, 0, None);
    assert_verdict(&rt, &kernel, Verdict::Finished);
    Ok(())
}
