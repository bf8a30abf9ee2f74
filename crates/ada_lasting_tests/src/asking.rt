//! Requests to a kernel that lives on, in few words, and what a test wants of their answers, a question in each
//! function.

use ada_events::{Choice, Choices, Entry, Families, Family, Patience, Refusal, Tail};
use ada_lasting::{
    LastingMaster, LastingReason, LastingRequest, LastingTasks, LongKernel, NotDone,
};
use std::process::Abort;

/// The main program, and its body as a master.
pub const MAIN: u64 = 0;

pub const MAIN_BODY: LastingMaster = LastingMaster::Body(MAIN);

/// The one entry of each task.
pub const ENTRY: Entry = Entry {
    family: 0,
    index: 0,
};

pub fn create(by: u64, master: LastingMaster) -> LastingRequest {
    LastingRequest::Create {
        by,
        master,
        families: Families::from_slice(&[Family { low: 0, high: 0 }]),
    }
}

pub fn activate(by: u64, task: u64) -> LastingRequest {
    LastingRequest::Activate {
        by,
        tasks: LastingTasks::from_slice(&[task]),
    }
}

pub fn abort(by: u64, task: u64) -> LastingRequest {
    LastingRequest::Abort {
        by,
        tasks: LastingTasks::from_slice(&[task]),
    }
}

pub fn up(by: u64) -> LastingRequest {
    LastingRequest::Elaborated { by, ok: true }
}

pub fn complete(by: u64) -> LastingRequest {
    LastingRequest::Complete { by }
}

pub fn call(by: u64, callee: u64) -> LastingRequest {
    LastingRequest::Call {
        by,
        callee,
        entry: ENTRY,
        patience: Patience::Simple,
    }
}

/// A conditional call of task 1 that isn't met. To give the task the same outcome, a shorter journal takes a helper.
pub fn call_in_vain() -> LastingRequest {
    LastingRequest::Call {
        by: 1,
        callee: 2,
        entry: ENTRY,
        patience: Patience::Conditional,
    }
}

pub fn accept(by: u64) -> LastingRequest {
    LastingRequest::Wait {
        by,
        choices: Choices::from_slice(&[Choice {
            guard: true,
            entry: ENTRY,
        }]),
        tail: Tail::Nothing,
        pick: 0,
    }
}

pub fn end(by: u64) -> LastingRequest {
    LastingRequest::End { by, raised: false }
}

/// The request is accepted, and its event has the position.
pub fn assert_accepted<R: Abort>(
    rt: &R,
    kernel: &mut LongKernel,
    request: LastingRequest,
    at: u64,
) {
    assert_eq!(rt; kernel.step(request), Ok(at));
}

/// The request isn't done, for the cause.
pub fn assert_not_done<R: Abort>(
    rt: &R,
    kernel: &mut LongKernel,
    request: LastingRequest,
    cause: NotDone,
) {
    assert_eq!(rt; kernel.step(request), Err(cause));
}

/// The kernel refuses the request.
pub fn assert_refused<R: Abort>(
    rt: &R,
    kernel: &mut LongKernel,
    request: LastingRequest,
    cause: Refusal,
) {
    assert_not_done(rt, kernel, request, NotDone::Refused(cause));
}

/// The task was given up, so the request isn't done.
pub fn assert_given_up<R: Abort>(
    rt: &R,
    kernel: &mut LongKernel,
    request: LastingRequest,
    task: u64,
) {
    assert_not_done(rt, kernel, request, NotDone::GivenUp(task));
}

/// What a release answers.
pub fn assert_release<R: Abort>(
    rt: &R,
    kernel: &mut LongKernel,
    task: u64,
    answer: Result<(), NotDone>,
) {
    assert_eq!(rt; kernel.release(task), answer);
}

/// The present journal is made shorter.
pub fn assert_compacts<R: Abort>(rt: &R, kernel: &mut LongKernel) {
    assert_eq!(rt; kernel.compact(), Ok(()));
}

/// TERMINATED of a task; `None` if it was given up or never made.
pub fn assert_terminated<R: Abort>(
    rt: &R,
    kernel: &LongKernel,
    task: u64,
    terminated: Option<bool>,
) {
    assert_eq!(rt; kernel.terminated(task), terminated, "{task}");
}

/// A task that depends on a master is made and activated: its creation is at this position, and its activation follows
/// with three events.
pub fn make_up<R: Abort>(rt: &R, kernel: &mut LongKernel, by: u64, master: LastingMaster, at: u64) {
    let task = kernel.tasks();
    assert_accepted(rt, kernel, create(by, master), at);
    assert_accepted(rt, kernel, activate(by, task), at.wrapping_add(1));
    assert_accepted(rt, kernel, up(task), at.wrapping_add(2));
}

/// A task lives so, and ends with two more events, its completion and its termination.
pub fn live_and_end<R: Abort>(
    rt: &R,
    kernel: &mut LongKernel,
    by: u64,
    master: LastingMaster,
    at: u64,
) {
    let task = kernel.tasks();
    make_up(rt, kernel, by, master, at);
    assert_accepted(rt, kernel, complete(task), at.wrapping_add(4));
    assert_terminated(rt, kernel, task, Some(true));
}

/// Task 1 lives and ends in a block of the main program, which is left at 9.
pub fn live_in_a_block<R: Abort>(rt: &R, kernel: &mut LongKernel) {
    assert_accepted(rt, kernel, LastingRequest::Open { by: MAIN }, 1);
    live_and_end(rt, kernel, MAIN, LastingMaster::Block(1), 2);
    assert_accepted(rt, kernel, LastingRequest::Close { by: MAIN }, 8);
}

/// Why a task doesn't run.
pub fn assert_reason<R: Abort>(
    rt: &R,
    kernel: &LongKernel,
    task: u64,
    wanted: Option<LastingReason>,
) {
    assert_eq!(rt; kernel.reason(task), wanted, "{task}");
}

/// How many tasks the present journal has.
pub fn assert_kept_tasks<R: Abort>(rt: &R, kernel: &LongKernel, tasks: u16) {
    assert_eq!(rt; kernel.kept_tasks(), tasks);
}

/// The numbers of tasks 2 and 3 and of the call at 18 aren't those of the present journal: it has three tasks, the main
/// program and these, in their order, and fewer than 18 events.
fn assert_moved<R: Abort>(rt: &R, kernel: &LongKernel) {
    assert_terminated(rt, kernel, 1, None);
    assert_terminated(rt, kernel, 2, Some(false));
    assert_terminated(rt, kernel, 3, Some(false));
    assert_kept_tasks(rt, kernel, 3);
    assert_reason(rt, kernel, 3, Some(LastingReason::Queued { call: 18 }));
    assert!(rt; kernel.kept() < 18, "{}", kernel.kept());
}

/// Task 1 lives, ends, and is given up when the journal is made shorter; by then tasks 2 and 3 are up, and task 3 has
/// called task 2, at 18.
pub fn start_to_call<R: Abort>(rt: &R, kernel: &mut LongKernel) {
    live_in_a_block(rt, kernel);
    make_up(rt, kernel, MAIN, MAIN_BODY, 10);
    make_up(rt, kernel, MAIN, MAIN_BODY, 14);
    assert_accepted(rt, kernel, call(3, 2), 18);
    assert_compacts(rt, kernel);
    assert_moved(rt, kernel);
}
