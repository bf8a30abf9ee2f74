//! What a test wants of a kernel, a question in each function: a test with many of them in one body takes minutes to
//! prove.

use ada_events::{Entry, Event, Outcome, Refusal, Request, TaskNo};
use ada_kernel::Kernel;
use std::process::Abort;

/// The request is accepted, and its event has the position.
pub fn assert_accepted<R: Abort>(rt: &R, kernel: &mut Kernel, request: Request, at: u32) {
    assert_eq!(rt; kernel.step(request), Ok(at));
}

/// The request is refused for the cause.
pub fn assert_refused<R: Abort>(rt: &R, kernel: &mut Kernel, request: Request, cause: Refusal) {
    assert_eq!(rt; kernel.step(request), Err(cause));
}

/// So many events are in the journal.
pub fn assert_events<R: Abort>(rt: &R, kernel: &Kernel, events: u32) {
    assert_eq!(rt; kernel.journal().len(), events);
}

/// The event is at the position; `None` where there is no such position.
pub fn assert_event<R: Abort>(rt: &R, kernel: &Kernel, at: u32, event: Option<&Event>) {
    assert!(rt; kernel.journal().get(at) == event, "at {at}");
}

/// The outcome of a task.
pub fn assert_outcome<R: Abort>(rt: &R, kernel: &Kernel, task: u16, outcome: Outcome) {
    assert_eq!(rt; kernel.outcome(TaskNo(task)), Some(outcome));
}

/// CALLABLE of a task; `None` where there is no such task (9.9).
pub fn assert_callable<R: Abort>(rt: &R, kernel: &Kernel, task: u16, callable: Option<bool>) {
    assert_eq!(rt; kernel.callable(TaskNo(task)), callable);
}

/// TERMINATED of a task; `None` where there is no such task (9.9).
pub fn assert_terminated<R: Abort>(rt: &R, kernel: &Kernel, task: u16, terminated: Option<bool>) {
    assert_eq!(rt; kernel.terminated(TaskNo(task)), terminated);
}

/// Whether a task runs; `None` where there is no such task.
pub fn assert_running<R: Abort>(rt: &R, kernel: &Kernel, task: u16, running: Option<bool>) {
    assert_eq!(rt; kernel.running(TaskNo(task)), running);
}

/// What COUNT of an entry answers to a task (9.9).
pub fn assert_count<R: Abort>(
    rt: &R,
    kernel: &Kernel,
    by: u16,
    entry: Entry,
    count: Result<u16, Refusal>,
) {
    assert_eq!(rt; kernel.count(TaskNo(by), entry), count);
}

/// The slot of an entry; `None` where there is no such entry.
pub fn assert_slot<R: Abort>(rt: &R, kernel: &Kernel, task: u16, entry: Entry, slot: Option<u16>) {
    assert_eq!(rt; kernel.slot(TaskNo(task), entry), slot);
}

/// How many tasks, slots and events the board has.
pub fn assert_board<R: Abort>(rt: &R, kernel: &Kernel, tasks: u16, slots: u16, events: u32) {
    let board = kernel.board();
    assert_eq!(rt;
        (board.tasks, board.slots, board.events),
        (tasks, slots, events)
    );
}

/// COUNT of a slot on the board.
pub fn assert_counted<R: Abort>(rt: &R, kernel: &Kernel, slot: u16, count: u16) {
    assert_eq!(rt; kernel.board().counts.get(usize::from(slot)), Some(&count));
}
