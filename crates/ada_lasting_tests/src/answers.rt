//! What a kernel that lives on answers about tasks once its journal was made shorter, and numbers in it are no names.

use crate::asking::{
    ENTRY, MAIN, abort, accept, assert_accepted, assert_compacts, assert_terminated, call,
    complete, end, start_to_call,
};
use ada_events::{Entry, Refusal};
use ada_lasting::{LastingOutcome, LongKernel, NotDone};
use std::process::Abort;
use std::test::Fail;

const LATE: u32 = 4096;

// A task that was given up, and two that were never made.
const UNNAMED: [u64; 3] = [1, 4, u64::MAX];

// TERMINATED and CALLABLE of a task (9.9), and whether it runs.
fn assert_attributes<R: Abort>(rt: &R, kernel: &LongKernel, task: u64, wanted: [bool; 3]) {
    let [terminated, callable, running] = wanted;
    assert_terminated(rt, kernel, task, Some(terminated));
    assert_eq!(rt; kernel.callable(task), Some(callable), "{task}");
    assert_eq!(rt; kernel.running(task), Some(running), "{task}");
}

fn assert_nothing<R: Abort>(rt: &R, kernel: &LongKernel, task: u64) {
    assert_terminated(rt, kernel, task, None);
    assert_eq!(rt; kernel.callable(task), None, "{task}");
    assert_eq!(rt; kernel.running(task), None, "{task}");
    assert_eq!(rt; kernel.outcome(task), None, "{task}");
}

#[test]
fn attributes_are_those_of_the_task_that_is_named(rt: HostRuntime) -> Result<(), Fail> {
    let mut kernel = LongKernel::new(rt.alloc(), LATE)?;
    start_to_call(&rt, &mut kernel);
    assert_attributes(&rt, &kernel, MAIN, [false, true, true]);
    assert_attributes(&rt, &kernel, 2, [false, true, true]);
    // The caller is suspended.
    assert_attributes(&rt, &kernel, 3, [false, true, false]);
    assert_accepted(&rt, &mut kernel, accept(2), 19);
    // Abnormal, it isn't halted until its rendezvous ends (9.10).
    assert_accepted(&rt, &mut kernel, abort(MAIN, 3), 21);
    assert_compacts(&rt, &mut kernel);
    assert_attributes(&rt, &kernel, 3, [false, false, false]);
    assert_attributes(&rt, &kernel, 2, [false, true, true]);
    assert_accepted(&rt, &mut kernel, end(2), 22);
    assert_attributes(&rt, &kernel, 3, [true, false, false]);
    Ok(())
}

#[test]
fn nothing_is_told_of_who_was_given_up_or_never_made(rt: HostRuntime) -> Result<(), Fail> {
    let mut kernel = LongKernel::new(rt.alloc(), LATE)?;
    start_to_call(&rt, &mut kernel);
    for task in UNNAMED {
        assert_nothing(&rt, &kernel, task);
    }
    Ok(())
}

fn assert_outcome<R: Abort>(rt: &R, kernel: &LongKernel, task: u64, wanted: LastingOutcome) {
    assert_eq!(rt; kernel.outcome(task), Some(wanted), "{task}");
}

// It accepted the call at 18, by its only choice; the caller is told while the rendezvous lasts.
fn assert_accepted_it<R: Abort>(rt: &R, kernel: &LongKernel, task: u64, caller: Option<u64>) {
    let wanted = LastingOutcome::Accepted {
        call: 18,
        choice: 0,
        caller,
    };
    assert_outcome(rt, kernel, task, wanted);
}

#[test]
fn outcomes_are_those_of_the_task_that_is_named(rt: HostRuntime) -> Result<(), Fail> {
    let mut kernel = LongKernel::new(rt.alloc(), LATE)?;
    start_to_call(&rt, &mut kernel);
    assert_outcome(&rt, &kernel, MAIN, LastingOutcome::ActivationOk);
    assert_outcome(&rt, &kernel, 2, LastingOutcome::Nothing);
    assert_outcome(&rt, &kernel, 3, LastingOutcome::Held);
    assert_accepted(&rt, &mut kernel, accept(2), 19);
    assert_accepted_it(&rt, &kernel, 2, Some(3));
    assert_compacts(&rt, &mut kernel);
    assert_accepted_it(&rt, &kernel, 2, Some(3));
    assert_outcome(&rt, &kernel, 3, LastingOutcome::Held);
    assert_accepted(&rt, &mut kernel, end(2), 21);
    // The call is over, and still named; the caller goes on.
    assert_accepted_it(&rt, &kernel, 2, None);
    assert_compacts(&rt, &mut kernel);
    assert_accepted_it(&rt, &kernel, 2, None);
    assert_outcome(&rt, &kernel, 3, LastingOutcome::Served);
    assert_accepted(&rt, &mut kernel, complete(3), 22);
    assert_compacts(&rt, &mut kernel);
    assert_outcome(&rt, &kernel, 3, LastingOutcome::Dead);
    Ok(())
}

#[test]
fn a_caller_is_told_until_its_rendezvous_ends(rt: HostRuntime) -> Result<(), Fail> {
    let mut kernel = LongKernel::new(rt.alloc(), LATE)?;
    start_to_call(&rt, &mut kernel);
    assert_accepted(&rt, &mut kernel, accept(2), 19);
    // Abnormal, it stays in its rendezvous (9.10).
    assert_accepted(&rt, &mut kernel, abort(MAIN, 3), 21);
    assert_compacts(&rt, &mut kernel);
    assert_accepted_it(&rt, &kernel, 2, Some(3));
    assert_accepted(&rt, &mut kernel, end(2), 22);
    assert_accepted_it(&rt, &kernel, 2, None);
    Ok(())
}

#[test]
fn who_calls_again_is_no_caller_of_a_call_that_is_over(rt: HostRuntime) -> Result<(), Fail> {
    let mut kernel = LongKernel::new(rt.alloc(), LATE)?;
    start_to_call(&rt, &mut kernel);
    assert_accepted(&rt, &mut kernel, accept(2), 19);
    assert_accepted(&rt, &mut kernel, end(2), 21);
    // Held up by a second call, it isn't in the first one's rendezvous.
    assert_accepted(&rt, &mut kernel, call(3, 2), 22);
    assert_outcome(&rt, &kernel, 3, LastingOutcome::Held);
    assert_accepted_it(&rt, &kernel, 2, None);
    assert_compacts(&rt, &mut kernel);
    assert_accepted_it(&rt, &kernel, 2, None);
    Ok(())
}

fn assert_count<R: Abort>(
    rt: &R,
    kernel: &LongKernel,
    by: u64,
    entry: Entry,
    wanted: Result<u16, NotDone>,
) {
    assert_eq!(rt; kernel.count(by, entry), wanted, "{by}");
}

fn assert_uncounted<R: Abort>(rt: &R, kernel: &LongKernel, by: u64, entry: Entry, cause: Refusal) {
    assert_count(rt, kernel, by, entry, Err(NotDone::Refused(cause)));
}

#[test]
fn count_is_that_of_the_task_that_is_named(rt: HostRuntime) -> Result<(), Fail> {
    let mut kernel = LongKernel::new(rt.alloc(), LATE)?;
    start_to_call(&rt, &mut kernel);
    assert_count(&rt, &kernel, 2, ENTRY, Ok(1));
    assert_uncounted(&rt, &kernel, 3, ENTRY, Refusal::NotRunning);
    assert_accepted(&rt, &mut kernel, accept(2), 19);
    assert_count(&rt, &kernel, 2, ENTRY, Ok(0));
    Ok(())
}

#[test]
fn count_is_refused_for_its_cause(rt: HostRuntime) -> Result<(), Fail> {
    let mut kernel = LongKernel::new(rt.alloc(), LATE)?;
    start_to_call(&rt, &mut kernel);
    let family = Entry {
        family: 1,
        index: 0,
    };
    let index = Entry {
        family: 0,
        index: 1,
    };
    assert_uncounted(&rt, &kernel, 2, family, Refusal::NoSuchFamily);
    assert_uncounted(&rt, &kernel, 2, index, Refusal::ConstraintError);
    // The main program has no entries.
    assert_uncounted(&rt, &kernel, MAIN, ENTRY, Refusal::NoSuchFamily);
    assert_count(&rt, &kernel, 1, ENTRY, Err(NotDone::GivenUp(1)));
    assert_uncounted(&rt, &kernel, 4, ENTRY, Refusal::UnknownTask);
    assert_uncounted(&rt, &kernel, u64::MAX, ENTRY, Refusal::UnknownTask);
    Ok(())
}

#[test]
fn it_has_finished_once_the_main_program_is_terminated(rt: HostRuntime) -> Result<(), Fail> {
    let mut kernel = LongKernel::new(rt.alloc(), LATE)?;
    start_to_call(&rt, &mut kernel);
    // With it the called task is halted, the call fails, and the task is gone.
    assert_accepted(&rt, &mut kernel, abort(MAIN, 2), 19);
    assert_outcome(&rt, &kernel, 3, LastingOutcome::TaskingError);
    assert!(&rt; !kernel.finished());
    assert_accepted(&rt, &mut kernel, complete(MAIN), 23);
    assert_compacts(&rt, &mut kernel);
    // Completed, the main program waits for task 3, which depends on it (9.4).
    assert_outcome(&rt, &kernel, MAIN, LastingOutcome::Done);
    assert!(&rt; !kernel.finished());
    assert_accepted(&rt, &mut kernel, complete(3), 24);
    assert!(&rt; kernel.finished());
    assert_compacts(&rt, &mut kernel);
    assert!(&rt; kernel.finished());
    Ok(())
}

fn assert_queued<R: Abort>(
    rt: &R,
    kernel: &LongKernel,
    task: u64,
    entry: Entry,
    wanted: Option<u16>,
) {
    assert_eq!(rt; kernel.queued(task, entry), wanted, "{task}");
}

// Task 3 has called task 2, and the main program calls it too. The main program has no entries.
#[test]
fn anybody_may_ask_how_many_calls_are_queued(rt: HostRuntime) -> Result<(), Fail> {
    let mut kernel = LongKernel::new(rt.alloc(), LATE)?;
    start_to_call(&rt, &mut kernel);
    assert_queued(&rt, &kernel, 2, ENTRY, Some(1));
    assert_queued(&rt, &kernel, 3, ENTRY, Some(0));
    assert_accepted(&rt, &mut kernel, call(MAIN, 2), 19);
    assert_compacts(&rt, &mut kernel);
    assert_queued(&rt, &kernel, 2, ENTRY, Some(2));
    assert_accepted(&rt, &mut kernel, accept(2), 20);
    assert_queued(&rt, &kernel, 2, ENTRY, Some(1));
    assert_queued(&rt, &kernel, MAIN, ENTRY, None);
    for task in UNNAMED {
        assert_queued(&rt, &kernel, task, ENTRY, None);
    }
    let outside = Entry { index: 1, ..ENTRY };
    assert_queued(&rt, &kernel, 2, outside, None);
    let undeclared = Entry { family: 1, ..ENTRY };
    assert_queued(&rt, &kernel, 2, undeclared, None);
    Ok(())
}
