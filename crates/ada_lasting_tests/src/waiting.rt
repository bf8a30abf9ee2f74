//! Why tasks of a kernel that lives on don't go on, and for whom they wait, once its journal was made shorter, by names
//! that last; and what can let it go on.

use crate::asking::{
    MAIN, MAIN_BODY, accept, assert_accepted, assert_compacts, assert_reason, complete, end,
    make_up, start_to_call,
};
use ada_lasting::{LastingReason, LastingRequest, LongKernel};
use ada_waiting::Verdict;
use std::process::Abort;
use std::test::Fail;

const LATE: u32 = 4096;

fn assert_verdict<R: Abort>(rt: &R, kernel: &LongKernel, wanted: Verdict) {
    assert_eq!(rt; kernel.verdict(), wanted);
}

fn delay(by: u64, duration: i64) -> LastingRequest {
    LastingRequest::Delay { by, duration }
}

// Task 3 called task 2 at 18, before the journal was made shorter.
#[test]
fn reasons_have_lasting_positions(rt: HostRuntime) -> Result<(), Fail> {
    let mut kernel = LongKernel::new(rt.alloc(), LATE)?;
    start_to_call(&rt, &mut kernel);
    let queued = Some(LastingReason::Queued { call: 18 });
    assert_reason(&rt, &kernel, 3, queued);
    assert_reason(&rt, &kernel, 2, None);
    // Given up, and never made.
    assert_reason(&rt, &kernel, 1, None);
    assert_reason(&rt, &kernel, 4, None);
    assert_accepted(&rt, &mut kernel, delay(MAIN, 5000), 19);
    let delayed = Some(LastingReason::Delayed { pause: 19 });
    assert_reason(&rt, &kernel, MAIN, delayed);
    assert_accepted(&rt, &mut kernel, accept(2), 20);
    assert_compacts(&rt, &mut kernel);
    let served = Some(LastingReason::InRendezvous { call: 18 });
    assert_reason(&rt, &kernel, 3, served);
    assert_reason(&rt, &kernel, MAIN, delayed);
    Ok(())
}

fn assert_awaited<R: Abort>(
    rt: &R,
    kernel: &LongKernel,
    task: u64,
    from: u64,
    wanted: Option<u64>,
) {
    assert_eq!(rt; kernel.first_awaited(task, from), wanted, "{task} {from}");
}

// Task 3 waits for task 2, which it called, and the main program for both, which depend on it.
#[test]
fn who_is_awaited_has_a_lasting_number(rt: HostRuntime) -> Result<(), Fail> {
    let mut kernel = LongKernel::new(rt.alloc(), LATE)?;
    start_to_call(&rt, &mut kernel);
    assert_accepted(&rt, &mut kernel, complete(MAIN), 19);
    assert_compacts(&rt, &mut kernel);
    for (from, wanted) in [
        (0, Some(2)),
        (1, Some(2)),
        (2, Some(2)),
        (3, None),
        (u64::MAX, None),
    ] {
        assert_awaited(&rt, &kernel, 3, from, wanted);
    }
    for (from, wanted) in [(0, Some(2)), (3, Some(3)), (4, None)] {
        assert_awaited(&rt, &kernel, MAIN, from, wanted);
    }
    // Task 2 runs, task 1 was given up, and task 4 never made.
    for task in [2, 1, 4] {
        assert_awaited(&rt, &kernel, task, 0, None);
    }
    Ok(())
}

#[test]
fn the_first_due_moment_outlives_a_shorter_journal(rt: HostRuntime) -> Result<(), Fail> {
    let mut kernel = LongKernel::new(rt.alloc(), LATE)?;
    start_to_call(&rt, &mut kernel);
    assert_eq!(&rt; kernel.next_due(), None);
    assert_accepted(&rt, &mut kernel, LastingRequest::Tick { now: 100 }, 19);
    assert_accepted(&rt, &mut kernel, delay(MAIN, 5000), 20);
    assert_compacts(&rt, &mut kernel);
    assert_eq!(&rt; kernel.moment(), 100);
    assert_eq!(&rt; kernel.next_due(), Some(5100));
    assert_verdict(&rt, &kernel, Verdict::GoesOn);
    assert_accepted(&rt, &mut kernel, delay(2, 1000), 21);
    assert_eq!(&rt; kernel.next_due(), Some(1100));
    assert_verdict(&rt, &kernel, Verdict::WaitsForTick { until: 1100 });
    Ok(())
}

// A task waits for a call, and the main program is completed and waits for the task.
#[test]
fn a_stuck_kernel_says_so(rt: HostRuntime) -> Result<(), Fail> {
    let mut kernel = LongKernel::new(rt.alloc(), LATE)?;
    make_up(&rt, &mut kernel, MAIN, MAIN_BODY, 1);
    assert_accepted(&rt, &mut kernel, accept(1), 5);
    assert_accepted(&rt, &mut kernel, complete(MAIN), 6);
    assert_compacts(&rt, &mut kernel);
    assert_verdict(&rt, &kernel, Verdict::Stuck);
    assert_reason(&rt, &kernel, MAIN, Some(LastingReason::Completed));
    assert_reason(&rt, &kernel, 1, Some(LastingReason::Waiting { wait: 5 }));
    Ok(())
}

// The server ends the rendezvous; then both tasks and the main program complete.
#[test]
fn a_kernel_that_has_finished_says_so(rt: HostRuntime) -> Result<(), Fail> {
    let mut kernel = LongKernel::new(rt.alloc(), LATE)?;
    start_to_call(&rt, &mut kernel);
    assert_accepted(&rt, &mut kernel, accept(2), 19);
    assert_accepted(&rt, &mut kernel, end(2), 21);
    assert_accepted(&rt, &mut kernel, complete(2), 22);
    assert_accepted(&rt, &mut kernel, complete(3), 24);
    assert_accepted(&rt, &mut kernel, complete(MAIN), 26);
    assert_verdict(&rt, &kernel, Verdict::Finished);
    Ok(())
}
