//! Who began to run and who was terminated by the last request to a kernel that lives on, once its journal was made
//! shorter, by numbers that last.

use crate::asking::{
    ENTRY, MAIN, accept, assert_accepted, assert_compacts, assert_refused, assert_release,
    complete, end, make_up, start_to_call,
};
use ada_events::{Choice, Choices, Refusal, Tail};
use ada_lasting::{LastingMaster, LastingRequest, LongKernel};
use std::process::Abort;
use std::test::Fail;

const LATE: u32 = 4096;

// From each of these numbers on, this task is the first that began to run.
fn assert_began<R: Abort>(rt: &R, kernel: &LongKernel, wanted: &[(u64, Option<u64>)]) {
    for (from, first) in wanted {
        assert_eq!(rt; kernel.first_runnable(*from), *first, "{from}");
    }
}

fn delay(by: u64, duration: i64) -> LastingRequest {
    LastingRequest::Delay { by, duration }
}

// Task 3 has called task 2. It runs again when the rendezvous is over, and task 2 ran all the time.
#[test]
fn a_caller_runs_again_by_its_lasting_number(rt: HostRuntime) -> Result<(), Fail> {
    let mut kernel = LongKernel::new(rt.alloc(), LATE)?;
    start_to_call(&rt, &mut kernel);
    assert_began(&rt, &kernel, &[(0, None)]);
    assert_accepted(&rt, &mut kernel, accept(2), 19);
    assert_began(&rt, &kernel, &[(0, None)]);
    assert_accepted(&rt, &mut kernel, end(2), 21);
    let caller = [(0, Some(3)), (3, Some(3)), (4, None), (u64::MAX, None)];
    assert_began(&rt, &kernel, &caller);
    // A refused request has appended nothing.
    assert_refused(&rt, &mut kernel, end(2), Refusal::NotInAccept);
    assert_began(&rt, &kernel, &caller);
    assert_compacts(&rt, &mut kernel);
    assert_began(&rt, &kernel, &[(0, None)]);
    Ok(())
}

// Tasks 2 and 3 are delayed until the same moment, and a tick wakes both.
#[test]
fn all_whom_a_tick_wakes_began_to_run(rt: HostRuntime) -> Result<(), Fail> {
    let mut kernel = LongKernel::new(rt.alloc(), LATE)?;
    start_to_call(&rt, &mut kernel);
    assert_accepted(&rt, &mut kernel, accept(2), 19);
    assert_accepted(&rt, &mut kernel, end(2), 21);
    assert_accepted(&rt, &mut kernel, delay(2, 1000), 22);
    assert_accepted(&rt, &mut kernel, delay(3, 1000), 23);
    assert_compacts(&rt, &mut kernel);
    assert_accepted(&rt, &mut kernel, LastingRequest::Tick { now: 1000 }, 24);
    let both = [(0, Some(2)), (2, Some(2)), (3, Some(3)), (4, None)];
    assert_began(&rt, &kernel, &both);
    Ok(())
}

// The main program waits for task 1 in the block that it closed, and runs once that is terminated.
#[test]
fn nobody_began_to_run_by_a_release(rt: HostRuntime) -> Result<(), Fail> {
    let mut kernel = LongKernel::new(rt.alloc(), LATE)?;
    assert_accepted(&rt, &mut kernel, LastingRequest::Open { by: MAIN }, 1);
    make_up(&rt, &mut kernel, MAIN, LastingMaster::Block(1), 2);
    assert_began(&rt, &kernel, &[(0, Some(MAIN)), (1, None)]);
    assert_accepted(&rt, &mut kernel, LastingRequest::Close { by: MAIN }, 6);
    assert_began(&rt, &kernel, &[(0, None)]);
    assert_accepted(&rt, &mut kernel, complete(1), 7);
    assert_began(&rt, &kernel, &[(0, Some(MAIN)), (1, None)]);
    assert_release(&rt, &mut kernel, 1, Ok(()));
    assert_began(&rt, &kernel, &[(0, None)]);
    Ok(())
}

// From each of these numbers on, this task is the first that was terminated.
fn assert_ended<R: Abort>(rt: &R, kernel: &LongKernel, wanted: &[(u64, Option<u64>)]) {
    for (from, first) in wanted {
        assert_eq!(rt; kernel.first_terminated(*from), *first, "{from}");
    }
}

// A wait for a call, or for the end of what the task depends on (9.7.1).
fn accept_or_terminate(by: u64) -> LastingRequest {
    LastingRequest::Wait {
        by,
        choices: Choices::from_slice(&[Choice {
            guard: true,
            entry: ENTRY,
        }]),
        tail: Tail::Terminate(true),
        pick: 0,
    }
}

// Tasks 1, 2 and 3 depend on the block that the main program opened; task 1 ends by itself.
fn start_in_a_block<R: Abort>(rt: &R, kernel: &mut LongKernel) {
    assert_accepted(rt, kernel, LastingRequest::Open { by: MAIN }, 1);
    for at in [2, 6, 10] {
        make_up(rt, kernel, MAIN, LastingMaster::Block(1), at);
    }
    assert_ended(rt, kernel, &[(0, None)]);
    assert_accepted(rt, kernel, complete(1), 14);
}

// Tasks 2 and 3 end together when the main program closes the block, and task 1 isn't told again.
#[test]
fn who_ends_by_himself_and_who_with_others(rt: HostRuntime) -> Result<(), Fail> {
    let mut kernel = LongKernel::new(rt.alloc(), LATE)?;
    start_in_a_block(&rt, &mut kernel);
    assert_ended(&rt, &kernel, &[(0, Some(1)), (1, Some(1)), (2, None)]);
    assert_accepted(&rt, &mut kernel, accept_or_terminate(2), 16);
    assert_ended(&rt, &kernel, &[(0, None)]);
    assert_accepted(&rt, &mut kernel, accept_or_terminate(3), 17);
    assert_accepted(&rt, &mut kernel, LastingRequest::Close { by: MAIN }, 18);
    let both = [(0, Some(2)), (2, Some(2)), (3, Some(3)), (4, None)];
    assert_ended(&rt, &kernel, &both);
    // A refused request has appended nothing.
    assert_refused(&rt, &mut kernel, complete(2), Refusal::NotRunning);
    assert_ended(&rt, &kernel, &both);
    assert_accepted(&rt, &mut kernel, complete(MAIN), 21);
    assert_ended(&rt, &kernel, &[(0, Some(MAIN)), (1, None)]);
    Ok(())
}

#[test]
fn who_ended_before_it_was_made_shorter_is_not_told(rt: HostRuntime) -> Result<(), Fail> {
    let mut kernel = LongKernel::new(rt.alloc(), LATE)?;
    start_in_a_block(&rt, &mut kernel);
    assert_compacts(&rt, &mut kernel);
    assert_ended(&rt, &kernel, &[(0, None)]);
    assert_accepted(&rt, &mut kernel, complete(3), 16);
    assert_ended(&rt, &kernel, &[(0, Some(3)), (4, None)]);
    assert_release(&rt, &mut kernel, 1, Ok(()));
    assert_ended(&rt, &kernel, &[(0, None)]);
    assert_accepted(&rt, &mut kernel, complete(2), 18);
    assert_ended(&rt, &kernel, &[(0, Some(2)), (3, None)]);
    Ok(())
}
