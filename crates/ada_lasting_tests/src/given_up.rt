//! Tasks that are given up: by a release, and when their masters are gone.

use crate::asking::{
    ENTRY, MAIN, MAIN_BODY, abort, accept, activate, assert_accepted, assert_compacts,
    assert_given_up, assert_refused, assert_release, assert_terminated, call, complete, create,
    live_and_end, live_in_a_block, make_up,
};
use ada_events::Refusal;
use ada_lasting::{LastingMaster, LastingRequest, LongKernel, NotDone};
use std::process::Abort;
use std::test::Fail;

const LATE: u32 = 4096;

#[test]
fn a_release_is_refused_for_who_never_was_the_main_program_and_who_lives(
    rt: HostRuntime,
) -> Result<(), Fail> {
    let mut kernel = LongKernel::new(rt.alloc(), LATE)?;
    assert_release(
        &rt,
        &mut kernel,
        1,
        Err(NotDone::Refused(Refusal::UnknownTask)),
    );
    assert_release(
        &rt,
        &mut kernel,
        MAIN,
        Err(NotDone::Refused(Refusal::MainTask)),
    );
    assert_accepted(&rt, &mut kernel, create(MAIN, MAIN_BODY), 1);
    assert_release(&rt, &mut kernel, 1, Err(NotDone::NotTerminated(1)));
    assert_release(
        &rt,
        &mut kernel,
        u64::MAX,
        Err(NotDone::Refused(Refusal::UnknownTask)),
    );
    Ok(())
}

// What names a task that was released.
fn assert_unnamed<R: Abort>(rt: &R, kernel: &mut LongKernel) {
    assert_release(rt, kernel, 1, Err(NotDone::GivenUp(1)));
    assert_given_up(rt, kernel, call(MAIN, 1), 1);
    assert_given_up(rt, kernel, abort(MAIN, 1), 1);
    assert_given_up(rt, kernel, activate(MAIN, 1), 1);
    assert_given_up(rt, kernel, create(MAIN, LastingMaster::Body(1)), 1);
    assert_given_up(rt, kernel, accept(1), 1);
    assert_given_up(rt, kernel, complete(1), 1);
    assert_terminated(rt, kernel, 1, None);
    assert_eq!(rt; kernel.count(1, ENTRY), Err(NotDone::GivenUp(1)));
}

#[test]
fn a_released_task_is_never_named_again(rt: HostRuntime) -> Result<(), Fail> {
    let mut kernel = LongKernel::new(rt.alloc(), LATE)?;
    live_and_end(&rt, &mut kernel, MAIN, MAIN_BODY, 1);
    assert_release(&rt, &mut kernel, 1, Ok(()));
    assert_unnamed(&rt, &mut kernel);
    assert_compacts(&rt, &mut kernel);
    assert_unnamed(&rt, &mut kernel);
    // Its number isn't given again: six events are before this one.
    assert_accepted(&rt, &mut kernel, create(MAIN, MAIN_BODY), 7);
    assert_terminated(&rt, &kernel, 2, Some(false));
    assert_unnamed(&rt, &mut kernel);
    Ok(())
}

#[test]
fn a_task_is_given_up_once_its_block_is_left(rt: HostRuntime) -> Result<(), Fail> {
    let mut kernel = LongKernel::new(rt.alloc(), LATE)?;
    assert_accepted(&rt, &mut kernel, LastingRequest::Open { by: MAIN }, 1);
    live_and_end(&rt, &mut kernel, MAIN, LastingMaster::Block(1), 2);
    assert_compacts(&rt, &mut kernel);
    assert_terminated(&rt, &kernel, 1, Some(true));
    // An abort of a terminated task is accepted.
    assert_accepted(&rt, &mut kernel, abort(MAIN, 1), 8);
    assert_accepted(&rt, &mut kernel, LastingRequest::Close { by: MAIN }, 9);
    assert_terminated(&rt, &kernel, 1, Some(true));
    assert_compacts(&rt, &mut kernel);
    assert_terminated(&rt, &kernel, 1, None);
    assert_given_up(&rt, &mut kernel, abort(MAIN, 1), 1);
    // The block was left at 10.
    assert_accepted(&rt, &mut kernel, LastingRequest::Open { by: MAIN }, 11);
    Ok(())
}

#[test]
fn a_task_is_given_up_once_its_master_terminates(rt: HostRuntime) -> Result<(), Fail> {
    let mut kernel = LongKernel::new(rt.alloc(), LATE)?;
    make_up(&rt, &mut kernel, MAIN, MAIN_BODY, 1);
    live_and_end(&rt, &mut kernel, 1, LastingMaster::Body(1), 5);
    assert_compacts(&rt, &mut kernel);
    assert_terminated(&rt, &kernel, 2, Some(true));
    assert_accepted(&rt, &mut kernel, complete(1), 11);
    assert_compacts(&rt, &mut kernel);
    assert_terminated(&rt, &kernel, 2, None);
    // Its own master, the main program, lives.
    assert_terminated(&rt, &kernel, 1, Some(true));
    Ok(())
}

#[test]
fn a_task_is_given_up_once_its_block_ended_with_the_task_that_opened_it(
    rt: HostRuntime,
) -> Result<(), Fail> {
    let mut kernel = LongKernel::new(rt.alloc(), LATE)?;
    make_up(&rt, &mut kernel, MAIN, MAIN_BODY, 1);
    assert_accepted(&rt, &mut kernel, LastingRequest::Open { by: 1 }, 5);
    live_and_end(&rt, &mut kernel, 1, LastingMaster::Block(5), 6);
    assert_compacts(&rt, &mut kernel);
    assert_terminated(&rt, &kernel, 2, Some(true));
    assert_accepted(&rt, &mut kernel, abort(MAIN, 1), 12);
    assert_terminated(&rt, &kernel, 1, Some(true));
    assert_compacts(&rt, &mut kernel);
    assert_terminated(&rt, &kernel, 2, None);
    assert_terminated(&rt, &kernel, 1, Some(true));
    Ok(())
}

// The journal has nine events, the number from which on it is made shorter before the next request.
fn begin_due<R: Abort>(rt: &R, kernel: &mut LongKernel) {
    live_in_a_block(rt, kernel);
    assert_eq!(rt; kernel.kept(), 9);
    assert_terminated(rt, kernel, 1, Some(true));
}

// The journal was made shorter, and task 1 given up, but nothing happened: the next event is at 10.
fn assert_shorter<R: Abort>(rt: &R, kernel: &mut LongKernel) {
    assert!(rt; kernel.kept() < 9);
    assert_eq!(rt; kernel.events(), 0);
    assert_terminated(rt, kernel, 1, None);
    assert_accepted(rt, kernel, LastingRequest::Open { by: MAIN }, 10);
}

#[test]
fn a_refused_request_may_give_tasks_up(rt: HostRuntime) -> Result<(), Fail> {
    let mut kernel = LongKernel::new(rt.alloc(), 9)?;
    begin_due(&rt, &mut kernel);
    assert_refused(&rt, &mut kernel, complete(2), Refusal::UnknownTask);
    assert_shorter(&rt, &mut kernel);
    Ok(())
}

#[test]
fn a_request_may_give_up_the_very_task_that_it_names(rt: HostRuntime) -> Result<(), Fail> {
    let mut kernel = LongKernel::new(rt.alloc(), 9)?;
    begin_due(&rt, &mut kernel);
    assert_given_up(&rt, &mut kernel, abort(MAIN, 1), 1);
    assert_shorter(&rt, &mut kernel);
    // Here the journal isn't due yet, and an abort of a terminated task is accepted.
    let mut kernel = LongKernel::new(rt.alloc(), 10)?;
    begin_due(&rt, &mut kernel);
    assert_accepted(&rt, &mut kernel, abort(MAIN, 1), 10);
    Ok(())
}
