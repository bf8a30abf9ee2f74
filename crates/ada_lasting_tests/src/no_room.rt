//! Nests that are full, and kernels without room for a helper.

use crate::playing::check;
use ada_compact::{NotCompacted, compact};
use ada_events::limits::MOST_MEMBERS;
use ada_events::{Choice, Choices, Patience, Refusal, Request, Tail, TaskNo};
use ada_kernel::Kernel;
use ada_test_requests::{MAIN, SINGLE, accept, activate, call, create, end, entry, up};
use std::process::Abort;
use std::test::Fail;

const TASK: TaskNo = TaskNo(1);

/// A task with an entry, and another one.
fn make_two(kernel: &mut Kernel) -> Result<(), Fail> {
    kernel.step(create(0, MAIN, &[SINGLE]))?;
    kernel.step(create(0, MAIN, &[]))?;
    kernel.step(activate(0, 1, 2))?;
    kernel.step(up(1))?;
    kernel.step(up(2))?;
    Ok(())
}

fn open(kernel: &mut Kernel, blocks: usize) -> Result<(), Fail> {
    for _ in 0..blocks {
        kernel.step(Request::Open { by: TASK })?;
    }
    Ok(())
}

/// A wait that takes its else part at once.
fn take_else() -> Request {
    let choices = Choices::from_slice(&[Choice {
        guard: true,
        entry: entry(0),
    }]);
    Request::Wait {
        by: TASK,
        choices,
        tail: Tail::Otherwise,
        pick: 0,
    }
}

// The task takes an else part, and then enters a last block, in which it couldn't wait any more.
fn take_else_and_fill(kernel: &mut Kernel) -> Result<(), Fail> {
    make_two(kernel)?;
    open(kernel, MOST_MEMBERS - 1)?;
    kernel.step(take_else())?;
    open(kernel, 1)
}

// The task serves a call, and then enters a last block.
fn serve_and_fill(kernel: &mut Kernel) -> Result<(), Fail> {
    make_two(kernel)?;
    open(kernel, MOST_MEMBERS - 1)?;
    kernel.step(call(2, 1, 0))?;
    kernel.step(accept(1, 0))?;
    kernel.step(end(1, false))?;
    open(kernel, 1)
}

#[test]
fn full_nests(rt: HostRuntime) -> Result<(), Fail> {
    let mut kernel = Kernel::new(rt.alloc())?;
    take_else_and_fill(&mut kernel)?;
    check(&rt, &kernel, &[])?;
    let mut other = Kernel::new(rt.alloc())?;
    serve_and_fill(&mut other)?;
    check(&rt, &other, &[])
}

// 256 tasks live, all that there may be; the first that main made is up.
fn fill(kernel: &mut Kernel) -> Result<(), Fail> {
    for _ in 0..255u16 {
        kernel.step(create(0, MAIN, &[SINGLE]))?;
    }
    kernel.step(activate(0, 1, 1))?;
    kernel.step(up(1))?;
    Ok(())
}

// A conditional call, which isn't met.
fn call_in_vain() -> Request {
    Request::Call {
        by: TASK,
        callee: TaskNo(2),
        entry: entry(0),
        patience: Patience::Conditional,
    }
}

/// Why the kernel can't be compacted.
fn failure_of<R: AllocGlobal>(rt: &R, kernel: &Kernel) -> Option<NotCompacted> {
    match compact(rt.alloc(), kernel, &[]) {
        Ok(_) => None,
        Err(failure) => Some(failure),
    }
}

fn assert_failure<R: Abort + AllocGlobal>(rt: &R, kernel: &Kernel, failure: NotCompacted) {
    assert_eq!(rt; failure_of(rt, kernel), Some(failure));
}

// The outcome of a call that was cancelled takes a helper.
#[test]
fn no_room_for_a_helper(rt: HostRuntime) -> Result<(), Fail> {
    let mut kernel = Kernel::new(rt.alloc())?;
    fill(&mut kernel)?;
    check(&rt, &kernel, &[])?;
    kernel.step(call_in_vain())?;
    assert_failure(&rt, &kernel, NotCompacted::NoRoom(Refusal::TooManyTasks));
    Ok(())
}
