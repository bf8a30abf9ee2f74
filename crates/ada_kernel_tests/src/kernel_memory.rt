//! The kernel's calls that may want memory, where there is memory.

use crate::asserts::{assert_accepted, assert_events};
use ada_events::{Request, TaskNo};
use ada_kernel::Kernel;
use ada_test_requests::{MAIN, SINGLE, abort, accept, activate, call, complete, create, end, up};
use std::process::Abort;
use std::test::Fail;

const MAIN_TASK: TaskNo = TaskNo(0);

// A server is called by the main program within a block: five requests, whose events are at 1, 2, 3 (and the
// activation's end at 4), 5, 6 and 7 (and their meeting at 8), and the rendezvous' end at 9.
fn a_rendezvous_is_accepted<R: Abort>(rt: &R, kernel: &mut Kernel) {
    assert_accepted(rt, kernel, create(0, MAIN, &[SINGLE]), 1);
    assert_accepted(rt, kernel, activate(0, 1, 1), 2);
    assert_accepted(rt, kernel, up(1), 3);
    assert_accepted(rt, kernel, Request::Open { by: MAIN_TASK }, 5);
    assert_accepted(rt, kernel, call(0, 1, 0), 6);
    assert_accepted(rt, kernel, accept(1, 0), 7);
    assert_accepted(rt, kernel, end(1, false), 9);
}

// Each kind of request is accepted: a pause ends at 12, the block is left at 14, the server is halted and gone at 16
// and 17, and the main program at 19.
fn the_rest_is_accepted<R: Abort>(rt: &R, kernel: &mut Kernel) {
    let pause = Request::Delay {
        by: MAIN_TASK,
        duration: 5,
    };
    assert_accepted(rt, kernel, pause, 10);
    assert_accepted(rt, kernel, Request::Tick { now: 5 }, 11);
    assert_accepted(rt, kernel, Request::Close { by: MAIN_TASK }, 13);
    assert_accepted(rt, kernel, abort(0, 1, 1), 15);
    assert_accepted(rt, kernel, complete(0), 18);
    assert_events(rt, kernel, 19);
    assert!(rt; kernel.finished());
}

#[test]
fn always_out_of_memory(rt: HostRuntime) -> Result<(), Fail> {
    let mut kernel = Kernel::new(rt.alloc())?;
    a_rendezvous_is_accepted(&rt, &mut kernel);
    the_rest_is_accepted(&rt, &mut kernel);
    Ok(())
}
