//! Whether two kernels that live on keep the same.

use crate::asking::{
    MAIN, MAIN_BODY, accept, assert_accepted, assert_compacts, assert_refused, assert_release,
    call, live_and_end, start_to_call,
};
use ada_events::Refusal;
use ada_lasting::LongKernel;
use std::process::Abort;
use std::test::Fail;

fn assert_same<R: Abort>(rt: &R, kernel: &LongKernel, other: &LongKernel, same: bool) {
    assert_eq!(rt; kernel.keeps_the_same(other), same);
    assert_eq!(rt; other.keeps_the_same(kernel), same);
}

// A request that is accepted makes the difference, and one that is refused makes none.
#[test]
fn who_was_asked_the_same_keeps_the_same(rt: HostRuntime) -> Result<(), Fail> {
    let mut kernel = LongKernel::new(rt.alloc(), 4096)?;
    let mut other = LongKernel::new(rt.alloc(), 8192)?;
    start_to_call(&rt, &mut kernel);
    assert_same(&rt, &kernel, &other, false);
    start_to_call(&rt, &mut other);
    assert_same(&rt, &kernel, &other, true);
    assert_accepted(&rt, &mut kernel, accept(2), 19);
    assert_same(&rt, &kernel, &other, false);
    assert_accepted(&rt, &mut other, accept(2), 19);
    assert_refused(&rt, &mut other, call(3, 2), Refusal::NotRunning);
    assert_same(&rt, &kernel, &other, true);
    Ok(())
}

// Task 1 lives and ends, and keeps its name when the journal is made shorter, since its master lives.
fn live_end_and_compact<R: Abort>(rt: &R, kernel: &mut LongKernel) {
    live_and_end(rt, kernel, MAIN, MAIN_BODY, 1);
    assert_compacts(rt, kernel);
}

// The journals are the same, and neither kernel shows events; the one has a name more.
#[test]
fn a_name_that_was_given_up_makes_a_difference(rt: HostRuntime) -> Result<(), Fail> {
    let mut kernel = LongKernel::new(rt.alloc(), 4096)?;
    let mut other = LongKernel::new(rt.alloc(), 4096)?;
    live_end_and_compact(&rt, &mut kernel);
    live_end_and_compact(&rt, &mut other);
    assert_same(&rt, &kernel, &other, true);
    assert_release(&rt, &mut kernel, 1, Ok(()));
    assert_same(&rt, &kernel, &other, false);
    assert_release(&rt, &mut other, 1, Ok(()));
    assert_same(&rt, &kernel, &other, true);
    Ok(())
}
