//! A kernel that lives on, by a clock of its host's: a tick comes only if something is due, and durations count from
//! the moment of the request.

use crate::asking::MAIN;
use ada_events::Refusal;
use ada_lasting::{LastingRequest, LongKernel, NotDone};
use std::process::Abort;
use std::test::Fail;

const LATE: u32 = 4096;

fn open() -> LastingRequest {
    LastingRequest::Open { by: MAIN }
}

fn delay(duration: i64) -> LastingRequest {
    LastingRequest::Delay { by: MAIN, duration }
}

fn assert_at<R: Abort>(
    rt: &R,
    kernel: &mut LongKernel,
    now: i64,
    request: LastingRequest,
    wanted: Result<u64, NotDone>,
) {
    assert_eq!(rt; kernel.step_at(now, request), wanted, "{now}");
}

// The kernel's moment, and how many events there are.
fn assert_clock<R: Abort>(rt: &R, kernel: &LongKernel, moment: i64, events: u32) {
    assert_eq!(rt; kernel.moment(), moment);
    assert_eq!(rt; kernel.kept(), events);
}

fn assert_due<R: Abort>(rt: &R, kernel: &LongKernel, due: i64) {
    assert_eq!(rt; kernel.next_due(), Some(due));
}

// A delay of 10 that is asked at 5 ends at 15, with no tick before it; at 20 the tick that ends it comes at 2, the end
// of the delay at 3.
#[test]
fn a_tick_comes_if_something_is_due(rt: HostRuntime) -> Result<(), Fail> {
    let mut kernel = LongKernel::new(rt.alloc(), LATE)?;
    assert_at(&rt, &mut kernel, 5, delay(10), Ok(1));
    assert_clock(&rt, &kernel, 0, 1);
    assert_due(&rt, &kernel, 15);
    let waits = Err(NotDone::Refused(Refusal::NotRunning));
    assert_at(&rt, &mut kernel, 14, open(), waits);
    assert_clock(&rt, &kernel, 0, 1);
    assert_at(&rt, &mut kernel, 20, open(), Ok(4));
    assert_clock(&rt, &kernel, 20, 4);
    Ok(())
}

// A delay of less than 0 that is asked at 25 is over at once: the tick comes at 1, the delay at 2, its end at 3.
#[test]
fn a_delay_may_be_over_at_once(rt: HostRuntime) -> Result<(), Fail> {
    let mut kernel = LongKernel::new(rt.alloc(), LATE)?;
    assert_at(&rt, &mut kernel, 25, delay(-3), Ok(2));
    assert_clock(&rt, &kernel, 25, 3);
    // At the kernel's own moment no tick is needed.
    assert_at(&rt, &mut kernel, 25, delay(0), Ok(4));
    assert_clock(&rt, &kernel, 25, 5);
    Ok(())
}

#[test]
fn a_clock_goes_forward(rt: HostRuntime) -> Result<(), Fail> {
    let mut kernel = LongKernel::new(rt.alloc(), LATE)?;
    assert_at(&rt, &mut kernel, 25, delay(0), Ok(2));
    let back = Err(NotDone::Refused(Refusal::MomentBack));
    assert_at(&rt, &mut kernel, 24, open(), back);
    assert_at(&rt, &mut kernel, i64::MIN, open(), back);
    assert_clock(&rt, &kernel, 25, 3);
    // The longest duration ends after the last moment, from whatever moment it counts.
    let late = Err(NotDone::Refused(Refusal::MomentTooLarge));
    assert_at(&rt, &mut kernel, 26, delay(i64::MAX), late);
    assert_clock(&rt, &kernel, 25, 3);
    Ok(())
}
