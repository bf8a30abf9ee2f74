//! What is found of scripts if time passes late: to the first moment for which a task waits, where nobody can act.

use crate::plain::AS_WRITTEN;
use crate::random::first_differing;
use ada_explore::{Finding, Freedom, Halt, Picks, Space, Time, Turn, Unwatched, explore};
use ada_script::read;
use ada_test_requests::Dice;
use std::alloc::Global;
use std::test::Fail;

static LATE: Freedom = Freedom {
    picks: Picks::AsWritten,
    time: Time::Late,
};

// By hand: the beginning, the creation, the activation, during which the main program waits, and T is up; then T is in
// its delay or not, and the main program completed or not: seven states. As it is written the schedules stop where both
// are so. Late, time passes there alone, to 5: T goes on, is in its second delay, goes on at 12, and completes.
static TWO_DELAYS: &[u8] = b"main: create T under main
main: activate T
T: up
T: delay 5
T: delay 7
T: complete
main: complete
";

// S waits until 10, so the call of C comes to nothing at 5, and S waits for another one for good. By hand: two
// creations, the activation, both are up, the delay, the call, `main: complete`, time to 5, C completes, time to 10,
// and S accepts. A tick to 10 that is written does both at once, in one step less.
static TOO_SLOW: &[u8] = b"main: create S under main E
main: create C under main
main: activate S C
S: up
C: up
S: delay 10
C: call S E within 5
C: complete
S: accept E
S: end
S: complete
main: complete
tick 10
";

fn found_in(alloc: Global, text: &[u8], freedom: Freedom) -> Result<Finding, Halt> {
    let script = read(alloc, text).map_err(|_| Halt::Memory)?;
    let space = Space::new(alloc, &script, freedom)?;
    explore(space, u32::MAX, &mut Unwatched)
}

#[test]
fn passes_where_no_tick_is_left(rt: HostRuntime) -> Result<(), Fail> {
    let written = found_in(rt.alloc(), TWO_DELAYS, AS_WRITTEN)?;
    assert_eq!(&rt; (written.covered, written.short_states), (Some(7), 1));
    let late = found_in(rt.alloc(), TWO_DELAYS, LATE)?;
    assert_eq!(&rt; (late.covered, late.short_states), (Some(11), 0));
    Ok(())
}

fn stuck_in(alloc: Global, text: &[u8], freedom: Freedom) -> Result<Vec<Turn>, Halt> {
    let found = found_in(alloc, text, freedom)?;
    found.stuck.ok_or(Halt::NoChoice)
}

#[test]
fn stops_at_each_moment(rt: HostRuntime) -> Result<(), Fail> {
    let path = stuck_in(rt.alloc(), TOO_SLOW, LATE)?;
    let passes = path.iter().filter(|turn| **turn == Turn::Time).count();
    assert_eq!(&rt; (path.len(), passes), (12, 2));
    assert_eq!(&rt; path.get(8), Some(&Turn::Time));
    let written = stuck_in(rt.alloc(), TOO_SLOW, AS_WRITTEN)?;
    assert_eq!(&rt; written.len(), 11);
    Ok(())
}

#[test]
fn finds_the_same_late(rt: HostRuntime) -> Result<(), Fail> {
    let differing = first_differing(rt.alloc(), &mut Dice::new(6), LATE)?;
    assert_eq!(&rt; differing.as_str(), "");
    Ok(())
}
