//! What a search counts, by hand, and how it ends early.

use crate::plain::AS_WRITTEN;
use ada_events::Refusal;
use ada_explore::{End, Finding, Halt, Progress, Space, Unwatched, Watch, explore};
use ada_script::read;
use std::alloc::Global;
use std::test::Fail;

// Three lines come one after another. Then Ann has two left and main has one, in any order: six states and seven steps.
// Ann's end is refused before main is completed, and after.
static ONE_REFUSAL: &[u8] = b"main: create Ann under main
main: activate Ann
Ann: up
Ann: end
main: complete
Ann: complete
";

// Three lines come one after another, then two of each server in any order: three states and nine, and three steps and
// twelve. Which server waits first makes no state of its own.
static TWO_SERVERS: &[u8] = b"main: create Ann under main Ask
main: create Bob under main Ask
main: activate Ann Bob
Ann: up
Bob: up
Ann: accept Ask
Bob: accept Ask
";

// Each task has all the entries that there are.
static LIMIT: &[u8] = b"main: create Big under main Door 0 1023
main: create More under main Door
main: complete
";

/// Who ends a search before its first step.
#[derive(Drop)]
struct Impatient;

impl Watch for Impatient {
    fn goes_on(&mut self, _progress: Progress) -> bool {
        false
    }
}

fn found_by<W: Watch>(
    alloc: Global,
    text: &[u8],
    most: u32,
    watch: &mut W,
) -> Result<Finding, Halt> {
    let script = read(alloc, text).map_err(|_| Halt::Memory)?;
    let space = Space::new(alloc, &script, AS_WRITTEN)?;
    explore(space, most, watch)
}

#[test]
fn counts_states_steps_and_refusals(rt: HostRuntime) -> Result<(), Fail> {
    let found = found_by(rt.alloc(), ONE_REFUSAL, u32::MAX, &mut Unwatched)?;
    assert_eq!(&rt; found.end, End::AllSeen);
    assert_eq!(&rt; (found.states, found.steps), (9, 10));
    assert_eq!(&rt; (found.stuck_states, found.short_states), (0, 0));
    let [refused] = found.refused.as_slice() else {
        return Err(Fail::new("not one line is refused"));
    };
    assert_eq!(&rt; (refused.place, refused.cause), (3, Refusal::NotInAccept));
    assert_eq!(&rt; refused.steps, 2);
    let places = refused.path.iter().map(|turn| turn.place());
    assert!(&rt; places.eq([Some(0), Some(1), Some(2), Some(3)]));
    Ok(())
}

#[test]
fn ends_early(rt: HostRuntime) -> Result<(), Fail> {
    let bound = found_by(rt.alloc(), ONE_REFUSAL, 2, &mut Unwatched)?;
    assert_eq!(&rt; (bound.end, bound.states, bound.steps), (End::Bound, 3, 2));
    let ended = found_by(rt.alloc(), ONE_REFUSAL, u32::MAX, &mut Impatient)?;
    assert_eq!(&rt; (ended.end, ended.states, ended.steps), (End::Ended, 1, 0));
    let limit = found_by(rt.alloc(), LIMIT, u32::MAX, &mut Unwatched)?;
    assert_eq!(&rt; limit.end, End::Limit(Refusal::TooManySlots));
    Ok(())
}

#[test]
fn counts_waits_in_either_order_once(rt: HostRuntime) -> Result<(), Fail> {
    let found = found_by(rt.alloc(), TWO_SERVERS, u32::MAX, &mut Unwatched)?;
    assert_eq!(&rt; (found.states, found.steps), (12, 15));
    Ok(())
}
