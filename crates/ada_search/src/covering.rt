//! The check of what all schedules of a program come to: a search in breadth first whose merging is checked. A state is
//! taken for one that was met only if that stands in for it, so what was met at the end covers whatever any schedule
//! comes to.

ghost use Rattle.std.specs.Prelude.{IfOk, IfSome};
ghost use Rattle.ada_search.specs.Findings.{NoneGetsStuck, StaysWell};

use crate::check::Check;
use crate::states::States;
use crate::watch::LOOK;
use crate::{Halt, NotStuck, Schedules, Watch, Wish};
use std::alloc::Global;

// Whether whoever watches ends the search, before it goes on from a state.
fn is_ended<Choice: Copy, W: Watch>(states: &States<Choice>, state: u32, watch: &mut W) -> bool {
    state % LOOK == 0 && !watch.goes_on(states.progress(state))
}

/// How many states cover all that schedules come to when they go on from one, if each of them is as is wanted: then so
/// is whatever they come to. None if that isn't found: a state isn't so, there are more states than so many, or whoever
/// watches ends the search. An `Err` is a limit of the kernel or want of memory, or says that this isn't a schedule of
/// the program.
pub fn stays_well<S: Schedules, P: Wish<S>, W: Watch>(
    alloc: Global,
    space: &S,
    start: &[S::Choice],
    wish: &P,
    most: u32,
    watch: &mut W,
) -> Result<Option<u32>, Halt>
    ensures { IfOk result (λ found. IfSome found (λ states.
        StaysWell (S.told space.now) (P.well wish.now space.now) start.now)) }
{
    space.speaks();
    wish.is_kept(space);
    let check = Check::new(alloc, space)?;
    let Some(mut states) = check.begin_at(start)? else {
        return Ok(None);
    };
    for state in 0..most {
        if state as usize >= states.count() {
            return Ok(Some(state));
        }
        if is_ended(&states, state, watch)
            || !check.go_on_from(wish, &mut states, state as usize)?
        {
            return Ok(None);
        }
    }
    if states.count() <= most as usize {
        return Ok(Some(most));
    }
    Ok(None)
}

/// How many states cover all that schedules of a program come to, if none of them is stuck: then no schedule gets
/// stuck, however long. None and an `Err` as of [`stays_well`].
pub fn covered_by<S: Schedules, W: Watch>(
    alloc: Global,
    space: &S,
    most: u32,
    watch: &mut W,
) -> Result<Option<u32>, Halt>
    ensures { IfOk result (λ found. IfSome found (λ states. NoneGetsStuck (S.told space.now))) }
{
    stays_well(alloc, space, &[], &NotStuck, most, watch)
}
