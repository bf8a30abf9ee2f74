//! Parts of the event that a request becomes: the moments at which its durations are over (9.6, 9.7.1,
//! 9.7.3), and the position by which the end of a rendezvous and a close name the member that they leave.
ghost use Rattle.std.specs.Prelude.{◌≡◌, ◌≤◌, ◌&&◌, false, length, map, IfOk, IfErr};
ghost use Rattle.std.specs.List.{list_any};
ghost use Rattle.ada_events.specs.Asks as asks;
ghost use Rattle.ada_events.specs.Limits as limits;
ghost use Rattle.ada_events.specs.declared.names.Pause.{Pause as PauseValue};
ghost use Rattle.ada_events.specs.declared.limits.TheConstants.{MOST_DELAYS};
ghost use Rattle.ada_events.specs.Late.{is_late_tail, is_late_call};

use crate::{DueList, Dues, EventTail, Member, Patience, Pause, Refusal, Tail};
use std::alloc::Global;

/// The moment at which a duration from `now` on is over, both in milliseconds, where it isn't behind
/// the last moment (9.6). A negative duration counts as 0.
#[tactic(auto, unfolding(crate::specs::Asks::due_after))]
pub fn due_after(now: i64, duration: i64) -> i64
    ensures { limits.ends_too_late now duration ≡ false → result ≡ asks.due_after now duration }
{
    now.saturating_add(duration.max(0))
}

// The moment at which a delay alternative is due (9.7.1). A closed one has none.
fn pause_due(now: i64, pause: Pause) -> Option<i64>
    ensures { (pause.guard && limits.ends_too_late now pause.duration) ≡ false
        → result ≡ asks.pause_due now pause }
{
    if pause.guard {
        Some(due_after(now, pause.duration))
    } else {
        None
    }
}

// The moments at which delay alternatives are due.
fn pauses_due(now: i64, pauses: &[Pause]) -> Dues
    requires { length pauses.now ≤ MOST_DELAYS }
    ensures { list_any (λ (d : PauseValue). d.guard && limits.ends_too_late now d.duration)
        pauses.now ≡ false → result ≡ map (asks.pause_due now) pauses.now }
{
    let mut dues = Dues::new();
    for pause in pauses {
        dues.push(pause_due(now, *pause));
    }
    dues
}

/// A wait's tail with each open delay alternative's duration replaced by the moment at which it is over
/// (9.7.1), where none is behind the last moment.
///
/// # Errors
///
/// [`Refusal::OutOfMemory`].
pub fn asked_tail(alloc: Global, now: i64, tail: &Tail) -> Result<EventTail, Refusal>
    ensures ok { is_late_tail now tail.now ≡ false
        → IfOk result (λ made. made ≡ asks.asked_tail now tail.now) }
    ensures err { IfErr result (λ cause. cause ≡ Refusal.OutOfMemory) }
{
    match tail {
        Tail::Nothing => Ok(EventTail::Nothing),
        Tail::Otherwise => Ok(EventTail::Otherwise),
        Tail::Delays(pauses) => Ok(EventTail::Delays(DueList::new(
            alloc,
            pauses_due(now, pauses.as_slice()),
        )?)),
        Tail::Terminate(guard) => Ok(EventTail::Terminate(*guard)),
    }
}

/// The moment at which a timed call's patience is over, where it isn't behind the last moment; none for
/// another call (9.7.3).
pub fn call_due(now: i64, patience: Patience) -> Option<i64>
    ensures { is_late_call now patience ≡ false → result ≡ asks.call_due now patience }
{
    match patience {
        Patience::Timed(duration) => Some(due_after(now, duration)),
        _ => None,
    }
}

/// The position that a member of a nest goes by; 0, which is no position, where there is none.
pub fn member_position(member: Option<Member>) -> u32
    ensures { result ≡ asks.member_position member }
{
    match member {
        Some(Member::Block(position)) | Some(Member::Rendezvous(position)) => position,
        None => 0,
    }
}
