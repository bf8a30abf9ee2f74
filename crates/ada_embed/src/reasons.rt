//! Why a task doesn't go on, in plain numbers.
ghost use Rattle.std.specs.Prelude.{◌≡◌};
ghost use Rattle.std.specs.Option.{option_map};
ghost use Rattle.ada_lasting.specs.Meaning.{meant_reason};
ghost use Rattle.ada_embed.specs.Reasons as spec;
ghost use Rattle.ada_embed.specs.Reasons.{AreReasonsReadBack};

use ada_lasting::LastingReason;
use ada_waiting::Reason;

/// Why a task doesn't go on: 0 if it does or is terminated, else the kind of its reason; and the position of the start,
/// call, wait, delay or close at which it is suspended, 0 if it isn't.
#[repr(C)]
#[derive(Clone, Copy, Debug, PartialEq, Eq)]
pub struct PlainReason {
    pub kind: u32,
    pub position: u64,
}

fn at(kind: u32, position: u64) -> PlainReason
    ensures { result ≡ spec.at kind position }
{
    PlainReason { kind, position }
}

/// The reason in plain numbers, or that there is none.
#[tactic(auto, unfolding(crate::specs::Reasons::plain_reason))]
pub fn plain_reason(reason: Option<Reason>) -> PlainReason
    ensures { result ≡ spec.plain_reason reason }
{
    match reason {
        None => at(0, 0),
        Some(Reason::NotStarted) => at(1, 0),
        Some(Reason::Activating { start }) => at(2, u64::from(start)),
        Some(Reason::Queued { call }) => at(3, u64::from(call)),
        Some(Reason::InRendezvous { call }) => at(4, u64::from(call)),
        Some(Reason::Waiting { wait }) => at(5, u64::from(wait)),
        Some(Reason::Delayed { pause }) => at(6, u64::from(pause)),
        Some(Reason::Leaving { close }) => at(7, u64::from(close)),
        Some(Reason::Completed) => at(8, 0),
    }
}

/// The reason in plain numbers, in names that last.
#[tactic(auto, unfolding(crate::specs::Reasons::plain_reason, ada_lasting::specs::Meaning::meant_reason))]
pub fn plain_lasting_reason(reason: Option<LastingReason>) -> PlainReason
    ensures { result ≡ spec.plain_reason (option_map meant_reason reason) }
{
    match reason {
        None => at(0, 0),
        Some(LastingReason::NotStarted) => at(1, 0),
        Some(LastingReason::Activating { start }) => at(2, start),
        Some(LastingReason::Queued { call }) => at(3, call),
        Some(LastingReason::InRendezvous { call }) => at(4, call),
        Some(LastingReason::Waiting { wait }) => at(5, wait),
        Some(LastingReason::Delayed { pause }) => at(6, pause),
        Some(LastingReason::Leaving { close }) => at(7, close),
        Some(LastingReason::Completed) => at(8, 0),
    }
}

/// A reason is told whole by its numbers.
#[tactic(auto, using(crate::proofs::ReadBack::reasons))]
pub fn reasons_are_read_back()
    ensures { AreReasonsReadBack }
{}
