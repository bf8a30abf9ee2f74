//! Outcomes in plain numbers.
ghost use Rattle.std.specs.Prelude.{◌≡◌};
ghost use Rattle.ada_border.specs.Outcomes as spec;

use ada_events::Outcome;

/// The number that stands for no task.
pub const NOBODY: u64 = u64::MAX;

/// What became of a task's latest doing: its kind; the number of the alternative that was taken, from 0; the position
/// of the call that was accepted; and who made that, or [`NOBODY`]. What a kind has no use for is 0.
#[repr(C)]
#[derive(Clone, Copy, Debug, PartialEq, Eq)]
pub struct PlainOutcome {
    pub kind: u32,
    pub number: u32,
    pub call: u64,
    pub caller: u64,
}

fn of_kind(kind: u32, number: u8, call: u32) -> PlainOutcome
    ensures { result ≡ spec.outcome kind number call }
{
    PlainOutcome {
        kind,
        number: u32::from(number),
        call: u64::from(call),
        caller: NOBODY,
    }
}

/// The number of a task, or [`NOBODY`].
pub fn or_nobody(task: Option<u64>) -> u64
    ensures { result ≡ spec.or_nobody task }
{
    task.unwrap_or(NOBODY)
}

/// The outcome in plain numbers, with the caller of the call that was accepted, if it is told.
#[tactic(auto, unfolding(crate::specs::Outcomes::plain_outcome))]
pub fn plain_outcome(outcome: Outcome, caller: Option<u64>) -> PlainOutcome
    ensures { result ≡ spec.plain_outcome outcome caller }
{
    match outcome {
        Outcome::Nothing => of_kind(0, 0, 0),
        Outcome::Dead => of_kind(1, 0, 0),
        Outcome::Done => of_kind(2, 0, 0),
        Outcome::Held => of_kind(3, 0, 0),
        Outcome::Served => of_kind(4, 0, 0),
        Outcome::TaskingError => of_kind(5, 0, 0),
        Outcome::Cancelled => of_kind(6, 0, 0),
        Outcome::Accepted { call, choice } => PlainOutcome {
            caller: or_nobody(caller),
            ..of_kind(7, choice, call)
        },
        Outcome::TookElse => of_kind(8, 0, 0),
        Outcome::TookDelay(number) => of_kind(9, number, 0),
        Outcome::ProgramError => of_kind(10, 0, 0),
        Outcome::Awake => of_kind(11, 0, 0),
        Outcome::ActivationOk => of_kind(12, 0, 0),
        Outcome::ActivationFailed => of_kind(13, 0, 0),
        Outcome::BlockLeft => of_kind(14, 0, 0),
        Outcome::Raised => of_kind(15, 0, 0),
    }
}
