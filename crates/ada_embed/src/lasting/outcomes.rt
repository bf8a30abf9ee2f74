//! Outcomes of a kernel that lives on, in plain numbers.
ghost use Rattle.std.specs.Prelude.{◌≡◌};
ghost use Rattle.ada_border.specs.Outcomes as border;
ghost use Rattle.ada_embed.specs.internal.Outcomes as spec;

use ada_border::outcomes::{NOBODY, PlainOutcome, or_nobody};
use ada_lasting::LastingOutcome;

fn of_kind(kind: u32, number: u8) -> PlainOutcome
    ensures { result ≡ border.outcome kind number 0 }
{
    PlainOutcome {
        kind,
        number: u32::from(number),
        call: 0,
        caller: NOBODY,
    }
}

/// The outcome in plain numbers.
#[tactic(auto, unfolding(crate::specs::internal::Outcomes::plain_lasting_outcome))]
pub fn plain_lasting_outcome(outcome: LastingOutcome) -> PlainOutcome
    ensures { result ≡ spec.plain_lasting_outcome outcome }
{
    match outcome {
        LastingOutcome::Nothing => of_kind(0, 0),
        LastingOutcome::Dead => of_kind(1, 0),
        LastingOutcome::Done => of_kind(2, 0),
        LastingOutcome::Held => of_kind(3, 0),
        LastingOutcome::Served => of_kind(4, 0),
        LastingOutcome::TaskingError => of_kind(5, 0),
        LastingOutcome::Cancelled => of_kind(6, 0),
        LastingOutcome::Accepted {
            call,
            choice,
            caller,
        } => PlainOutcome {
            call,
            caller: or_nobody(caller),
            ..of_kind(7, choice)
        },
        LastingOutcome::TookElse => of_kind(8, 0),
        LastingOutcome::TookDelay(number) => of_kind(9, number),
        LastingOutcome::ProgramError => of_kind(10, 0),
        LastingOutcome::Awake => of_kind(11, 0),
        LastingOutcome::ActivationOk => of_kind(12, 0),
        LastingOutcome::ActivationFailed => of_kind(13, 0),
        LastingOutcome::BlockLeft => of_kind(14, 0),
        LastingOutcome::Raised => of_kind(15, 0),
    }
}
