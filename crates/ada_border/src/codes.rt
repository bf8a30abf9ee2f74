//! The codes of answers: 0 for an accepted request, below 100 for causes of refusals, and from 100 for bad numbers. A
//! code never changes, since hosts are compiled with it: a new cause takes the next one, wherever it is checked.
ghost use Rattle.std.specs.Prelude.{◌≡◌};
ghost use Rattle.ada_border.specs.Codes.{refusal_code as code_of_refusal, bad_code as code_of_bad};

use crate::Bad;
use ada_events::Refusal;

/// The code of an accepted request.
pub const ACCEPTED: i32 = 0;

/// The code of a refusal.
pub fn refusal_code(cause: Refusal) -> i32
    ensures { result ≡ code_of_refusal cause }
{
    match cause {
        Refusal::UnknownTask => 1,
        Refusal::NotRunning => 2,
        Refusal::DuringActivation => 3,
        Refusal::NotActivating => 4,
        Refusal::NotYourMaster => 5,
        Refusal::EmptyList => 6,
        Refusal::NotYourTask => 7,
        Refusal::NoAccept => 8,
        Refusal::NoSuchFamily => 9,
        Refusal::ConstraintError => 10,
        Refusal::SameFamilyNested => 11,
        Refusal::TerminateInAccept => 12,
        Refusal::NotInAccept => 13,
        Refusal::NoBlock => 14,
        Refusal::StillNested => 15,
        Refusal::MainTask => 16,
        Refusal::MomentBack => 17,
        Refusal::MomentTooLarge => 18,
        Refusal::TooManyTasks => 19,
        Refusal::TooManySlots => 20,
        Refusal::TooDeep => 21,
        Refusal::JournalFull => 22,
        Refusal::OutOfMemory => 23,
    }
}

/// The code of bad numbers.
pub fn bad_code(bad: Bad) -> i32
    ensures { result ≡ code_of_bad bad }
{
    match bad {
        Bad::TooLong => 100,
        Bad::NoSuchKind => 101,
        Bad::OutOfRange => 102,
        Bad::NoSuchEvent => 103,
        Bad::NoSuchItem => 104,
        Bad::NoSuchTask => 105,
        Bad::NoSuchEntry => 106,
    }
}
