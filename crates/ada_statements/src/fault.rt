//! Why a text is no script.

ghost use Rattle.std.specs.Prelude.{◌≡◌};
ghost use Rattle.ada_statements.specs.declared.fault.Cause.TheVariants.{OutOfMemory};

use std::alloc::{AllocError, AllocFailed};
use thiserror::Error;

/// What is wrong with the first faulty line of a script.
#[derive(Clone, Copy, Debug, PartialEq, Eq, Error)]
pub enum Cause {
    /// A byte outside 32 to 126.
    #[error("NotAscii")]
    NotAscii,
    /// More than 200 bytes.
    #[error("LineTooLong")]
    LineTooLong,
    /// The words aren't those of any statement.
    #[error("BadStatement")]
    BadStatement,
    /// A word that stands for a number isn't the one spelling of a number in its range.
    #[error("BadNumber")]
    BadNumber,
    /// A name that no line before declares for this use.
    #[error("UnknownName")]
    UnknownName,
    /// A name that is declared a second time.
    #[error("DoubleName")]
    DoubleName,
    /// There is a line 4,097.
    #[error("TooManyLines")]
    TooManyLines,
    /// A growth was refused.
    #[error("OutOfMemory")]
    OutOfMemory,
}

impl From<AllocError> for Cause {
    ghost from_gives = { λ _ e. e ≡ OutOfMemory };

    fn from(_e: AllocError) -> Cause {
        Cause::OutOfMemory
    }
}

impl<T: Drop> From<AllocFailed<T>> for Cause {
    ghost from_gives = { λ _ e. e ≡ OutOfMemory };

    fn from(_e: AllocFailed<T>) -> Cause {
        Cause::OutOfMemory
    }
}

/// The first faulty line of a text, counted from 1, and what is wrong with it.
#[derive(Clone, Copy, Debug, PartialEq, Eq, Error)]
#[error("line {line}: {cause}")]
pub struct ScriptFault {
    pub line: u32,
    pub cause: Cause,
}
