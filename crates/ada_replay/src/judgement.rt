//! How a log is judged.
ghost use Rattle.std.specs.Prelude.{◌≡◌};
ghost use Rattle.ada_replay.specs.declared.judgement.Stop.TheVariants as stops;

use ada_events::Refusal;
use ada_script::{Cause, ScriptFault, Statement};

/// How a log is judged: by the first line that stops it, if there is one.
#[derive(Debug, Drop)]
pub enum Judgement {
    /// Each line is skipped or accepted.
    Conforms,
    /// The line of this number says this, and is refused for this cause.
    Refused {
        line: u32,
        statement: Statement,
        cause: Refusal,
    },
    /// This line is none of the language.
    Faulty(ScriptFault),
}

/// Why a line stops a log.
#[derive(Debug, Drop)]
pub enum Stop {
    /// It says this, and is refused for this cause.
    Refused(Statement, Refusal),
    /// It is none of the language, or memory was refused.
    Faulty(Cause),
}

impl From<Cause> for Stop {
    ghost from_gives = { λ cause stop. stop ≡ stops.Faulty cause };

    fn from(cause: Cause) -> Stop {
        Stop::Faulty(cause)
    }
}
