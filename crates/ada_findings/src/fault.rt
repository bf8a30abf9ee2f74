//! How the second program ends.
ghost use Rattle.std.specs.Prelude.{◌≡◌};
ghost use Rattle.ada_findings.specs.Statuses.{fault_status as status_in, status};

use ada_replay::RunFault;
use thiserror::Error;

/// What was found.
#[derive(Clone, Copy, Debug, PartialEq, Eq)]
pub enum Finding {
    /// Nothing that was looked for.
    Nothing,
    /// A line is faulty.
    Faulty,
    /// Two plays differ.
    Difference,
    /// A line of a log is refused.
    Refused,
    /// A line of a log is none of the language.
    NoLog,
    /// A line was refused, or something is stuck at the end, and this was looked for; or some schedule gets stuck.
    Standstill,
    /// Whether any schedule gets stuck isn't known.
    Unknown,
}

/// Why nothing was told, or not all.
#[derive(Debug, Drop, Error)]
pub enum ScopeFault {
    /// A file can't be opened.
    #[error("cannot open the file")]
    Open,
    /// The input is no script, or it, the output or memory was refused.
    #[error(transparent)]
    Run(RunFault),
    /// The input is no script, and was to be compared.
    #[error(transparent)]
    Compared(RunFault),
    /// The input is longer than a log.
    #[error("more than 16777216 bytes")]
    TooLong,
    /// Who read the output went away.
    #[error("the reader went away")]
    Closed,
}

impl From<RunFault> for ScopeFault {
    fn from(fault: RunFault) -> Self {
        ScopeFault::Run(fault)
    }
}

/// Why nothing was told, or not all, and of which file; of none where it is the standard input, or the output.
#[derive(Debug, Drop)]
pub struct Failure<'a> {
    pub file: Option<&'a str>,
    pub fault: ScopeFault,
}

/// The exit status: 0 if nothing was found, 1 for a faulty line, a difference or a refused line of a log, 2 for a
/// faulty line of what was to be compared or of a log, and for a log that is too long, 3 for a standstill that was
/// looked for, 4 where a file, memory, the input or the output was refused, and 5 where nothing is known.
pub fn status_of(outcome: &Result<Finding, Failure<'_>>) -> u8
    ensures { result ≡ status outcome.now }
{
    match outcome {
        Ok(Finding::Nothing) => 0,
        Ok(Finding::Faulty | Finding::Difference | Finding::Refused) => 1,
        Ok(Finding::NoLog) => 2,
        Ok(Finding::Standstill) => 3,
        Ok(Finding::Unknown) => 5,
        Err(failure) => fault_status(&failure.fault),
    }
}

fn fault_status(fault: &ScopeFault) -> u8
    ensures { result ≡ status_in fault.now }
{
    match fault {
        ScopeFault::Run(RunFault::Script(_)) => 1,
        ScopeFault::Compared(_) | ScopeFault::TooLong => 2,
        ScopeFault::Open | ScopeFault::Run(_) | ScopeFault::Closed => 4,
    }
}
