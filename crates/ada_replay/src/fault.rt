//! How a run ends.
ghost use Rattle.std.specs.Prelude.{◌≡◌};
ghost use Rattle.ada_replay.specs.Statuses.{status};

use ada_script::ScriptFault;
use thiserror::Error;

/// Whether the main program is terminated at the end of a run.
#[derive(Clone, Copy, Debug, PartialEq, Eq)]
pub enum Ending {
    /// The main program is terminated.
    Finished,
    /// It isn't.
    Unfinished,
}

/// Why a run was broken off.
#[derive(Debug, Drop, Error)]
pub enum RunFault {
    /// The input is no script.
    #[error(transparent)]
    Script(ScriptFault),
    /// The script makes more tasks than there can be threads.
    #[error("too many tasks")]
    TooManyTasks,
    /// Memory was refused.
    #[error("out of memory")]
    Memory,
    /// The input could not be read.
    #[error("read failed")]
    Read,
    /// The output could not be written.
    #[error("write failed")]
    Write,
    /// A thread was refused.
    #[error("thread refused")]
    Threads,
}

/// The exit status of a run: 0 where the main program is terminated at the end, 3 where it isn't, 1 for
/// an input that can't be played, and 4 where memory, the input, the output or a thread was refused.
pub fn status_of(outcome: &Result<Ending, RunFault>) -> u8
    ensures { result ≡ status outcome.now }
{
    match outcome {
        Ok(Ending::Finished) => 0,
        Ok(Ending::Unfinished) => 3,
        Err(RunFault::Script(_) | RunFault::TooManyTasks) => 1,
        Err(RunFault::Memory | RunFault::Read | RunFault::Write | RunFault::Threads) => 4,
    }
}
