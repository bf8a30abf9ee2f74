//! Why a kernel that lives on did nothing.

ghost use Rattle.std.specs.Prelude.{◌≡◌};
ghost use Rattle.ada_lasting.specs.internal.Causes.{named_cause};

use ada_compact::NotCompacted;
use ada_events::Refusal;
use thiserror::Error;

/// Why a request, a release or a compaction changed nothing.
#[derive(Clone, Copy, Debug, PartialEq, Eq, Error)]
pub enum NotDone {
    /// The kernel's cause. `TooManyTasks` and `TooManySlots` count the tasks that live, that are kept, and that help
    /// to keep what they did; `JournalFull` never comes.
    #[error("{0}")]
    Refused(Refusal),
    /// The task with this number was given up.
    #[error("given up: {0}")]
    GivenUp(u64),
    /// The task isn't terminated, so it can't be given up.
    #[error("not terminated: {0}")]
    NotTerminated(u64),
    /// There is no room for more events, and the journal couldn't be made shorter.
    #[error("{0}")]
    NotCompacted(NotCompacted),
    /// All numbers below 2 to the power of 64 are used up.
    #[error("no more names")]
    NoMoreNames,
}

impl NotDone {
    /// The answer where the present journal refuses a request for this cause.
    pub(crate) fn named(cause: Refusal) -> Self
        ensures { result ≡ named_cause cause }
    {
        match cause {
            Refusal::JournalFull => NotDone::NotCompacted(NotCompacted::NoRoom(cause)),
            _ => NotDone::Refused(cause),
        }
    }
}
