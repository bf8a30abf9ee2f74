//! Why no shorter journal is made.

use ada_events::Refusal;
use std::alloc::{AllocError, AllocFailed};
use thiserror::Error;

/// Why no shorter journal was made. The old kernel is as it was.
#[derive(Clone, Copy, Debug, PartialEq, Eq, Error)]
pub enum NotCompacted {
    /// A growth was refused.
    #[error("out of memory")]
    OutOfMemory,
    /// The new kernel refused a request: it is meant to do so only where there is no room for a helper or its entry.
    #[error("no room for helpers: {0}")]
    NoRoom(Refusal),
    /// What a request would have to name has no name in the new journal, or the names have no order.
    #[error("unnamed")]
    Unnamed,
    /// The check found that the new journal doesn't stand in for the old one, or that a task that is kept has no name.
    #[error("not alike")]
    NotAlike,
}

impl From<Refusal> for NotCompacted {
    fn from(cause: Refusal) -> Self {
        match cause {
            Refusal::OutOfMemory => NotCompacted::OutOfMemory,
            _ => NotCompacted::NoRoom(cause),
        }
    }
}

impl From<AllocError> for NotCompacted {
    fn from(_: AllocError) -> Self {
        NotCompacted::OutOfMemory
    }
}

impl<T: Drop> From<AllocFailed<T>> for NotCompacted {
    fn from(_: AllocFailed<T>) -> Self {
        NotCompacted::OutOfMemory
    }
}
