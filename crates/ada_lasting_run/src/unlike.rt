//! In what two kernels differ that were asked the same.

use std::alloc::{AllocError, AllocFailed};
use thiserror::Error;

/// In what a kernel that lives on is unlike one that keeps everything.
#[derive(Clone, Copy, Debug, Error)]
pub enum Unlike {
    #[error("out of memory")]
    OutOfMemory,
    /// The answer to a request.
    #[error("the answer")]
    Answer,
    /// How many events a request appended.
    #[error("how many events")]
    Length,
    /// The event of a group with this number, from 0.
    #[error("event {0} of the group")]
    Event(usize),
    /// The answer to a release.
    #[error("the release of {0}")]
    Release(u64),
    /// A task was given up that may still be named.
    #[error("{0} was given up")]
    GivenUp(u64),
    /// A task wasn't given up by a compaction, though it and its master are gone.
    #[error("{0} was kept")]
    Kept(u64),
    /// The present journal wasn't made shorter, for another cause than that there is no room for helpers.
    #[error("a compaction")]
    Compaction,
    /// How many tasks there were, or whether the main program is terminated.
    #[error("the whole")]
    Whole,
    #[error("TERMINATED of {0}")]
    Terminated(u64),
    #[error("CALLABLE of {0}")]
    Callable(u64),
    #[error("whether {0} runs")]
    Running(u64),
    #[error("the outcome of {0}")]
    Outcome(u64),
    #[error("COUNT of {0}")]
    Count(u64),
}

impl From<AllocError> for Unlike {
    fn from(_: AllocError) -> Self {
        Unlike::OutOfMemory
    }
}

impl<T: Drop> From<AllocFailed<T>> for Unlike {
    fn from(_: AllocFailed<T>) -> Self {
        Unlike::OutOfMemory
    }
}

/// Fails if that doesn't hold.
pub(crate) fn want(holds: bool, unlike: Unlike) -> Result<(), Unlike> {
    if holds { Ok(()) } else { Err(unlike) }
}
