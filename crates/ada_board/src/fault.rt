//! What a board can't have.
use std::alloc::AllocError;
use thiserror::Error;

/// Why a call of a board was refused.
#[derive(Clone, Copy, Debug, Drop, Error, PartialEq, Eq)]
pub enum BoardFault {
    /// Memory was refused.
    #[error("out of memory")]
    OutOfMemory,
    /// There are fewer places for readers than were asked for.
    #[error("no place left")]
    NoPlace,
}

impl From<AllocError> for BoardFault {
    fn from(_refused: AllocError) -> BoardFault {
        BoardFault::OutOfMemory
    }
}
