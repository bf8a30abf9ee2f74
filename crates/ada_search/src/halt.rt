//! Why a schedule doesn't go on.

use ada_events::Refusal;
use thiserror::Error;

/// Why a schedule doesn't go on by a choice.
#[derive(Clone, Copy, Debug, PartialEq, Eq, Error)]
pub enum Halt {
    /// The choice may not come next.
    #[error("this may not come next")]
    NoChoice,
    /// A limit of the kernel was reached: of tasks, entries or events.
    #[error("{0}")]
    Limit(Refusal),
    /// The program is longer than a program may be.
    #[error("too many lines")]
    TooLong,
    /// The task of an object goes on without end, and asks for nothing.
    #[error("a task goes on without end")]
    Endless(u16),
    /// Memory was refused.
    #[error("out of memory")]
    Memory,
}
