//! Why numbers are no request, or a question has no answer.

/// What is wrong with numbers.
#[derive(Clone, Copy, Debug, PartialEq, Eq)]
pub enum Bad {
    /// A list is longer than the kernel takes.
    TooLong,
    /// A kind that is none.
    NoSuchKind,
    /// A number that is too large for what it stands for: a task, a position, a family.
    OutOfRange,
    /// There is no event at this position.
    NoSuchEvent,
    /// The list of an event has no such item.
    NoSuchItem,
    /// There is no such task.
    NoSuchTask,
    /// The task has no such entry.
    NoSuchEntry,
}
