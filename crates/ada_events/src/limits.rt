//! The limits that the kernel keeps.

/// The most tasks, the main program counted, and the most that an activation or an abort names.
pub const MOST_TASKS: usize = 256;

/// The most entries over all tasks.
pub const MOST_SLOTS: usize = 1024;

/// The most families of entries that a task declares (9.5).
pub const MOST_FAMILIES: usize = 16;

/// The most accept alternatives of a selective wait (9.7.1).
pub const MOST_CHOICES: usize = 16;

/// The most delay alternatives of a selective wait (9.7.1).
pub const MOST_DELAYS: usize = 8;

/// The most blocks and rendezvous that a task is within.
pub const MOST_MEMBERS: usize = 32;

/// The most events that a journal holds.
pub const MOST_EVENTS: usize = 65_536;

/// The most events that one request appends.
pub const MOST_APPENDED: usize = 769;

/// The last moment, in milliseconds.
pub const LAST_MOMENT: i64 = 9_000_000_000_000;
