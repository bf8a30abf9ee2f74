//! The attributes of all tasks and entries at one time.

use crate::limits::{MOST_SLOTS, MOST_TASKS};

/// CALLABLE and TERMINATED of each task and COUNT of each entry (9.9), after so many events. A task goes
/// by its number, and an entry by its slot: all entries of all tasks are numbered from 0 in order of
/// task, family and index. Unused places hold false, false and 0.
#[derive(Clone, Copy, Debug, PartialEq, Eq)]
pub struct Board {
    /// How many tasks there are, 1 to 256, the main program counted.
    pub tasks: u16,
    /// How many entries there are, at most 1,024.
    pub slots: u16,
    /// How many events there are, at most 65,536.
    pub events: u32,
    /// CALLABLE of each task.
    pub callable: [bool; MOST_TASKS],
    /// TERMINATED of each task.
    pub terminated: [bool; MOST_TASKS],
    /// COUNT of each entry, at most 256.
    pub counts: [u16; MOST_SLOTS],
}
