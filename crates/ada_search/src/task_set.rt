//! A set of tasks. Nothing is promised of it.

use ada_events::TaskNo;

/// Tasks, a bit each.
#[derive(Clone, Copy)]
pub struct TaskSet {
    bits: [u64; 4],
}

impl TaskSet {
    /// No tasks.
    pub fn new() -> Self {
        TaskSet { bits: [0; 4] }
    }

    /// Whether a task is in it.
    pub fn contains(&self, task: TaskNo) -> bool {
        match self.bits.get(usize::from(task.0 / 64)) {
            Some(bits) => *bits >> (task.0 % 64) & 1 == 1,
            None => false,
        }
    }

    /// Puts a task in; whether it wasn't there. A number that no task has isn't put in.
    pub fn insert(&mut self, task: TaskNo) -> bool {
        let Some(bits) = self.bits.get_mut(usize::from(task.0 / 64)) else {
            return false;
        };
        let bit = 1 << (task.0 % 64);
        let is_new = *bits & bit == 0;
        *bits |= bit;
        is_new
    }
}
