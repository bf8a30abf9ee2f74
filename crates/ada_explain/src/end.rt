//! What all tasks do at the end of a play.

use crate::Scene;
use crate::reasons::awaited;
use ada_events::TaskNo;
use ada_waiting::{Reason, due_in, reason_in};
use std::alloc::{AllocError, Global};

/// The end of a play.
#[derive(Clone, Copy)]
pub struct End<'a> {
    pub scene: Scene<'a>,
}

impl End<'_> {
    /// How many tasks there are, the main program counted.
    pub fn tasks(&self) -> u16 {
        self.scene.kernel.tasks()
    }

    /// Whether a task runs.
    pub fn runs(&self, task: TaskNo) -> bool {
        self.scene.kernel.running(task) == Some(true)
    }

    /// Why a task doesn't go on; none if it runs or is terminated.
    pub fn reason(&self, task: TaskNo) -> Option<Reason> {
        reason_in(self.scene.kernel, task)
    }

    /// The tasks without which a task can't go on, since its time isn't limited.
    pub fn awaited(&self, alloc: Global, task: TaskNo) -> Result<Vec<TaskNo>, AllocError> {
        match self.reason(task) {
            Some(reason) if due_in(self.scene.kernel, task).is_none() => {
                awaited(alloc, self.scene, task, reason)
            }
            _ => Ok(Vec::new(alloc)),
        }
    }

    /// The tasks that run, without one of them.
    pub fn runners(&self, alloc: Global, but: TaskNo) -> Result<Vec<TaskNo>, AllocError> {
        let mut runners = Vec::new(alloc);
        for task in 0..self.tasks() {
            if task != but.0 && self.runs(TaskNo(task)) {
                runners.push(TaskNo(task))?;
            }
        }
        Ok(runners)
    }
}
