//! A kernel and the plain one, of one journal, and what a picture shows of it.

use crate::stages::agree_on_stages;
use ada_events::{Refusal, Request, TaskNo};
use ada_explain::lives::Lives;
use ada_kernel::Kernel;
use ada_reference::{
    PlainKernel, board, is_finished, known_callable, known_outcome, known_terminated,
};
use std::alloc::{AllocError, Global};

/// Both kernels.
#[derive(Drop)]
pub struct Twins {
    plain: PlainKernel,
    kernel: Kernel,
    lives: Lives,
}

impl Twins {
    /// Both with an empty journal.
    pub fn new(alloc: Global) -> Result<Self, Refusal> {
        let lives = Lives::new(alloc)?;
        let plain = PlainKernel::new(alloc)?;
        let kernel = Kernel::new(alloc)?;
        Ok(Twins {
            plain,
            kernel,
            lives,
        })
    }

    /// How many tasks there are.
    pub fn tasks(&self) -> u16 {
        self.kernel.tasks()
    }

    /// How many events there are.
    pub fn events(&self) -> u32 {
        self.kernel.journal().len()
    }

    /// Makes one request of both, which is given twice: what both answer, or none where they don't agree on the answer
    /// or on the events that it leads to.
    pub fn step(&mut self, request: Request, again: Request) -> Option<Result<u32, Refusal>> {
        let before = self.events() as usize;
        let answer = self.kernel.step(request);
        let agree = self.plain.step(again) == answer && self.agree_behind(before);
        if self.follow(before).is_err() {
            return None;
        }
        agree.then_some(answer)
    }

    /// Lets the picture follow the events behind so many.
    fn follow(&mut self, before: usize) -> Result<(), AllocError> {
        let events = self.kernel.journal().as_slice();
        for (i, event) in events.iter().enumerate().skip(before) {
            self.lives.take(events, i as u32 + 1, event)?;
        }
        Ok(())
    }

    /// Whether both have the same events behind so many.
    fn agree_behind(&self, before: usize) -> bool {
        let events = self.kernel.journal().as_slice().get(before..);
        events == self.plain.journal().as_slice().get(before..)
    }

    /// Whether both say the same of all tasks and entries.
    pub fn agree(&self) -> bool {
        let events = self.plain.journal().as_slice();
        self.kernel.journal().as_slice() == events
            && self.kernel.finished() == is_finished(events)
            && self.kernel.board() == board(events)
            && agree_on_stages(&self.lives, events, self.tasks())
            && (0..self.tasks()).all(|number| self.agree_on(TaskNo(number)))
    }

    /// Whether both say the same of a task.
    fn agree_on(&self, task: TaskNo) -> bool {
        let events = self.plain.journal().as_slice();
        self.kernel.outcome(task) == known_outcome(events, task)
            && self.kernel.callable(task) == known_callable(events, task)
            && self.kernel.terminated(task) == known_terminated(events, task)
    }
}
