//! A new kernel, and requests to it in few words.

use crate::failure::NotCompacted;
use ada_events::{
    Choice, Choices, Entry, Families, Master, Patience, Request, Tail, TaskNo, Tasks,
};
use ada_kernel::Kernel;
use ada_view::queries;
use std::alloc::Global;

/// A new kernel. Whatever it refuses is an `Err`.
#[derive(Drop)]
pub(crate) struct Fresh {
    kernel: Kernel,
}

// So many closed choices of an entry, and then an open one; at most 16.
fn choices_up_to(entry: Entry, open: u8) -> Choices {
    let mut choices = Choices::new();
    for number in 0..=open {
        if !choices.is_full() {
            choices.push(Choice {
                guard: number == open,
                entry,
            });
        }
    }
    choices
}

impl Fresh {
    /// A kernel with an empty journal.
    pub(crate) fn new(alloc: Global) -> Result<Self, NotCompacted> {
        let kernel = Kernel::new(alloc)?;
        Ok(Fresh { kernel })
    }

    /// The kernel.
    pub(crate) fn kernel(&self) -> &Kernel {
        &self.kernel
    }

    /// The kernel, when all is asked.
    pub(crate) fn into_kernel(self) -> Kernel {
        self.kernel
    }

    /// Asks, and answers the position of the request's event.
    pub(crate) fn ask(&mut self, request: Request) -> Result<u32, NotCompacted> {
        Ok(self.kernel.step(request)?)
    }

    fn order(&mut self, request: Request) -> Result<(), NotCompacted> {
        self.kernel.step(request)?;
        Ok(())
    }

    /// Whether a task is completed or terminated.
    pub(crate) fn has_ended(&self, task: TaskNo) -> bool {
        self.kernel.view().record(task).has_ended()
    }

    /// The innermost block that a task is in, else its body.
    pub(crate) fn frame(&self, task: TaskNo) -> Result<Master, NotCompacted> {
        let view = self.kernel.view();
        if task.0 < queries::tasks(&view) {
            Ok(view.frame(task))
        } else {
            Err(NotCompacted::Unnamed)
        }
    }

    /// Makes a task.
    pub(crate) fn create(
        &mut self,
        by: TaskNo,
        master: Master,
        families: Families,
    ) -> Result<TaskNo, NotCompacted> {
        let made = TaskNo(self.kernel.tasks());
        self.order(Request::Create {
            by,
            master,
            families,
        })?;
        Ok(made)
    }

    /// Activates one task.
    pub(crate) fn activate(&mut self, by: TaskNo, task: TaskNo) -> Result<(), NotCompacted> {
        let tasks = Tasks::from_slice(&[task]);
        self.order(Request::Activate { by, tasks })
    }

    /// Ends a task's own activation.
    pub(crate) fn elaborate(&mut self, by: TaskNo, ok: bool) -> Result<(), NotCompacted> {
        self.order(Request::Elaborated { by, ok })
    }

    /// Makes a task and brings it up.
    pub(crate) fn bring_up(
        &mut self,
        by: TaskNo,
        master: Master,
        families: Families,
    ) -> Result<TaskNo, NotCompacted> {
        let made = self.create(by, master, families)?;
        self.activate(by, made)?;
        self.elaborate(made, true)?;
        Ok(made)
    }

    /// Makes a task under the main program's body and aborts it at once.
    pub(crate) fn create_dead(
        &mut self,
        by: TaskNo,
        families: Families,
    ) -> Result<TaskNo, NotCompacted> {
        let made = self.create(by, Master::Body(TaskNo(0)), families)?;
        self.abort(by, Tasks::from_slice(&[made]))?;
        Ok(made)
    }

    /// Calls an entry, and answers the position of the call.
    pub(crate) fn call(
        &mut self,
        by: TaskNo,
        callee: TaskNo,
        entry: Entry,
        patience: Patience,
    ) -> Result<u32, NotCompacted> {
        self.ask(Request::Call {
            by,
            callee,
            entry,
            patience,
        })
    }

    /// Accepts a call by the choice of this number, which is the only open one.
    pub(crate) fn accept(
        &mut self,
        by: TaskNo,
        entry: Entry,
        choice: u8,
    ) -> Result<(), NotCompacted> {
        self.order(Request::Wait {
            by,
            choices: choices_up_to(entry, choice),
            tail: Tail::Nothing,
            pick: 0,
        })
    }

    /// Ends a rendezvous.
    pub(crate) fn end(&mut self, by: TaskNo, raised: bool) -> Result<(), NotCompacted> {
        self.order(Request::End { by, raised })
    }

    /// Completes a task.
    pub(crate) fn complete(&mut self, by: TaskNo) -> Result<(), NotCompacted> {
        self.order(Request::Complete { by })
    }

    /// Aborts tasks.
    pub(crate) fn abort(&mut self, by: TaskNo, tasks: Tasks) -> Result<(), NotCompacted> {
        self.order(Request::Abort { by, tasks })
    }

    /// Moves the moment, unless it is 0.
    pub(crate) fn tick(&mut self, now: i64) -> Result<(), NotCompacted> {
        if now == 0 {
            return Ok(());
        }
        self.order(Request::Tick { now })
    }
}
