//! Tasks are suspended again.

use crate::failure::NotCompacted;
use crate::walk::Walk;
use ada_events::{
    Choices, Event, EventTail, Families, Master, Patience, Pause, Pauses, Refusal, Request, Tail,
    TaskNo, Tasks,
};

// Until the very end the moment of the new kernel is 0, so each moment is a duration from then on.
fn pause_until(due: Option<i64>) -> Pause {
    match due {
        Some(due) => Pause {
            guard: true,
            duration: due,
        },
        None => Pause {
            guard: false,
            duration: 0,
        },
    }
}

// The delay alternatives that are due at these moments; at most 8.
fn pauses_until(dues: &[Option<i64>]) -> Pauses {
    let mut pauses = Pauses::new();
    for due in dues {
        if !pauses.is_full() {
            pauses.push(pause_until(*due));
        }
    }
    pauses
}

fn tail_again(tail: &EventTail) -> Tail {
    match tail {
        EventTail::Nothing => Tail::Nothing,
        EventTail::Otherwise => Tail::Otherwise,
        EventTail::Delays(dues) => Tail::Delays(pauses_until(dues.get().as_slice())),
        EventTail::Terminate(guard) => Tail::Terminate(*guard),
    }
}

/// Appends a task. A list that is full is refused as a kernel refuses more tasks.
pub(crate) fn push_task(tasks: &mut Tasks, task: TaskNo) -> Result<(), NotCompacted> {
    if tasks.is_full() {
        return Err(NotCompacted::NoRoom(Refusal::TooManyTasks));
    }
    tasks.push(task);
    Ok(())
}

impl Walk<'_> {
    // How long a call waits: one that was accepted stays, whatever its patience was.
    fn patience(&self, task: TaskNo, due: Option<i64>) -> Patience {
        match due {
            Some(due) if !self.old.record(task).suspension.joined => Patience::Timed(due),
            _ => Patience::Simple,
        }
    }

    // The request for an event that suspended a task, other than a start or the end of a block.
    fn request_again(&self, task: TaskNo, event: &Event) -> Result<Request, NotCompacted> {
        let by = self.names.copy(task)?;
        match event {
            Event::Called {
                callee,
                entry,
                due,
                ..
            } => Ok(Request::Call {
                by,
                callee: self.names.copy(*callee)?,
                entry: *entry,
                patience: self.patience(task, *due),
            }),
            Event::Waiting {
                pick,
                choices,
                tail,
                ..
            } => Ok(Request::Wait {
                by,
                choices: Choices::from_slice(choices.as_slice()),
                tail: tail_again(tail),
                pick: *pick,
            }),
            Event::Paused { due, .. } => Ok(Request::Delay { by, duration: *due }),
            _ => Err(NotCompacted::Unnamed),
        }
    }

    // Those of some tasks that are still in their activation, in the new kernel.
    fn unready_of(&self, tasks: &[TaskNo]) -> Result<Tasks, NotCompacted> {
        let mut unready = Tasks::new();
        for task in tasks {
            if self.old.is_unready(*task) {
                push_task(&mut unready, self.names.copy(*task)?)?;
            }
        }
        Ok(unready)
    }

    // A helper to fail its activation, where the activation of a task failed.
    fn failing(&mut self, by: TaskNo, tasks: &[TaskNo]) -> Result<Option<TaskNo>, NotCompacted> {
        if !tasks.iter().any(|task| self.old.record(*task).stage.failed) {
            return Ok(None);
        }
        let frame = self.new.frame(by)?;
        Ok(Some(self.new.create(by, frame, Families::new())?))
    }

    fn mount_unready(&mut self, tasks: &[TaskNo]) -> Result<(), NotCompacted> {
        for task in tasks {
            if self.old.is_unready(*task) {
                self.mount(*task, Master::Body(*task))?;
            }
        }
        Ok(())
    }

    // A task waits again for those that are in their activation, and one has failed if one had before.
    fn start_again(
        &mut self,
        task: TaskNo,
        at: u32,
        started: &[TaskNo],
    ) -> Result<(), NotCompacted> {
        let by = self.names.copy(task)?;
        let mut tasks = self.unready_of(started)?;
        let failing = self.failing(by, started)?;
        if let Some(helper) = failing {
            push_task(&mut tasks, helper)?;
        }
        let start = self.new.ask(Request::Activate { by, tasks })?;
        self.names.place(at, start)?;
        if let Some(helper) = failing {
            self.new.elaborate(helper, false)?;
        }
        self.mount_unready(started)
    }

    /// Suspends a task again where it is suspended.
    pub(crate) fn suspend(&mut self, task: TaskNo) -> Result<(), NotCompacted> {
        self.accept_rest(task)?;
        let at = self.old.record(task).suspension.at;
        match self.old.event(at) {
            Some(Event::Started { tasks, .. }) => self.start_again(task, at, tasks.as_slice()),
            Some(event) => {
                let request = self.request_again(task, event)?;
                let place = self.new.ask(request)?;
                self.names.place(at, place)
            }
            None => Err(NotCompacted::Unnamed),
        }
    }
}
