//! What is read of the old kernel.

use ada_events::{Entry, Event, Families, Master, Member, Outcome, TaskNo};
use ada_kernel::Kernel;
use ada_records::Record;
use ada_view::queries;

/// The main program.
pub(crate) const MAIN: TaskNo = TaskNo(0);

/// The old kernel, as it is read to make a shorter journal: what it keeps of its tasks, and of its journal the
/// creations, the present suspensions and the calls in outcomes. A task is called active here if it isn't completed,
/// and idle if it is active and not suspended.
#[derive(Clone, Copy)]
pub(crate) struct Source<'a> {
    kernel: &'a Kernel,
}

impl<'a> Source<'a> {
    /// The kernel, to be read.
    pub(crate) fn new(kernel: &'a Kernel) -> Self {
        Source { kernel }
    }

    /// How many tasks there are, at most 256.
    pub(crate) fn tasks(self) -> u16 {
        self.kernel.tasks()
    }

    /// The moment, in milliseconds.
    pub(crate) fn moment(self) -> i64 {
        self.kernel.view().moment()
    }

    /// The event at a position; none at 0 and past the end.
    pub(crate) fn event(self, at: u32) -> Option<&'a Event> {
        self.kernel.journal().get(at)
    }

    /// What is kept of a task.
    pub(crate) fn record(self, task: TaskNo) -> Record {
        self.kernel.view().record(task)
    }

    /// Whether the task isn't terminated.
    pub(crate) fn is_live(self, task: TaskNo) -> bool {
        task.0 < self.tasks() && !self.record(task).stage.terminated
    }

    /// Whether the task is completed, and not terminated.
    pub(crate) fn is_over(self, task: TaskNo) -> bool {
        self.is_live(task) && self.record(task).stage.completed
    }

    /// Whether the task is active and hasn't ended its activation.
    pub(crate) fn is_unready(self, task: TaskNo) -> bool {
        !self.record(task).has_ended() && !self.record(task).stage.elaborated
    }

    /// Whether the task is active and not suspended.
    pub(crate) fn is_idle(self, task: TaskNo) -> bool {
        !self.record(task).has_ended() && self.record(task).suspension.at == 0
    }

    /// Who made the task, and the master that it depends on; none for the main program.
    pub(crate) fn making(self, task: TaskNo) -> Option<(TaskNo, Master)> {
        match self.event(self.record(task).created) {
            Some(Event::Created { by, master, .. }) => Some((*by, *master)),
            _ => None,
        }
    }

    /// The families of entries that the task declares.
    pub(crate) fn families(self, task: TaskNo) -> Families {
        match self.event(self.record(task).created) {
            Some(Event::Created { families, .. }) => Families::from_slice(families.as_slice()),
            _ => Families::new(),
        }
    }

    /// The master of a live task whose creator is terminated; none for any other task.
    pub(crate) fn orphaned(self, task: TaskNo) -> Option<Master> {
        match self.making(task) {
            Some((by, master)) if self.is_live(task) && !self.is_live(by) => Some(master),
            _ => None,
        }
    }

    /// Whether the task is still in its activation, though who activated it is completed or terminated: it was halted.
    pub(crate) fn is_left_in_activation(self, task: TaskNo) -> bool {
        if !self.is_unready(task) || !self.record(task).stage.named {
            return false;
        }
        match self.making(task) {
            Some((by, _)) => self.is_over(by) || !self.is_live(by),
            None => false,
        }
    }

    /// Whether the task may still be named by its creator when that activates tasks.
    pub(crate) fn may_be_activated(self, task: TaskNo) -> bool {
        match self.making(task) {
            Some((by, _)) => self.is_live(by) && !self.record(task).stage.named,
            None => false,
        }
    }

    /// How many blocks and rendezvous the task is within, at most 32.
    pub(crate) fn depth(self, task: TaskNo) -> usize {
        let view = self.kernel.view();
        if task.0 < queries::tasks(&view) {
            view.nest(task).len()
        } else {
            0
        }
    }

    /// The member at a place of the task's nest, 0 for the outermost.
    pub(crate) fn member(self, task: TaskNo, place: usize) -> Option<Member> {
        let view = self.kernel.view();
        if task.0 < queries::tasks(&view) {
            view.nest(task).get(place)
        } else {
            None
        }
    }

    /// The entry of the call at a position.
    pub(crate) fn entry(self, call: u32) -> Option<Entry> {
        match self.event(call) {
            Some(Event::Called { entry, .. }) => Some(*entry),
            _ => None,
        }
    }

    /// The outcome of an idle task; none for any other task.
    pub(crate) fn outcome(self, task: TaskNo) -> Option<Outcome> {
        if self.is_idle(task) {
            Some(self.record(task).suspension.outcome)
        } else {
            None
        }
    }

    /// The choice by which a task accepted the call, if its outcome still tells that; else 0.
    pub(crate) fn choice(self, task: TaskNo, call: u32) -> u8 {
        match self.outcome(task) {
            Some(Outcome::Accepted { call: last, choice }) if last == call => choice,
            _ => 0,
        }
    }

    fn is_serving(self, task: TaskNo, call: u32) -> bool {
        let served = Some(Member::Rendezvous(call));
        (0..self.depth(task)).any(|place| self.member(task, place) == served)
    }

    /// The call that an idle task accepted last, if its rendezvous is over.
    pub(crate) fn call_over(self, task: TaskNo) -> Option<u32> {
        match self.outcome(task) {
            Some(Outcome::Accepted { call, .. }) if !self.is_serving(task, call) => Some(call),
            _ => None,
        }
    }
}
