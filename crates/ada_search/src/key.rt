//! The key of a state: states with the same key are taken for the same by a search. Nothing is promised of it.

ghost use Rattle.std.specs.Prelude.{◌<◌};
ghost use Rattle.ada_events.specs.Tasks.{task_count};

use crate::keep::{Kept, Kind};
use crate::{Schedules, Standing};
use ada_events::waits::tail_due;
use ada_events::{Choice, Event, EventTail, Master, Outcome, Patience, TaskNo};
use ada_kernel::Kernel;
use ada_tables::Layer;
use ada_view::View;
use std::alloc::{AllocError, Global};

/// The key of a state.
pub(crate) fn key_of<S: Schedules>(
    alloc: Global,
    space: &S,
    standing: &Standing<S::Rest>,
) -> Result<Vec<u8>, AllocError> {
    let mut key = Vec::new(alloc);
    write_key(&mut key, space, standing)?;
    Ok(key)
}

/// Writes the key of a state in place of what is there.
pub fn write_key<S: Schedules>(
    bytes: &mut Vec<u8>,
    space: &S,
    standing: &Standing<S::Rest>,
) -> Result<(), AllocError> {
    bytes.clear();
    let kept = space.kept(standing)?;
    let mut writer = KeyWriter { bytes, kept: &kept };
    writer.moment(standing.kernel.view().moment())?;
    space.write_rest(&standing.rest, &mut writer)?;
    writer.tasks(&standing.kernel)
}

// The number of an outcome, but for what was accepted.
fn number_of(outcome: Outcome) -> u16 {
    match outcome {
        Outcome::Dead => 0,
        Outcome::Done => 1,
        Outcome::Held => 2,
        Outcome::Served => 3,
        Outcome::TaskingError => 4,
        Outcome::Cancelled => 5,
        Outcome::Accepted { choice, .. } => 100 + u16::from(choice),
        Outcome::TookElse => 6,
        Outcome::TookDelay(number) => 400 + u16::from(number),
        Outcome::ProgramError => 7,
        Outcome::Awake => 8,
        Outcome::ActivationOk => 9,
        Outcome::ActivationFailed => 10,
        Outcome::BlockLeft => 11,
        Outcome::Raised => 12,
        Outcome::Nothing => 13,
    }
}

// Whether the event is a wait with an open delay alternative.
fn is_timed_wait(event: &Event) -> bool {
    match event {
        Event::Waiting { tail, .. } => tail_due(tail).is_some(),
        _ => false,
    }
}

// How many waits with an open delay alternative stand before a position.
fn timed_before(view: &View<'_>, kept: &Kept, at: u32) -> u16 {
    let mut before: u16 = 0;
    for post in &kept.posts {
        if post.at < at && view.event(post.at).is_some_and(is_timed_wait) {
            before = before.saturating_add(1);
        }
    }
    before
}

/// Who writes a key.
#[derive(Drop)]
pub struct KeyWriter<'k, 'b> {
    bytes: &'b mut Vec<u8>,
    kept: &'k Kept,
}

impl KeyWriter<'_, '_> {
    fn flag(&mut self, is_set: bool) -> Result<(), AllocError> {
        self.byte(u8::from(is_set))
    }

    /// Writes a byte.
    pub fn byte(&mut self, byte: u8) -> Result<(), AllocError> {
        self.bytes.push(byte)?;
        Ok(())
    }

    /// Writes a number.
    pub fn number(&mut self, number: u16) -> Result<(), AllocError> {
        for byte in number.to_le_bytes() {
            self.byte(byte)?;
        }
        Ok(())
    }

    fn moment(&mut self, moment: i64) -> Result<(), AllocError> {
        for byte in moment.to_le_bytes() {
            self.byte(byte)?;
        }
        Ok(())
    }

    fn due(&mut self, due: Option<i64>) -> Result<(), AllocError> {
        match due {
            Some(due) => {
                self.flag(true)?;
                self.moment(due)
            }
            None => self.flag(false),
        }
    }

    /// Writes a task, by its place among those that are kept.
    pub fn task(&mut self, task: TaskNo) -> Result<(), AllocError> {
        self.number(self.kept.place(task))
    }

    /// Writes a block, by the position of its opening.
    pub fn block(&mut self, at: u32) -> Result<(), AllocError> {
        self.post(Kind::Block, at)
    }

    fn post(&mut self, kind: Kind, at: u32) -> Result<(), AllocError> {
        self.number(self.kept.rank(kind, at))
    }

    fn master(&mut self, master: Option<Master>) -> Result<(), AllocError> {
        match master {
            Some(Master::Body(task)) => {
                self.flag(true)?;
                self.task(task)
            }
            Some(Master::Block(at)) => {
                self.flag(false)?;
                self.block(at)
            }
            None => self.number(u16::MAX),
        }
    }

    fn tasks(&mut self, kernel: &Kernel) -> Result<(), AllocError> {
        for number in 0..kernel.tasks() {
            let task = TaskNo(number);
            if self.kept.place(task) != u16::MAX && number < kernel.tasks() {
                self.kept_task(kernel, task)?;
            }
        }
        Ok(())
    }

    // What is kept of a task that may still be named.
    fn kept_task(&mut self, kernel: &Kernel, task: TaskNo) -> Result<(), AllocError>
        requires { task.0 < task_count kernel.now }
    {
        let view = kernel.view();
        let stage = view.record(task).stage;
        self.flag(stage.terminated)?;
        self.flag(stage.named)?;
        self.activator(&view, task)?;
        if stage.terminated {
            return Ok(());
        }
        self.outcome(kernel.outcome(task))?;
        self.flag(stage.completed)?;
        self.flag(view.is_abandoned(task))?;
        self.making(&view, task)?;
        self.nest(&view, task)?;
        if stage.completed {
            return Ok(());
        }
        self.flag(stage.started)?;
        self.flag(stage.elaborated)?;
        self.flag(stage.abnormal)?;
        self.suspension(&view, task)
    }

    fn outcome(&mut self, outcome: Option<Outcome>) -> Result<(), AllocError> {
        let Some(outcome) = outcome else {
            return Ok(());
        };
        self.number(number_of(outcome))?;
        match outcome {
            Outcome::Accepted { call, .. } => self.post(Kind::Call, call),
            _ => Ok(()),
        }
    }

    // Who may still activate a task.
    fn activator(&mut self, view: &View<'_>, task: TaskNo) -> Result<(), AllocError> {
        match view.creation(task) {
            Some(Event::Created { by, .. }) if !view.record(task).stage.named => {
                if view.record(*by).stage.terminated {
                    self.number(u16::MAX)
                } else {
                    self.task(*by)
                }
            }
            _ => self.number(u16::MAX),
        }
    }

    // What a task depends on, and what it was made within, if no start names it.
    fn making(&mut self, view: &View<'_>, task: TaskNo) -> Result<(), AllocError> {
        match view.creation(task) {
            Some(Event::Created { under, master, .. }) => {
                self.master(Some(*master))?;
                if view.record(task).stage.named {
                    Ok(())
                } else {
                    self.master(Some(*under))
                }
            }
            _ => self.master(None),
        }
    }

    fn nest(&mut self, view: &View<'_>, task: TaskNo) -> Result<(), AllocError>
        requires { task.0 < task_count view.now }
    {
        for layer in view.nest(task).as_slice() {
            match layer {
                Layer::Block { opening, .. } => {
                    self.flag(true)?;
                    self.block(*opening)?;
                    self.flag(view.is_complete(Master::Block(*opening)))?;
                    self.opened_in(view, *opening)?;
                }
                Layer::Rendezvous { call } => {
                    self.flag(false)?;
                    self.post(Kind::Call, *call)?;
                }
            }
        }
        self.number(u16::MAX)
    }

    // What a block was opened in.
    fn opened_in(&mut self, view: &View<'_>, block: u32) -> Result<(), AllocError> {
        match view.event(block) {
            Some(Event::Opened { under, .. }) => self.master(Some(*under)),
            _ => self.master(None),
        }
    }

    // What a task is suspended at.
    fn suspension(&mut self, view: &View<'_>, task: TaskNo) -> Result<(), AllocError> {
        let suspension = view.record(task).suspension;
        let at = suspension.at;
        self.flag(suspension.joined)?;
        match view.event(at) {
            Some(event) => self.hold(view, event, at, suspension.joined),
            None => self.number(u16::MAX),
        }
    }

    fn hold(
        &mut self,
        view: &View<'_>,
        event: &Event,
        at: u32,
        is_joined: bool,
    ) -> Result<(), AllocError> {
        match event {
            Event::Called { .. } => self.call(event, at, is_joined),
            Event::Waiting { .. } => self.wait(view, event, at),
            Event::Paused { due, .. } => {
                self.number(2)?;
                self.post(Kind::Delay, at)?;
                self.moment(*due)
            }
            Event::Started { tasks, .. } => {
                self.number(3)?;
                self.post(Kind::Start, at)?;
                self.start(view, tasks.as_slice())
            }
            Event::Closed { block, .. } => {
                self.number(4)?;
                self.post(Kind::Close, at)?;
                self.block(*block)
            }
            _ => Ok(()),
        }
    }

    fn call(&mut self, event: &Event, at: u32, is_joined: bool) -> Result<(), AllocError> {
        let Event::Called {
            callee,
            entry,
            patience,
            due,
            ..
        } = event
        else {
            return Ok(());
        };
        self.number(0)?;
        self.post(Kind::Call, at)?;
        self.task(*callee)?;
        self.number(u16::from(entry.family))?;
        self.moment(i64::from(entry.index))?;
        if is_joined {
            return Ok(());
        }
        self.flag(matches!(patience, Patience::Conditional))?;
        self.due(*due)
    }

    // A wait. Only among those with an open delay alternative the order counts.
    fn wait(&mut self, view: &View<'_>, event: &Event, at: u32) -> Result<(), AllocError> {
        let Event::Waiting {
            pick,
            choices,
            tail,
            ..
        } = event
        else {
            return Ok(());
        };
        self.number(1)?;
        if is_timed_wait(event) {
            self.number(timed_before(view, self.kept, at))?;
        }
        self.moment(i64::from(*pick))?;
        for choice in choices.as_slice() {
            self.choice(*choice)?;
        }
        self.tail(tail)
    }

    fn choice(&mut self, choice: Choice) -> Result<(), AllocError> {
        self.flag(choice.guard)?;
        self.number(u16::from(choice.entry.family))?;
        self.moment(i64::from(choice.entry.index))
    }

    fn tail(&mut self, tail: &EventTail) -> Result<(), AllocError> {
        match tail {
            EventTail::Nothing => self.number(1000),
            EventTail::Otherwise => self.number(1001),
            EventTail::Terminate(guard) => self.number(1002 + u16::from(*guard)),
            EventTail::Delays(dues) => {
                self.number(1004)?;
                for due in dues.get().as_slice() {
                    self.due(*due)?;
                }
                Ok(())
            }
        }
    }

    // The tasks that a start names and that are still in their activation.
    fn start(&mut self, view: &View<'_>, tasks: &[TaskNo]) -> Result<(), AllocError> {
        for task in tasks {
            self.flag(view.record(*task).stage.failed)?;
            if !view.is_done_activating(*task) {
                self.task(*task)?;
            }
        }
        self.number(u16::MAX)
    }
}
