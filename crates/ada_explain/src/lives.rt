//! What each task does from event to event.
use ada_events::journal::event_in;
use ada_events::{Event, Master, TaskNo};
use std::alloc::{AllocError, Global};

/// What a task does.
#[derive(Clone, Copy, Debug, PartialEq, Eq)]
pub enum Stage {
    /// It was made, and not activated (9.3).
    NotStarted,
    /// It runs through its declarations (9.3).
    Activating,
    /// It runs.
    Running,
    /// It waits for the activation of others (9.3).
    Starting,
    /// It waits in its call of an entry (9.5).
    Calling,
    /// Its call is served (9.5).
    InRendezvous,
    /// It waits at an accept statement or a select (9.5, 9.7.1).
    Waiting,
    /// It is delayed (9.6).
    Delayed,
    /// It waits at the end of a block (9.4).
    Leaving,
    /// It was aborted, and isn't completed yet (9.10).
    Abnormal,
    /// It is completed (9.4).
    Completed,
    /// It is terminated (9.4).
    Terminated,
}

/// What one task does from the event at a position on, up to that at another one.
#[derive(Clone, Copy, Debug, PartialEq, Eq)]
pub struct Span {
    pub task: TaskNo,
    pub stage: Stage,
    pub from: u32,
    pub to: u32,
}

/// What a task does now, and since when.
#[derive(Clone, Copy, Debug)]
struct Life {
    stage: Stage,
    since: u32,
    is_up: bool,
    /// What the task depends on; the main program on nothing.
    master: Option<Master>,
}

/// The longest way from a master outwards: each task and each block once.
pub const MOST_MASTERS: u32 = 65_536;

/// What all tasks do now, and what they did.
#[derive(Drop)]
pub struct Lives {
    now: Vec<Life>,
    spans: Vec<Span>,
}

impl Lives {
    /// The main program alone, which runs.
    pub fn new(alloc: Global) -> Result<Self, AllocError> {
        let mut now = Vec::new(alloc);
        now.push(Life {
            stage: Stage::Running,
            since: 0,
            is_up: true,
            master: None,
        })?;
        Ok(Lives {
            now,
            spans: Vec::new(alloc),
        })
    }

    /// How many tasks there are.
    pub fn tasks(&self) -> usize {
        self.now.len()
    }

    /// What a task does now; a task that doesn't exist is terminated.
    pub fn stage(&self, task: TaskNo) -> Stage {
        match self.now.get(usize::from(task.0)) {
            Some(life) => life.stage,
            None => Stage::Terminated,
        }
    }

    /// What tasks did before they did something else.
    pub fn spans(&self) -> &[Span] {
        &self.spans
    }

    /// Takes the event at a position, after all events before it.
    pub fn take(
        &mut self,
        events: &[Event],
        position: u32,
        event: &Event,
    ) -> Result<(), AllocError> {
        match event {
            Event::Created { master, .. } => self.make(position, *master),
            Event::Started { by, tasks } => self.start(position, *by, tasks.as_slice()),
            Event::Elaborated { by, ok } => self.come_up(position, *by, *ok),
            Event::Called { by, .. } => self.change(position, *by, Stage::Calling),
            Event::Waiting { by, .. } => self.change(position, *by, Stage::Waiting),
            Event::Paused { by, .. } => self.change(position, *by, Stage::Delayed),
            Event::Closed { by, .. } => self.change(position, *by, Stage::Leaving),
            Event::Completed { by } => self.change(position, *by, Stage::Completed),
            Event::Halted { task } => self.change(position, *task, Stage::Completed),
            Event::Gone { task } => self.change(position, *task, Stage::Terminated),
            Event::Met { call, wait } => {
                self.meet(position, holder(events, *call), holder(events, *wait))
            }
            Event::Ended { call, .. } | Event::Failed { call } | Event::Cancelled { call } => {
                self.release(position, holder(events, *call))
            }
            Event::Passed { wait, .. } => self.release(position, holder(events, *wait)),
            Event::Woken { pause } => self.release(position, holder(events, *pause)),
            Event::Activated { start, .. } => self.release(position, holder(events, *start)),
            Event::Left { close } => self.release(position, holder(events, *close)),
            Event::Aborted { tasks, .. } => self.abort(events, position, tasks.as_slice()),
            Event::Quit { master } => self.quit(events, position, *master),
            Event::Opened { .. } | Event::Ticked { .. } => Ok(()),
        }
    }

    /// Ends what each task does now at a position.
    pub fn end(&mut self, position: u32) -> Result<(), AllocError> {
        for task in 0..256u16 {
            let stage = self.stage(TaskNo(task));
            if usize::from(task) < self.now.len() {
                self.change(position, TaskNo(task), stage)?;
            }
        }
        Ok(())
    }

    fn make(&mut self, position: u32, master: Master) -> Result<(), AllocError> {
        self.now.push(Life {
            stage: Stage::NotStarted,
            since: position,
            is_up: false,
            master: Some(master),
        })?;
        Ok(())
    }

    // A task does something else from a position on.
    fn change(&mut self, position: u32, task: TaskNo, stage: Stage) -> Result<(), AllocError> {
        let Some(life) = self.now.get_mut(usize::from(task.0)) else {
            return Ok(());
        };
        let span = Span {
            task,
            stage: life.stage,
            from: life.since,
            to: position,
        };
        life.stage = stage;
        life.since = position;
        self.spans.push(span)?;
        Ok(())
    }

    // Whether a task may still do something.
    fn is_alive(&self, task: TaskNo) -> bool {
        !matches!(self.stage(task), Stage::Completed | Stage::Terminated)
    }

    fn start(&mut self, position: u32, by: TaskNo, tasks: &[TaskNo]) -> Result<(), AllocError> {
        self.change(position, by, Stage::Starting)?;
        for task in tasks {
            if self.is_alive(*task) {
                self.change(position, *task, Stage::Activating)?;
            }
        }
        Ok(())
    }

    fn come_up(&mut self, position: u32, by: TaskNo, ok: bool) -> Result<(), AllocError> {
        if let Some(life) = self.now.get_mut(usize::from(by.0)) {
            life.is_up = true;
        }
        let stage = if ok { Stage::Running } else { Stage::Completed };
        self.change(position, by, stage)
    }

    // A task goes on, if it isn't completed or aborted.
    fn release(&mut self, position: u32, task: Option<TaskNo>) -> Result<(), AllocError> {
        let Some(task) = task else {
            return Ok(());
        };
        let is_up = match self.now.get(usize::from(task.0)) {
            Some(life) => life.is_up,
            None => return Ok(()),
        };
        if !self.is_alive(task) || self.stage(task) == Stage::Abnormal {
            return Ok(());
        }
        let stage = if is_up {
            Stage::Running
        } else {
            Stage::Activating
        };
        self.change(position, task, stage)
    }

    fn meet(
        &mut self,
        position: u32,
        caller: Option<TaskNo>,
        acceptor: Option<TaskNo>,
    ) -> Result<(), AllocError> {
        if let Some(caller) = caller {
            self.change(position, caller, Stage::InRendezvous)?;
        }
        self.release(position, acceptor)
    }

    /// The master around one (9.4): around a task's body what the task depends on, and around a block what its task was
    /// in when it opened it.
    pub fn around(&self, events: &[Event], master: Master) -> Option<Master> {
        match master {
            Master::Body(task) => match self.now.get(usize::from(task.0)) {
                Some(life) => life.master,
                None => None,
            },
            Master::Block(opened) => match event_in(events, opened) {
                Some(Event::Opened { under, .. }) => Some(*under),
                _ => None,
            },
        }
    }

    // Whether a task depends on a master, directly or through others (9.4).
    fn depends_on(&self, events: &[Event], task: TaskNo, master: Master) -> bool {
        let mut next = self.around(events, Master::Body(task));
        for _ in 0..MOST_MASTERS {
            match next {
                Some(around) if around == master => return true,
                Some(around) => next = self.around(events, around),
                None => return false,
            }
        }
        false
    }

    // Whether the abort of some tasks reaches a task (9.10).
    fn is_aborted(&self, events: &[Event], tasks: &[TaskNo], task: TaskNo) -> bool {
        tasks.iter().any(|other| other.0 == task.0
            || self.depends_on(events, task, Master::Body(*other)))
    }

    // Those that an abort reaches, and that aren't completed yet, are abnormal from there on.
    fn abort(
        &mut self,
        events: &[Event],
        position: u32,
        tasks: &[TaskNo],
    ) -> Result<(), AllocError> {
        for task in 0..256u16 {
            let task = TaskNo(task);
            if self.is_alive(task) && self.is_aborted(events, tasks, task) {
                self.change(position, task, Stage::Abnormal)?;
            }
        }
        Ok(())
    }

    // Those that depend on a master, and aren't terminated yet, terminate.
    fn quit(&mut self, events: &[Event], position: u32, master: Master) -> Result<(), AllocError> {
        for task in 0..256u16 {
            let task = TaskNo(task);
            if self.stage(task) != Stage::Terminated && self.depends_on(events, task, master) {
                self.change(position, task, Stage::Terminated)?;
            }
        }
        Ok(())
    }
}

/// The task that the event at a position holds up.
pub fn holder(events: &[Event], position: u32) -> Option<TaskNo> {
    match event_in(events, position) {
        Some(
            Event::Called { by, .. }
            | Event::Waiting { by, .. }
            | Event::Paused { by, .. }
            | Event::Started { by, .. }
            | Event::Closed { by, .. },
        ) => Some(*by),
        _ => None,
    }
}
