//! What came of tasks, blocks and queues so far, as far as it tells why the next event comes.

use crate::Scene;
use crate::lives::{Lives, MOST_MASTERS, Span, holder};
use ada_events::journal::event_in;
use ada_events::limits::MOST_SLOTS;
use ada_events::{Entry, Event, Master, TaskNo};
use std::alloc::{AllocError, Global};

/// What came of a task so far. What came is the position of its event, and 0 if it didn't come.
#[derive(Clone, Copy, Debug)]
pub struct Marks {
    /// Its creation (9.3).
    pub made: u32,
    /// The start of its activation (9.3).
    pub started: u32,
    /// The end of its activation, by itself (9.3).
    pub up: u32,
    /// Whether an exception ended its activation (9.3).
    pub has_failed: bool,
    /// Its completion, by itself, by an exception in its activation, or by an abort (9.3, 9.4, 9.10).
    pub completed: u32,
    /// Its termination (9.4).
    pub terminated: u32,
    /// The first abort that reached it (9.10).
    pub aborted: u32,
    /// The task that this abort named: the task itself, or one on which it depends.
    pub aborted_with: TaskNo,
    /// Whether its call was served when it was aborted.
    pub was_served: bool,
    /// Its last call (9.5).
    pub call: u32,
    /// The beginning of the rendezvous with this call.
    pub met: u32,
    /// The end of this call.
    pub freed: u32,
    /// The last time that a call left one of its queues.
    pub left_queue: u32,
    /// The last termination of a task that depended on its body (9.4).
    pub last_dependent: u32,
}

impl Marks {
    fn made(position: u32) -> Self {
        Marks {
            made: position,
            started: 0,
            up: 0,
            has_failed: false,
            completed: 0,
            terminated: 0,
            aborted: 0,
            aborted_with: TaskNo(0),
            was_served: false,
            call: 0,
            met: 0,
            freed: 0,
            left_queue: 0,
            last_dependent: 0,
        }
    }

    /// Whether its call stands in a queue.
    pub fn is_queued(&self) -> bool {
        self.call > 0 && self.met == 0 && self.freed == 0
    }

    /// Whether its call is served.
    pub fn is_served(&self) -> bool {
        self.met > 0 && self.freed == 0
    }

    /// Since when nobody can call it, and what it is since then; none if it can be called (9.9).
    pub fn over(&self) -> Option<(&'static str, u32)> {
        match earliest(&[self.aborted, self.completed, self.terminated]) {
            0 => None,
            first if first == self.aborted => Some(("abnormal since the abort at", first)),
            first if first == self.completed => Some(("completed since", first)),
            first => Some(("terminated since", first)),
        }
    }

    /// When its activation was over, by itself or since the task was (9.3); 0 if it isn't.
    pub fn activated(&self) -> u32 {
        earliest(&[self.up, self.completed, self.terminated])
    }
}

/// The first of some positions that isn't 0; 0 if each is.
pub fn earliest(positions: &[u32]) -> u32 {
    let mut first = 0u32;
    for position in positions {
        if *position > 0 && (first == 0 || *position < first) {
            first = *position;
        }
    }
    first
}

/// What came of a block so far, as of a task.
#[derive(Clone, Copy, Debug)]
pub struct BlockMarks {
    /// That its task came to its end (9.4).
    pub closed: u32,
    /// The last termination of a task that depended on it (9.4).
    pub last_dependent: u32,
}

/// What came so far, up to an event.
#[derive(Drop)]
pub struct Past {
    lives: Lives,
    /// How many spans had ended before this event.
    spans_before: usize,
    tasks: Vec<Marks>,
    /// What came of the block that was opened at each position; of other events nothing.
    blocks: Vec<BlockMarks>,
    /// How many calls stand in the queue of each entry, by the number of its slot.
    queues: Vec<u16>,
    /// The last tick, 0 if there was none.
    pub ticked: u32,
    /// Of the last master whose dependents quit, the last termination of one before that, 0 if there was none (9.4).
    pub gone_before: u32,
}

impl Past {
    /// Nothing came yet.
    pub fn new(alloc: Global) -> Result<Self, AllocError> {
        let mut tasks = Vec::new(alloc);
        tasks.push(Marks::made(0))?;
        Ok(Past {
            lives: Lives::new(alloc)?,
            spans_before: 0,
            tasks,
            blocks: Vec::new(alloc),
            queues: no_queues(alloc)?,
            ticked: 0,
            gone_before: 0,
        })
    }

    /// What tasks do now.
    pub fn lives(&self) -> &Lives {
        &self.lives
    }

    /// What came of a task; nothing of one that doesn't exist.
    pub fn of_task(&self, task: TaskNo) -> Marks {
        match self.tasks.get(usize::from(task.0)) {
            Some(marks) => *marks,
            None => Marks::made(0),
        }
    }

    /// What came of the block that was opened at a position.
    pub fn of_block(&self, opened: u32) -> BlockMarks {
        match self.blocks.get((opened as usize).saturating_sub(1)) {
            Some(marks) => *marks,
            None => BlockMarks {
                closed: 0,
                last_dependent: 0,
            },
        }
    }

    /// How many calls stand in the queue of an entry.
    pub fn queued(&self, scene: Scene<'_>, task: TaskNo, entry: Entry) -> u16 {
        match scene.kernel.slot(task, entry) {
            Some(slot) => self.queues.get(usize::from(slot)).copied().unwrap_or(0),
            None => 0,
        }
    }

    /// What tasks did until the last event, those that do something else since.
    pub fn ended(&self) -> &[Span] {
        self.lives.spans().get(self.spans_before..).unwrap_or(&[])
    }

    /// Takes the event at a position, after all events before it.
    pub fn take(
        &mut self,
        scene: Scene<'_>,
        position: u32,
        event: &Event,
    ) -> Result<(), AllocError> {
        self.spans_before = self.lives.spans().len();
        self.lives.take(scene.events, position, event)?;
        self.blocks.push(BlockMarks {
            closed: 0,
            last_dependent: 0,
        })?;
        if let Event::Created { .. } = event {
            self.tasks.push(Marks::made(position))?;
        }
        self.note(scene, position, event);
        Ok(())
    }

    fn note(&mut self, scene: Scene<'_>, position: u32, event: &Event) {
        match event {
            Event::Started { tasks, .. } => self.note_start(position, tasks.as_slice()),
            Event::Elaborated { by, ok } => self.note_up(position, *by, *ok),
            Event::Called {
                by,
                callee,
                entry,
                ..
            } => self.note_call(scene, position, *by, *callee, *entry),
            Event::Closed { block, .. } => self.note_close(position, *block),
            Event::Completed { by } => self.note_completion(position, *by),
            Event::Aborted { tasks, .. } => self.note_abort(scene, position, tasks.as_slice()),
            Event::Ticked { .. } => self.ticked = position,
            Event::Halted { task } => self.note_halt(scene, position, *task),
            Event::Met { call, .. } => self.note_meeting(scene, position, *call),
            Event::Failed { call } | Event::Cancelled { call } | Event::Ended { call, .. } => {
                self.note_release(scene, position, *call)
            }
            Event::Gone { task } => self.note_termination(scene, position, *task),
            Event::Quit { master } => self.note_quit(scene, position, *master),
            Event::Opened { .. }
            | Event::Created { .. }
            | Event::Waiting { .. }
            | Event::Paused { .. }
            | Event::Passed { .. }
            | Event::Woken { .. }
            | Event::Activated { .. }
            | Event::Left { .. } => {}
        }
    }

    fn task_mut(&mut self, task: TaskNo) -> Option<&mut Marks> {
        self.tasks.get_mut(usize::from(task.0))
    }

    fn note_start(&mut self, position: u32, tasks: &[TaskNo]) {
        for task in tasks {
            if let Some(marks) = self.task_mut(*task) {
                marks.started = position;
            }
        }
    }

    fn note_up(&mut self, position: u32, task: TaskNo, ok: bool) {
        if let Some(marks) = self.task_mut(task) {
            marks.up = position;
            marks.has_failed = !ok;
            if !ok {
                marks.completed = position;
            }
        }
    }

    fn note_completion(&mut self, position: u32, task: TaskNo) {
        if let Some(marks) = self.task_mut(task) {
            marks.completed = position;
        }
    }

    fn note_close(&mut self, position: u32, opened: u32) {
        if let Some(marks) = self.blocks.get_mut((opened as usize).saturating_sub(1)) {
            marks.closed = position;
        }
    }

    fn note_call(
        &mut self,
        scene: Scene<'_>,
        position: u32,
        task: TaskNo,
        callee: TaskNo,
        entry: Entry,
    ) {
        if let Some(marks) = self.task_mut(task) {
            marks.call = position;
            marks.met = 0;
            marks.freed = 0;
        }
        if let Some(count) = self.queue_mut(scene, callee, entry) {
            *count = count.saturating_add(1);
        }
    }

    fn queue_mut(&mut self, scene: Scene<'_>, task: TaskNo, entry: Entry) -> Option<&mut u16> {
        let slot = scene.kernel.slot(task, entry)?;
        self.queues.get_mut(usize::from(slot))
    }

    // A call leaves its queue by the event at a position.
    fn take_out(&mut self, scene: Scene<'_>, position: u32, call: u32) {
        let Some(Event::Called { callee, entry, .. }) = event_in(scene.events, call) else {
            return;
        };
        if let Some(count) = self.queue_mut(scene, *callee, *entry) {
            *count = count.saturating_sub(1);
        }
        if let Some(marks) = self.task_mut(*callee) {
            marks.left_queue = position;
        }
    }

    fn note_meeting(&mut self, scene: Scene<'_>, position: u32, call: u32) {
        self.take_out(scene, position, call);
        if let Some(caller) = holder(scene.events, call)
            && let Some(marks) = self.task_mut(caller)
        {
            marks.met = position;
        }
    }

    fn note_release(&mut self, scene: Scene<'_>, position: u32, call: u32) {
        let Some(caller) = holder(scene.events, call) else {
            return;
        };
        if self.of_task(caller).is_queued() {
            self.take_out(scene, position, call);
        }
        if let Some(marks) = self.task_mut(caller) {
            marks.freed = position;
        }
    }

    // The queued call of a task that is halted leaves its queue, with no event of its own (9.10).
    fn note_halt(&mut self, scene: Scene<'_>, position: u32, task: TaskNo) {
        let marks = self.of_task(task);
        if marks.is_queued() {
            self.note_release(scene, position, marks.call);
        }
        self.note_completion(position, task);
    }

    // The task among some that a task is, or else the nearest one on which it depends (9.4).
    fn named(&self, scene: Scene<'_>, tasks: &[TaskNo], task: TaskNo) -> Option<TaskNo> {
        let mut next = Some(Master::Body(task));
        for _ in 0..MOST_MASTERS {
            match next {
                Some(Master::Body(around)) if around.is_listed(tasks) => return Some(around),
                Some(around) => next = self.lives.around(scene.events, around),
                None => return None,
            }
        }
        None
    }

    fn note_abort(&mut self, scene: Scene<'_>, position: u32, tasks: &[TaskNo]) {
        for at in self.spans_before..self.lives.spans().len() {
            if let Some(span) = self.lives.spans().get(at).copied()
                && self.of_task(span.task).aborted == 0
            {
                let named = self.named(scene, tasks, span.task).unwrap_or(span.task);
                self.note_hit(position, span.task, named);
            }
        }
    }

    fn note_hit(&mut self, position: u32, task: TaskNo, named: TaskNo) {
        if let Some(marks) = self.task_mut(task) {
            marks.aborted = position;
            marks.aborted_with = named;
            marks.was_served = marks.is_served();
        }
    }

    fn note_quit(&mut self, scene: Scene<'_>, position: u32, master: Master) {
        self.gone_before = match master {
            Master::Body(task) => self.of_task(task).last_dependent,
            Master::Block(opened) => self.of_block(opened).last_dependent,
        };
        for at in self.spans_before..self.lives.spans().len() {
            if let Some(span) = self.lives.spans().get(at).copied() {
                self.note_termination(scene, position, span.task);
            }
        }
    }

    // A task is terminated, so each master on which it depends has a live dependent less (9.4).
    fn note_termination(&mut self, scene: Scene<'_>, position: u32, task: TaskNo) {
        if let Some(marks) = self.task_mut(task) {
            marks.terminated = position;
        }
        let mut next = self.lives.around(scene.events, Master::Body(task));
        for _ in 0..MOST_MASTERS {
            match next {
                Some(master) => {
                    self.note_dependent(position, master);
                    next = self.lives.around(scene.events, master);
                }
                None => return,
            }
        }
    }

    fn note_dependent(&mut self, position: u32, master: Master) {
        match master {
            Master::Body(task) => {
                if let Some(marks) = self.task_mut(task) {
                    marks.last_dependent = position;
                }
            }
            Master::Block(opened) => {
                if let Some(marks) = self.blocks.get_mut((opened as usize).saturating_sub(1)) {
                    marks.last_dependent = position;
                }
            }
        }
    }
}

// Empty queues of all entries that there can be.
fn no_queues(alloc: Global) -> Result<Vec<u16>, AllocError> {
    let mut queues = Vec::new(alloc);
    for _ in 0..MOST_SLOTS {
        queues.push(0)?;
    }
    Ok(queues)
}
