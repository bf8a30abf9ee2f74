//! Circles of tasks that wait for one another.

use crate::queues::Queues;
use crate::standing::Standing;
use ada_events::journal::event_in;
use ada_events::{Event, TaskNo};
use ada_explain::Scene;
use ada_explain::circles::circles;
use ada_explain::end::End;
use ada_explain::reasons::maker;
use ada_waiting::Reason;
use std::alloc::{AllocError, Global};

/// Which tasks may be held by a circle.
#[derive(Drop)]
pub struct Circles {
    /// Whether each task waits for others, but for those that were let go.
    held: Vec<bool>,
}

impl Circles {
    /// No task waits for others.
    pub fn new(alloc: Global) -> Self {
        Circles {
            held: Vec::new(alloc),
        }
    }

    /// Appends the names of the tasks of each circle. They are looked for only where there may be one.
    pub fn write(
        &mut self,
        out: &mut String,
        end: &End<'_>,
        standing: &Standing,
        queues: &Queues,
    ) -> Result<(), AllocError> {
        self.take(standing)?;
        if self.may_begin(end.scene, standing, queues) && self.some_stay(end.scene, standing) {
            write_all(out, end)
        } else {
            out.push_str("[]")
        }
    }

    // Holds each task that waits for others.
    fn take(&mut self, standing: &Standing) -> Result<(), AllocError> {
        self.held.clear();
        for doing in &standing.doings {
            let is_held = doing.reason.is_some_and(waits_for_others);
            self.held.push(is_held)?;
        }
        Ok(())
    }

    fn is_held(&self, task: TaskNo) -> bool {
        matches!(self.held.get(usize::from(task.0)), Some(true))
    }

    // Whether a task waits for one that is held, its dependents left out: they are made after it, so in a circle one
    // task at least waits for another that isn't its dependent. All calls of a queue wait for one task.
    fn may_begin(&self, scene: Scene<'_>, standing: &Standing, queues: &Queues) -> bool {
        let mut calls = queues.calls().iter();
        let mut doings = standing.doings.iter().enumerate();
        calls.any(|queued| queued.is_first && self.is_held(queued.callee))
            || doings.any(|(task, doing)| match doing.reason {
                Some(Reason::Queued { .. } | Reason::Leaving { .. } | Reason::Completed) => false,
                Some(reason) => self.waits_for_held(scene, task_of(task), reason),
                None => false,
            })
    }

    // Whether a task that waits for a reason waits for one that is held. Of its dependents it is known only that they
    // are made after it.
    fn waits_for_held(&self, scene: Scene<'_>, task: TaskNo, reason: Reason) -> bool {
        match reason {
            Reason::NotStarted => match maker(scene, task) {
                Some(maker) => self.is_held(maker),
                None => false,
            },
            Reason::Activating { start } => self.holds_started(scene, start),
            Reason::Queued { call } | Reason::InRendezvous { call } => {
                self.holds_called(scene, call)
            }
            Reason::Waiting { .. } | Reason::Delayed { .. } => false,
            Reason::Leaving { .. } | Reason::Completed => {
                let mut later = self.held.iter().skip(usize::from(task.0).saturating_add(1));
                later.any(|is_held| *is_held)
            }
        }
    }

    fn holds_started(&self, scene: Scene<'_>, start: u32) -> bool {
        match event_in(scene.events, start) {
            Some(Event::Started { tasks, .. }) => {
                let mut started = tasks.as_slice().iter();
                started.any(|task| self.is_held(*task))
            }
            _ => false,
        }
    }

    fn holds_called(&self, scene: Scene<'_>, call: u32) -> bool {
        match event_in(scene.events, call) {
            Some(Event::Called { callee, .. }) => self.is_held(*callee),
            _ => false,
        }
    }

    // Lets go the tasks that wait for none that is held, until there is none of them; whether some stay.
    fn some_stay(&mut self, scene: Scene<'_>, standing: &Standing) -> bool {
        let mut goes_on = true;
        for _ in 0..standing.doings.len() {
            goes_on = goes_on && self.release(scene, standing);
        }
        self.held.iter().any(|is_held| *is_held)
    }

    // Lets go, once, each task that waits for none that is held; whether there was one.
    fn release(&mut self, scene: Scene<'_>, standing: &Standing) -> bool {
        let mut some = false;
        for (task, doing) in standing.doings.iter().enumerate() {
            if let Some(reason) = doing.reason
                && self.is_held(task_of(task))
                && !self.waits_for_held(scene, task_of(task), reason)
                && let Some(is_held) = self.held.get_mut(task)
            {
                *is_held = false;
                some = true;
            }
        }
        some
    }
}

fn task_of(place: usize) -> TaskNo {
    TaskNo((place % 65_536) as u16)
}

// Whether who doesn't go on for a reason waits for other tasks.
fn waits_for_others(reason: Reason) -> bool {
    !matches!(reason, Reason::Waiting { .. } | Reason::Delayed { .. })
}

fn write_all(out: &mut String, end: &End<'_>) -> Result<(), AllocError> {
    let mut before = "[[";
    for circle in &circles(*out.allocator(), end)? {
        out.push_str(before)?;
        before = "],[";
        write_circle(out, end.scene, circle)?;
    }
    out.push_str(if before == "[[" { "[]" } else { "]]" })
}

fn write_circle(out: &mut String, scene: Scene<'_>, circle: &[TaskNo]) -> Result<(), AllocError> {
    let mut before = "\"";
    for task in circle {
        out.push_str(before)?;
        out.push_str(scene.task(*task))?;
        before = "\",\"";
    }
    out.push_str(if circle.is_empty() { "" } else { "\"" })
}
