//! Circles of tasks that wait for one another.

use crate::end::End;
use ada_events::TaskNo;
use std::alloc::{AllocError, Global};

/// For whom each task waits, and which tasks can be let go on by others alone that can't go on themselves.
#[derive(Drop)]
struct Waits {
    /// The tasks for which each task waits, each of which has to go on before it does. One whose time is limited waits
    /// for none of them, since a tick lets it go on.
    awaited: Vec<Vec<TaskNo>>,
    /// Whether each task waits for one that is held too.
    held: Vec<bool>,
}

impl Waits {
    fn of(alloc: Global, end: &End<'_>) -> Result<Self, AllocError> {
        let mut all = Vec::new(alloc);
        let mut held = Vec::new(alloc);
        for task in 0..end.tasks() {
            all.push(end.awaited(alloc, TaskNo(task))?)?;
            held.push(true)?;
        }
        Ok(Waits { awaited: all, held })
    }

    fn is_held(&self, task: TaskNo) -> bool {
        matches!(self.held.get(usize::from(task.0)), Some(true))
    }

    // The first task that is held and for which this one waits.
    fn held_by(&self, task: TaskNo) -> Option<TaskNo> {
        let others = self.awaited.get(usize::from(task.0))?;
        others.iter().copied().find(|other| self.is_held(*other))
    }

    // Lets the task go that waits for none that is held; whether it was held.
    fn release(&mut self, task: TaskNo) -> bool {
        if !self.is_held(task) || self.held_by(task).is_some() {
            return false;
        }
        match self.held.get_mut(usize::from(task.0)) {
            Some(held) => {
                *held = false;
                true
            }
            None => false,
        }
    }

    // Lets go, once, each task that waits for none that is held; whether there was one.
    fn release_some(&mut self, tasks: u16) -> bool {
        let mut some = false;
        for task in 0..tasks {
            some = self.release(TaskNo(task)) || some;
        }
        some
    }

    // Lets go all tasks but those that wait, at last, for themselves or for those that do.
    fn release_all(&mut self, tasks: u16) {
        for _ in 0..tasks {
            if !self.release_some(tasks) {
                return;
            }
        }
    }

    // The tasks that are met from a task on, up to the first that is met again or was seen.
    fn path(
        &self,
        alloc: Global,
        from: TaskNo,
        seen: &mut [bool; 256],
    ) -> Result<(Vec<TaskNo>, TaskNo), AllocError> {
        let mut path = Vec::new(alloc);
        let mut task = from;
        for _ in 0..256u16 {
            match seen.get_mut(usize::from(task.0)) {
                Some(seen) if !*seen => *seen = true,
                _ => return Ok((path, task)),
            }
            path.push(task)?;
            match self.held_by(task) {
                Some(next) => task = next,
                None => return Ok((path, task)),
            }
        }
        Ok((path, task))
    }
}

// The end of a path from the task on that it comes back to, empty if it doesn't.
fn circle_in(alloc: Global, path: &[TaskNo], back: TaskNo) -> Result<Vec<TaskNo>, AllocError> {
    let mut circle = Vec::new(alloc);
    for task in path {
        if task.0 == back.0 || !circle.is_empty() {
            circle.push(*task)?;
        }
    }
    Ok(circle)
}

/// Circles of tasks, of which each waits for the next, and the last for the first; none of them can go on. Each task
/// that can't go on for that cause leads to one of them.
pub fn circles(alloc: Global, end: &End<'_>) -> Result<Vec<Vec<TaskNo>>, AllocError> {
    let mut waits = Waits::of(alloc, end)?;
    waits.release_all(end.tasks());
    let mut seen = [false; 256];
    let mut all = Vec::new(alloc);
    for task in 0..end.tasks() {
        if waits.is_held(TaskNo(task)) {
            let (path, back) = waits.path(alloc, TaskNo(task), &mut seen)?;
            let circle = circle_in(alloc, &path, back)?;
            if !circle.is_empty() {
                all.push(circle)?;
            }
        }
    }
    Ok(all)
}
