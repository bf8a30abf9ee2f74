//! Where the names that are bound stand among the names of a script.

ghost use Rattle.std.specs.Prelude.{◌≡◌, ◌↔◌, IsTrue, IfOk, None, Some, slice_get, set};
ghost use Rattle.ada_statements.specs.internal.Places.{kept, IsNoted};

use crate::Meaning;
use crate::meaning::Bound;
use ada_events::TaskNo;
use ada_events::limits::{MOST_EVENTS, MOST_TASKS};
use std::alloc::{AllocError, Global};

/// What an event of a journal made, with the place of its name.
#[derive(Clone, Copy)]
enum Spot {
    Nothing,
    Task(u16),
    Block(u16),
}

/// The places of the names that are bound, by what they are bound to: the tasks with numbers below
/// 256, and what was made or opened at positions below 65,536.
#[derive(Drop)]
pub(crate) struct Places {
    tasks: Vec<Option<u16>>,
    /// As far as something was made or opened. Room for the others lies there, and isn't written before.
    events: Vec<Spot>,
}

impl Places {
    /// No places, and room for all that a kernel makes.
    pub(crate) fn new(alloc: Global) -> Result<Self, AllocError>
        ensures { IfOk result (λ places. (bound : Bound) → kept places bound ≡ None) }
    {
        let mut tasks = Vec::new(alloc);
        tasks.resize(MOST_TASKS, None)?;
        let events = Vec::with_capacity(alloc, MOST_EVENTS)?;
        Ok(Places { tasks, events })
    }

    /// The place of the name that is bound so.
    #[inline(always)]
    pub(crate) fn get(&self, bound: Bound) -> Option<u16>
        ensures { result ≡ kept self.now bound }
    {
        match bound {
            Bound::Task(task) => *self.tasks.get(usize::from(task.0))?,
            Bound::Made(at) => match self.events.get(at as usize) {
                Some(Spot::Task(place)) => Some(*place),
                _ => None,
            },
            Bound::Opened(at) => match self.events.get(at as usize) {
                Some(Spot::Block(place)) => Some(*place),
                _ => None,
            },
        }
    }

    /// Notes the place of a name that stands for this. False where it can't be kept: a name is bound
    /// to the same already, or there is no room. What was noted is unknown then.
    pub(crate) fn note(&mut self, meaning: &Meaning, place: usize) -> bool
        ensures { IsTrue result → IsNoted self.old self.new meaning.now place }
    {
        match meaning {
            Meaning::Task {
                made: Some(made),
                ..
            } => match u16::try_from(place) {
                Ok(place) => {
                    self.reach(made.at)
                        && self.note_task(made.task, place)
                        && self.note_event(made.at, Spot::Task(place))
                }
                Err(_) => false,
            },
            Meaning::Block {
                opened: Some(opened),
            } => match u16::try_from(place) {
                Ok(place) => { self.reach(*opened) && self.note_event(*opened, Spot::Block(place)) }
                Err(_) => false,
            },
            _ => true,
        }
    }

    /// Writes the spots as far as this position, if it is one of a kernel's event.
    fn reach(&mut self, at: u32) -> bool
        ensures { (bound : Bound) → kept self.new bound ≡ kept self.old bound }
    {
        let position = at as usize;
        if position >= MOST_EVENTS {
            return false;
        }
        if position < self.events.len() {
            return true;
        }
        self.events.resize(position + 1, Spot::Nothing).is_ok()
    }

    fn note_task(&mut self, task: TaskNo, place: u16) -> bool
        ensures first { IsTrue result ↔ (slice_get self.old.tasks.items task.0 ≡ Some None) }
        ensures tasks { IsTrue result → self.new.tasks.items
            ≡ set self.old.tasks.items task.0 (Some place) }
        ensures events { self.new.events ≡ self.old.events }
    {
        let number = usize::from(task.0);
        if number >= self.tasks.len() || self.tasks[number].is_some() {
            return false;
        }
        self.tasks[number] = Some(place);
        true
    }

    fn note_event(&mut self, at: u32, spot: Spot) -> bool
        ensures first { IsTrue result ↔ (slice_get self.old.events.items at ≡ Some Spot.Nothing) }
        ensures events { IsTrue result → self.new.events.items ≡ set self.old.events.items at spot }
        ensures tasks { self.new.tasks ≡ self.old.tasks }
    {
        let position = at as usize;
        if position >= self.events.len() || !matches!(self.events[position], Spot::Nothing) {
            return false;
        }
        self.events[position] = spot;
        true
    }
}
