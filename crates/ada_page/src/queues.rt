//! Who waits at which entry, in which order.

use crate::changing::Changing;
use ada_events::journal::event_in;
use ada_events::{Entry, Event, TaskNo};
use ada_explain::Scene;
use std::alloc::{AllocError, Global};

/// A call that stands in the queue of an entry.
#[derive(Clone, Copy, Debug, PartialEq, Eq)]
pub struct Queued {
    pub caller: TaskNo,
    pub callee: TaskNo,
    pub entry: Entry,
    /// Whether it is the first one of its queue.
    pub is_first: bool,
}

impl Queued {
    // Whether both calls stand in one queue.
    fn is_beside(&self, other: &Queued) -> bool {
        self.callee == other.callee && self.entry == other.entry
    }
}

/// Calls that stand in queues, in the order in which they came.
#[derive(Drop)]
struct Calls {
    calls: Vec<Queued>,
    /// The name of each task as an item of a list, in quotation marks after a comma.
    items: Vec<String>,
}

/// The calls that stand in queues, and what was told last of them.
#[derive(Drop)]
pub struct Queues {
    /// Their positions, in the order in which they came.
    positions: Vec<u32>,
    calls: Calls,
    told: Changing,
}

impl Queues {
    /// No call stands in a queue, and nothing was told yet.
    pub fn new(alloc: Global) -> Self {
        Queues {
            positions: Vec::new(alloc),
            calls: Calls {
                calls: Vec::new(alloc),
                items: Vec::new(alloc),
            },
            told: Changing::new(alloc),
        }
    }

    /// The calls.
    pub fn calls(&self) -> &[Queued] {
        &self.calls.calls
    }

    /// Takes the calls at some positions in place of these, and appends the callers of each queue that isn't empty, the
    /// first one first, as a member of an object, unless that was told last.
    pub fn tell(
        &mut self,
        out: &mut String,
        scene: Scene<'_>,
        positions: &[u32],
    ) -> Result<(), AllocError> {
        if self.positions.as_slice() == positions && !self.told.is_untold() {
            return Ok(());
        }
        self.positions.clear();
        self.positions.extend_from_slice(positions)?;
        self.calls.take(scene, positions)?;
        self.calls.write(self.told.anew(), scene)?;
        self.told.put(out, ",\"queues\":")
    }
}

impl Calls {
    // Takes the calls at some positions in place of these.
    fn take(&mut self, scene: Scene<'_>, positions: &[u32]) -> Result<(), AllocError> {
        self.calls.clear();
        for call in positions {
            self.push(scene, *call)?;
        }
        self.name(scene)
    }

    // Puts a call last.
    fn push(&mut self, scene: Scene<'_>, call: u32) -> Result<(), AllocError> {
        if let Some(
            Event::Called {
                by,
                callee,
                entry,
                ..
            },
        ) = event_in(scene.events, call)
        {
            let mut queued = Queued {
                caller: *by,
                callee: *callee,
                entry: *entry,
                is_first: true,
            };
            queued.is_first = !self.calls.iter().any(|other| other.is_beside(&queued));
            self.calls.push(queued)?;
        }
        Ok(())
    }

    // Names the tasks that weren't named before.
    fn name(&mut self, scene: Scene<'_>) -> Result<(), AllocError> {
        for task in self.items.len()..usize::from(scene.kernel.tasks()) {
            let mut item = String::new(*self.items.allocator());
            item.push_str(",\"")?;
            item.push_str(scene.task(TaskNo((task % 65_536) as u16)))?;
            item.push('"')?;
            self.items.push(item)?;
        }
        Ok(())
    }

    // The name of a task as an item of a list, after others.
    fn item(&self, task: TaskNo) -> &str {
        match self.items.get(usize::from(task.0)) {
            Some(item) => item,
            None => "",
        }
    }

    fn write(&self, out: &mut String, scene: Scene<'_>) -> Result<(), AllocError> {
        let mut before = "[";
        for queued in &self.calls {
            if queued.is_first {
                out.push_str(before)?;
                before = ",";
                self.write_queue(out, scene, queued)?;
            }
        }
        out.push_str(if before == "[" { "[]" } else { "]" })
    }

    fn write_queue(
        &self,
        out: &mut String,
        scene: Scene<'_>,
        first: &Queued,
    ) -> Result<(), AllocError> {
        out.push_str("{\"task\":\"")?;
        out.push_str(scene.task(first.callee))?;
        out.push_str("\",\"entry\":\"")?;
        out.push_str(scene.family_name(first.callee, first.entry.family))?;
        let index = first.entry.index;
        write!(out, "\",\"index\":{index},\"callers\":[")?;
        out.push_str(self.item(first.caller).get(1..).unwrap_or(""))?;
        for queued in &self.calls {
            if queued.is_beside(first) && !queued.is_first {
                out.push_str(self.item(queued.caller))?;
            }
        }
        out.push_str("]}")
    }
}
