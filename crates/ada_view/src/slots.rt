//! Slots: all entries of all tasks (9.5), numbered from 0 in order of task, family and index.

ghost use Rattle.std.specs.Prelude.{◌≡◌, ◌<◌};
ghost use Rattle.ada_events.specs.Limits as limits;
ghost use Rattle.ada_events.specs.Slots.{slot_of};
ghost use Rattle.ada_events.specs.Tasks.{task_count};

use crate::View;
use crate::counts::{family, is_within};
use ada_events::{Entry, TaskNo};

/// How many entries all tasks have together, at most 1,024.
pub fn slot_count(view: &View<'_>) -> u16
    ensures { result ≡ limits.slot_count view.now }
{
    view.tables().slots()
}

// The slot of an entry of a task that is there; none where the task doesn't have the entry.
fn known_slot(view: &View<'_>, task: TaskNo, entry: Entry) -> Option<u16>
    requires { task.0 < task_count view.now }
    ensures { result ≡ slot_of view.now task.0 entry }
{
    let family = family(view, task, entry.family)?;
    if is_within(family, entry) {
        Some(view.tables().slot(task, entry))
    } else {
        None
    }
}

/// The slot of an entry, below 1,024; none where there is no such task, or the task doesn't have the entry (9.5).
pub fn slot(view: &View<'_>, task: TaskNo, entry: Entry) -> Option<u16>
    ensures { result ≡ slot_of view.now task.0 entry }
{
    if task.0 < view.tables().tasks() {
        known_slot(view, task, entry)
    } else {
        None
    }
}
