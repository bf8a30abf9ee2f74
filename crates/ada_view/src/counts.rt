//! COUNT of a task's own entries (9.9).

ghost use Rattle.std.specs.Prelude.{◌≡◌, ◌<◌, true, slice_get};
ghost use Rattle.ada_events.specs.Attributes.{own_count};
ghost use Rattle.ada_events.specs.Entries.{is_in_range};
ghost use Rattle.ada_events.specs.Phases.{is_running};
ghost use Rattle.ada_events.specs.Tasks.{families_of, task_count};

use crate::View;
use crate::queries::known;
use ada_events::{Entry, Family, Refusal, TaskNo};

/// The attribute COUNT of an entry of the asking task's own (9.9), at most 256. Refused for the first that applies of
/// `UnknownTask`, `NotRunning`, `NoSuchFamily` and `ConstraintError`.
pub fn count(view: &View<'_>, by: TaskNo, entry: Entry) -> Result<u16, Refusal>
    ensures { result ≡ own_count view.now by.0 entry }
{
    let Some(kept) = known(view, by) else {
        return Err(Refusal::UnknownTask);
    };
    if !kept.is_running() {
        return Err(Refusal::NotRunning);
    }
    running_count(view, by, entry)
}

/// The family of that number among those that a task declares.
pub(crate) fn family(view: &View<'_>, task: TaskNo, number: u8) -> Option<Family>
    requires { task.0 < task_count view.now }
    ensures { result ≡ slice_get (families_of view.now task.0) number }
{
    let families = view.tables().families(task);
    families.as_slice().get(usize::from(number)).copied()
}

/// Whether the index of an entry lies in the range of its family.
pub(crate) fn is_within(family: Family, entry: Entry) -> bool
    ensures { result ≡ is_in_range family entry.index }
{
    family.contains(entry.index)
}

// How many calls wait at an entry of a task that runs.
fn running_count(view: &View<'_>, by: TaskNo, entry: Entry) -> Result<u16, Refusal>
    requires known { by.0 < task_count view.now }
    requires runs { is_running view.now by.0 ≡ true }
    ensures { result ≡ own_count view.now by.0 entry }
{
    let Some(family) = family(view, by, entry.family) else {
        return Err(Refusal::NoSuchFamily);
    };
    if !is_within(family, entry) {
        return Err(Refusal::ConstraintError);
    }
    Ok(view.tables().queue_len(by, entry))
}
