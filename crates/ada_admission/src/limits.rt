//! Tests of the limits.

ghost use Rattle.std.specs.Prelude.{◌≡◌, ◌+◌, nat_le, nat_lt};
ghost use Rattle.ada_events.specs.declared.limits.TheConstants as most;
ghost use Rattle.ada_events.specs.Entries.{entries_in};
ghost use Rattle.ada_events.specs.Limits as limits;
ghost use Rattle.ada_events.specs.Tasks as tasks;

use ada_events::Family;
use ada_events::limits::{LAST_MOMENT, MOST_APPENDED, MOST_EVENTS, MOST_SLOTS, MOST_TASKS};
use ada_view::View;

/// Whether a duration from a moment on ends behind the last moment.
#[tactic(auto, unfolding(ada_events::specs::Asks::due_after))]
pub(crate) fn ends_too_late(now: i64, duration: i64) -> bool
    ensures { result ≡ limits.ends_too_late now duration }
{
    now.saturating_add(duration.max(0)) > LAST_MOMENT
}

/// Whether there are the most tasks.
pub(crate) fn has_most_tasks(view: &View) -> bool
    ensures { result ≡ nat_le most.MOST_TASKS (tasks.task_count view.now) }
{
    MOST_TASKS as u16 <= view.tables().tasks()
}

// How many entries all tasks have.
fn slot_count(view: &View) -> u16
    ensures { result ≡ limits.slot_count view.now }
{
    view.tables().slots()
}

/// Whether with these entries there would be more than the most.
pub(crate) fn passes_most_slots(view: &View, families: &[Family]) -> bool
    ensures { result ≡ nat_lt most.MOST_SLOTS
        (limits.slot_count view.now + entries_in families.now) }
{
    let more = Family::entries_in(families);
    u64::from(slot_count(view)).saturating_add(more) > MOST_SLOTS as u64
}

/// Whether the journal hasn't room for the most events that one request appends.
#[tactic(auto, unfolding(ada_events::specs::Limits::is_full))]
pub(crate) fn is_full(view: &View) -> bool
    ensures { result ≡ limits.is_full view.now }
{
    MOST_EVENTS < view.len() as usize + MOST_APPENDED
}
