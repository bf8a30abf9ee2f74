//! Events of a kernel that keeps everything beside those of one that lives on: they are told alike, since there the
//! names of tasks and positions are the same numbers.

use ada_border::events::plain_of;
use ada_border::lists::{choices_of, dues_of, families_of, lengths_of, tasks_of};
use ada_events::Event;
use ada_lasting::LongKernel;

// Whether the task at each place of the event's list is the wanted one.
fn names_like(long: &LongKernel, at: usize, wanted: &Event) -> bool {
    let tasks = tasks_of(wanted);
    let mut alike = long.event_task(at, tasks.len()).is_none();
    for (place, task) in tasks.iter().enumerate() {
        alike = alike && long.event_task(at, place) == Some(u64::from(task.0));
    }
    alike
}

/// Whether a kernel that lives on tells this event of one that keeps everything, at a place of the last request's.
pub fn tells(long: &LongKernel, at: usize, wanted: &Event) -> bool {
    long.event(at) == Some(plain_of(wanted))
        && long.event_lengths(at) == Some(lengths_of(wanted))
        && names_like(long, at, wanted)
        && long.event_families(at) == families_of(wanted)
        && long.event_choices(at) == choices_of(wanted)
        && long.event_delays(at) == dues_of(wanted)
}
