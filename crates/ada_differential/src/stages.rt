//! What each task does, as a picture shows it and as the definitions say.
ghost use Rattle.std.specs.Prelude.{◌<◌, ◌^◌, length};

use ada_events::{Event, TaskNo};
use ada_explain::lives::{Lives, Stage};
use ada_reference::phases::{is_abnormal, is_terminated};
use ada_reference::{is_elaborated, reason_of};
use ada_waiting::Reason;

/// What a task does by a journal's definitions.
fn stage_of(events: &[Event], task: TaskNo) -> Stage
    requires { length events.now < 2 ^ 32 }
{
    match reason_of(events, task) {
        _ if is_terminated(events, task) => Stage::Terminated,
        Some(Reason::Completed) => Stage::Completed,
        _ if is_abnormal(events, task) => Stage::Abnormal,
        Some(Reason::NotStarted) => Stage::NotStarted,
        Some(Reason::Activating { .. }) => Stage::Starting,
        Some(Reason::Queued { .. }) => Stage::Calling,
        Some(Reason::InRendezvous { .. }) => Stage::InRendezvous,
        Some(Reason::Waiting { .. }) => Stage::Waiting,
        Some(Reason::Delayed { .. }) => Stage::Delayed,
        Some(Reason::Leaving { .. }) => Stage::Leaving,
        None if is_elaborated(events, task) => Stage::Running,
        None => Stage::Activating,
    }
}

/// Whether each of so many tasks does what a picture shows.
pub fn agree_on_stages(lives: &Lives, events: &[Event], tasks: u16) -> bool
    requires { length events.now < 2 ^ 32 }
{
    (0..tasks).all(|task| lives.stage(TaskNo(task)) == stage_of(events, TaskNo(task)))
}
