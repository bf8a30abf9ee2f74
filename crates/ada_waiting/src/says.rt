//! What one event says of who goes on.
ghost use Rattle.std.specs.Prelude.{◌≡◌};
ghost use Rattle.std.specs.Option.{option_map};
ghost use Rattle.ada_events.specs.Says as says;
ghost use Rattle.ada_events.specs.Search.{is_number};

use ada_events::{Event, TaskNo};

/// Whether this is the task.
pub(crate) fn is_task(task: TaskNo, found: Option<TaskNo>) -> bool
    ensures { result ≡ is_number task.0 (option_map (λ (t : TaskNo). t.0) found) }
{
    match found {
        Some(other) => task.0 == other.0,
        None => false,
    }
}

/// The tasks that an event starts to activate (9.3).
#[tactic(auto, unfolding(ada_events::specs::Says::started_in))]
pub(crate) fn started_in(event: &Event) -> &[TaskNo]
    ensures { result.now ≡ says.started_in event.now }
{
    match event {
        Event::Started { tasks, .. } => tasks.as_slice(),
        _ => &[],
    }
}

/// The task that an event holds up: the caller, the waiting, delayed, activating or leaving one.
#[tactic(auto, unfolding(ada_events::specs::Says::held_in))]
pub(crate) fn held_in(event: &Event) -> Option<TaskNo>
    ensures { option_map (λ (t : TaskNo). t.0) result ≡ says.held_in event.now }
{
    match event {
        Event::Called { by, .. }
        | Event::Waiting { by, .. }
        | Event::Paused { by, .. }
        | Event::Started { by, .. }
        | Event::Closed { by, .. } => Some(*by),
        _ => None,
    }
}

/// The position of the call, wait, delay, start or close that an event releases.
#[tactic(auto, unfolding(ada_events::specs::Says::released_in))]
pub(crate) fn released_in(event: &Event) -> Option<u32>
    ensures { result ≡ says.released_in event.now }
{
    match event {
        Event::Ended { call, .. } | Event::Failed { call } | Event::Cancelled { call } => Some(
            *call,
        ),
        Event::Met { wait, .. } | Event::Passed { wait, .. } => Some(*wait),
        Event::Woken { pause } => Some(*pause),
        Event::Activated { start, .. } => Some(*start),
        Event::Left { close } => Some(*close),
        _ => None,
    }
}
