//! What one event says.
ghost use Rattle.std.specs.Prelude.{◌≡◌, ◌==◌};
ghost use Rattle.std.specs.Option.{option_map};
ghost use Rattle.ada_events.specs.Says as says;
ghost use Rattle.ada_events.specs.Search.{is_number, is_some_and};

use ada_events::{Event, Master, TaskNo};

/// Whether this is the position.
pub fn is_position(position: u32, found: Option<u32>) -> bool
    ensures { result ≡ is_number position found }
{
    match found {
        Some(other) => position == other,
        None => false,
    }
}

/// Whether this is the task.
pub fn is_task(task: TaskNo, found: Option<TaskNo>) -> bool
    ensures { result ≡ is_number task.0 (option_map (λ (t : TaskNo). t.0) found) }
{
    match found {
        Some(other) => task.0 == other.0,
        None => false,
    }
}

/// The moment that an event brings, in milliseconds.
#[tactic(auto, unfolding(ada_events::specs::Says::moment_in))]
pub fn moment_in(event: &Event) -> Option<i64>
    ensures { result ≡ says.moment_in event.now }
{
    match event {
        Event::Ticked { now } => Some(*now),
        _ => None,
    }
}

/// The tasks that an event starts to activate (9.3).
#[tactic(auto, unfolding(ada_events::specs::Says::started_in))]
pub fn started_in(event: &Event) -> &[TaskNo]
    ensures { result.now ≡ says.started_in event.now }
{
    match event {
        Event::Started { tasks, .. } => tasks.as_slice(),
        _ => &[],
    }
}

/// The tasks that an event names to be aborted (9.10).
#[tactic(auto, unfolding(ada_events::specs::Says::aborted_in))]
pub fn aborted_in(event: &Event) -> &[TaskNo]
    ensures { result.now ≡ says.aborted_in event.now }
{
    match event {
        Event::Aborted { tasks, .. } => tasks.as_slice(),
        _ => &[],
    }
}

/// The task whose activation an event ends (9.3).
#[tactic(auto, unfolding(ada_events::specs::Says::elaborated_in))]
pub fn elaborated_in(event: &Event) -> Option<TaskNo>
    ensures { option_map (λ (t : TaskNo). t.0) result ≡ says.elaborated_in event.now }
{
    match event {
        Event::Elaborated { by, .. } => Some(*by),
        _ => None,
    }
}

/// The task whose activation an event ends by an exception (9.3).
#[tactic(auto, unfolding(ada_events::specs::Says::failed_in))]
pub fn failed_in(event: &Event) -> Option<TaskNo>
    ensures { option_map (λ (t : TaskNo). t.0) result ≡ says.failed_in event.now }
{
    match event {
        Event::Elaborated { by, ok: false } => Some(*by),
        _ => None,
    }
}

/// The task that an event completes (9.3, 9.4, 9.10).
#[tactic(auto, unfolding(ada_events::specs::Says::completed_in))]
pub fn completed_in(event: &Event) -> Option<TaskNo>
    ensures { option_map (λ (t : TaskNo). t.0) result ≡ says.completed_in event.now }
{
    match event {
        Event::Completed { by } | Event::Elaborated { by, ok: false } => Some(*by),
        Event::Halted { task } => Some(*task),
        _ => None,
    }
}

/// The task that an event terminates by itself (9.4).
#[tactic(auto, unfolding(ada_events::specs::Says::gone_in))]
pub fn gone_in(event: &Event) -> Option<TaskNo>
    ensures { option_map (λ (t : TaskNo). t.0) result ≡ says.gone_in event.now }
{
    match event {
        Event::Gone { task } => Some(*task),
        _ => None,
    }
}

/// The master whose dependents an event terminates together (9.4).
#[tactic(auto, unfolding(ada_events::specs::Says::quit_in))]
pub fn quit_in(event: &Event) -> Option<Master>
    ensures { result ≡ says.quit_in event.now }
{
    match event {
        Event::Quit { master } => Some(*master),
        _ => None,
    }
}

/// The task that an event holds up: the caller, the waiting, delayed, activating or leaving one.
#[tactic(auto, unfolding(ada_events::specs::Says::held_in))]
pub fn held_in(event: &Event) -> Option<TaskNo>
    ensures { option_map (λ (t : TaskNo). t.0) result ≡ says.held_in event.now }
{
    match event {
        Event::Called { by, .. }
        | Event::Waiting { by, .. }
        | Event::Paused { by, .. }
        | Event::Started { by, .. }
        | Event::Closed { by, .. } => Some(*by),
        _ => None,
    }
}

/// The position of the call, wait, delay, start or close that an event releases.
#[tactic(auto, unfolding(ada_events::specs::Says::released_in))]
pub fn released_in(event: &Event) -> Option<u32>
    ensures { result ≡ says.released_in event.now }
{
    match event {
        Event::Ended { call, .. } | Event::Failed { call } | Event::Cancelled { call } => Some(
            *call,
        ),
        Event::Met { wait, .. } | Event::Passed { wait, .. } => Some(*wait),
        Event::Woken { pause } => Some(*pause),
        Event::Activated { start, .. } => Some(*start),
        Event::Left { close } => Some(*close),
        _ => None,
    }
}

/// The position of the close whose block an event leaves (9.4).
#[tactic(auto, unfolding(ada_events::specs::Says::left_in))]
pub fn left_in(event: &Event) -> Option<u32>
    ensures { result ≡ says.left_in event.now }
{
    match event {
        Event::Left { close } => Some(*close),
        _ => None,
    }
}

/// With the call the event begins a rendezvous (9.5).
#[tactic(auto, unfolding(ada_events::specs::Says::meeting_in))]
pub fn is_meeting_of(call: u32, event: &Event) -> bool
    ensures { result ≡ is_some_and (says.meeting_in event.now)
        (λ (m : says.Meeting). m.call == call) }
{
    match event {
        Event::Met { call: met, .. } => *met == call,
        _ => false,
    }
}

/// The event is a call by the task (9.5).
#[tactic(auto, unfolding(ada_events::specs::Says::call_in))]
pub fn is_call_by(task: TaskNo, event: &Event) -> bool
    ensures { result ≡ is_some_and (says.call_in event.now) (λ (c : says.Call). c.by == task.0) }
{
    match event {
        Event::Called { by, .. } => by.0 == task.0,
        _ => false,
    }
}

/// The event is a call to the task (9.5).
#[tactic(auto, unfolding(ada_events::specs::Says::call_in))]
pub fn is_call_to(task: TaskNo, event: &Event) -> bool
    ensures { result ≡ is_some_and (says.call_in event.now)
        (λ (c : says.Call). c.callee == task.0) }
{
    match event {
        Event::Called { callee, .. } => callee.0 == task.0,
        _ => false,
    }
}

/// The event is a wait by the task (9.7.1).
#[tactic(auto, unfolding(ada_events::specs::Says::wait_in))]
pub fn is_wait_by(task: TaskNo, event: &Event) -> bool
    ensures { result ≡ is_some_and (says.wait_in event.now) (λ (w : says.Wait). w.by == task.0) }
{
    match event {
        Event::Waiting { by, .. } => by.0 == task.0,
        _ => false,
    }
}

/// The event is a close of the block (9.4).
#[tactic(auto, unfolding(ada_events::specs::Says::closing_in))]
pub fn is_close_of(block: u32, event: &Event) -> bool
    ensures { result ≡ is_some_and (says.closing_in event.now)
        (λ (c : says.Closing). c.block == block) }
{
    match event {
        Event::Closed { block: closed, .. } => *closed == block,
        _ => false,
    }
}
