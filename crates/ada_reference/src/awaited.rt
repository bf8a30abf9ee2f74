//! Which tasks a task waits for.
ghost use Rattle.std.specs.Prelude.{◌≡◌, ◌<◌, ◌^◌, length, reverse};
ghost use Rattle.ada_waiting.specs.Awaited as awaited;

use crate::masters::depends_on;
use crate::phases::{has_ended, is_elaborated, is_terminated};
use crate::reasons::reason_of;
use crate::tasks::making_of;
use ada_events::journal::event_in;
use ada_events::{Event, Master, TaskNo};
use ada_waiting::Reason;

fn has_made(events: &[Event], other: TaskNo, task: TaskNo) -> bool
    requires { length events.now < 2 ^ 32 }
    ensures { result ≡ awaited.has_made (reverse events.now) other.0 task.0 }
{
    match making_of(events, task) {
        Some(making) => making.by.0 == other.0,
        None => false,
    }
}

#[tactic(auto, unfolding(ada_events::specs::Says::start_in))]
fn is_started_at(events: &[Event], start: u32, other: TaskNo) -> bool
    ensures { result ≡ awaited.is_started_at (reverse events.now) start other.0 }
{
    match event_in(events, start) {
        Some(Event::Started { tasks, .. }) => other.is_listed(tasks.as_slice()),
        _ => false,
    }
}

fn is_activating(events: &[Event], start: u32, other: TaskNo) -> bool
    requires { length events.now < 2 ^ 32 }
    ensures { result ≡ awaited.is_activating (reverse events.now) start other.0 }
{
    is_started_at(events, start, other)
        && !is_elaborated(events, other)
        && !has_ended(events, other)
}

#[tactic(auto, unfolding(ada_events::specs::Says::call_in))]
fn is_called(events: &[Event], call: u32, other: TaskNo) -> bool
    ensures { result ≡ awaited.is_called (reverse events.now) call other.0 }
{
    match event_in(events, call) {
        Some(Event::Called { callee, .. }) => callee.0 == other.0,
        _ => false,
    }
}

fn is_live_dependent(events: &[Event], master: Master, other: TaskNo) -> bool
    requires { length events.now < 2 ^ 32 }
    ensures { result ≡ awaited.is_live_dependent (reverse events.now) master other.0 }
{
    depends_on(events, other, master) && !is_terminated(events, other)
}

#[tactic(auto, unfolding(ada_events::specs::Says::closing_in))]
fn is_left_behind(events: &[Event], close: u32, other: TaskNo) -> bool
    requires { length events.now < 2 ^ 32 }
    ensures { result ≡ awaited.is_left_behind (reverse events.now) close other.0 }
{
    match event_in(events, close) {
        Some(Event::Closed { block, .. }) => {
            is_live_dependent(events, Master::Block(*block), other)
        }
        _ => false,
    }
}

/// Whether a task that doesn't go on for a reason waits for another one, by a journal in the order of arrival.
#[tactic(auto, unfolding(ada_waiting::specs::Awaited::awaits))]
pub fn awaits(events: &[Event], task: TaskNo, other: TaskNo, reason: Reason) -> bool
    requires { length events.now < 2 ^ 32 }
    ensures { result ≡ awaited.awaits (reverse events.now) task.0 other.0 reason }
{
    match reason {
        Reason::NotStarted => has_made(events, other, task),
        Reason::Activating { start } => is_activating(events, start, other),
        Reason::Queued { call } | Reason::InRendezvous { call } => is_called(events, call, other),
        Reason::Waiting { .. } | Reason::Delayed { .. } => false,
        Reason::Leaving { close } => is_left_behind(events, close, other),
        Reason::Completed => is_live_dependent(events, Master::Body(task), other),
    }
}

/// Whether a task waits for another one, by a journal in the order of arrival: for its maker if it wasn't started
/// (9.3), for those that it activates (9.3), for the task that it called (9.5), for what depends on the block that it
/// leaves or on its own body (9.4).
#[tactic(auto, unfolding(ada_waiting::specs::Awaited::waits_for))]
pub fn waits_for(events: &[Event], task: TaskNo, other: TaskNo) -> bool
    requires { length events.now < 2 ^ 32 }
    ensures { result ≡ awaited.waits_for (reverse events.now) task.0 other.0 }
{
    match reason_of(events, task) {
        Some(reason) => awaits(events, task, other, reason),
        None => false,
    }
}
