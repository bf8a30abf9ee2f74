//! Why a task doesn't go on by itself, and where it is suspended.
ghost use Rattle.std.specs.Prelude.{◌≡◌, ◌<◌, ◌^◌, length, reverse};
ghost use Rattle.std.specs.Bool.{then_some};
ghost use Rattle.std.specs.Option.{option_or};
ghost use Rattle.ada_events.specs.Search.{is_number};
ghost use Rattle.ada_events.specs.Says as said;
ghost use Rattle.ada_waiting.specs.Reasons as reasons;

use crate::calls::is_met;
use crate::phases::{has_ended, is_completed, is_released, is_started, is_terminated};
use crate::says::{held_in, is_task};
use crate::tasks::has_task;
use ada_events::journal::event_in;
use ada_events::{Event, TaskNo};
use ada_waiting::Reason;

// What a later event gave, else the position of this one, if it holds the task up.
fn or_hold(later: Option<u32>, task: TaskNo, position: u32, event: &Event) -> Option<u32>
    ensures { result ≡ option_or later
        (then_some (is_number task.0 (said.held_in event.now)) position) }
{
    match later {
        Some(position) => Some(position),
        None if is_task(task, held_in(event)) => Some(position),
        None => None,
    }
}

/// The position of a task's latest call, wait, delay, start or close, of a journal in the order of arrival.
#[tactic(auto, unfolding(ada_events::specs::Outcomes::last_given, ada_waiting::specs::Reasons::latest_hold), using(crate::proofs::Latest::last_given_less))]
pub fn latest_hold(events: &[Event], task: TaskNo) -> Option<u32>
    requires { length events.now < 2 ^ 32 }
    ensures { result ≡ reasons.latest_hold (reverse events.now) task.0 }
{
    let mut left = events.len();
    let mut latest = None;
    while left > 0 && latest.is_none() {
        left -= 1;
        latest = or_hold(latest, task, left as u32 + 1, &events[left]);
    }
    latest
}

/// The position at which a task is suspended; none if it isn't.
#[tactic(auto, unfolding(ada_waiting::specs::Reasons::suspended_at))]
pub fn suspended_at(events: &[Event], task: TaskNo) -> Option<u32>
    requires { length events.now < 2 ^ 32 }
    ensures { result ≡ reasons.suspended_at (reverse events.now) task.0 }
{
    if has_ended(events, task) {
        return None;
    }
    let position = latest_hold(events, task)?;
    if is_released(events, position) {
        None
    } else {
        Some(position)
    }
}

#[tactic(auto, unfolding(ada_waiting::specs::Reasons::reason_by))]
fn reason_at(events: &[Event], position: u32, event: &Event) -> Option<Reason>
    ensures { result ≡ reasons.reason_at (reverse events.now) position event.now }
{
    match event {
        Event::Called { .. } if is_met(events, position) => {
            Some(Reason::InRendezvous { call: position })
        }
        Event::Called { .. } => Some(Reason::Queued { call: position }),
        Event::Waiting { .. } => Some(Reason::Waiting { wait: position }),
        Event::Paused { .. } => Some(Reason::Delayed { pause: position }),
        Event::Started { .. } => Some(Reason::Activating { start: position }),
        Event::Closed { .. } => Some(Reason::Leaving { close: position }),
        _ => None,
    }
}

#[tactic(auto, unfolding(ada_waiting::specs::Reasons::held_reason))]
fn held_reason(events: &[Event], task: TaskNo) -> Option<Reason>
    requires { length events.now < 2 ^ 32 }
    ensures { result ≡ reasons.held_reason (reverse events.now) task.0 }
{
    let position = suspended_at(events, task)?;
    reason_at(events, position, event_in(events, position)?)
}

/// Why a task doesn't go on by itself, by a journal in the order of arrival; none if it runs, is terminated, or
/// doesn't exist.
#[tactic(auto, unfolding(ada_waiting::specs::Reasons::reason_of))]
pub fn reason_of(events: &[Event], task: TaskNo) -> Option<Reason>
    requires { length events.now < 2 ^ 32 }
    ensures { result ≡ reasons.reason_of (reverse events.now) task.0 }
{
    if !has_task(events, task) || is_terminated(events, task) {
        return None;
    }
    if is_completed(events, task) {
        return Some(Reason::Completed);
    }
    match held_reason(events, task) {
        Some(reason) => Some(reason),
        None if is_started(events, task) => None,
        None => Some(Reason::NotStarted),
    }
}
