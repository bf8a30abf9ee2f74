//! The outcome of a task: that it ended, or what became of its latest doing.
ghost use Rattle.std.specs.Prelude.{◌≡◌, ◌<◌, ◌^◌, if◌then◌else◌, length, reverse};
ghost use Rattle.std.specs.Option.{option_map, option_or, option_and_then};
ghost use Rattle.ada_events.specs.Search.{is_number};
ghost use Rattle.ada_events.specs.Says as said;
ghost use Rattle.ada_events.specs.Waits as waits;
ghost use Rattle.ada_events.specs.Outcomes as outcomes;

use crate::phases::{is_completed, is_terminated};
use crate::says;
use crate::says::{is_position, is_task};
use crate::waits::taken_choice;
use ada_events::journal::event_in;
use ada_events::{Event, Outcome, TaskNo, Way};

/// The task that ends a rendezvous by an exception (11.5).
#[tactic(auto, unfolding(ada_events::specs::Outcomes::raised_in))]
pub fn raised_in(event: &Event) -> Option<TaskNo>
    ensures { option_map (λ (t : TaskNo). t.0) result ≡ outcomes.raised_in event.now }
{
    match event {
        Event::Ended {
            by,
            raised: true,
            ..
        } => Some(*by),
        _ => None,
    }
}

// The choice by which the wait that the event is takes a call, counted over all of its choices from 0.
#[tactic(auto, unfolding(ada_events::specs::Waits::taken_choice, ada_events::specs::Says::wait_in))]
fn choice_taken_in(events: &[Event], event: &Event) -> Option<u8>
    requires { length events.now < 2 ^ 32 }
    ensures { result ≡ option_and_then (waits.taken_choice (reverse events.now))
        (said.wait_in event.now) }
{
    match event {
        Event::Waiting {
            by,
            choices,
            pick,
            ..
        } => taken_choice(events, *by, choices.as_slice(), *pick),
        _ => None,
    }
}

/// The choice by which the wait at a position takes a call.
#[tactic(auto, unfolding(ada_events::specs::Outcomes::choice_met))]
pub fn choice_met(events: &[Event], wait: u32) -> u8
    requires { length events.now < 2 ^ 32 }
    ensures { result ≡ outcomes.choice_met (reverse events.now) wait }
{
    match event_in(events, wait) {
        Some(event) => choice_taken_in(events, event).unwrap_or(0),
        None => 0,
    }
}

fn took(way: Way) -> Outcome
    ensures { result ≡ outcomes.took way }
{
    match way {
        Way::Otherwise => Outcome::TookElse,
        Way::Delay(number) => Outcome::TookDelay(number),
        Way::ProgramError => Outcome::ProgramError,
    }
}

/// What becomes of a call, wait, delay, start or close by the event that releases it, after these events.
#[tactic(auto, unfolding(ada_events::specs::Outcomes::released_to))]
pub fn released_to(before: &[Event], event: &Event) -> Outcome
    requires { length before.now < 2 ^ 32 }
    ensures { result ≡ outcomes.released_to (reverse before.now) event.now }
{
    match event {
        Event::Ended { raised: true, .. } => Outcome::Raised,
        Event::Ended { raised: false, .. } => Outcome::Served,
        Event::Failed { .. } => Outcome::TaskingError,
        Event::Met { call, wait } => Outcome::Accepted {
            call: *call,
            choice: choice_met(before, *wait),
        },
        Event::Cancelled { .. } => Outcome::Cancelled,
        Event::Passed { way, .. } => took(*way),
        Event::Woken { .. } => Outcome::Awake,
        Event::Activated { ok: true, .. } => Outcome::ActivationOk,
        Event::Activated { ok: false, .. } => Outcome::ActivationFailed,
        Event::Left { .. } => Outcome::BlockLeft,
        _ => Outcome::Held,
    }
}

// What becomes of what is at a position by an event after these, else what became of it before.
fn or_released(so_far: Outcome, before: &[Event], event: &Event, position: u32) -> Outcome
    requires { length before.now < 2 ^ 32 }
    ensures { result ≡ (if is_number position (said.released_in event.now)
        then outcomes.released_to (reverse before.now) event.now else so_far) }
{
    if is_position(position, says::released_in(event)) {
        released_to(before, event)
    } else {
        so_far
    }
}

/// What became of the call, wait, delay, start or close at a position: held until it is released.
#[tactic(auto, unfolding(ada_events::specs::Outcomes::became), using(crate::proofs::Latest::became_more))]
pub fn became(events: &[Event], position: u32) -> Outcome
    requires { length events.now < 2 ^ 32 }
    ensures { result ≡ outcomes.became (reverse events.now) position }
{
    let mut outcome = Outcome::Held;
    for (i, event) in events.iter().enumerate() {
        outcome = or_released(outcome, &events[..i], event, position);
    }
    outcome
}

/// What became of the task's doing where the event at a position is one.
#[tactic(auto, unfolding(ada_events::specs::Outcomes::outcome_at))]
pub fn outcome_at(events: &[Event], task: TaskNo, position: u32, event: &Event) -> Option<Outcome>
    requires { length events.now < 2 ^ 32 }
    ensures { result ≡ outcomes.outcome_at (reverse events.now) task.0 position event.now }
{
    if is_task(task, raised_in(event)) {
        Some(Outcome::Raised)
    } else if is_task(task, says::held_in(event)) {
        Some(became(events, position))
    } else {
        None
    }
}

// What a later event gave, else what became of the doing at this position.
fn or_outcome_at(
    later: Option<Outcome>,
    events: &[Event],
    task: TaskNo,
    position: u32,
    event: &Event,
) -> Option<Outcome>
    requires { length events.now < 2 ^ 32 }
    ensures { result ≡ option_or later (outcomes.outcome_at (reverse events.now) task.0
        position event.now) }
{
    match later {
        Some(outcome) => Some(outcome),
        None => outcome_at(events, task, position, event),
    }
}

/// What became of the task's latest doing, where there is one.
#[tactic(auto, unfolding(ada_events::specs::Outcomes::last_given), using(crate::proofs::Latest::last_given_less))]
pub fn latest_outcome(events: &[Event], task: TaskNo) -> Option<Outcome>
    requires { length events.now < 2 ^ 32 }
    ensures { result ≡ outcomes.last_given (outcomes.outcome_at (reverse events.now) task.0)
        (reverse events.now) }
{
    let mut left = events.len();
    let mut latest = None;
    while left > 0 {
        left -= 1;
        latest = or_outcome_at(latest, events, task, left as u32 + 1, &events[left]);
    }
    latest
}

/// The outcome of a task.
#[tactic(auto, unfolding(ada_events::specs::Outcomes::outcome_of))]
pub fn outcome(events: &[Event], task: TaskNo) -> Outcome
    requires { length events.now < 2 ^ 32 }
    ensures { result ≡ outcomes.outcome_of (reverse events.now) task.0 }
{
    if is_terminated(events, task) {
        Outcome::Dead
    } else if is_completed(events, task) {
        Outcome::Done
    } else {
        latest_outcome(events, task).unwrap_or(Outcome::Nothing)
    }
}
