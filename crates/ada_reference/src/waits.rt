//! What a selective wait may take (9.7.1): a queued call at an open choice.
ghost use Rattle.std.specs.Prelude.{◌≡◌, ◌<◌, ◌≤◌, ◌^◌, length, reverse, slice_get};
ghost use Rattle.std.specs.Option.{option_and_then};
ghost use Rattle.ada_events.specs.Waits as waits;
ghost use Rattle.ada_events.specs.declared.limits.TheConstants.{MOST_CHOICES};

use crate::calls::front;
use ada_events::{Choice, ChoiceNumbers, Event, TaskNo, picked, push_if};

/// The call at the front of an open choice's queue.
#[tactic(auto, unfolding(ada_events::specs::Waits::front_of))]
pub fn front_of(events: &[Event], task: TaskNo, choice: Choice) -> Option<u32>
    requires { length events.now < 2 ^ 32 }
    ensures { result ≡ waits.front_of (reverse events.now) task.0 choice }
{
    if choice.guard {
        front(events, task, choice.entry)
    } else {
        None
    }
}

/// A call is at the front of an open choice's queue.
#[tactic(auto, unfolding(ada_events::specs::Waits::is_selectable))]
pub fn is_selectable(events: &[Event], task: TaskNo, choice: Choice) -> bool
    requires { length events.now < 2 ^ 32 }
    ensures { result ≡ waits.is_selectable (reverse events.now) task.0 choice }
{
    front_of(events, task, choice).is_some()
}

/// The numbers of the selectable choices, counted over all from 0.
#[tactic(auto, unfolding(ada_events::specs::Waits::numbers_from))]
pub fn selectable(events: &[Event], task: TaskNo, choices: &[Choice]) -> ChoiceNumbers
    requires few { length choices.now ≤ MOST_CHOICES }
    requires short { length events.now < 2 ^ 32 }
    ensures { result ≡ waits.numbers_from (waits.is_selectable (reverse events.now) task.0)
        0 choices.now }
{
    let mut numbers = ChoiceNumbers::new();
    for (i, choice) in choices.iter().enumerate() {
        push_if(&mut numbers, is_selectable(events, task, *choice), i as u8);
    }
    numbers
}

/// The choice by which a wait takes a call (9.7.1), counted over all of its choices from 0.
pub fn taken_choice(events: &[Event], task: TaskNo, choices: &[Choice], pick: u32) -> Option<u8>
    requires few { length choices.now ≤ MOST_CHOICES }
    requires short { length events.now < 2 ^ 32 }
    ensures { result ≡ waits.picked pick
        (waits.numbers_from (waits.is_selectable (reverse events.now) task.0) 0 choices.now) }
{
    picked(pick, selectable(events, task, choices).as_slice())
}

fn front_of_number(events: &[Event], task: TaskNo, choices: &[Choice], number: u8) -> Option<u32>
    requires { length events.now < 2 ^ 32 }
    ensures { result ≡ option_and_then (waits.front_of (reverse events.now) task.0)
        (slice_get choices.now number) }
{
    match choices.get(number as usize) {
        Some(choice) => front_of(events, task, *choice),
        None => None,
    }
}

/// The call that a wait takes (9.7.1): the one at the front of that choice's queue.
pub fn taken_call(events: &[Event], task: TaskNo, choices: &[Choice], pick: u32) -> Option<u32>
    requires few { length choices.now ≤ MOST_CHOICES }
    requires short { length events.now < 2 ^ 32 }
    ensures { result ≡ option_and_then (waits.front_of (reverse events.now) task.0)
        (option_and_then (slice_get choices.now)
        (waits.picked pick (waits.numbers_from (waits.is_selectable (reverse events.now) task.0)
        0 choices.now))) }
{
    match taken_choice(events, task, choices, pick) {
        Some(number) => front_of_number(events, task, choices, number),
        None => None,
    }
}
