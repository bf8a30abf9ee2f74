//! Entry calls (9.5): open, joined in a rendezvous or queued, and the queue of an entry.
ghost use Rattle.std.specs.Prelude.{◌≡◌, ◌<◌, ◌^◌, ◌&&◌, ◌==◌, length, reverse, slice_get};
ghost use Rattle.std.specs.Option.{option_or};
ghost use Rattle.std.specs.Bool.{then_some};
ghost use Rattle.ada_events.specs.Search.{is_some_and};
ghost use Rattle.ada_events.specs.Says as said;
ghost use Rattle.ada_events.specs.Entries as entries;
ghost use Rattle.ada_events.specs.Calls as calls;

use crate::phases::{has_ended, is_released};
use crate::says::{is_call_by, is_meeting_of};
use ada_events::journal::event_in;
use ada_events::{Entry, Event, TaskNo};

/// What is at a position is neither released, nor has its task ended.
#[tactic(auto, unfolding(ada_events::specs::Calls::is_pending))]
pub fn is_pending(events: &[Event], position: u32, task: TaskNo) -> bool
    requires { length events.now < 2 ^ 32 }
    ensures { result ≡ calls.is_pending (reverse events.now) position task.0 }
{
    !is_released(events, position) && !has_ended(events, task)
}

/// A rendezvous began with the call at a position.
#[tactic(auto, unfolding(ada_events::specs::Calls::is_met))]
pub fn is_met(events: &[Event], call: u32) -> bool
    ensures { result ≡ calls.is_met (reverse events.now) call }
{
    events.iter().rev().any(|event| is_meeting_of(call, event))
}

/// The event at a position is an open call.
#[tactic(auto, unfolding(ada_events::specs::Calls::is_open_at, ada_events::specs::Says::call_in, ada_events::specs::Calls::is_pending))]
pub fn is_open_at(events: &[Event], position: u32, event: &Event) -> bool
    requires { length events.now < 2 ^ 32 }
    ensures { result ≡ calls.is_open_at (reverse events.now) position event.now }
{
    match event {
        Event::Called { by, .. } => is_pending(events, position, *by),
        _ => false,
    }
}

/// The event at a position is an open call with which a rendezvous began.
#[tactic(auto, unfolding(ada_events::specs::Calls::is_joined_at))]
pub fn is_joined_at(events: &[Event], position: u32, event: &Event) -> bool
    requires { length events.now < 2 ^ 32 }
    ensures { result ≡ calls.is_joined_at (reverse events.now) position event.now }
{
    is_open_at(events, position, event) && is_met(events, position)
}

/// The event at a position is an open call with which no rendezvous began.
#[tactic(auto, unfolding(ada_events::specs::Calls::is_queued_at))]
pub fn is_queued_at(events: &[Event], position: u32, event: &Event) -> bool
    requires { length events.now < 2 ^ 32 }
    ensures { result ≡ calls.is_queued_at (reverse events.now) position event.now }
{
    is_open_at(events, position, event) && !is_met(events, position)
}

/// There is an open call at a position.
#[tactic(auto, unfolding(ada_events::specs::Calls::is_open_call))]
pub fn is_open_call(events: &[Event], call: u32) -> bool
    requires { length events.now < 2 ^ 32 }
    ensures { result ≡ calls.is_open_call (reverse events.now) call }
{
    match event_in(events, call) {
        Some(event) => is_open_at(events, call, event),
        None => false,
    }
}

fn is_joined_caller(events: &[Event], task: TaskNo, position: u32, event: &Event) -> bool
    requires { length events.now < 2 ^ 32 }
    ensures { result ≡ (is_some_and (said.call_in event.now) (λ (c : said.Call). c.by == task.0)
        && calls.is_joined_at (reverse events.now) position event.now) }
{
    is_call_by(task, event) && is_joined_at(events, position, event)
}

/// The task is the caller of a joined call.
#[tactic(auto, unfolding(ada_events::specs::Calls::is_caller_in_rendezvous, ada_events::specs::Search::any_event), using(crate::proofs::Loops::any_event_more))]
pub fn is_caller_in_rendezvous(events: &[Event], task: TaskNo) -> bool
    requires { length events.now < 2 ^ 32 }
    ensures { result ≡ calls.is_caller_in_rendezvous (reverse events.now) task.0 }
{
    let mut found = false;
    for (i, event) in events.iter().enumerate() {
        found = is_joined_caller(events, task, i as u32 + 1, event) || found;
    }
    found
}

/// Whether two entries are one.
pub fn same_entry(a: Entry, b: Entry) -> bool
    ensures { result ≡ entries.same_entry a b }
{
    a.family == b.family && a.index <= b.index && b.index <= a.index
}

fn is_entry_of(task: TaskNo, entry: Entry, callee: TaskNo, called: Entry) -> bool
    ensures { result ≡ ((callee.0 == task.0) && entries.same_entry called entry) }
{
    callee.0 == task.0 && same_entry(called, entry)
}

/// The event calls an entry of a task.
#[tactic(auto, unfolding(ada_events::specs::Calls::is_call_of, ada_events::specs::Says::call_in))]
pub fn is_call_of(task: TaskNo, entry: Entry, event: &Event) -> bool
    ensures { result ≡ calls.is_call_of task.0 entry event.now }
{
    match event {
        Event::Called {
            callee,
            entry: called,
            ..
        } => is_entry_of(task, entry, *callee, *called),
        _ => false,
    }
}

/// The event at a position is a call queued at the entry.
pub fn is_queued_for(
    events: &[Event],
    task: TaskNo,
    entry: Entry,
    position: u32,
    event: &Event,
) -> bool
    requires { length events.now < 2 ^ 32 }
    ensures { result ≡ (calls.is_call_of task.0 entry event.now
        && calls.is_queued_at (reverse events.now) position event.now) }
{
    is_call_of(task, entry, event) && is_queued_at(events, position, event)
}

// The call at a position, if it is queued at the entry.
fn queued_call(
    events: &[Event],
    task: TaskNo,
    entry: Entry,
    position: u32,
    event: &Event,
) -> Option<u32>
    requires { length events.now < 2 ^ 32 }
    ensures { result ≡ then_some (calls.is_call_of task.0 entry event.now
        && calls.is_queued_at (reverse events.now) position event.now) position }
{
    if is_queued_for(events, task, entry, position, event) {
        Some(position)
    } else {
        None
    }
}

// The first call that was found, else the one at this position.
fn or_queued(
    first: Option<u32>,
    events: &[Event],
    task: TaskNo,
    entry: Entry,
    position: u32,
    event: &Event,
) -> Option<u32>
    requires { length events.now < 2 ^ 32 }
    ensures { result ≡ option_or first (then_some (calls.is_call_of task.0 entry event.now
        && calls.is_queued_at (reverse events.now) position event.now) position) }
{
    match first {
        Some(call) => Some(call),
        None => queued_call(events, task, entry, position, event),
    }
}

/// The call at the front of an entry's queue.
#[tactic(auto, unfolding(ada_events::specs::Calls::queue, ada_events::specs::Search::gathered), using(crate::proofs::Loops::first_gathered_more))]
pub fn front(events: &[Event], task: TaskNo, entry: Entry) -> Option<u32>
    requires { length events.now < 2 ^ 32 }
    ensures { result ≡ slice_get (calls.queue (reverse events.now) task.0 entry) 0 }
{
    let mut first = None;
    for (i, event) in events.iter().enumerate() {
        first = or_queued(first, events, task, entry, i as u32 + 1, event);
    }
    first
}
