//! Which calls stand in queues, event by event.
ghost use Rattle.std.specs.Prelude.{◌≡◌, ◌+◌, ◌<◌, ◌≤◌, ◌^◌, ◌∷◌, ◌++◌, filter, length, reverse, take, IfOk};
ghost use Rattle.std.specs.Option.{option_map};
ghost use Rattle.ada_events.specs.Lawful.{IsLawful};
ghost use Rattle.ada_events.specs.Search.{is_number};
ghost use Rattle.ada_events.specs.declared.names.TaskNo.{TaskNo as Task};
ghost use Rattle.ada_tables.specs.Standing.{caller_of};
ghost use Rattle.ada_page.specs.Standing.{AreQueued, AreQueuedSince};
ghost use Rattle.ada_page.specs.internal.Queued as queued;

use ada_events::journal::event_in;
use ada_events::{Event, TaskNo};
use std::alloc::{AllocError, Global};

// Who made the call at a position.
#[tactic(auto, unfolding(ada_events::specs::Says::call_in))]
fn caller_at(events: &[Event], call: u32) -> Option<TaskNo>
    ensures { option_map (λ (t : Task). t.0) result ≡ caller_of (reverse events.now) call }
{
    match event_in(events, call) {
        Some(Event::Called { by, .. }) => Some(*by),
        _ => None,
    }
}

fn is_caller(task: TaskNo, caller: Option<TaskNo>) -> bool
    ensures { result ≡ is_number task.0 (option_map (λ (t : Task). t.0) caller) }
{
    match caller {
        Some(other) => task.0 == other.0,
        None => false,
    }
}

// Whether a call stays in its queue when the event comes: it isn't met or released, nor is its caller halted.
#[tactic(auto, unfolding(crate::specs::internal::Queued::stays))]
fn stays(before: &[Event], event: &Event, call: u32) -> bool
    ensures { result ≡ queued.stays (reverse before.now) event.now call }
{
    match event {
        Event::Met { call: gone, .. }
        | Event::Ended { call: gone, .. }
        | Event::Failed { call: gone }
        | Event::Cancelled { call: gone } => call != *gone,
        Event::Halted { task } => !is_caller(*task, caller_at(before, call)),
        _ => true,
    }
}

// The calls that stay in queues when the event comes.
fn staying(
    alloc: Global,
    before: &[Event],
    event: &Event,
    calls: &[u32],
) -> Result<Vec<u32>, AllocError>
    ensures { IfOk result (λ stay. stay.items
        ≡ filter (queued.stays (reverse before.now) event.now) calls.now) }
{
    calls
        .iter()
        .copied()
        .filter(|call| stays(before, event, *call))
        .collect(alloc)
}

// These calls, and the event after so many, if that is a call.
#[tactic(auto, unfolding(crate::specs::internal::Queued::newest_call))]
fn with_newest(mut calls: Vec<u32>, before: &[Event], event: &Event) -> Result<Vec<u32>, AllocError>
    requires { length before.now + 1 < 2 ^ 32 }
    ensures { IfOk result (λ more. more.items
        ≡ calls.items ++ queued.newest_call event.now (reverse before.now)) }
{
    if let Event::Called { .. } = event {
        calls.push(before.len() as u32 + 1)?;
    }
    Ok(calls)
}

// The calls that stand in queues after an event, by those that stood there before it.
fn queued_after(
    alloc: Global,
    before: &[Event],
    event: &Event,
    calls: &[u32],
) -> Result<Vec<u32>, AllocError>
    requires few { length before.now + 1 < 2 ^ 32 }
    requires lawful { IsLawful (event.now ∷ reverse before.now) }
    requires queued { AreQueued (reverse before.now) calls.now }
    ensures { IfOk result (λ after. AreQueued (event.now ∷ reverse before.now) after.items) }
{
    let stay = staying(alloc, before, event, calls)?;
    with_newest(stay, before, event)
}

/// The calls that stand in queues when a journal has so many events, and after each that came since: their positions,
/// in the order in which they came (9.5).
pub fn queued_since(
    alloc: Global,
    events: &[Event],
    known: usize,
    calls: &[u32],
) -> Result<Vec<Vec<u32>>, AllocError>
    requires few { length events.now < 2 ^ 32 }
    requires known { known ≤ length events.now }
    requires lawful { IsLawful (reverse events.now) }
    requires queued { AreQueued (reverse (take known events.now)) calls.now }
    ensures { IfOk result (λ queues.
        AreQueuedSince known (reverse events.now) queues.items) }
{
    let mut queues = Vec::with_capacity(alloc, events.len() - known + 1)?;
    queues.push(Vec::from_slice(alloc, calls)?)?;
    for at in known..events.len() {
        let last = &queues[at - known];
        let next = queued_after(alloc, &events[..at], &events[at], last)?;
        queues.push(next)?;
    }
    Ok(queues)
}
