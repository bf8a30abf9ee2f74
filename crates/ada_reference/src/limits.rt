//! The causes that have to do with moments and limits.
ghost use Rattle.std.specs.Prelude.{◌≡◌, ◌<◌, ◌^◌, ◌+◌, ◌-◌, ◌&&◌, false, length, reverse, min};
ghost use Rattle.std.specs.List.{list_any};
ghost use Rattle.ada_events.specs.declared.names.Pause.{Pause as PauseValue};
ghost use Rattle.ada_events.specs.Entries as entries;
ghost use Rattle.std.specs.Option.{option_map_or};
ghost use Rattle.ada_events.specs.Says as said;
ghost use Rattle.ada_events.specs.Limits as limits;

use crate::nests::depth;
use crate::tasks::{moment, task_count};
use ada_events::limits::{
    LAST_MOMENT, MOST_APPENDED, MOST_EVENTS, MOST_MEMBERS, MOST_SLOTS, MOST_TASKS,
};
use ada_events::{Event, Family, Patience, Pause, Request, Tail};

/// A duration from a moment on ends behind the last moment.
#[tactic(auto, unfolding(ada_events::specs::Asks::due_after))]
pub fn ends_too_late(now: i64, duration: i64) -> bool
    ensures { result ≡ limits.ends_too_late now duration }
{
    now.saturating_add(duration.max(0)) > LAST_MOMENT
}

fn is_open_too_late(now: i64, pause: Pause) -> bool
    ensures { result ≡ (pause.guard && limits.ends_too_late now pause.duration) }
{
    pause.guard && ends_too_late(now, pause.duration)
}

/// An open delay alternative ends behind the last moment.
pub fn has_open_too_late(now: i64, pauses: &[Pause]) -> bool
    ensures { result ≡ list_any (λ (d : PauseValue).
        d.guard && limits.ends_too_late now d.duration) pauses.now }
{
    pauses.iter().any(|pause| is_open_too_late(now, *pause))
}

/// A tick to less than the moment.
#[tactic(auto, unfolding(ada_events::specs::Limits::moves_back))]
pub fn moves_back(events: &[Event], request: &Request) -> bool
    ensures { result ≡ limits.moves_back (reverse events.now) request.now }
{
    match request {
        Request::Tick { now } => *now < moment(events),
        _ => false,
    }
}

/// A tick, or the due moment of a timed call, a delay or an open delay alternative, behind the last
/// moment.
#[tactic(auto, unfolding(ada_events::specs::Limits::is_too_late))]
pub fn is_too_late(events: &[Event], request: &Request) -> bool
    ensures { result ≡ limits.is_too_late (reverse events.now) request.now }
{
    match request {
        Request::Tick { now } => LAST_MOMENT < *now,
        Request::Call {
            patience: Patience::Timed(duration),
            ..
        } => ends_too_late(moment(events), *duration),
        Request::Delay { duration, .. } => ends_too_late(moment(events), *duration),
        Request::Wait {
            tail: Tail::Delays(pauses),
            ..
        } => has_open_too_late(moment(events), pauses.as_slice()),
        _ => false,
    }
}

/// A creation where the limit of tasks is reached.
#[tactic(auto, unfolding(ada_events::specs::Limits::makes_too_many_tasks))]
pub fn makes_too_many_tasks(events: &[Event], request: &Request) -> bool
    requires { length events.now < 2 ^ 32 }
    ensures { result ≡ limits.makes_too_many_tasks (reverse events.now) request.now }
{
    match request {
        Request::Create { .. } => MOST_TASKS as u64 <= task_count(events),
        _ => false,
    }
}

/// How many entries the task has that an event makes, at most 2^64 - 1.
#[tactic(auto, unfolding(ada_events::specs::Says::creation_in))]
pub fn slots_in(event: &Event) -> u64
    ensures { result ≡ min (option_map_or (λ (c : said.Creation). entries.entries_in c.families)
        (said.creation_in event.now) 0) (2 ^ 64 - 1) }
{
    match event {
        Event::Created { families, .. } => Family::entries_in(families.as_slice()),
        _ => 0,
    }
}

/// How many entries all tasks have, at most 2^64 - 1.
#[tactic(auto, unfolding(ada_events::specs::Limits::slot_count), using(crate::proofs::SlotSums::slot_count_more))]
pub fn slot_count(events: &[Event]) -> u64
    ensures { result ≡ min (limits.slot_count (reverse events.now)) (2 ^ 64 - 1) }
{
    let mut total = 0u64;
    for event in events {
        total = slots_in(event).saturating_add(total);
    }
    total
}

/// A creation whose entries would pass the limit.
#[tactic(auto, unfolding(ada_events::specs::Limits::makes_too_many_slots))]
pub fn makes_too_many_slots(events: &[Event], request: &Request) -> bool
    ensures { result ≡ limits.makes_too_many_slots (reverse events.now) request.now }
{
    match request {
        Request::Create { families, .. } => slot_count(events).saturating_add(Family::entries_in(
            families.as_slice(),
        )) > MOST_SLOTS as u64,
        _ => false,
    }
}

/// An opening or a wait in a nest that has its most members.
#[tactic(auto, unfolding(ada_events::specs::Limits::is_too_deep))]
pub fn is_too_deep(events: &[Event], request: &Request) -> bool
    requires { length events.now < 2 ^ 32 }
    ensures { result ≡ limits.is_too_deep (reverse events.now) request.now }
{
    match request {
        Request::Open { by } | Request::Wait { by, .. } => MOST_MEMBERS
            <= depth(events, *by) as usize,
        _ => false,
    }
}

/// The journal hasn't room for the most events that one request appends.
#[tactic(auto, unfolding(ada_events::specs::Limits::is_full), using(crate::proofs::Loops::length_reversed))]
pub fn is_full(events: &[Event]) -> bool
    requires { length events.now < 2 ^ 32 }
    ensures { result ≡ limits.is_full (reverse events.now) }
{
    MOST_EVENTS < events.len() + MOST_APPENDED
}
