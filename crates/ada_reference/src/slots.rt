//! Slots: all entries of all tasks (9.5), numbered from 0 in order of task, family and index.
ghost use Rattle.std.specs.Prelude.{◌≡◌, ◌+◌, ◌<◌, ◌≤◌, ◌^◌, ◌==◌, ◌-ℤ◌, nat_lt, if◌then◌else◌, Some, None, length, reverse, unsigned_abs};
ghost use Rattle.std.specs.Option.{option_map, option_or, option_and_then};
ghost use Rattle.std.specs.Bool.{then_some};
ghost use Rattle.ada_events.specs.declared.names.Entry.{Entry as EntryValue};
ghost use Rattle.ada_events.specs.Says as said;
ghost use Rattle.ada_events.specs.Entries as entries;
ghost use Rattle.ada_events.specs.Limits as limits;
ghost use Rattle.ada_events.specs.Slots as places;
ghost use Rattle.ada_events.specs.Lawful.{IsLawful};
ghost use Rattle.ada_reference.specs.Places.{capped, place_seen};
ghost use Rattle.ada_reference.specs.internal.Places.{entry_here, place_made};
ghost use Rattle.ada_events.specs.declared.limits.TheConstants.{MOST_FAMILIES};

use crate::attributes::short_count;
use crate::limits::{slot_count, slots_in};
use crate::tasks::made_in;
use ada_events::{Entry, Event, Family, TaskNo};

/// An entry of a task, by the task's number.
#[derive(Clone, Copy)]
pub struct TaskEntry {
    pub task: u64,
    pub entry: Entry,
}

// The number of an entry of a family among all of that and of these before it, at most 2^64 - 1.
fn number_in(before: &[Family], family: Family, index: i32) -> Option<u64>
    ensures { result ≡ option_map capped
        (then_some (entries.is_in_range family index)
        (entries.entries_in before.now + unsigned_abs (index -ℤ family.low))) }
{
    if family.contains(index) {
        Some(Family::entries_in(before).saturating_add(family.offset(index)))
    } else {
        None
    }
}

/// The number of an entry among all of some families, from 0 and at most 2^64 - 1.
#[tactic(auto, unfolding(ada_events::specs::Slots::number_within))]
pub fn number_within(families: &[Family], entry: Entry) -> Option<u64>
    ensures { result ≡ option_map capped (places.number_within families.now entry) }
{
    let place = usize::from(entry.family);
    match families.get(place) {
        Some(family) => number_in(&families[..place], *family, entry.index),
        None => None,
    }
}

fn behind(first: u64, number: Option<u64>) -> Option<u64>
    ensures { result ≡ option_map (λ n. capped (first + n)) number }
{
    match number {
        Some(number) => Some(first.saturating_add(number)),
        None => None,
    }
}

// The slot of an entry of the task that an event makes, at most 2^64 - 1.
#[tactic(auto, unfolding(ada_events::specs::Says::creation_in), using(crate::proofs::Places::capped_sum))]
fn slot_in(before: &[Event], event: &Event, entry: Entry) -> Option<u64>
    ensures { result ≡ option_map capped (option_and_then (λ (c : said.Creation). option_map (λ n.
        limits.slot_count (reverse before.now) + n) (places.number_within c.families entry))
        (said.creation_in event.now)) }
{
    match event {
        Event::Created { families, .. } => behind(
            slot_count(before),
            number_within(families.as_slice(), entry),
        ),
        _ => None,
    }
}

// The slot of an entry of a task where the event makes it as the one of that number, at most 2^64 - 1.
fn slot_made(before: &[Event], event: &Event, task: TaskNo, entry: Entry, count: u64) -> Option<u64>
    ensures { result ≡ option_map capped (if task.0 == count
        then option_and_then (λ (c : said.Creation). option_map (λ n.
        limits.slot_count (reverse before.now) + n) (places.number_within c.families entry))
        (said.creation_in event.now) else None) }
{
    if u64::from(task.0) == count {
        slot_in(before, event, entry)
    } else {
        None
    }
}

/// The slot of an entry, at most 2^64 - 1; none where the task doesn't have it.
#[tactic(auto, unfolding(ada_events::specs::Slots::slot_of, ada_events::specs::Tasks::task_count), using(crate::proofs::Loops::task_count_more, crate::proofs::Places::slot_of_more))]
pub fn slot_of(events: &[Event], task: TaskNo, entry: Entry) -> Option<u64>
    requires { length events.now < 2 ^ 32 }
    ensures { result ≡ option_map capped (places.slot_of (reverse events.now) task.0 entry) }
{
    let mut count = 1u64;
    let mut found = None;
    for (i, event) in events.iter().enumerate() {
        found = slot_made(&events[..i], event, task, entry, count).or(found);
        count = made_in(event) + count;
    }
    found
}

/// The slot of an entry in a lawful journal, below 1,024.
pub fn slot(events: &[Event], task: TaskNo, entry: Entry) -> Option<u16>
    requires short { length events.now < 2 ^ 32 }
    requires lawful { IsLawful (reverse events.now) }
    ensures { result ≡ places.slot_of (reverse events.now) task.0 entry }
{
    match slot_of(events, task, entry) {
        Some(slot) => Some(slot as u16),
        None => None,
    }
}

// The entry of a family at that number, counted from its low bound.
#[tactic(auto, unfolding(ada_events::specs::Entries::entry_count))]
fn entry_of(place: u8, family: Family, number: u64) -> Option<Entry>
    ensures { result ≡ entry_here place family number }
{
    if number < family.entry_count() {
        let index = i64::from(family.low) + number as i64;
        Some(Entry {
            family: place,
            index: index as i32,
        })
    } else {
        None
    }
}

fn or_entry_of(found: Option<Entry>, place: u8, family: Family, number: u64) -> Option<Entry>
    ensures { result ≡ option_or found (entry_here place family number) }
{
    match found {
        Some(entry) => Some(entry),
        None => entry_of(place, family, number),
    }
}

/// The entry of that number among all of some families.
#[tactic(auto, unfolding(ada_events::specs::Slots::entry_within), using(crate::proofs::Places::entry_within_more, crate::proofs::Places::entry_within_past))]
pub fn entry_within(families: &[Family], number: u64) -> Option<Entry>
    requires { length families.now ≤ MOST_FAMILIES }
    ensures { result ≡ places.entry_within 0 families.now number }
{
    let mut left = number;
    let mut found = None;
    for (place, family) in families.iter().enumerate() {
        found = or_entry_of(found, place as u8, *family, left);
        left = left.saturating_sub(family.entry_count());
    }
    found
}

fn of_task(task: u64, entry: Option<Entry>) -> Option<TaskEntry>
    ensures { option_map place_seen result
        ≡ option_map (λ (e : EntryValue). record { task = task; entry = e }) entry }
{
    match entry {
        Some(entry) => Some(TaskEntry { task, entry }),
        None => None,
    }
}

// The entry at a slot of the task that an event makes as the one of that number, behind so many slots.
#[tactic(auto, unfolding(ada_events::specs::Says::creation_in))]
fn entry_made(event: &Event, task: u64, slots: u64, slot: u64) -> Option<TaskEntry>
    ensures { option_map place_seen result ≡ place_made event.now task slots slot }
{
    match event {
        Event::Created { families, .. } => of_task(
            task,
            entry_within(families.as_slice(), slot.saturating_sub(slots)),
        ),
        _ => None,
    }
}

fn later_entry(
    found: Option<TaskEntry>,
    event: &Event,
    task: u64,
    slots: u64,
    slot: u64,
) -> Option<TaskEntry>
    ensures { option_map place_seen result
        ≡ (if nat_lt slot slots then option_map place_seen found
        else place_made event.now task slots slot) }
{
    if slot < slots {
        found
    } else {
        entry_made(event, task, slots, slot)
    }
}

/// The entry at a slot; none behind the last.
#[tactic(auto, unfolding(ada_events::specs::Slots::entry_at, ada_events::specs::Tasks::task_count, ada_events::specs::Limits::slot_count), using(crate::proofs::Loops::task_count_more, crate::proofs::SlotSums::slot_count_more, crate::proofs::Places::entry_at_more))]
pub fn entry_at(events: &[Event], slot: u16) -> Option<TaskEntry>
    requires { length events.now < 2 ^ 32 }
    ensures { option_map place_seen result ≡ places.entry_at (reverse events.now) slot }
{
    let mut count = 1u64;
    let mut slots = 0u64;
    let mut found = None;
    for event in events {
        found = later_entry(found, event, count, slots, u64::from(slot));
        slots = slots_in(event).saturating_add(slots);
        count = made_in(event) + count;
    }
    found
}

/// COUNT of the entry at a slot of a lawful journal (9.9); 0 behind the last.
#[tactic(auto, unfolding(ada_events::specs::Slots::count_at))]
pub fn count_at(events: &[Event], slot: u16) -> u16
    requires short { length events.now < 2 ^ 32 }
    requires lawful { IsLawful (reverse events.now) }
    ensures { result ≡ places.count_at (reverse events.now) slot }
{
    match entry_at(events, slot) {
        Some(place) => short_count(events, TaskNo(place.task as u16), place.entry),
        None => 0,
    }
}
