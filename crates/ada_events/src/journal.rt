//! The journal: the list of all events so far.
ghost use Rattle.std.specs.Prelude.{◌≡◌, ◌+◌, ◌^◌, ◌<◌, ◌≤◌, ◌==◌, [], ◌∷◌, length, reverse, IsOk, OnOk, IfErr};
ghost use Rattle.std.specs.Option.{option_copied};
ghost use Rattle.ada_events.specs.Search.{event_at};

use crate::{Event, Refusal};
use std::alloc::Global;
use std::marker::Model;

/// A list of events, each named by its position from 1. Contracts see the list with the newest event
/// first, and the number of further events for which there is room.
#[derive(Drop)]
pub struct Journal {
    events: Vec<Event>,
}

impl Model for Journal {
    ghost use Rattle.std.specs.Prelude.{◌-◌, ◌<◌, ◌^◌, min, reverse, vec_len, vec_capacity};
    ghost use Rattle.ada_events.specs.Journals.{Kept};

    ghost Value = { Kept };

    ghost view = { λ j. record {
      events = reverse j.events.items;
      spare = min (vec_capacity j.events - vec_len j.events) (2 ^ 32 - 1 - vec_len j.events);
    } };

    ghost invariant = { λ j. vec_len j.events < 2 ^ 32 };
}

impl Journal {
    /// A journal without events. Its events will lie in memory of `alloc`.
    pub fn new(alloc: Global) -> Self
        ensures { result.events ≡ [] }
    {
        Journal {
            events: Vec::new(alloc),
        }
    }

    /// Where the memory of its events lies.
    pub fn allocator(&self) -> Global {
        *self.events.allocator()
    }

    /// How many events there are.
    pub fn len(&self) -> u32
        ensures { result ≡ length self.now.events }
    {
        self.events.len() as u32
    }

    /// Whether there is no event.
    pub fn is_empty(&self) -> bool
        ensures { result ≡ (length self.now.events == 0) }
    {
        self.events.is_empty()
    }

    /// The event at a position, from 1; none at 0 and past the end.
    pub fn get(&self, at: u32) -> Option<&Event>
        ensures { option_copied result ≡ event_at self.now.events at }
    {
        event_in(&self.events, at)
    }

    /// The events in the order in which they came.
    pub fn as_slice(&self) -> &[Event]
        ensures value { reverse result.now ≡ self.now.events }
        ensures fits { length result.now < 2 ^ 32 }
    {
        self.events.as_slice()
    }

    /// Makes room for `count` further events. Fails with `OutOfMemory` alone, and then keeps all as it was.
    pub fn reserve(&mut self, count: u32) -> Result<(), Refusal>
        requires { length self.old.events + count < 2 ^ 32 }
        ensures events { self.new.events ≡ self.old.events }
        ensures ok { OnOk result (count ≤ self.new.spare) }
        ensures spare { self.old.spare ≤ self.new.spare }
        ensures succeeds { count ≤ self.old.spare → IsOk result }
        ensures err { IfErr result (λ cause. cause ≡ Refusal.OutOfMemory) }
    {
        match self.events.reserve(count as usize) {
            Ok(()) => Ok(()),
            Err(_) => Err(Refusal::OutOfMemory),
        }
    }

    /// Appends an event, for which there has to be room.
    pub fn push_reserved(&mut self, event: Event)
        requires { 0 < self.old.spare }
        ensures events { self.new.events ≡ event ∷ self.old.events }
        ensures spare { self.old.spare ≤ self.new.spare + 1 }
    {
        self.events.push_reserved(event);
    }
}

/// The event at a position of a list in the order of arrival, from 1; none at 0 and past the end.
pub fn event_in(events: &[Event], at: u32) -> Option<&Event>
    ensures { option_copied result ≡ event_at (reverse events.now) at }
{
    if at == 0 {
        return None;
    }
    events.get(at as usize - 1)
}
