//! Trials of the journal.

use crate::kernels::answer_of;
use crate::trial::{Answer, Trial};
use ada_events::{Event, Journal, Refusal};
use std::alloc::Global;

/// How many events the journal may get in a trial.
const MOST: u32 = 100;

/// A journal: the call makes room for ten events.
#[derive(Drop)]
pub struct Reserving {
    journal: Journal,
}

impl Reserving {
    /// A journal of an event.
    pub fn prepare(alloc: Global) -> Reserving {
        let mut reserving = Reserving {
            journal: Journal::new(alloc),
        };
        reserving.append();
        reserving
    }

    // Makes room for ten events.
    fn reserve(&mut self) -> Result<(), Refusal> {
        if self.journal.len() < MOST {
            self.journal.reserve(10)
        } else {
            Err(Refusal::JournalFull)
        }
    }

    // Appends an event, if there is room.
    fn append(&mut self) {
        if self.journal.len() < MOST && self.journal.reserve(1).is_ok() {
            self.journal.push_reserved(Event::Ticked { now: 1 });
        }
    }
}

impl Trial for Reserving {
    fn call(&mut self) -> Answer {
        answer_of(self.reserve().err())
    }

    fn go_on(&mut self) {
        self.append();
    }

    fn is_like(&self, other: &Reserving) -> bool {
        self.journal.as_slice() == other.journal.as_slice()
    }
}
