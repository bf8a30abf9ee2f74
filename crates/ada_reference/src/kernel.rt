//! The plain kernel: a journal, and each request answered by searches over it.
ghost use Rattle.std.specs.Prelude.{◌≡◌, [], IfOk, IfErr};
ghost use Rattle.ada_events.specs.Lawful.{IsLawful, IsSettled};
ghost use Rattle.ada_events.specs.Steps.{IsAccepted, IsRefused};

use crate::asks::asked_event;
use crate::forced::forced;
use crate::refusals::refusal;
use ada_events::{Journal, Refusal, Request};
use ada_steps::{Engine, make_room, step};
use std::alloc::Global;
use std::marker::Model;

/// What answers by a search over the whole journal. It keeps nothing.
#[derive(Drop)]
struct Search;

impl Engine for Search {
    ghost stands = { λ _ _. Unit {0} };

    fn begin(&mut self, journal: &mut Journal, request: &Request) -> Result<(), Refusal> {
        if let Some(cause) = refusal(journal.as_slice(), request) {
            return Err(cause);
        }
        make_room(journal)?;
        let event = asked_event(journal.allocator(), journal.as_slice(), request)?;
        journal.push_reserved(event);
        Ok(())
    }

    fn advance(&mut self, journal: &mut Journal) -> bool {
        match forced(journal.as_slice()) {
            Some(step) => {
                journal.push_reserved(step);
                true
            }
            None => false,
        }
    }
}

/// A kernel that searches its journal. Contracts see it as the journal, the newest event first.
#[derive(Drop)]
pub struct PlainKernel {
    journal: Journal,
}

impl Model for PlainKernel {
    ghost use Rattle.std.specs.Prelude.{List};
    ghost use Rattle.ada_events.specs.declared.event.Event.{Event};
    ghost use Rattle.ada_events.specs.Lawful.{IsLawful, IsSettled};

    ghost Value = { List Event };

    ghost view = { λ k. k.journal.events };

    ghost invariant = { λ k. IsLawful k.journal.events × IsSettled k.journal.events };
}

impl PlainKernel {
    /// A kernel with an empty journal, whose events will lie in memory of `alloc`. Fails with
    /// `OutOfMemory` alone.
    #[tactic(auto, using(crate::proofs::Resting::empty_is_settled))]
    pub fn new(alloc: Global) -> Result<Self, Refusal>
        ensures ok { IfOk result (λ kernel. kernel ≡ []) }
        ensures err { IfErr result (λ cause. cause ≡ Refusal.OutOfMemory) }
    {
        Ok(PlainKernel {
            journal: Journal::new(alloc),
        })
    }

    /// Answers a request: appends its event and the steps that it forces, and gives the event's
    /// position; or refuses it for the first cause that applies, and changes nothing. `OutOfMemory` is
    /// answered where a growth was refused and no other cause applies.
    pub fn step(&mut self, request: Request) -> Result<u32, Refusal>
        ensures ok { IfOk result (λ at. IsAccepted self.old request at self.new) }
        ensures err { IfErr result (λ cause. IsRefused self.old request cause self.new) }
        ensures lawful { IsLawful self.new }
        ensures settled { IsSettled self.new }
    {
        step(&mut Search, &mut self.journal, &request)
    }

    /// The journal: every event so far.
    pub fn journal(&self) -> &Journal
        ensures events { result.now.events ≡ self.now }
        ensures lawful { IsLawful self.now }
        ensures settled { IsSettled self.now }
    {
        &self.journal
    }
}
