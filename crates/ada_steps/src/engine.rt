//! What answers for a journal.

ghost use Rattle.std.specs.Prelude.{◌≡◌, ◌<◌, ◌≤◌, ◌+◌, ◌∷◌, None, Some, true, false, IfErr, OnOk};
ghost use Rattle.ada_events.specs.declared.event.Event.{Event as EventValue};
ghost use Rattle.ada_events.specs.Forced.{forced};
ghost use Rattle.ada_events.specs.Lawful.{IsLawful, IsSettled};
ghost use Rattle.ada_events.specs.Steps.{IsRefused};
ghost use Rattle.ada_steps.specs.Beginning.{HasBegun};

use ada_events::{Journal, Refusal, Request};

/// What answers for a journal: it stands for it, refuses a request or appends its event, and appends what the journal
/// forces.
pub trait Engine {
    ghost use Rattle.std.specs.Prelude.{List};
    ghost use Rattle.ada_events.specs.declared.event.Event.{Event as EventOf};

    /// Whether it stands for a journal.
    ghost stands: { Self → List EventOf → Type 0 };

    /// Refuses a request for the first cause that applies, or appends its event and leaves room for the steps that this
    /// forces. `OutOfMemory` is answered where a growth was refused and no other cause applies. Refused, it changes
    /// nothing.
    fn begin(&mut self, journal: &mut Journal, request: &Request) -> Result<(), Refusal>
        requires stands { stands self.old journal.old.events }
        requires lawful { IsLawful journal.old.events }
        requires settled { IsSettled journal.old.events }
        ensures ok { OnOk result (HasBegun journal.old request.now journal.new) }
        ensures err { IfErr result (λ cause.
            IsRefused journal.old.events request.now cause journal.new.events) }
        ensures stands { stands self.new journal.new.events };

    /// Appends the step that the journal forces, for which there is room in it, and says whether there was one.
    fn advance(&mut self, journal: &mut Journal) -> bool
        requires stands { stands self.old journal.old.events }
        requires lawful { IsLawful journal.old.events }
        requires room { (step : EventValue) → forced journal.old.events ≡ Some step
            → 0 < journal.old.spare }
        ensures step { result ≡ true → (step : EventValue) × (forced journal.old.events ≡ Some step)
            × (journal.new.events ≡ step ∷ journal.old.events)
            × (journal.old.spare ≤ journal.new.spare + 1) }
        ensures rest { result ≡ false → (forced journal.old.events ≡ None)
            × (journal.new.events ≡ journal.old.events) }
        ensures stands { stands self.new journal.new.events };
}
