//! A program over a kernel, of which all schedules are searched.

use crate::{Halt, Kept, KeyWriter, Standing};
use ada_events::Refusal;
use ada_standing::Renaming;
use std::alloc::AllocError;

/// All schedules of a program over a kernel. What is left to do is told without the names of a kernel, but for those
/// that a second state has for them.
pub trait Schedules {
    ghost use Rattle.std.specs.Prelude.{◌≡◌, true, IfOk, OnOk};
    ghost use Rattle.ada_standing.specs.Names.{renaming_of};
    ghost use Rattle.ada_standing.specs.Renaming.{Renaming as Naming};
    ghost use Rattle.ada_schedules.specs.Schedules.{Program, Acts, Reaches};
    ghost use Rattle.ada_schedules.specs.Closed.{SpeaksInNames};
    ghost use Rattle.ada_search.specs.Findings.{AreAll, at};

    /// What is left to do.
    type Rest: Drop;
    /// What may come next.
    type Choice: Copy;

    /// The program.
    ghost told: { Self → Program Self.Rest Self.Choice };
    /// When the same is left to do in two states, but for names.
    ghost same: { Self → Naming → Self.Rest → Self.Rest → Type 0 };

    /// What is to be done at the beginning.
    fn start(&self) -> Result<Self::Rest, Halt>
        ensures { IfOk result (λ rest. rest ≡ (told self.now).start) };

    /// A copy of what is left to do, which goes on by itself.
    fn copy(&self, rest: &Self::Rest) -> Result<Self::Rest, Halt>
        ensures { IfOk result (λ copy. copy ≡ rest.now) };

    /// All that may come next; perhaps more.
    fn choices(&self, standing: &Standing<Self::Rest>) -> Result<Vec<Self::Choice>, Halt>
        ensures { IfOk result (λ choices. AreAll (told self.now)
            (at standing.now.kernel standing.now.rest) choices.items) };

    /// Makes a choice. Answers the cause if its request was refused. After an `Err` the schedule goes on from nowhere.
    fn take(
        &self,
        standing: &mut Standing<Self::Rest>,
        choice: Self::Choice,
    ) -> Result<Option<Refusal>, Halt>
        ensures { OnOk result (Acts (told self.now) choice
            (at standing.old.kernel standing.old.rest)
            (at standing.new.kernel standing.new.rest)) };

    /// Whether the same is left to do in a second state to which a schedule leads, under these names.
    fn is_same(
        &self,
        names: &Renaming,
        old: &Standing<Self::Rest>,
        new: &Standing<Self::Rest>,
    ) -> bool
        ensures { result ≡ true → Reaches (told self.now) (at old.now.kernel old.now.rest)
            → Reaches (told self.now) (at new.now.kernel new.now.rest)
            → same self.now (renaming_of names.now) old.now.rest new.now.rest };

    /// What of a state may still matter: what its kernel holds, and the tasks and blocks that are still to be named.
    /// Nothing is promised of it.
    fn kept(&self, standing: &Standing<Self::Rest>) -> Result<Kept, AllocError>;

    /// Writes what is left to do into the key of a state. Nothing is promised of it: states with one key mostly stand
    /// in for one another.
    fn write_rest(&self, rest: &Self::Rest, key: &mut KeyWriter<'_, '_>) -> Result<(), AllocError>;

    /// Does nothing. The program names tasks and blocks by their names alone.
    fn speaks(&self)
        ensures { SpeaksInNames (told self.now) (same self.now) };
}
