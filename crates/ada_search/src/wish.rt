//! What is wanted of each state to which schedules lead.

use crate::stuck::is_free;
use crate::{Halt, Schedules, Standing};

/// What is wanted of a state. It holds of each state for which one stands in of which it holds.
pub trait Wish<S: Schedules> {
    ghost use Rattle.std.specs.Prelude.{◌≡◌, true, IfOk};
    ghost use Rattle.ada_standing.specs.Renaming.{Renaming as Naming};
    ghost use Rattle.ada_schedules.specs.Schedules.{State};
    ghost use Rattle.ada_schedules.specs.Stuck.{IsStuck};
    ghost use Rattle.ada_search.specs.Findings.{at};

    /// A state is as is wanted.
    ghost well: { Self → S → State S.Rest → Type 0 };

    /// Whether a state is as is wanted; if not, that isn't promised.
    fn is_met(&self, space: &S, standing: &Standing<S::Rest>) -> Result<bool, Halt>
        ensures { IfOk result (λ met. met ≡ true
            → well self.now space.now (at standing.now.kernel standing.now.rest)) };

    /// Does nothing. A state is as is wanted if what stands in for it is.
    fn is_kept(&self, space: &S)
        ensures { (here by : State S.Rest) (names : Naming)
            → S.same space.now names here.rest by.rest
            → (IsStuck here.journal → IsStuck by.journal)
            → well self.now space.now by → well self.now space.now here };
}

/// That a state isn't stuck.
#[derive(Drop)]
pub struct NotStuck;

impl<S: Schedules> Wish<S> for NotStuck {
    ghost use Rattle.ada_schedules.specs.Stuck.{IsStuck};

    ghost well = { λ _ _ state. IsStuck state.journal → ⊥ };

    fn is_met(&self, _space: &S, standing: &Standing<S::Rest>) -> Result<bool, Halt> {
        is_free(&standing.kernel)
    }

    fn is_kept(&self, _space: &S) {}
}
