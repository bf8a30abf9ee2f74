//! A name is kept no longer than its task lives.
ghost use Rattle.std.specs.Prelude.{◌≡◌, ◌≢◌, ℕ, true, false, List, None, Some, is_some, IfOk};
ghost use Rattle.std.specs.Bool.{then_some};
ghost use Rattle.ada_events.specs.Phases.{is_terminated};
ghost use Rattle.ada_events.specs.declared.event.Event.{Event as Happening};
ghost use Rattle.ada_lasting.specs.Following.{Follows};
ghost use Rattle.ada_lasting.specs.Naming.{found};

use ada_lasting::{LongKernel, NotDone};

/// Gives up the name of a task that is terminated (9.9), and answers whether it is. No other name is given up, and the
/// kernel follows the same journal as before.
pub fn give_up(kernel: &mut LongKernel, task: u64) -> Result<bool, NotDone>
    ensures follows { (journal : List Happening) → Follows journal kernel.old
        → Follows journal kernel.new }
    ensures given_up { IfOk result (λ done. done ≡ true
        → found kernel.new.names.tasks task ≡ None) }
    ensures lives { IfOk result (λ done. (journal : List Happening) → Follows journal kernel.old
        → done ≡ false → then_some (is_some (found kernel.old.names.tasks task))
        (is_terminated journal task) ≢ Some true) }
    ensures others { (other : ℕ) → other ≢ task
        → found kernel.new.names.tasks other ≡ found kernel.old.names.tasks other }
{
    if kernel.terminated(task) != Some(true) {
        return Ok(false);
    }
    kernel.release(task)?;
    Ok(true)
}
