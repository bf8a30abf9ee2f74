//! Whether nothing can let a kernel go on.
ghost use Rattle.std.specs.Prelude.{◌≡◌, true, not, None, IfOk, int_lt};
ghost use Rattle.ada_events.specs.Limits.{is_full};
ghost use Rattle.ada_events.specs.declared.request.Request.TheVariants.{Tick};
ghost use Rattle.ada_events.specs.Lawful.{IsLawful, IsSettled};
ghost use Rattle.ada_laws.specs.Unlimited.{refusal_but_limits};
ghost use Rattle.ada_schedules.specs.Stuck.{IsStuck};

use crate::Halt;
use ada_events::Refusal;
use ada_events::limits::{LAST_MOMENT, MOST_APPENDED, MOST_EVENTS};
use ada_kernel::Kernel;
use ada_waiting::{Verdict, verdict_in};

// Whether the journal has room for what any request leads to.
#[tactic(auto, unfolding(ada_events::specs::Limits::is_full))]
fn has_room(kernel: &Kernel) -> bool
    ensures { result ≡ not (is_full kernel.now) }
{
    kernel.journal().len() as usize + MOST_APPENDED <= MOST_EVENTS
}

/// Whether the main program isn't terminated, no task runs, and no tick forces anything. Of a journal that has no room
/// for a request it isn't told.
pub fn is_stuck(kernel: &Kernel) -> bool
    ensures { result ≡ true → IsStuck kernel.now }
{
    let _journal = kernel.journal();
    if !has_room(kernel) {
        return false;
    }
    match verdict_in(kernel) {
        Verdict::Stuck => true,
        _ => false,
    }
}

fn is_before(moment: i64, other: i64) -> bool
    ensures { result ≡ int_lt moment other }
{
    moment < other
}

// Whether a tick to this moment isn't refused, where the journal has room.
#[tactic(auto, using(crate::proofs::Free::tick_unrefused))]
fn may_tick(kernel: &Kernel, until: i64) -> bool
    ensures { result ≡ true → refusal_but_limits kernel.now (Tick until) ≡ None }
{
    !is_before(until, kernel.view().moment()) && !is_before(LAST_MOMENT, until)
}

/// Whether something can let a kernel go on, or the main program is terminated. Its journal is lawful and settled.
///
/// # Errors
///
/// [`Halt::Limit`] if the journal has no room for a request: then it isn't told.
pub(crate) fn is_free(kernel: &Kernel) -> Result<bool, Halt>
    ensures free { IfOk result (λ free. free ≡ true → IsStuck kernel.now → ⊥) }
    ensures lawful { IsLawful kernel.now }
    ensures settled { IsSettled kernel.now }
{
    let _journal = kernel.journal();
    if !has_room(kernel) {
        return Err(Halt::Limit(Refusal::JournalFull));
    }
    match verdict_in(kernel) {
        Verdict::Finished => Ok(true),
        Verdict::GoesOn => Ok(true),
        Verdict::WaitsForTick { until } => Ok(may_tick(kernel, until)),
        Verdict::Stuck => Ok(false),
    }
}
