//! A host sleeps until a task waits no longer.
ghost use Rattle.std.specs.Prelude.{◌≡◌, ℤ, Some, IfSome};
ghost use Rattle.ada_waiting.specs.Standstill.{verdict_of};
ghost use Rattle.ada_waiting.specs.declared.standstill.Verdict.TheVariants.{WaitsForTick};

use ada_kernel::Kernel;
use ada_waiting::{Verdict, verdict_in};

/// The moment, in milliseconds, until which a host may sleep: no task runs, and no earlier tick forces a step (9.6).
/// None if a task runs, or if no tick ever forces one.
pub fn sleep_until(kernel: &Kernel) -> Option<i64>
    ensures waits { IfSome result (λ until. verdict_of kernel.now ≡ WaitsForTick until) }
    ensures all { (until : ℤ) → verdict_of kernel.now ≡ WaitsForTick until → result ≡ Some until }
{
    match verdict_in(kernel) {
        Verdict::WaitsForTick { until } => Some(until),
        Verdict::Finished | Verdict::GoesOn | Verdict::Stuck => None,
    }
}
