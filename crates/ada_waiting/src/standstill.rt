//! When nothing but a tick, or nothing at all, can let a kernel's journal go on, by what the kernel keeps.
ghost use Rattle.std.specs.Prelude.{◌≡◌};
ghost use Rattle.ada_events.specs.Waits as waits;
ghost use Rattle.ada_waiting.specs.Standstill as standstill;
ghost use Rattle.ada_waiting.specs.internal.Kept as kept_of;

use ada_events::waits::{earlier, tail_due};
use ada_events::{Event, TaskNo};
use ada_kernel::Kernel;
use ada_records::Record;

/// What can let a lawful and settled journal go on.
#[derive(Clone, Copy, Debug, PartialEq, Eq)]
pub enum Verdict {
    /// Nothing has to: the main program is terminated.
    Finished,
    /// A task that runs.
    GoesOn,
    /// No task runs, and a tick forces a step exactly from this moment on, in milliseconds.
    WaitsForTick { until: i64 },
    /// No task runs, and no tick forces a step: nothing but ticks can ever be added.
    Stuck,
}

#[tactic(auto, unfolding(ada_events::specs::Waits::due_by))]
fn due_by(is_met: bool, event: &Event) -> Option<i64>
    ensures { result ≡ waits.due_by is_met event.now }
{
    match event {
        Event::Called { due, .. } if !is_met => *due,
        Event::Waiting { tail, .. } => tail_due(tail),
        Event::Paused { due, .. } => Some(*due),
        _ => None,
    }
}

// The moment for which a task is suspended, by its record.
fn kept_due(kernel: &Kernel, kept: &Record) -> Option<i64>
    ensures { result ≡ kept_of.kept_due kernel.now kept.now }
{
    let event = kernel.journal().get(kept.suspension.at)?;
    due_by(kept.suspension.joined, event)
}

/// The moment, in milliseconds, for which a task of a kernel is suspended; none if it isn't, or for no moment. Nothing
/// is searched.
pub fn due_in(kernel: &Kernel, task: TaskNo) -> Option<i64>
    ensures { result ≡ standstill.due_of kernel.now task.0 }
{
    let _journal = kernel.journal();
    match kernel.record(task) {
        Some(kept) => kept_due(kernel, &kept),
        None => None,
    }
}

/// The first moment, in milliseconds, for which any task of a kernel waits; none if none does (9.6, 9.7.1, 9.7.3).
/// Nothing is searched.
#[tactic(auto, unfolding(crate::specs::Standstill::first_due, crate::specs::Standstill::first_due_below), using(crate::proofs::Moments::first_due_below_more))]
pub fn next_due(kernel: &Kernel) -> Option<i64>
    ensures { result ≡ standstill.first_due kernel.now }
{
    let mut first = None;
    for number in 0..kernel.tasks() {
        first = earlier(first, due_in(kernel, TaskNo(number)));
    }
    first
}

#[tactic(auto, unfolding(crate::specs::Standstill::nobody_runs, ada_events::specs::Search::all_below), using(crate::proofs::Numbers::all_below_more))]
fn nobody_runs(kernel: &Kernel) -> bool
    ensures { result ≡ standstill.nobody_runs kernel.now }
{
    let mut nobody = true;
    for number in 0..kernel.tasks() {
        nobody = nobody && kernel.running(TaskNo(number)) != Some(true);
    }
    nobody
}

/// What can let a kernel's journal go on. Nothing is searched.
#[tactic(auto, unfolding(crate::specs::Standstill::verdict_of, ada_events::specs::Attributes::is_finished))]
pub fn verdict_in(kernel: &Kernel) -> Verdict
    ensures { result ≡ standstill.verdict_of kernel.now }
{
    if kernel.finished() {
        Verdict::Finished
    } else if !nobody_runs(kernel) {
        Verdict::GoesOn
    } else {
        match next_due(kernel) {
            Some(until) => Verdict::WaitsForTick { until },
            None => Verdict::Stuck,
        }
    }
}
