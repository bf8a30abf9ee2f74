//! When nothing but a tick, or nothing at all, can let a journal go on.
ghost use Rattle.std.specs.Prelude.{◌≡◌, ◌<◌, ◌^◌, length, reverse};
ghost use Rattle.ada_events.specs.Lawful.{IsLawful};
ghost use Rattle.ada_waiting.specs.Standstill as standstill;

use crate::boards::tasks_in;
use crate::calls::is_met;
use crate::phases::{is_running, is_terminated};
use crate::reasons::suspended_at;
use ada_events::journal::event_in;
use ada_events::waits::{earlier, tail_due};
use ada_events::{Event, TaskNo};
use ada_waiting::Verdict;

#[tactic(auto, unfolding(ada_events::specs::Waits::due_by))]
fn due_at(events: &[Event], position: u32, event: &Event) -> Option<i64>
    ensures { result ≡ standstill.due_at (reverse events.now) position event.now }
{
    match event {
        Event::Called { due, .. } if !is_met(events, position) => *due,
        Event::Waiting { tail, .. } => tail_due(tail),
        Event::Paused { due, .. } => Some(*due),
        _ => None,
    }
}

/// The moment in milliseconds for which a suspended task waits, by a journal in the order of arrival.
#[tactic(auto, unfolding(ada_waiting::specs::Standstill::due_of))]
pub fn due_of(events: &[Event], task: TaskNo) -> Option<i64>
    requires { length events.now < 2 ^ 32 }
    ensures { result ≡ standstill.due_of (reverse events.now) task.0 }
{
    let position = suspended_at(events, task)?;
    due_at(events, position, event_in(events, position)?)
}

/// The first moment in milliseconds for which any task waits, by a journal in the order of arrival.
#[tactic(auto, unfolding(ada_waiting::specs::Standstill::first_due, ada_waiting::specs::Standstill::first_due_below), using(ada_waiting::proofs::Moments::first_due_below_more))]
pub fn first_due(events: &[Event]) -> Option<i64>
    requires short { length events.now < 2 ^ 32 }
    requires lawful { IsLawful (reverse events.now) }
    ensures { result ≡ standstill.first_due (reverse events.now) }
{
    let mut first = None;
    for task in 0..tasks_in(events) {
        first = earlier(first, due_of(events, TaskNo(task)));
    }
    first
}

/// Whether no task runs, by a journal in the order of arrival.
#[tactic(auto, unfolding(ada_waiting::specs::Standstill::nobody_runs, ada_events::specs::Search::all_below), using(ada_waiting::proofs::Numbers::all_below_more))]
pub fn nobody_runs(events: &[Event]) -> bool
    requires short { length events.now < 2 ^ 32 }
    requires lawful { IsLawful (reverse events.now) }
    ensures { result ≡ standstill.nobody_runs (reverse events.now) }
{
    let mut nobody = true;
    for task in 0..tasks_in(events) {
        nobody = nobody && !is_running(events, TaskNo(task));
    }
    nobody
}

/// What can let a journal go on, of which the events are in the order of arrival.
#[tactic(auto, unfolding(ada_waiting::specs::Standstill::verdict_of))]
pub fn verdict_of(events: &[Event]) -> Verdict
    requires short { length events.now < 2 ^ 32 }
    requires lawful { IsLawful (reverse events.now) }
    ensures { result ≡ standstill.verdict_of (reverse events.now) }
{
    if is_terminated(events, TaskNo(0)) {
        Verdict::Finished
    } else if !nobody_runs(events) {
        Verdict::GoesOn
    } else {
        match first_due(events) {
            Some(until) => Verdict::WaitsForTick { until },
            None => Verdict::Stuck,
        }
    }
}
