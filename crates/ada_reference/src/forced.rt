//! The step that a journal forces: the first row that applies.
ghost use Rattle.std.specs.Prelude.{◌≡◌, ◌<◌, ◌≤◌, ◌^◌, length, reverse};
ghost use Rattle.std.specs.Bool.{then_some};
ghost use Rattle.ada_events.specs.declared.event.Event.TheVariants as event_of;
ghost use Rattle.ada_events.specs.Forced as forced;
ghost use Rattle.ada_events.specs.Tasks.{task_count as count_of_tasks};
ghost use Rattle.ada_events.specs.declared.limits.TheConstants.{MOST_TASKS};

use crate::calls::is_caller_in_rendezvous;
use crate::forced::endings::ending;
use crate::forced::meetings::communication;
use crate::phases::{has_ended, is_abnormal};
use crate::tasks::task_count;
use ada_events::{Event, TaskNo};

pub mod endings;
pub mod meetings;

/// An abnormal task is to complete (9.10).
#[tactic(auto, unfolding(ada_events::specs::Forced::is_to_halt))]
pub fn is_to_halt(events: &[Event], task: TaskNo) -> bool
    requires { length events.now < 2 ^ 32 }
    ensures { result ≡ forced.is_to_halt (reverse events.now) task.0 }
{
    is_abnormal(events, task) && !has_ended(events, task) && !is_caller_in_rendezvous(events, task)
}

fn halted_task(events: &[Event], task: TaskNo) -> Option<Event>
    requires { length events.now < 2 ^ 32 }
    ensures { result ≡ then_some (forced.is_to_halt (reverse events.now) task.0)
        (event_of.Halted task) }
{
    if is_to_halt(events, task) {
        Some(Event::Halted { task })
    } else {
        None
    }
}

/// The least abnormal task that is to complete (9.10).
#[tactic(auto, unfolding(ada_events::specs::Forced::halted, ada_events::specs::Search::first_below), using(ada_waiting::proofs::Numbers::first_below_more))]
pub fn halted(events: &[Event]) -> Option<Event>
    requires short { length events.now < 2 ^ 32 }
    requires few { count_of_tasks (reverse events.now) ≤ MOST_TASKS }
    ensures { result ≡ forced.halted (reverse events.now) }
{
    let mut found = None;
    for task in 0..task_count(events) as u16 {
        if found.is_none() {
            found = halted_task(events, TaskNo(task));
        }
    }
    found
}

/// The step that a journal forces, if there is one.
#[tactic(auto, unfolding(ada_events::specs::Forced::forced, ada_events::specs::Forced::first_of_all))]
pub fn forced(events: &[Event]) -> Option<Event>
    requires short { length events.now < 2 ^ 32 }
    requires few { count_of_tasks (reverse events.now) ≤ MOST_TASKS }
    ensures { result ≡ forced.forced (reverse events.now) }
{
    if let Some(step) = halted(events) {
        return Some(step);
    }
    if let Some(step) = communication(events) {
        return Some(step);
    }
    ending(events)
}
