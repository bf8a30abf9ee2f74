//! The attributes of tasks and entries (9.9), and what else may be asked of a task that exists.
ghost use Rattle.std.specs.Prelude.{◌≡◌, ◌+◌, ◌<◌, ◌≤◌, ◌^◌, ◌&&◌, length, reverse};
ghost use Rattle.std.specs.Option.{option_len};
ghost use Rattle.std.specs.Bool.{then_some};
ghost use Rattle.ada_events.specs.Calls as calls;
ghost use Rattle.ada_events.specs.Phases as phases;
ghost use Rattle.ada_events.specs.Tasks as tasks;
ghost use Rattle.ada_events.specs.Lawful.{IsLawful};
ghost use Rattle.ada_events.specs.Outcomes as outcomes;
ghost use Rattle.ada_events.specs.Attributes as attributes;

use crate::calls::is_queued_for;
use crate::outcomes::outcome;
use crate::phases::{has_ended, is_abnormal, is_running, is_terminated};
use crate::refusals::{is_outside, lacks_family};
use crate::tasks::has_task;
use ada_events::{Entry, Event, Outcome, Refusal, TaskNo};

/// The attribute CALLABLE (9.9): neither completed, nor terminated, nor abnormal.
#[tactic(auto, unfolding(ada_events::specs::Attributes::is_callable))]
pub fn is_callable(events: &[Event], task: TaskNo) -> bool
    requires { length events.now < 2 ^ 32 }
    ensures { result ≡ attributes.is_callable (reverse events.now) task.0 }
{
    !has_ended(events, task) && !is_abnormal(events, task)
}

/// The main program is terminated.
#[tactic(auto, unfolding(ada_events::specs::Attributes::is_finished))]
pub fn is_finished(events: &[Event]) -> bool
    requires { length events.now < 2 ^ 32 }
    ensures { result ≡ attributes.is_finished (reverse events.now) }
{
    is_terminated(events, TaskNo(0))
}

/// The outcome of a task that exists.
pub fn known_outcome(events: &[Event], task: TaskNo) -> Option<Outcome>
    requires { length events.now < 2 ^ 32 }
    ensures { result ≡ then_some (tasks.has_task (reverse events.now) task.0)
        (outcomes.outcome_of (reverse events.now) task.0) }
{
    if has_task(events, task) {
        Some(outcome(events, task))
    } else {
        None
    }
}

/// CALLABLE of a task that exists.
pub fn known_callable(events: &[Event], task: TaskNo) -> Option<bool>
    requires { length events.now < 2 ^ 32 }
    ensures { result ≡ then_some (tasks.has_task (reverse events.now) task.0)
        (attributes.is_callable (reverse events.now) task.0) }
{
    if has_task(events, task) {
        Some(is_callable(events, task))
    } else {
        None
    }
}

/// TERMINATED of a task that exists.
pub fn known_terminated(events: &[Event], task: TaskNo) -> Option<bool>
    requires { length events.now < 2 ^ 32 }
    ensures { result ≡ then_some (tasks.has_task (reverse events.now) task.0)
        (phases.is_terminated (reverse events.now) task.0) }
{
    if has_task(events, task) {
        Some(is_terminated(events, task))
    } else {
        None
    }
}

/// Whether a task that exists is running.
pub fn known_running(events: &[Event], task: TaskNo) -> Option<bool>
    requires { length events.now < 2 ^ 32 }
    ensures { result ≡ then_some (tasks.has_task (reverse events.now) task.0)
        (phases.is_running (reverse events.now) task.0) }
{
    if has_task(events, task) {
        Some(is_running(events, task))
    } else {
        None
    }
}

// One where the event at a position is a call queued at the entry, else none.
fn one_if_queued(events: &[Event], task: TaskNo, entry: Entry, position: u32, event: &Event) -> u64
    requires { length events.now < 2 ^ 32 }
    ensures value { result ≡ option_len (then_some (calls.is_call_of task.0 entry event.now
        && calls.is_queued_at (reverse events.now) position event.now) position) }
    ensures few { result ≤ 1 }
{
    if is_queued_for(events, task, entry, position, event) {
        1
    } else {
        0
    }
}

/// The attribute COUNT (9.9): how many calls are queued at an entry.
#[tactic(auto, unfolding(ada_events::specs::Calls::count_of, ada_events::specs::Calls::queue, ada_events::specs::Search::gathered))]
pub fn count(events: &[Event], task: TaskNo, entry: Entry) -> u64
    requires { length events.now < 2 ^ 32 }
    ensures value { result ≡ calls.count_of (reverse events.now) task.0 entry }
    ensures bound { result ≤ length events.now }
{
    let mut count = 0u64;
    for (i, event) in events.iter().enumerate() {
        count += one_if_queued(events, task, entry, i as u32 + 1, event);
    }
    count
}

/// COUNT of an entry in a lawful journal, at most 256.
#[tactic(auto, using(crate::proofs::Few::queue_is_short))]
pub fn short_count(events: &[Event], task: TaskNo, entry: Entry) -> u16
    requires short { length events.now < 2 ^ 32 }
    requires lawful { IsLawful (reverse events.now) }
    ensures { result ≡ calls.count_of (reverse events.now) task.0 entry }
{
    count(events, task, entry) as u16
}

/// The cause for which a task may not ask for COUNT of an entry of its own.
#[tactic(auto, unfolding(ada_events::specs::Attributes::count_refusal, ada_events::specs::Refusals::first_cause))]
pub fn count_refusal(events: &[Event], by: TaskNo, entry: Entry) -> Option<Refusal>
    requires { length events.now < 2 ^ 32 }
    ensures { result ≡ attributes.count_refusal (reverse events.now) by.0 entry }
{
    if !has_task(events, by) {
        Some(Refusal::UnknownTask)
    } else if !is_running(events, by) {
        Some(Refusal::NotRunning)
    } else if lacks_family(events, by, entry) {
        Some(Refusal::NoSuchFamily)
    } else if is_outside(events, by, entry) {
        Some(Refusal::ConstraintError)
    } else {
        None
    }
}

/// COUNT of an entry of the asking task's own, or the cause for which it may not ask.
#[tactic(auto, unfolding(ada_events::specs::Attributes::own_count))]
pub fn own_count(events: &[Event], by: TaskNo, entry: Entry) -> Result<u16, Refusal>
    requires short { length events.now < 2 ^ 32 }
    requires lawful { IsLawful (reverse events.now) }
    ensures { result ≡ attributes.own_count (reverse events.now) by.0 entry }
{
    match count_refusal(events, by, entry) {
        Some(cause) => Err(cause),
        None => Ok(short_count(events, by, entry)),
    }
}
