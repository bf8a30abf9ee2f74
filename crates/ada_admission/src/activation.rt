//! The causes for which the requests of an activation are refused: its start, and the end of a task's own (9.3).

ghost use Rattle.std.specs.Prelude.{◌≡◌, ◌<◌, ◌==◌, ◌&&◌, ◌||◌, Bool, not};
ghost use Rattle.std.specs.List.{All, list_any};
ghost use Rattle.ada_events.specs.declared.limits.TheConstants.{MOST_TASKS};
ghost use Rattle.ada_events.specs.declared.names.TaskNo.{TaskNo as Task};
ghost use Rattle.ada_events.specs.declared.request.Request.TheVariants as asked;
ghost use Rattle.ada_events.specs.Lawful.{IsLawful};
ghost use Rattle.ada_events.specs.Phases as phases;
ghost use Rattle.ada_events.specs.Refusals as refusals;
ghost use Rattle.ada_events.specs.Says as said;
ghost use Rattle.ada_events.specs.Search.{is_some_and};
ghost use Rattle.ada_events.specs.Tasks.{creation_of};

use crate::limits::is_full;
use crate::names::{is_elaborated, is_known, is_running, names_unknown};
use crate::nests::is_within;
use ada_events::limits::MOST_TASKS;
use ada_events::{Event, Refusal, TaskNo};
use ada_view::View;

// Whether the event is a creation by the task.
#[tactic(auto, unfolding(ada_events::specs::Says::creation_in))]
fn is_making(event: &Event, by: TaskNo) -> bool
    ensures { result ≡ is_some_and (said.creation_in event.now)
        (λ (c : said.Creation). c.by == by.0) }
{
    match event {
        Event::Created { by: maker, .. } => maker.0 == by.0,
        _ => false,
    }
}

// Whether a task made another (9.1).
fn is_made_by(view: &View, by: TaskNo, task: TaskNo) -> bool
    ensures { result ≡ is_some_and (creation_of view.now task.0)
        (λ (c : said.Creation). c.by == by.0) }
{
    match view.creation(task) {
        Some(event) => is_making(event, by),
        None => false,
    }
}

// Whether a start names the task (9.3).
fn has_start(view: &View, task: TaskNo) -> bool
    ensures { result ≡ phases.has_start view.now task.0 }
{
    view.record(task).stage.named
}

// Whether a task may activate another (9.3): it made it, and no start names it.
#[tactic(auto, unfolding(ada_events::specs::Refusals::may_activate))]
fn may_activate(view: &View, by: TaskNo, task: TaskNo) -> bool
    ensures { result ≡ refusals.may_activate view.now by.0 task.0 }
{
    is_made_by(view, by, task) && !has_start(view, task)
}

// Whether a list names a task that isn't the asking task's to activate.
fn lists_anothers(view: &View, by: TaskNo, tasks: &[TaskNo]) -> bool
    ensures { result ≡ list_any (λ (t : Task). not (refusals.may_activate view.now by.0 t.0))
        tasks.now }
{
    tasks.iter().any(|task| !may_activate(view, by, *task))
}

// Whether a task stands twice in a list.
fn has_double_task(tasks: &[TaskNo]) -> bool
    requires { All (λ (t : Task). t.0 < MOST_TASKS) tasks.now }
    ensures { result ≡ refusals.has_double_task tasks.now }
{
    let mut seen = [false; MOST_TASKS];
    let mut left = tasks.len();
    while left > 0 {
        left -= 1;
        let place = usize::from(tasks[left].0);
        if seen[place] {
            return true;
        }
        seen[place] = true;
    }
    false
}

// Whether a list names a task that isn't the asking task's to activate, or names one twice (9.3).
fn is_not_to_activate(view: &View, by: TaskNo, tasks: &[TaskNo]) -> bool
    requires { IsLawful view.now }
    ensures { result ≡ (list_any (λ (t : Task).
        not (refusals.may_activate view.now by.0 t.0)) tasks.now
        || refusals.has_double_task tasks.now) }
{
    lists_anothers(view, by, tasks) || has_double_task(tasks)
}

/// The cause for which the start of an activation is refused, if there is one (9.3).
#[tactic(auto, unfolding(ada_events::specs::Refusals::first_cause), using(crate::proofs::Causes::activate_causes))]
pub fn refusal_of_activate(view: &View, by: TaskNo, tasks: &[TaskNo]) -> Option<Refusal>
    ensures { result ≡ refusals.refusal view.now (asked.Activate by tasks.now) }
{
    if names_unknown(view, by, tasks) {
        return Some(Refusal::UnknownTask);
    }
    if !is_running(view, by) {
        return Some(Refusal::NotRunning);
    }
    if tasks.is_empty() {
        return Some(Refusal::EmptyList);
    }
    if is_not_to_activate(view, by, tasks) {
        return Some(Refusal::NotYourTask);
    }
    if is_full(view) {
        return Some(Refusal::JournalFull);
    }
    None
}

/// The cause for which the end of a task's own activation, by an exception or not, is refused, if there is one (9.3).
#[tactic(auto, unfolding(ada_events::specs::Refusals::first_cause), using(crate::proofs::Causes::elaborated_causes))]
pub fn refusal_of_elaborated(view: &View, by: TaskNo) -> Option<Refusal>
    ensures { (ok : Bool) → result ≡ refusals.refusal view.now (asked.Elaborated by ok) }
{
    if !is_known(view, by) {
        return Some(Refusal::UnknownTask);
    }
    if !is_running(view, by) {
        return Some(Refusal::NotRunning);
    }
    if is_elaborated(view, by) {
        return Some(Refusal::NotActivating);
    }
    if is_within(view, by) {
        return Some(Refusal::StillNested);
    }
    if is_full(view) {
        return Some(Refusal::JournalFull);
    }
    None
}
