//! Outcomes and attributes of tasks (9.9).

ghost use Rattle.std.specs.Prelude.{◌≡◌};
ghost use Rattle.std.specs.Bool.{then_some};
ghost use Rattle.ada_events.specs.Attributes.{is_callable, is_finished};
ghost use Rattle.ada_events.specs.Outcomes.{outcome_of};
ghost use Rattle.ada_events.specs.Phases.{is_running, is_terminated};
ghost use Rattle.ada_events.specs.Tasks.{has_task, task_count};
ghost use Rattle.ada_view.specs.Views.{IsRecordIfAny};

use crate::View;
use ada_events::{Outcome, TaskNo};
use ada_records::Record;

/// How many tasks there are, the main program counted, at most 256.
pub fn tasks(view: &View<'_>) -> u16
    ensures { result ≡ task_count view.now }
{
    view.tables().tasks()
}

/// What is kept of a task: how far it has come, and where it is suspended; none where there is no such task.
pub fn known(view: &View<'_>, task: TaskNo) -> Option<Record>
    ensures { IsRecordIfAny view.now task.0 result }
{
    if task.0 < view.tables().tasks() {
        Some(view.record(task))
    } else {
        None
    }
}

/// What became of the task's latest call, wait, delay, start or close, or that it has ended; none where there is no
/// such task.
pub fn outcome(view: &View<'_>, task: TaskNo) -> Option<Outcome>
    ensures { result ≡ then_some (has_task view.now task.0) (outcome_of view.now task.0) }
{
    let kept = known(view, task)?;
    Some(kept.outcome())
}

/// The attribute CALLABLE of a task (9.9); none where there is no such task.
pub fn callable(view: &View<'_>, task: TaskNo) -> Option<bool>
    ensures { result ≡ then_some (has_task view.now task.0) (is_callable view.now task.0) }
{
    let kept = known(view, task)?;
    Some(kept.is_callable())
}

/// The attribute TERMINATED of a task (9.9); none where there is no such task.
pub fn terminated(view: &View<'_>, task: TaskNo) -> Option<bool>
    ensures { result ≡ then_some (has_task view.now task.0) (is_terminated view.now task.0) }
{
    let kept = known(view, task)?;
    Some(kept.stage.terminated)
}

/// Whether a task is running: started, not ended, and not suspended. None where there is no such task.
pub fn running(view: &View<'_>, task: TaskNo) -> Option<bool>
    ensures { result ≡ then_some (has_task view.now task.0) (is_running view.now task.0) }
{
    let kept = known(view, task)?;
    Some(kept.is_running())
}

/// Whether the main program is terminated.
#[tactic(auto, unfolding(ada_events::specs::Attributes::is_finished))]
pub fn finished(view: &View<'_>) -> bool
    ensures { result ≡ is_finished view.now }
{
    view.record(TaskNo(0)).stage.terminated
}
