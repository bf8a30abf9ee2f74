//! Tests of the tasks that a request names: that they exist, that one runs, that one is elaborated.

ghost use Rattle.std.specs.Prelude.{◌≡◌, ◌||◌, not};
ghost use Rattle.std.specs.List.{list_any};
ghost use Rattle.ada_events.specs.declared.names.TaskNo.{TaskNo as Task};
ghost use Rattle.ada_events.specs.Lawful.{IsLawful};
ghost use Rattle.ada_events.specs.Phases as phases;
ghost use Rattle.ada_events.specs.Tasks.{has_task};

use ada_events::TaskNo;
use ada_view::View;

/// Whether a task exists.
pub(crate) fn is_known(view: &View, task: TaskNo) -> bool
    ensures known { result ≡ has_task view.now task.0 }
    ensures lawful { IsLawful view.now }
{
    task.is_known(u64::from(view.tables().tasks()))
}

/// Whether a task that asks, or one of a list, doesn't exist.
pub(crate) fn names_unknown(view: &View, by: TaskNo, tasks: &[TaskNo]) -> bool
    ensures unknown { result ≡ (not (has_task view.now by.0)
        || list_any (λ (t : Task). not (has_task view.now t.0)) tasks.now) }
    ensures lawful { IsLawful view.now }
{
    let count = u64::from(view.tables().tasks());
    !by.is_known(count) || TaskNo::lists_unknown(tasks, count)
}

pub(crate) fn is_running(view: &View, task: TaskNo) -> bool
    ensures { result ≡ phases.is_running view.now task.0 }
{
    view.record(task).is_running()
}

pub(crate) fn is_elaborated(view: &View, task: TaskNo) -> bool
    ensures { result ≡ phases.is_elaborated view.now task.0 }
{
    view.record(task).stage.elaborated
}
