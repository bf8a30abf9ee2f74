//! Whether the same is left of a behaviour after two schedules, but for names.

ghost use Rattle.std.specs.Prelude.{◌≡◌, true, Some};
ghost use Rattle.ada_standing.specs.Names.{renaming_of};
ghost use Rattle.ada_behaviours.specs.Same.{renamed_object, AreRenamed, SameRest};

use crate::Rest;
use ada_behaviours::Behaviour;
use ada_events::TaskNo;
use ada_standing::Renaming;

// Whether the second task stands for the first one, or there is none in both.
fn is_renamed(names: &Renaming, task: Option<u16>, other: Option<u16>) -> bool
    ensures { result ≡ true → Some other ≡ renamed_object (renaming_of names.now) task }
{
    match (task, other) {
        (Some(task), Some(other)) => match names.task(TaskNo(task)) {
            Some(named) => named.0 == other,
            None => false,
        },
        (None, None) => true,
        _ => false,
    }
}

// Whether each object has the task that stands for its task, or none in both.
fn are_renamed(names: &Renaming, tasks: &[Option<u16>], other: &[Option<u16>]) -> bool
    ensures { result ≡ true → AreRenamed (renaming_of names.now) tasks.now other.now }
{
    if tasks.len() != other.len() {
        return false;
    }
    for object in 0..tasks.len() {
        if !is_renamed(names, tasks[object], other[object]) {
            return false;
        }
    }
    true
}

/// Whether the same is to be done, and the tasks of objects stand for each other.
pub(crate) fn is_same<B: Behaviour>(
    behaviour: &B,
    names: &Renaming,
    rest: &Rest<B::State>,
    other: &Rest<B::State>,
) -> bool
    ensures { result ≡ true → SameRest (renaming_of names.now) rest.now other.now }
{
    are_renamed(names, &rest.tasks, &other.tasks) && behaviour.is_same(&rest.state, &other.state)
}
