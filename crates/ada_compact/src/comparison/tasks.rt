//! What must be alike of two tasks of which one stands for the other.

ghost use Rattle.std.specs.Prelude.{◌≡◌, ◌<◌, true, false, Some, Option};
ghost use Rattle.std.specs.Option.{option_and_then, option_copied, option_map};
ghost use Rattle.ada_events.specs.declared.names.TaskNo.{TaskNo as Number};
ghost use Rattle.ada_events.specs.Says.{creation_in};
ghost use Rattle.ada_events.specs.Tasks.{families_of, task_count};
ghost use Rattle.ada_events.specs.Outcomes.{outcome_of};
ghost use Rattle.ada_standing.specs.Renaming.{renamed_outcome};
ghost use Rattle.ada_standing.specs.Names.{renaming_of};
ghost use Rattle.ada_standing.specs.StandsIn.{IsSameTask, IsSameDependent, activator_of};
ghost use Rattle.ada_compact.specs.internal.Making.{IsSameMaking};

use crate::comparison::Comparison;
use ada_events::{Event, Families, FamilyList, TaskNo};
use ada_view::{View, queries};

// Who may still activate a task (9.3).
#[tactic(auto, unfolding(ada_standing::specs::StandsIn::activator_of, ada_events::specs::Says::creation_in))]
fn activator(view: &View, task: TaskNo) -> Option<TaskNo>
    ensures { option_map (λ (t : Number). t.0) result ≡ activator_of view.now task.0 }
{
    if view.record(task).stage.named {
        return None;
    }
    match view.creation(task) {
        Some(Event::Created { by, .. }) => {
            if view.record(*by).stage.terminated {
                None
            } else {
                Some(*by)
            }
        }
        _ => None,
    }
}

// The families of entries that a task declares (9.5).
fn families<'a>(view: &'a View, task: TaskNo) -> &'a Families
    requires { task.0 < task_count view.now }
    ensures { result.now ≡ families_of view.now task.0 }
{
    view.tables().families(task)
}

// Whether two tasks declare the same families.
fn declare_same(old: &Families, new: &Families) -> bool
    ensures { result ≡ true → new.now ≡ old.now }
{
    old == new
}

// Whether two events make tasks with the same families.
fn are_same_families(old: &FamilyList, new: &FamilyList) -> bool
    ensures { result ≡ true → new.now ≡ old.now }
{
    old == new
}

impl Comparison<'_> {
    // Whether the same task may still activate the two, or none.
    fn is_same_activator(&self, old: Option<TaskNo>, new: Option<TaskNo>) -> bool
        ensures { result ≡ true → option_map (λ (t : Number). t.0) new
            ≡ option_and_then (renaming_of self.now.names.now).task
            (option_map (λ (t : Number). t.0) old) }
    {
        match (old, new) {
            (Some(task), Some(stands)) => self.is_named(task, stands),
            (None, None) => true,
            _ => false,
        }
    }

    // Whether two tasks were made alike, the first of them named by a start or not.
    #[tactic(auto, unfolding(ada_events::specs::Says::creation_in, ada_standing::specs::Renaming::renamed_master))]
    fn is_same_making(&self, old: Option<&Event>, new: Option<&Event>, named: bool) -> bool
        ensures { result ≡ true → IsSameMaking (renaming_of self.now.names.now) named
            (option_and_then creation_in (option_copied old.entry))
            (option_and_then creation_in (option_copied new.entry)) }
    {
        match (old, new) {
            (
                Some(
                    Event::Created {
                        under,
                        master,
                        families,
                        ..
                    },
                ),
                Some(
                    Event::Created {
                        under: frame,
                        master: owner,
                        families: entries,
                        ..
                    },
                ),
            ) => {
                are_same_families(families, entries)
                    && self.is_same_master(*master, *owner)
                    && (named || self.is_same_master(*under, *frame))
            }
            (None, None) => true,
            _ => false,
        }
    }

    // Whether the outcomes of two tasks are alike.
    fn has_same_outcome(&self, old: TaskNo, new: TaskNo) -> bool
        requires known { old.0 < task_count self.now.old }
        requires copied { new.0 < task_count self.now.new }
        ensures { result ≡ true
            → renamed_outcome (renaming_of self.now.names.now) (outcome_of self.now.old old.0)
            ≡ Some (outcome_of self.now.new new.0) }
    {
        match (
            queries::outcome(&self.old, old),
            queries::outcome(&self.new, new),
        ) {
            (Some(outcome), Some(other)) => self.is_same_outcome(outcome, other),
            _ => false,
        }
    }

    /// Whether a task stands for another one that may still be named: terminated or not, with the same entries, to be
    /// activated by the same, with the same outcome.
    pub(crate) fn is_same_task(&self, old: TaskNo, new: TaskNo) -> bool
        requires known { old.0 < task_count self.now.old }
        requires copied { new.0 < task_count self.now.new }
        ensures { result ≡ true
            → IsSameTask self.now.old self.now.new (renaming_of self.now.names.now) old.0 new.0 }
    {
        let ended = self.old.record(old).stage.terminated == self.new.record(new).stage.terminated;
        ended
            && declare_same(families(&self.old, old), families(&self.new, new))
            && self.is_same_activator(activator(&self.old, old), activator(&self.new, new))
            && self.has_same_outcome(old, new)
    }

    /// Whether a task stands for another one that isn't terminated: it depends on the same, is completed or not, and
    /// named by a start or not.
    pub(crate) fn is_same_dependent(&self, old: TaskNo, new: TaskNo) -> bool
        ensures { result ≡ true → IsSameDependent self.now.old self.now.new
            (renaming_of self.now.names.now) old.0 new.0 }
    {
        let stage = self.old.record(old).stage;
        let other = self.new.record(new).stage;
        stage.completed == other.completed
            && stage.named == other.named
            && self.old.is_abandoned(old) == self.new.is_abandoned(new)
            && self.is_same_making(self.old.creation(old), self.new.creation(new), stage.named)
    }
}
