//! Whether a new journal stands in for an old one.

ghost use Rattle.std.specs.Prelude.{◌≡◌, ◌<◌, ℕ, true, Some, length};
ghost use Rattle.ada_events.specs.Tasks.{moment, task_count};
ghost use Rattle.ada_standing.specs.Names.{renaming_of};
ghost use Rattle.ada_standing.specs.StandsIn.{StandsIn, is_live};
ghost use Rattle.ada_compact.specs.internal.Keeping.{AreTasksRight, IsKeptRight, IsStandIn, RisesBelow};

use crate::comparison::Comparison;
use ada_events::TaskNo;
use ada_view::queries;

impl Comparison<'_> {
    // Whether the second task stands for the first in all that matters.
    fn is_stand_in(&self, old: TaskNo, new: TaskNo) -> bool
        requires known { old.0 < task_count self.now.old }
        requires copied { new.0 < task_count self.now.new }
        ensures { result ≡ true → IsStandIn self.now.old self.now.new
            (renaming_of self.now.names.now) old.0 new.0 }
    {
        if !self.is_same_task(old, new) {
            return false;
        }
        let stage = self.old.record(old).stage;
        if stage.terminated {
            return true;
        }
        if !self.is_same_dependent(old, new) {
            return false;
        }
        if !self.is_same_nest(old, new) {
            return false;
        }
        stage.completed || self.is_same_active(old, new)
    }

    // Whether the task is kept if it lives, and whoever stands for it does so in all that matters.
    fn is_kept_right(&self, task: TaskNo) -> bool
        requires { task.0 < task_count self.now.old }
        ensures { result ≡ true → IsKeptRight self.now.old self.now.new
            (renaming_of self.now.names.now) task.0 }
    {
        match self.names.task(task) {
            Some(named) => {
                if named.0 >= queries::tasks(&self.new) {
                    return false;
                }
                self.is_stand_in(task, named)
            }
            None => self.old.record(task).stage.terminated,
        }
    }

    // Whether each task is.
    fn are_kept_right(&self) -> bool
        ensures { result ≡ true → (u : ℕ) → u < task_count self.now.old
            → IsKeptRight self.now.old self.now.new (renaming_of self.now.names.now) u }
    {
        for number in 0..queries::tasks(&self.old) {
            if !self.is_kept_right(TaskNo(number)) {
                return false;
            }
        }
        true
    }

    // Whether a task stands for one.
    fn is_image(&self, task: TaskNo) -> bool
        ensures { result ≡ true
            → (u : ℕ) × ((renaming_of self.now.names.now).task u ≡ Some task.0) }
    {
        for number in 0..self.names.tasks() {
            if self.is_named(TaskNo(number), task) {
                return true;
            }
        }
        false
    }

    // Whether a task stands for one, or is terminated.
    fn is_accounted_for(&self, task: TaskNo) -> bool
        ensures { result ≡ true → is_live self.now.new task.0 ≡ true
            → (u : ℕ) × ((renaming_of self.now.names.now).task u ≡ Some task.0) }
    {
        if self.new.record(task).stage.terminated {
            return true;
        }
        self.is_image(task)
    }

    // Whether each task of the new journal stands for one, or is terminated.
    fn are_accounted_for(&self) -> bool
        ensures { result ≡ true → (v : ℕ) → v < task_count self.now.new
            → is_live self.now.new v ≡ true
            → (u : ℕ) × ((renaming_of self.now.names.now).task u ≡ Some v) }
    {
        for number in 0..queries::tasks(&self.new) {
            if !self.is_accounted_for(TaskNo(number)) {
                return false;
            }
        }
        true
    }

    // Whether those who stand for tasks rise with these.
    fn tasks_rise(&self) -> bool
        ensures { result ≡ true → (low : ℕ)
            × RisesBelow (renaming_of self.now.names.now) (length self.now.names.now.tasks) low }
    {
        let mut low = 0;
        for number in 0..self.names.tasks() {
            if let Some(named) = self.names.task(TaskNo(number)) {
                if u32::from(named.0) < low {
                    return false;
                }
                low = u32::from(named.0) + 1;
            }
        }
        true
    }

    // Whether the moment is the same.
    fn is_same_moment(&self) -> bool
        ensures { result ≡ true → moment self.now.new ≡ moment self.now.old }
    {
        self.old.moment() == self.new.moment()
    }

    // Whether tasks are kept, each right, and in their order.
    fn keeps_tasks(&self) -> bool
        requires { length self.now.names.now.tasks ≡ task_count self.now.old }
        ensures { result ≡ true → AreTasksRight self.now.old self.now.new
            (renaming_of self.now.names.now) }
    {
        if !self.is_named(TaskNo(0), TaskNo(0)) {
            return false;
        }
        if !self.are_kept_right() {
            return false;
        }
        if !self.are_accounted_for() {
            return false;
        }
        self.tasks_rise()
    }

    /// Whether the new journal stands in for the old one.
    pub(crate) fn stands_in(&self) -> bool
        ensures { result ≡ true → StandsIn self.now.old self.now.new
            (renaming_of self.now.names.now) }
    {
        if self.names.tasks() != queries::tasks(&self.old) {
            return false;
        }
        if !self.is_same_moment() {
            return false;
        }
        if !self.are_places_right() {
            return false;
        }
        self.keeps_tasks()
    }
}
