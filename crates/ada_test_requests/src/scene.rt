//! What random requests are about: who may ask what, as a kernel stands.

use crate::dice::Dice;
use ada_events::limits::MOST_TASKS;
use ada_events::{Bounded, Member};

/// The tasks of a kernel, and how often they do what is rare.
pub trait Scene: Copy {
    /// What a task is called.
    type Task: Copy + Default;

    /// Any task, and rarely one that isn't there.
    fn any_task(self, dice: &mut Dice) -> Self::Task;

    /// Whether there are so few tasks that one would be made now.
    fn wants_tasks(self, dice: &mut Dice) -> bool;

    /// Whether a task runs.
    fn is_running(self, task: Self::Task) -> bool;

    /// Whether a task has yet to end its activation.
    fn is_activating(self, task: Self::Task) -> bool;

    /// The innermost of what a task is within.
    fn innermost(self, task: Self::Task) -> Option<Member>;

    /// Whether a task that is within a block would leave it now.
    fn wants_to_leave(self, dice: &mut Dice) -> bool;

    /// Whether a task may wait without an end.
    fn may_wait_long(self, task: Self::Task, dice: &mut Dice) -> bool;

    /// Whether a task made others that it has yet to activate.
    fn has_to_activate(self, by: Self::Task) -> bool;

    /// These others.
    fn to_activate(self, by: Self::Task) -> Bounded<Self::Task, MOST_TASKS>;

    /// How many families of entries a task has.
    fn families(self, task: Self::Task) -> u8;

    /// An index of a family of a task.
    fn index(self, task: Self::Task, family: u8, dice: &mut Dice) -> i32;

    /// One to three, rarely none, and more rarely as many as a list holds.
    fn how_many(self, dice: &mut Dice) -> u32;

    /// A duration, in milliseconds: mostly short, rarely of any size.
    fn duration(self, dice: &mut Dice) -> i64;
}
