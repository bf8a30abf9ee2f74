//! The tasks at the keys of rows that go by tasks.

ghost use Rattle.std.specs.Prelude.{◌≡◌, ◌<◌, ◌≤◌, IfSome, IfNone};
ghost use Rattle.ada_events.specs.Tasks.{task_count};

use crate::view::View;
use ada_events::TaskNo;

impl<'a> View<'a> {
    /// The task of that number, if there is one.
    pub fn task(&self, key: u32) -> Option<TaskNo>
        ensures some { IfSome result (λ task. task.0 ≡ key) }
        ensures known { IfSome result (λ task. task.0 < task_count self.now) }
        ensures none { IfNone result (task_count self.now ≤ key) }
    {
        if key < u32::from(self.tables().tasks()) {
            Some(TaskNo(key as u16))
        } else {
            None
        }
    }
}
