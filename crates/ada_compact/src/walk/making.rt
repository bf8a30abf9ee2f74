//! Tasks are made again.

use crate::failure::NotCompacted;
use crate::walk::Walk;
use ada_events::{Families, Master, TaskNo};

impl Walk<'_> {
    // Who makes a task again, under a master of the new kernel: its creator, or else the helper under its master. If it
    // was left in its activation, either of them makes a helper to do it, which the abort at the end halts.
    fn maker(
        &mut self,
        task: TaskNo,
        creator: TaskNo,
        under: Master,
    ) -> Result<TaskNo, NotCompacted> {
        let by = match self.old.orphaned(task) {
            Some(master) => self.posts.helper(master).ok_or(NotCompacted::Unnamed)?,
            None => self.names.copy(creator)?,
        };
        if !self.old.is_left_in_activation(task) {
            return Ok(by);
        }
        let activator = self.new.bring_up(by, under, Families::new())?;
        self.activators.push(activator)?;
        Ok(activator)
    }

    // Activates a task that its maker activated before, and that isn't in its activation now unless it was left there.
    // Whether it comes up early or late in the new journal makes no difference.
    fn activate_again(
        &mut self,
        by: TaskNo,
        task: TaskNo,
        copy: TaskNo,
    ) -> Result<(), NotCompacted> {
        let is_unready = self.old.is_unready(task);
        if is_unready && !self.old.is_left_in_activation(task) {
            return Ok(());
        }
        self.new.activate(by, copy)?;
        if !is_unready {
            self.new.elaborate(copy, true)?;
        }
        self.mount(task, Master::Body(task))
    }

    /// Makes a live task again.
    pub(crate) fn make(&mut self, task: TaskNo) -> Result<(), NotCompacted> {
        let (creator, master) = self.old.making(task).ok_or(NotCompacted::Unnamed)?;
        let under = self.names.master(master)?;
        let by = self.maker(task, creator, under)?;
        let copy = self.new.create(by, under, self.old.families(task))?;
        self.names.name(task, copy);
        if self.old.record(task).stage.named {
            self.activate_again(by, task, copy)?;
        }
        Ok(())
    }

    /// Makes a terminated task again, by its creator if that may still name it when it activates tasks.
    pub(crate) fn make_dead(&mut self, task: TaskNo) -> Result<(), NotCompacted> {
        let by = match self.old.making(task) {
            Some((creator, _)) if self.old.may_be_activated(task) => self.names.copy(creator)?,
            _ => self.server()?,
        };
        let copy = self.new.create_dead(by, self.old.families(task))?;
        self.names.name(task, copy);
        Ok(())
    }
}
