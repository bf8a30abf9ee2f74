//! Helpers, which do in a new kernel what tasks did that are gone.

use crate::failure::NotCompacted;
use crate::walk::Walk;
use crate::walk::source::MAIN;
use ada_events::{Entry, Families, Family, Master, Outcome, TaskNo};

/// The one entry of the server and of the dead helper.
pub(crate) const SERVICE: Entry = Entry {
    family: 0,
    index: 0,
};

fn service() -> Families {
    Families::from_slice(&[Family { low: 0, high: 0 }])
}

impl Walk<'_> {
    // Whether the server is needed for the task: to make it, to halt it or who activates it, or for its outcome.
    fn needs_server(&self, task: TaskNo) -> bool {
        if self.is_kept_dead(task) {
            return !self.old.may_be_activated(task);
        }
        if !self.old.is_live(task) {
            return false;
        }
        self.old.record(task).stage.abnormal
            || self.old.is_left_in_activation(task)
            || matches!(
                self.old.outcome(task),
                Some(Outcome::Served | Outcome::Raised | Outcome::TaskingError | Outcome::Cancelled)
            )
    }

    fn is_server_needed(&self) -> bool {
        self.posts.is_needed(Master::Body(MAIN))
            || (0..self.old.tasks()).any(|number| self.needs_server(TaskNo(number)))
    }

    /// Makes the server, if it is needed.
    pub(crate) fn make_server(&mut self) -> Result<(), NotCompacted> {
        if self.is_server_needed() {
            let server = self.new.bring_up(MAIN, Master::Body(MAIN), service())?;
            self.posts.fill(Master::Body(MAIN), server);
            self.server = Some(server);
        }
        Ok(())
    }

    /// The server.
    pub(crate) fn server(&self) -> Result<TaskNo, NotCompacted> {
        self.server.ok_or(NotCompacted::Unnamed)
    }

    /// The dead helper, made now if there is none.
    pub(crate) fn dead(&mut self) -> Result<TaskNo, NotCompacted> {
        if let Some(dead) = self.dead {
            return Ok(dead);
        }
        let server = self.server()?;
        let dead = self.new.create_dead(server, service())?;
        self.dead = Some(dead);
        Ok(dead)
    }

    // A helper that runs, until it completes at the end.
    fn help(&mut self, by: TaskNo, master: Master) -> Result<TaskNo, NotCompacted> {
        let helper = self.new.bring_up(by, master, Families::new())?;
        self.helpers.push(helper)?;
        Ok(helper)
    }

    fn make_caller(&mut self, task: TaskNo) -> Result<(), NotCompacted> {
        if self.old.call_over(task).is_none() {
            return Ok(());
        }
        let caller = self.help(MAIN, Master::Body(MAIN))?;
        if let Some(progress) = self.progress.get_mut(usize::from(task.0)) {
            progress.caller = Some(caller);
        }
        Ok(())
    }

    /// Makes a helper for each call that is over and stands in an outcome.
    pub(crate) fn make_callers(&mut self) -> Result<(), NotCompacted> {
        for number in 0..self.old.tasks() {
            self.make_caller(TaskNo(number))?;
        }
        Ok(())
    }

    /// The task has become the owner of the master: makes the helper under it, if one is needed.
    pub(crate) fn mount(&mut self, task: TaskNo, master: Master) -> Result<(), NotCompacted> {
        if !self.posts.is_needed(master) {
            return Ok(());
        }
        let by = self.names.copy(task)?;
        let under = self.names.master(master)?;
        let helper = self.help(by, under)?;
        self.posts.fill(master, helper);
        Ok(())
    }
}
