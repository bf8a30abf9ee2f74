//! The end of a walk: the moment, the abort, and whatever completes or waits to leave a block. Until then helpers held
//! up what would else have terminated.

use crate::failure::NotCompacted;
use crate::walk::Walk;
use crate::walk::source::MAIN;
use crate::walk::suspending::push_task;
use ada_events::{Event, Request, TaskNo, Tasks};
use std::alloc::Global;

// The end of a block where a task is suspended.
#[derive(Clone, Copy)]
struct Closing {
    at: u32,
    task: TaskNo,
}

impl Walk<'_> {
    // All live abnormal tasks: with each of them all live ones that depend on it are there already.
    fn abnormal(&self) -> Result<Tasks, NotCompacted> {
        let mut tasks = Tasks::new();
        for number in 0..self.old.tasks() {
            let stage = self.old.record(TaskNo(number)).stage;
            if stage.abnormal && !stage.terminated {
                push_task(&mut tasks, self.names.copy(TaskNo(number))?)?;
            }
        }
        Ok(tasks)
    }

    fn abort(&mut self) -> Result<(), NotCompacted> {
        let mut tasks = self.abnormal()?;
        for activator in &self.activators {
            push_task(&mut tasks, *activator)?;
        }
        if tasks.is_empty() {
            return Ok(());
        }
        let server = self.server()?;
        self.new.abort(server, tasks)
    }

    fn is_closing(&self, at: u32) -> bool {
        matches!(self.old.event(at), Some(Event::Closed { .. }))
    }

    // The ends of blocks where tasks are suspended, in the order of the old journal.
    fn closings(&self, alloc: Global) -> Result<Vec<Closing>, NotCompacted> {
        let mut closings = Vec::new(alloc);
        for number in 0..self.old.tasks() {
            let at = self.old.record(TaskNo(number)).suspension.at;
            if self.is_closing(at) {
                closings.push(Closing {
                    at,
                    task: TaskNo(number),
                })?;
            }
        }
        closings.sort_unstable_by_key(|closing| closing.at);
        Ok(closings)
    }

    fn close(&mut self, closing: Closing) -> Result<(), NotCompacted> {
        let by = self.names.copy(closing.task)?;
        let place = self.new.ask(Request::Close { by })?;
        self.names.place(closing.at, place)
    }

    fn close_all(&mut self, closings: &[Closing]) -> Result<(), NotCompacted> {
        for closing in closings {
            self.close(*closing)?;
        }
        Ok(())
    }

    // A task that was completed and then aborted is halted by the abort, and isn't to complete any more.
    fn complete(&mut self, task: TaskNo) -> Result<(), NotCompacted> {
        let copy = self.names.copy(task)?;
        if self.new.has_ended(copy) {
            return Ok(());
        }
        self.new.complete(copy)
    }

    fn complete_all(&mut self) -> Result<(), NotCompacted> {
        for number in 0..self.old.tasks() {
            if self.old.is_over(TaskNo(number)) {
                self.complete(TaskNo(number))?;
            }
        }
        Ok(())
    }

    // The abort may have ended helpers as well.
    fn complete_helpers(&mut self) -> Result<(), NotCompacted> {
        for helper in &self.helpers {
            if !self.new.has_ended(*helper) {
                self.new.complete(*helper)?;
            }
        }
        Ok(())
    }

    fn complete_server(&mut self) -> Result<(), NotCompacted> {
        match self.server {
            Some(server) => self.new.complete(server),
            None => Ok(()),
        }
    }

    /// Asks for what comes last.
    pub(crate) fn finish(&mut self, alloc: Global) -> Result<(), NotCompacted> {
        self.new.tick(self.old.moment())?;
        self.abort()?;
        let closings = self.closings(alloc)?;
        self.close_all(&closings)?;
        self.complete_all()?;
        self.complete_helpers()?;
        self.complete_server()
    }

    fn make_dead_of_main(&mut self, task: TaskNo) -> Result<(), NotCompacted> {
        let copy = self.new.create_dead(MAIN, self.old.families(task))?;
        self.names.name(task, copy);
        Ok(())
    }

    /// Asks for all where main is terminated, so that no task is live.
    pub(crate) fn finish_main(&mut self) -> Result<(), NotCompacted> {
        for number in 1..self.old.tasks() {
            if self.is_kept_dead(TaskNo(number)) {
                self.make_dead_of_main(TaskNo(number))?;
            }
        }
        self.new.complete(MAIN)?;
        self.new.tick(self.old.moment())
    }
}
