//! Blocks are opened again, and calls accepted.

use crate::failure::NotCompacted;
use crate::walk::Walk;
use ada_events::limits::MOST_MEMBERS;
use ada_events::{Master, Member, Outcome, Patience, Request, TaskNo};

impl Walk<'_> {
    /// Accepts a call of the old journal by the choice of this number; it is the first in its queue.
    pub(crate) fn accept(
        &mut self,
        task: TaskNo,
        call: u32,
        choice: u8,
    ) -> Result<(), NotCompacted> {
        let by = self.names.copy(task)?;
        let entry = self.old.entry(call).ok_or(NotCompacted::Unnamed)?;
        self.new.accept(by, entry, choice)
    }

    fn accept_at(&mut self, task: TaskNo, place: usize) -> Result<(), NotCompacted> {
        match self.old.member(task, place) {
            Some(Member::Rendezvous(call)) => self.accept(task, call, self.old.choice(task, call)),
            _ => Ok(()),
        }
    }

    // Accepts the calls before a place of the nest that aren't accepted yet.
    fn accept_before(&mut self, task: TaskNo, end: usize) -> Result<(), NotCompacted> {
        for place in self.progress(task).accepted..end {
            self.accept_at(task, place)?;
        }
        if let Some(progress) = self.progress.get_mut(usize::from(task.0)) {
            progress.accepted = end;
        }
        Ok(())
    }

    /// Accepts the calls of the nest that aren't accepted yet.
    pub(crate) fn accept_rest(&mut self, task: TaskNo) -> Result<(), NotCompacted> {
        self.accept_before(task, self.old.depth(task))
    }

    /// Lets the idle tasks accept the calls that aren't accepted yet.
    pub(crate) fn accept_all(&mut self) -> Result<(), NotCompacted> {
        for number in 0..self.old.tasks() {
            if self.old.is_idle(TaskNo(number)) {
                self.accept_rest(TaskNo(number))?;
            }
        }
        Ok(())
    }

    // Whether the task can come to its outcome only while this last place of its nest is free: in a full nest waits and
    // the opening of blocks are refused.
    fn needs_place(&self, task: TaskNo, place: usize) -> bool {
        if place != MOST_MEMBERS - 1 {
            return false;
        }
        match self.old.outcome(task) {
            Some(
                Outcome::TookElse
                | Outcome::TookDelay(_)
                | Outcome::ProgramError
                | Outcome::BlockLeft,
            ) => true,
            Some(_) => self.progress(task).caller.is_some(),
            None => false,
        }
    }

    /// Opens the block at a place of the nest again.
    pub(crate) fn open(&mut self, task: TaskNo, place: usize) -> Result<(), NotCompacted> {
        let Some(Member::Block(opening)) = self.old.member(task, place) else {
            return Err(NotCompacted::Unnamed);
        };
        self.accept_before(task, place)?;
        if self.needs_place(task, place) {
            self.act(task)?;
        }
        let by = self.names.copy(task)?;
        let block = self.new.ask(Request::Open { by })?;
        self.names.place(opening, block)?;
        self.mount(task, Master::Block(opening))
    }

    /// Lets the helper make the call that the task accepted for its outcome.
    pub(crate) fn call_again(&mut self, task: TaskNo) -> Result<(), NotCompacted> {
        let caller = self.progress(task).caller.ok_or(NotCompacted::Unnamed)?;
        let call = self.old.call_over(task).ok_or(NotCompacted::Unnamed)?;
        let entry = self.old.entry(call).ok_or(NotCompacted::Unnamed)?;
        let callee = self.names.copy(task)?;
        let place = self.new.call(caller, callee, entry, Patience::Simple)?;
        self.names.place(call, place)
    }
}
