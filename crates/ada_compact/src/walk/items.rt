//! What a shorter journal brings about at the places where the old one did.

use crate::failure::NotCompacted;
use crate::walk::source::{MAIN, Source};
use ada_events::{Event, Member, TaskNo};
use std::alloc::Global;

/// Something of the old journal that still matters, for the shorter one to do the same there.
#[derive(Clone, Copy, Debug, PartialEq, Eq)]
pub(crate) enum Item {
    /// A live task was made.
    Made(TaskNo),
    /// A terminated task was made that may still be named.
    MadeDead(TaskNo),
    /// The block at this place of the nest of a live task was opened.
    Opened { task: TaskNo, place: usize },
    /// A task was suspended where it still is, but for the end of a block.
    Suspended(TaskNo),
    /// The call came whose acceptance is the outcome of the task, though its rendezvous is over.
    Called(TaskNo),
}

/// An item, and its position in the old journal.
#[derive(Clone, Copy)]
pub(crate) struct Placed {
    at: u32,
    pub(crate) item: Item,
}

/// Items, each at a position of its own of the old journal.
#[derive(Drop)]
pub(crate) struct Items<'a> {
    old: Source<'a>,
    items: Vec<Placed>,
}

impl<'a> Items<'a> {
    /// No items yet.
    pub(crate) fn new(alloc: Global, old: Source<'a>) -> Self {
        Items {
            old,
            items: Vec::new(alloc),
        }
    }
}

impl Items<'_> {
    /// The items.
    pub(crate) fn as_slice(&self) -> &[Placed] {
        &self.items
    }

    fn add(&mut self, at: u32, item: Item) -> Result<(), NotCompacted> {
        self.items.push(Placed { at, item })?;
        Ok(())
    }

    /// The items of a terminated task that may still be named.
    pub(crate) fn add_dead(&mut self, task: TaskNo) -> Result<(), NotCompacted> {
        self.add(self.old.record(task).created, Item::MadeDead(task))
    }

    /// The items of a live task.
    pub(crate) fn add_live(&mut self, task: TaskNo) -> Result<(), NotCompacted> {
        if task != MAIN {
            self.add(self.old.record(task).created, Item::Made(task))?;
        }
        self.add_blocks(task)?;
        self.add_suspension(task)?;
        match self.old.call_over(task) {
            Some(call) => self.add(call, Item::Called(task)),
            None => Ok(()),
        }
    }

    fn add_blocks(&mut self, task: TaskNo) -> Result<(), NotCompacted> {
        for place in 0..self.old.depth(task) {
            if let Some(Member::Block(opening)) = self.old.member(task, place) {
                self.add(opening, Item::Opened { task, place })?;
            }
        }
        Ok(())
    }

    // Blocks are closed at the very end: while tasks of the past are missing in the shorter journal, all that are left
    // could quit.
    fn add_suspension(&mut self, task: TaskNo) -> Result<(), NotCompacted> {
        let at = self.old.record(task).suspension.at;
        match self.old.event(at) {
            None | Some(Event::Closed { .. }) => Ok(()),
            Some(_) => self.add(at, Item::Suspended(task)),
        }
    }

    /// Puts the items in the order of the old journal.
    pub(crate) fn sort(&mut self) {
        self.items.sort_unstable_by_key(|placed| placed.at);
    }
}
