//! What a new journal has for what the old one names.

use crate::failure::NotCompacted;
use crate::walk::source::MAIN;
use ada_events::{Master, TaskNo};
use ada_standing::{Place, Renaming};
use std::alloc::Global;

/// The tasks and the positions that have a name in the new journal by now.
#[derive(Drop)]
pub(crate) struct Names {
    // By number: one for each task of the old journal.
    copies: Vec<Option<TaskNo>>,
    // In the order of the old positions while that journal is gone through.
    places: Vec<Place>,
}

impl Names {
    /// Of so many tasks main alone has a name.
    pub(crate) fn new(alloc: Global, tasks: u16) -> Result<Self, NotCompacted> {
        let mut copies = Vec::new(alloc);
        for number in 0..tasks {
            copies.push(if number == 0 { Some(MAIN) } else { None })?;
        }
        Ok(Names {
            copies,
            places: Vec::new(alloc),
        })
    }

    /// The task that stands for one of the old journal.
    pub(crate) fn copy(&self, task: TaskNo) -> Result<TaskNo, NotCompacted> {
        match self.copies.get(usize::from(task.0)) {
            Some(Some(copy)) => Ok(*copy),
            _ => Err(NotCompacted::Unnamed),
        }
    }

    /// The new task stands for the old one.
    pub(crate) fn name(&mut self, task: TaskNo, copy: TaskNo) {
        if let Some(named) = self.copies.get_mut(usize::from(task.0)) {
            *named = Some(copy);
        }
    }

    /// The new position stands for the old one.
    pub(crate) fn place(&mut self, old: u32, new: u32) -> Result<(), NotCompacted> {
        self.places.push(Place { old, new })?;
        Ok(())
    }

    /// The master that stands for one of the old journal.
    pub(crate) fn master(&self, master: Master) -> Result<Master, NotCompacted> {
        match master {
            Master::Body(task) => Ok(Master::Body(self.copy(task)?)),
            Master::Block(opening) => self.block(opening),
        }
    }

    fn block(&self, opening: u32) -> Result<Master, NotCompacted> {
        let Ok(at) = self
            .places
            .binary_search_by_key(&opening, |place| place.old)
        else {
            return Err(NotCompacted::Unnamed);
        };
        match self.places.get(at) {
            Some(place) => Ok(Master::Block(place.new)),
            None => Err(NotCompacted::Unnamed),
        }
    }

    /// The names, if no position has two.
    pub(crate) fn into_renaming(self) -> Result<Renaming, NotCompacted> {
        let Names { copies, mut places } = self;
        places.sort_unstable_by_key(|place| place.old);
        Renaming::new(copies, places).ok_or(NotCompacted::Unnamed)
    }
}
