//! Why each event of a play came: the request that asked for it, or the rule that forced it, with what made it due.

use crate::Scene;
use crate::asked::write_asked;
use crate::forced::write_forced;
use crate::past::Past;
use crate::rules::row_of;
use ada_events::journal::event_in;
use ada_events::{Master, TaskNo};
use std::alloc::AllocError;

/// An event that came, with what came up to it, itself included.
#[derive(Clone, Copy)]
pub struct Arrival<'a> {
    pub scene: Scene<'a>,
    pub past: &'a Past,
    pub position: u32,
}

impl<'a> Arrival<'a> {
    /// The name of a task.
    pub fn task(self, task: TaskNo) -> &'a str {
        self.scene.task(task)
    }

    /// Appends a master, as `S` or `block B`.
    pub fn write_master(self, text: &mut String, master: Master) -> Result<(), AllocError> {
        match master {
            Master::Body(_) => {}
            Master::Block(_) => text.push_str("block ")?,
        }
        text.push_str(self.scene.master(master))
    }

    /// Appends why the event came, in a sentence without a point, with its sections of the manual. The row of a forced
    /// one isn't told.
    pub fn write(self, text: &mut String) -> Result<(), AllocError> {
        match event_in(self.scene.events, self.position) {
            Some(event) if row_of(event).is_some() => write_forced(text, self, event),
            Some(event) => write_asked(text, self, event),
            None => Ok(()),
        }
    }

    /// The row of the event, if it was forced.
    pub fn row(self) -> Option<u8> {
        row_of(event_in(self.scene.events, self.position)?)
    }
}
