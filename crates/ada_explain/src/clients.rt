//! Whom each task served last (9.5). The rules don't say who will call a task; often it is whom it served last.

use crate::Scene;
use ada_events::journal::event_in;
use ada_events::{Choice, Entry, Event, TaskNo};
use ada_waiting::{Reason, reason_in};
use std::alloc::{AllocError, Global};

/// A call that was served to its end.
#[derive(Clone, Copy, Debug, PartialEq, Eq)]
struct Served {
    client: TaskNo,
    entry: Entry,
}

/// The last call that each task served to its end.
#[derive(Drop)]
pub struct Clients {
    last: Vec<Option<Served>>,
}

impl Clients {
    /// The main program alone, which served nobody.
    pub fn new(alloc: Global) -> Result<Self, AllocError> {
        let mut last = Vec::new(alloc);
        last.push(None)?;
        Ok(Clients { last })
    }

    /// Whom the tasks of a journal served last.
    pub fn of(alloc: Global, events: &[Event]) -> Result<Self, AllocError> {
        let mut clients = Clients::new(alloc)?;
        clients.take(events, events)?;
        Ok(clients)
    }

    /// Takes some events of a journal, after all before them.
    pub fn take(&mut self, events: &[Event], newer: &[Event]) -> Result<(), AllocError> {
        for event in newer {
            match event {
                Event::Created { .. } => self.last.push(None)?,
                Event::Ended { by, call, .. } => self.note(*by, served_by(events, *call)),
                _ => {}
            }
        }
        Ok(())
    }

    fn note(&mut self, server: TaskNo, served: Option<Served>) {
        if let Some(last) = self.last.get_mut(usize::from(server.0)) {
            *last = served;
        }
    }

    /// The task that another one served last, if that one waits for other calls now than the one that it served, and
    /// this one isn't terminated.
    pub fn client_of(&self, scene: Scene<'_>, server: TaskNo) -> Option<TaskNo> {
        let served = (*self.last.get(usize::from(server.0))?)?;
        let Some(Reason::Waiting { wait }) = reason_in(scene.kernel, server) else {
            return None;
        };
        let Some(Event::Waiting { choices, .. }) = event_in(scene.events, wait) else {
            return None;
        };
        let is_gone = scene.kernel.terminated(served.client) != Some(false);
        if is_gone || !waits_for_others(choices.as_slice(), served.entry) {
            return None;
        }
        Some(served.client)
    }
}

// The call at a position.
fn served_by(events: &[Event], call: u32) -> Option<Served> {
    match event_in(events, call)? {
        Event::Called { by, entry, .. } => Some(Served {
            client: *by,
            entry: *entry,
        }),
        _ => None,
    }
}

// Whether some alternatives are open, and none for calls of the family of an entry.
fn waits_for_others(choices: &[Choice], served: Entry) -> bool {
    let mut others = false;
    for choice in choices {
        if choice.guard && choice.entry.family == served.family {
            return false;
        }
        others = others || choice.guard;
    }
    others
}
