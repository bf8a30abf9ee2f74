//! Who waits at the end of a play for other calls than the one that it served last.

use ada_events::TaskNo;
use ada_explain::Scene;
use ada_explain::clients::Clients;
use std::alloc::{AllocError, Global};

/// A task that waits so, and whom it served.
#[derive(Clone, Copy, Debug, PartialEq, Eq)]
pub(crate) struct Held {
    pub(crate) server: TaskNo,
    pub(crate) client: TaskNo,
}

/// Each task that waits so, in order of their creation.
pub(crate) fn held_in(alloc: Global, scene: Scene<'_>) -> Result<Vec<Held>, AllocError> {
    let clients = Clients::of(alloc, scene.events)?;
    let mut held = Vec::new(alloc);
    for task in 0..scene.kernel.tasks() {
        let server = TaskNo(task);
        if let Some(client) = clients.client_of(scene, server) {
            held.push(Held { server, client })?;
        }
    }
    Ok(held)
}
