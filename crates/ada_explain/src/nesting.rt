//! What a task is within, by what the kernel keeps.

use crate::Scene;
use ada_events::journal::event_in;
use ada_events::{Entry, Event, Master, Member, TaskNo};
use ada_tables::Layer;

/// What a task is innermost within: a block that it hasn't left, or a call whose rendezvous it hasn't ended; none where
/// there is no such task.
pub fn innermost(scene: Scene<'_>, task: TaskNo) -> Option<Member> {
    if task.0 >= scene.kernel.tasks() {
        return None;
    }
    scene.kernel.view().innermost(task)
}

/// The innermost block that a task is in, else its body (9.4).
pub fn frame(scene: Scene<'_>, task: TaskNo) -> Master {
    if task.0 >= scene.kernel.tasks() {
        return Master::Body(task);
    }
    scene.kernel.view().frame(task)
}

// The entry of the call that a member is the rendezvous of, if it is one.
fn entry_of(scene: Scene<'_>, layer: Layer) -> Option<Entry> {
    let Member::Rendezvous(call) = layer.member() else {
        return None;
    };
    match event_in(scene.events, call)? {
        Event::Called { entry, .. } => Some(*entry),
        _ => None,
    }
}

/// The entry of a family of which a task serves a call (9.5).
pub fn served(scene: Scene<'_>, task: TaskNo, family: u8) -> Option<Entry> {
    if task.0 >= scene.kernel.tasks() {
        return None;
    }
    let view = scene.kernel.view();
    for layer in view.nest(task).as_slice() {
        match entry_of(scene, *layer) {
            Some(entry) if entry.family == family => return Some(entry),
            _ => {}
        }
    }
    None
}
