//! What is said of a task.

use ada_events::journal::event_in;
use ada_events::{Event, TaskNo};
use ada_explain::Scene;
use ada_explain::clients::Clients;
use ada_explain::end::End;
use ada_explain::standstill::write_task;
use ada_waiting::Reason;
use std::alloc::AllocError;

/// Appends why a task doesn't go on, or that it runs, as `explain` says it, but for the place of a call in its queue:
/// that moves with the calls before it, and the queues tell it.
pub fn write_sentence(
    text: &mut String,
    end: &End<'_>,
    clients: &Clients,
    task: TaskNo,
    reason: Option<Reason>,
) -> Result<(), AllocError> {
    match reason {
        Some(Reason::Queued { call }) => write_queued(text, end.scene, task, call),
        _ => write_task(text, end, clients, task),
    }
}

fn write_queued(
    text: &mut String,
    scene: Scene<'_>,
    task: TaskNo,
    call: u32,
) -> Result<(), AllocError> {
    let Some(
        Event::Called {
            callee,
            entry,
            due,
            ..
        },
    ) = event_in(scene.events, call)
    else {
        return Ok(());
    };
    text.push_str(scene.task(task))?;
    let called = scene.entry(*callee, *entry);
    write!(text, " waits in its call of {called} since event {call}")?;
    if let Some(due) = due {
        write!(text, ", at most until moment {due}")?;
    }
    text.push_str("; ")?;
    text.push_str(scene.task(*callee))?;
    text.push_str(" would have to accept it.")
}
