//! How a play ends: what each task does then, who waits for whom, and what can let the journal go on.

use crate::json::members::{begin_kind, end_object, put_number, put_position, put_tasks, put_text};
use ada_events::TaskNo;
use ada_explain::Scene;
use ada_explain::circles::circles;
use ada_explain::end::End;
use ada_waiting::{Reason, Verdict, due_in, verdict_in};
use std::alloc::{AllocError, Global};

/// Writes an object for each task that isn't terminated, for each circle of tasks, and for what can let the journal go
/// on. If the main program is terminated, only that is told.
pub fn write_ending(alloc: Global, out: &mut String, scene: Scene<'_>) -> Result<(), AllocError> {
    let verdict = verdict_in(scene.kernel);
    if verdict != Verdict::Finished {
        write_standing(alloc, out, &End { scene })?;
    }
    begin_kind(out, "verdict")?;
    put_text(out, "verdict", word_of(verdict))?;
    if let Verdict::WaitsForTick { until } = verdict {
        put_number(out, "due", until)?;
    }
    end_object(out)
}

fn write_standing(alloc: Global, out: &mut String, end: &End<'_>) -> Result<(), AllocError> {
    for task in 0..end.tasks() {
        write_task(alloc, out, end, TaskNo(task))?;
    }
    for circle in &circles(alloc, end)? {
        begin_kind(out, "circle")?;
        put_tasks(out, end.scene, circle)?;
        end_object(out)?;
    }
    Ok(())
}

fn word_of(verdict: Verdict) -> &'static str {
    match verdict {
        Verdict::Finished => "terminated",
        Verdict::GoesOn => "goes_on",
        Verdict::WaitsForTick { .. } => "waits",
        Verdict::Stuck => "stuck",
    }
}

// What a task does, if it isn't terminated.
fn write_task(
    alloc: Global,
    out: &mut String,
    end: &End<'_>,
    task: TaskNo,
) -> Result<(), AllocError> {
    match end.reason(task) {
        Some(reason) => write_reason(alloc, out, end, task, reason),
        None if end.runs(task) => {
            begin_kind(out, "standing")?;
            put_text(out, "task", end.scene.task(task))?;
            put_text(out, "state", "running")?;
            end_object(out)
        }
        None => Ok(()),
    }
}

// What it is that holds a task up, and since which event, if one did.
fn state_of(reason: Reason) -> (&'static str, Option<u32>) {
    match reason {
        Reason::NotStarted => ("not_started", None),
        Reason::Activating { start } => ("activating", Some(start)),
        Reason::Queued { call } => ("queued", Some(call)),
        Reason::InRendezvous { call } => ("in_rendezvous", Some(call)),
        Reason::Waiting { wait } => ("waiting", Some(wait)),
        Reason::Delayed { pause } => ("delayed", Some(pause)),
        Reason::Leaving { close } => ("leaving", Some(close)),
        Reason::Completed => ("completed", None),
    }
}

// Why a task doesn't go on, until when at most, and the tasks without which it can't.
fn write_reason(
    alloc: Global,
    out: &mut String,
    end: &End<'_>,
    task: TaskNo,
    reason: Reason,
) -> Result<(), AllocError> {
    let (state, since) = state_of(reason);
    begin_kind(out, "standing")?;
    put_text(out, "task", end.scene.task(task))?;
    put_text(out, "state", state)?;
    if let Some(position) = since {
        put_position(out, "since", position)?;
    }
    if let Some(due) = due_in(end.scene.kernel, task) {
        put_number(out, "due", due)?;
    }
    let awaited = end.awaited(alloc, task)?;
    if !awaited.is_empty() {
        put_tasks(out, end.scene, &awaited)?;
    }
    end_object(out)
}
