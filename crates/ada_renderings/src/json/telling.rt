//! What happened by an event, with the names of the tasks, blocks and entries that it has to do with.

use crate::json::members::{
    begin_entry, begin_list, put_item, put_number, put_position, put_task, put_tasks, put_text,
    put_truth,
};
use ada_events::journal::event_in;
use ada_events::{Choice, Entry, Event, EventTail, Family, Master, Patience, TaskNo, Way};
use ada_explain::Scene;
use ada_explain::lives::holder;
use ada_statements::Bound;
use std::alloc::AllocError;

// An entry of a task.
fn put_entry(
    out: &mut String,
    scene: Scene<'_>,
    task: TaskNo,
    entry: Entry,
) -> Result<(), AllocError> {
    put_text(out, "entry", scene.family_name(task, entry.family))?;
    put_number(out, "index", i64::from(entry.index))
}

// The call at a position, who called, and the entry.
fn put_call(out: &mut String, scene: Scene<'_>, call: u32) -> Result<(), AllocError> {
    put_position(out, "call", call)?;
    match event_in(scene.events, call) {
        Some(
            Event::Called {
                by,
                callee,
                entry,
                ..
            },
        ) => {
            put_task(out, "caller", scene, *by)?;
            put_task(out, "task", scene, *callee)?;
            put_entry(out, scene, *callee, *entry)
        }
        _ => Ok(()),
    }
}

// The task of the call, wait, delay, start or close at a position.
fn put_holder(
    out: &mut String,
    key: &str,
    scene: Scene<'_>,
    position: u32,
) -> Result<(), AllocError> {
    put_position(out, key, position)?;
    match holder(scene.events, position) {
        Some(task) => put_task(out, "task", scene, task),
        None => Ok(()),
    }
}

// The block of the close at a position.
fn put_closed(out: &mut String, scene: Scene<'_>, close: u32) -> Result<(), AllocError> {
    put_holder(out, "close", scene, close)?;
    match event_in(scene.events, close) {
        Some(Event::Closed { block, .. }) => put_text(out, "block", scene.block(*block)),
        _ => Ok(()),
    }
}

fn put_families(
    out: &mut String,
    scene: Scene<'_>,
    task: TaskNo,
    families: &[Family],
) -> Result<(), AllocError> {
    begin_list(out, "families")?;
    let names = scene.names.families(Bound::Task(task));
    for (place, (name, family)) in names.iter().zip(families.iter()).enumerate() {
        begin_entry(out, place, name.as_str())?;
        put_number(out, "low", i64::from(family.low))?;
        put_number(out, "high", i64::from(family.high))?;
        out.push('}')?;
    }
    out.push(']')
}

fn put_accepts(
    out: &mut String,
    scene: Scene<'_>,
    by: TaskNo,
    choices: &[Choice],
) -> Result<(), AllocError> {
    begin_list(out, "accepts")?;
    for (place, choice) in choices.iter().enumerate() {
        begin_entry(out, place, scene.family_name(by, choice.entry.family))?;
        put_number(out, "index", i64::from(choice.entry.index))?;
        put_truth(out, "open", choice.guard)?;
        out.push('}')?;
    }
    out.push(']')
}

fn put_delays(out: &mut String, dues: &[Option<i64>]) -> Result<(), AllocError> {
    begin_list(out, "delays")?;
    for (place, due) in dues.iter().enumerate() {
        put_item(out, place, *due)?;
    }
    out.push(']')
}

fn put_opened(
    out: &mut String,
    scene: Scene<'_>,
    position: u32,
    by: TaskNo,
    under: Master,
) -> Result<(), AllocError> {
    put_task(out, "by", scene, by)?;
    put_text(out, "block", scene.block(position))?;
    put_text(out, "under", scene.master(under))
}

fn put_created(
    out: &mut String,
    scene: Scene<'_>,
    by: TaskNo,
    task: TaskNo,
    under: Master,
    families: &[Family],
) -> Result<(), AllocError> {
    put_task(out, "by", scene, by)?;
    put_task(out, "task", scene, task)?;
    put_text(out, "under", scene.master(under))?;
    put_families(out, scene, task, families)
}

fn form_of(patience: Patience) -> &'static str {
    match patience {
        Patience::Simple => "simple",
        Patience::Conditional => "conditional",
        Patience::Timed(_) => "timed",
    }
}

fn put_called(
    out: &mut String,
    scene: Scene<'_>,
    callee: TaskNo,
    entry: Entry,
    patience: Patience,
    due: Option<i64>,
) -> Result<(), AllocError> {
    put_task(out, "task", scene, callee)?;
    put_entry(out, scene, callee, entry)?;
    put_text(out, "form", form_of(patience))?;
    match due {
        Some(due) => put_number(out, "due", due),
        None => Ok(()),
    }
}

fn put_waiting(
    out: &mut String,
    scene: Scene<'_>,
    by: TaskNo,
    choices: &[Choice],
    tail: &EventTail,
) -> Result<(), AllocError> {
    put_accepts(out, scene, by, choices)?;
    match tail {
        EventTail::Delays(dues) => put_delays(out, dues.get().as_slice())?,
        EventTail::Terminate(open) => put_truth(out, "terminate", *open)?,
        EventTail::Nothing | EventTail::Otherwise => {}
    }
    put_truth(out, "else", matches!(tail, EventTail::Otherwise))
}

fn put_ended(
    out: &mut String,
    scene: Scene<'_>,
    by: TaskNo,
    call: u32,
    raised: bool,
) -> Result<(), AllocError> {
    put_task(out, "by", scene, by)?;
    put_call(out, scene, call)?;
    put_truth(out, "raised", raised)
}

fn put_passed(out: &mut String, scene: Scene<'_>, wait: u32, way: Way) -> Result<(), AllocError> {
    put_holder(out, "wait", scene, wait)?;
    match way {
        Way::Otherwise => put_text(out, "way", "else"),
        Way::ProgramError => put_text(out, "way", "program_error"),
        Way::Delay(number) => {
            put_text(out, "way", "delay")?;
            put_number(out, "alternative", i64::from(number))
        }
    }
}

/// The kind of an event.
pub fn kind_of(event: &Event) -> &'static str {
    match event {
        Event::Opened { .. } => "opened",
        Event::Created { .. } => "created",
        Event::Started { .. } => "started",
        Event::Elaborated { .. } => "elaborated",
        Event::Called { .. } => "called",
        Event::Waiting { .. } => "waiting",
        Event::Paused { .. } => "paused",
        Event::Ended { .. } => "ended",
        Event::Closed { .. } => "closed",
        Event::Completed { .. } => "completed",
        Event::Aborted { .. } => "aborted",
        Event::Ticked { .. } => "ticked",
        Event::Halted { .. } => "halted",
        Event::Failed { .. } => "failed",
        Event::Met { .. } => "met",
        Event::Cancelled { .. } => "cancelled",
        Event::Passed { .. } => "passed",
        Event::Woken { .. } => "woken",
        Event::Activated { .. } => "activated",
        Event::Gone { .. } => "gone",
        Event::Quit { .. } => "quit",
        Event::Left { .. } => "left",
    }
}

/// Appends what happened by the event at a position. `made` is the task that it makes if it makes one, and `quit` are
/// those that it terminates if it is the end of a master's dependents.
pub fn put_told(
    out: &mut String,
    scene: Scene<'_>,
    position: u32,
    event: &Event,
    made: TaskNo,
    quit: &[TaskNo],
) -> Result<(), AllocError> {
    match event {
        Event::Opened { by, under } => put_opened(out, scene, position, *by, *under),
        Event::Created {
            by,
            master,
            families,
            ..
        } => put_created(out, scene, *by, made, *master, families.as_slice()),
        Event::Quit { master } => {
            put_text(out, "master", scene.master(*master))?;
            put_tasks(out, scene, quit)
        }
        Event::Ticked { now } => put_number(out, "moment", *now),
        Event::Halted { task } | Event::Gone { task } => put_task(out, "task", scene, *task),
        Event::Failed { call } | Event::Cancelled { call } => put_call(out, scene, *call),
        Event::Met { call, wait } => {
            put_call(out, scene, *call)?;
            put_position(out, "wait", *wait)
        }
        Event::Passed { wait, way } => put_passed(out, scene, *wait, *way),
        Event::Woken { pause } => put_holder(out, "pause", scene, *pause),
        Event::Activated { start, ok } => {
            put_holder(out, "start", scene, *start)?;
            put_truth(out, "ok", *ok)
        }
        Event::Left { close } => put_closed(out, scene, *close),
        _ => put_done(out, scene, event),
    }
}

// What a task did that asked for an event. One that opens a block or makes a task has more to tell.
fn put_done(out: &mut String, scene: Scene<'_>, event: &Event) -> Result<(), AllocError> {
    match event {
        Event::Started { by, tasks } | Event::Aborted { by, tasks } => {
            put_task(out, "by", scene, *by)?;
            put_tasks(out, scene, tasks.as_slice())
        }
        Event::Elaborated { by, ok } => {
            put_task(out, "by", scene, *by)?;
            put_truth(out, "ok", *ok)
        }
        Event::Called {
            by,
            callee,
            entry,
            patience,
            due,
        } => {
            put_task(out, "by", scene, *by)?;
            put_called(out, scene, *callee, *entry, *patience, *due)
        }
        Event::Waiting {
            by,
            pick,
            choices,
            tail,
        } => {
            put_task(out, "by", scene, *by)?;
            put_position(out, "pick", *pick)?;
            put_waiting(out, scene, *by, choices.as_slice(), tail)
        }
        Event::Paused { by, due } => {
            put_task(out, "by", scene, *by)?;
            put_number(out, "due", *due)
        }
        Event::Ended { by, call, raised } => put_ended(out, scene, *by, *call, *raised),
        Event::Closed { by, block } => {
            put_task(out, "by", scene, *by)?;
            put_text(out, "block", scene.block(*block))
        }
        Event::Completed { by } => put_task(out, "by", scene, *by),
        _ => Ok(()),
    }
}
