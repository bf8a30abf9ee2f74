//! What the request asked for by which an event came.

use crate::arrival::Arrival;
use crate::lives::{Stage, holder};
use crate::reasons::write_choices;
use ada_events::waits::{has_open_choice, least_due};
use ada_events::{Choice, Entry, Event, EventTail, Master, Patience, TaskNo};
use std::alloc::AllocError;

/// Appends what the request did that asked for an event; of an event that was forced nothing.
pub fn write_asked(text: &mut String, at: Arrival<'_>, event: &Event) -> Result<(), AllocError> {
    match event {
        Event::Opened { by, under } => write_opened(text, at, *by, *under),
        Event::Created { by, master, .. } => write_created(text, at, *by, *master),
        Event::Started { by, tasks } => {
            begin(text, at, *by)?;
            text.push_str("it waits until the activation of ")?;
            at.scene.write_tasks(text, tasks.as_slice())?;
            text.push_str(" is over (9.3)")
        }
        Event::Elaborated { by, ok } => write_up(text, at, *by, *ok),
        Event::Called {
            by,
            callee,
            entry,
            patience,
            due,
        } => {
            begin(text, at, *by)?;
            write_called(text, at, *callee, *entry, *patience, *due)
        }
        Event::Waiting {
            by,
            choices,
            tail,
            ..
        } => {
            begin(text, at, *by)?;
            write_waiting(text, at, *by, choices.as_slice(), tail)
        }
        Event::Paused { by, due } => {
            begin(text, at, *by)?;
            write!(text, "it is delayed until moment {due} (9.6)")
        }
        Event::Ended { by, call, raised } => write_ended(text, at, *by, *call, *raised),
        Event::Closed { by, block } => {
            begin(text, at, *by)?;
            let block = at.scene.block(*block);
            write!(text, "it waits at the end of block {block} ")?;
            text.push_str("until no task is left that depends on it (9.4)")
        }
        Event::Completed { by } => {
            begin(text, at, *by)?;
            text.push_str("it has come to the end of its body (9.4)")
        }
        Event::Aborted { by, .. } => write_aborted(text, at, *by),
        Event::Ticked { now } => write!(text, "a tick: the moment is {now} (9.6)"),
        _ => Ok(()),
    }
}

fn begin(text: &mut String, at: Arrival<'_>, by: TaskNo) -> Result<(), AllocError> {
    write!(text, "asked by {}: ", at.task(by))
}

fn write_opened(
    text: &mut String,
    at: Arrival<'_>,
    by: TaskNo,
    under: Master,
) -> Result<(), AllocError> {
    begin(text, at, by)?;
    let block = at.scene.block(at.position);
    match under {
        Master::Body(_) => write!(text, "it goes into block {block}, within its body (9.4)"),
        Master::Block(around) => {
            let around = at.scene.block(around);
            write!(
                text,
                "it goes into block {block}, within block {around} (9.4)"
            )
        }
    }
}

fn write_created(
    text: &mut String,
    at: Arrival<'_>,
    by: TaskNo,
    master: Master,
) -> Result<(), AllocError> {
    begin(text, at, by)?;
    let made = at.past.lives().tasks().saturating_sub(1);
    text.push_str(at.task(TaskNo((made % 65_536) as u16)))?;
    text.push_str(" depends on ")?;
    at.write_master(text, master)?;
    text.push_str(", and has yet to be activated (9.3, 9.4)")
}

fn write_up(text: &mut String, at: Arrival<'_>, by: TaskNo, ok: bool) -> Result<(), AllocError> {
    begin(text, at, by)?;
    let started = at.past.of_task(by).started;
    if ok {
        write!(text, "its activation, started at {started}, is over (9.3)")
    } else {
        write!(
            text,
            "an exception ends its activation, started at {started}, and completes it (9.3)"
        )
    }
}

// The place of a call in its queue.
fn write_place(text: &mut String, place: u16) -> Result<(), AllocError> {
    match place {
        1 => text.push_str("first"),
        2 => text.push_str("second"),
        3 => text.push_str("third"),
        _ => write!(text, "at place {place}"),
    }
}

fn write_called(
    text: &mut String,
    at: Arrival<'_>,
    callee: TaskNo,
    entry: Entry,
    patience: Patience,
    due: Option<i64>,
) -> Result<(), AllocError> {
    let name = at.task(callee);
    let called = at.scene.entry(callee, entry);
    if let Some((over, since)) = at.past.of_task(callee).over() {
        return write!(
            text,
            "it calls {called}, but {name} is {over} {since} (9.5)"
        );
    }
    text.push_str("its call stands ")?;
    write_place(text, at.past.queued(at.scene, callee, entry))?;
    write!(text, " in the queue of {called}")?;
    match (patience, due) {
        (Patience::Conditional, _) => {
            write!(text, ", and {name} has to accept it at once (9.7.2)")
        }
        (_, Some(due)) => write!(
            text,
            " until {name} accepts it, at most until moment {due} (9.7.3)"
        ),
        (_, None) => write!(text, " until {name} accepts it (9.5)"),
    }
}

fn write_waiting(
    text: &mut String,
    at: Arrival<'_>,
    by: TaskNo,
    choices: &[Choice],
    tail: &EventTail,
) -> Result<(), AllocError> {
    if has_open_choice(choices) {
        text.push_str("it waits")?;
        write_choices(text, at.scene, by, choices)?;
        write_other_end(text, tail)?;
    } else {
        text.push_str("none of its accept alternatives is open")?;
        write_only_end(text, tail)?;
    }
    match tail {
        EventTail::Nothing if choices.len() == 1 => text.push_str(" (9.5)"),
        _ => text.push_str(" (9.7.1)"),
    }
}

// How a wait may end without a call that waits for calls too.
fn write_other_end(text: &mut String, tail: &EventTail) -> Result<(), AllocError> {
    match tail {
        EventTail::Otherwise => text.push_str(", and goes on at once if there is none"),
        EventTail::Delays(dues) => match least_due(dues.get().as_slice()) {
            Some(due) => write!(text, ", at most until moment {due}"),
            None => Ok(()),
        },
        EventTail::Terminate(true) => text.push_str(", or to terminate"),
        EventTail::Terminate(false) | EventTail::Nothing => Ok(()),
    }
}

// How a wait may end that waits for no call.
fn write_only_end(text: &mut String, tail: &EventTail) -> Result<(), AllocError> {
    match tail {
        EventTail::Otherwise => text.push_str(", and it has an else part"),
        EventTail::Delays(dues) => match least_due(dues.get().as_slice()) {
            Some(due) => write!(text, ", and it waits until moment {due}"),
            None => Ok(()),
        },
        EventTail::Terminate(true) => text.push_str(", and it waits to terminate"),
        EventTail::Terminate(false) | EventTail::Nothing => Ok(()),
    }
}

fn write_ended(
    text: &mut String,
    at: Arrival<'_>,
    by: TaskNo,
    call: u32,
    raised: bool,
) -> Result<(), AllocError> {
    begin(text, at, by)?;
    let Some(caller) = holder(at.scene.events, call) else {
        return Ok(());
    };
    let name = at.task(caller);
    let met = at.past.of_task(caller).met;
    if !raised {
        return write!(
            text,
            "the rendezvous with {name}, begun at {met}, is over (9.5)"
        );
    }
    write!(
        text,
        "an exception ends the rendezvous with {name}, begun at {met}, and is raised in "
    )?;
    if at.past.lives().stage(caller) == Stage::Abnormal {
        write!(text, "{} alone (11.5)", at.task(by))
    } else {
        write!(text, "{} and {name} (11.5)", at.task(by))
    }
}

// Whom an abort makes abnormal.
fn write_aborted(text: &mut String, at: Arrival<'_>, by: TaskNo) -> Result<(), AllocError> {
    begin(text, at, by)?;
    let mut hit = Vec::new(*text.allocator());
    for span in at.past.ended() {
        if at.past.of_task(span.task).aborted == at.position {
            hit.push(span.task)?;
        }
    }
    if hit.is_empty() {
        return text.push_str("whoever it names has ended or is abnormal already (9.10)");
    }
    at.scene.write_tasks(text, &hit)?;
    text.push_str(if hit.len() == 1 {
        " becomes abnormal (9.10)"
    } else {
        " become abnormal (9.10)"
    })
}
