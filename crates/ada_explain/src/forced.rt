//! What made a step due that was forced, row by row of the forced steps.

use crate::arrival::Arrival;
use crate::lives::{Stage, holder};
use crate::past::{Marks, earliest};
use ada_events::journal::event_in;
use ada_events::{Choice, Entry, Event, EventTail, Master, Patience, TaskNo, Way};
use std::alloc::AllocError;

/// Appends what made a step due; of an event that was asked for nothing.
pub fn write_forced(text: &mut String, at: Arrival<'_>, event: &Event) -> Result<(), AllocError> {
    match event {
        Event::Halted { task } => write_halted(text, at, *task),
        Event::Failed { call } => write_failed(text, at, *call),
        Event::Met { call, wait } => write_met(text, at, *call, *wait),
        Event::Cancelled { call } => write_cancelled(text, at, *call),
        Event::Passed { wait, way } => write_passed(text, at, *wait, *way),
        Event::Woken { pause } => write_woken(text, at, *pause),
        Event::Activated { start, ok } => write_activated(text, at, *start, *ok),
        Event::Gone { task } => write_gone(text, at, *task),
        Event::Quit { master } => write_quit(text, at, *master),
        Event::Left { close } => write_left(text, at, *close),
        _ => Ok(()),
    }
}

fn write_halted(text: &mut String, at: Arrival<'_>, task: TaskNo) -> Result<(), AllocError> {
    let marks = at.past.of_task(task);
    let abort = marks.aborted;
    write!(
        text,
        "{} is abnormal since the abort at {abort}",
        at.task(task)
    )?;
    if marks.aborted_with != task {
        write!(
            text,
            " of {}, on which it depends",
            at.task(marks.aborted_with)
        )?;
    }
    if marks.was_served {
        let call = marks.call;
        let freed = marks.freed;
        write!(
            text,
            ", and the rendezvous of its call at {call} is over since {freed}"
        )?;
    }
    text.push_str(" (9.10)")
}

fn write_failed(text: &mut String, at: Arrival<'_>, call: u32) -> Result<(), AllocError> {
    let Some(
        Event::Called {
            by,
            callee,
            entry,
            patience,
            ..
        },
    ) = event_in(at.scene.events, call)
    else {
        return Ok(());
    };
    let name = at.task(*by);
    let called = at.scene.entry(*callee, *entry);
    write!(text, "{name} called {called} at {call}")?;
    let met = at.past.of_task(*by).met;
    if met > 0 {
        write!(text, " and was served since {met}")?;
    }
    let is_abnormal = match at.past.of_task(*callee).over() {
        Some((over, since)) => {
            write!(text, ", and {} is {over} {since}", at.task(*callee))?;
            since == at.past.of_task(*callee).aborted
        }
        None => false,
    };
    write_tasking_error(text, at, *by)?;
    write_failed_sections(text, *patience, is_abnormal)
}

// What a task has of a call that failed: an exception, unless it is abnormal.
fn write_tasking_error(text: &mut String, at: Arrival<'_>, task: TaskNo) -> Result<(), AllocError> {
    if at.past.lives().stage(task) == Stage::Abnormal {
        text.push_str(", so the call is over")
    } else {
        write!(text, ", so TASKING_ERROR is raised in {}", at.task(task))
    }
}

fn write_failed_sections(
    text: &mut String,
    patience: Patience,
    is_abnormal: bool,
) -> Result<(), AllocError> {
    text.push_str(match patience {
        Patience::Simple => " (9.5",
        Patience::Conditional => " (9.5, 9.7.2",
        Patience::Timed(_) => " (9.5, 9.7.3",
    })?;
    text.push_str(if is_abnormal { ", 9.10)" } else { ")" })
}

fn write_met(text: &mut String, at: Arrival<'_>, call: u32, wait: u32) -> Result<(), AllocError> {
    let (
        Some(
            Event::Called {
                by: caller,
                callee,
                entry,
                patience,
                ..
            },
        ),
        Some(
            Event::Waiting {
                by: server,
                pick,
                choices,
                tail,
            },
        ),
    ) = (
        event_in(at.scene.events, call),
        event_in(at.scene.events, wait),
    )
    else {
        return Ok(());
    };
    let name = at.task(*caller);
    let server_name = at.task(*server);
    let called = at.scene.entry(*callee, *entry);
    if call < wait {
        write!(
            text,
            "{name}'s call at {call} was first in the queue of {called} "
        )?;
        write!(text, "when {server_name} waited for it at {wait}")?;
    } else {
        write!(
            text,
            "{server_name} waited for a call of {called} since {wait} "
        )?;
        write!(text, "when {name} called it at {call}")?;
    }
    let count = selectable(at, *server, choices.as_slice(), *entry);
    write_picked(text, *pick, count, "alternatives with a call")?;
    let is_plain = choices.as_slice().len() == 1 && matches!(tail, EventTail::Nothing);
    text.push_str(if is_plain { " (9.5" } else { " (9.5, 9.7.1" })?;
    text.push_str(match patience {
        Patience::Simple => ")",
        Patience::Conditional => ", 9.7.2)",
        Patience::Timed(_) => ", 9.7.3)",
    })
}

// How many open alternatives of a task had a call in their queues before it took that of an entry.
fn selectable(at: Arrival<'_>, task: TaskNo, choices: &[Choice], taken: Entry) -> u32 {
    let mut count = 0u32;
    for choice in choices {
        let is_called = choice.entry == taken || at.past.queued(at.scene, task, choice.entry) > 0;
        if choice.guard && is_called {
            count = count.saturating_add(1);
        }
    }
    count
}

// Which of several alternatives a pick takes; nothing if there is one.
fn write_picked(
    text: &mut String,
    pick: u32,
    count: u32,
    alternatives: &str,
) -> Result<(), AllocError> {
    match pick.checked_rem(count) {
        Some(number) if count > 1 => write!(
            text,
            "; of {count} {alternatives} pick {pick} takes number {number}, from 0"
        ),
        _ => Ok(()),
    }
}

// Until which moment is waited since a position, and how it came: by the last tick, or before that position.
fn write_until(text: &mut String, at: Arrival<'_>, since: u32, due: i64) -> Result<(), AllocError> {
    let tick = at.past.ticked;
    if tick > since {
        write!(
            text,
            " until moment {due}, which the tick at {tick} reached"
        )
    } else {
        write!(text, " until moment {due}, which had come already")
    }
}

fn write_cancelled(text: &mut String, at: Arrival<'_>, call: u32) -> Result<(), AllocError> {
    let Some(
        Event::Called {
            by,
            callee,
            due,
            ..
        },
    ) = event_in(at.scene.events, call)
    else {
        return Ok(());
    };
    let name = at.task(*by);
    match due {
        None => {
            let callee = at.task(*callee);
            write!(
                text,
                "{callee} didn't accept {name}'s conditional call at {call} at once (9.7.2)"
            )
        }
        Some(due) => {
            write!(text, "{name}'s call at {call} was queued")?;
            write_until(text, at, call, *due)?;
            text.push_str(" (9.7.3)")
        }
    }
}

fn write_passed(text: &mut String, at: Arrival<'_>, wait: u32, way: Way) -> Result<(), AllocError> {
    let Some(Event::Waiting { by, pick, tail, .. }) = event_in(at.scene.events, wait) else {
        return Ok(());
    };
    let name = at.task(*by);
    match way {
        Way::Otherwise => {
            write!(
                text,
                "no call was queued for an open alternative of {name}'s wait "
            )?;
            write!(text, "at {wait}, so its else part is taken (9.7.1)")
        }
        Way::Delay(number) => {
            write!(
                text,
                "no call was queued for an open alternative of {name}'s wait "
            )?;
            write!(text, "at {wait}")?;
            write_delay_taken(text, at, wait, tail, number)?;
            write_picked(text, *pick, due_together(tail, number), "due then")?;
            text.push_str(" (9.7.1)")
        }
        Way::ProgramError => {
            write!(
                text,
                "no alternative of {name}'s wait at {wait} is open, and it has no else "
            )?;
            write!(text, "part, so PROGRAM_ERROR is raised in {name} (9.7.1)")
        }
    }
}

// The moment at which a delay alternative is due, if it is open.
fn due_of(tail: &EventTail, number: u8) -> Option<i64> {
    match tail {
        EventTail::Delays(dues) => *dues.get().as_slice().get(usize::from(number))?,
        _ => None,
    }
}

// How many delay alternatives are due when one of them is.
fn due_together(tail: &EventTail, number: u8) -> u32 {
    let due = due_of(tail, number);
    match tail {
        EventTail::Delays(dues) if due.is_some() => {
            let count = dues
                .get()
                .as_slice()
                .iter()
                .filter(|other| **other == due)
                .count();
            (count % 256) as u32
        }
        _ => 0,
    }
}

fn write_delay_taken(
    text: &mut String,
    at: Arrival<'_>,
    wait: u32,
    tail: &EventTail,
    number: u8,
) -> Result<(), AllocError> {
    if let Some(due) = due_of(tail, number) {
        write_until(text, at, wait, due)?;
    }
    write!(text, ", so its delay alternative {number} is taken")
}

fn write_woken(text: &mut String, at: Arrival<'_>, pause: u32) -> Result<(), AllocError> {
    let Some(Event::Paused { by, due }) = event_in(at.scene.events, pause) else {
        return Ok(());
    };
    write!(text, "{} was delayed at {pause}", at.task(*by))?;
    write_until(text, at, pause, *due)?;
    text.push_str(" (9.6)")
}

fn write_activated(
    text: &mut String,
    at: Arrival<'_>,
    start: u32,
    ok: bool,
) -> Result<(), AllocError> {
    let Some(Event::Started { by, tasks }) = event_in(at.scene.events, start) else {
        return Ok(());
    };
    let tasks = tasks.as_slice();
    let last = last_activated(at, tasks);
    if last < start {
        at.scene.write_tasks(text, tasks)?;
        write!(
            text,
            " had ended before {} started to activate ",
            at.task(*by)
        )?;
        write!(
            text,
            "{} at {start}",
            if tasks.len() == 1 { "it" } else { "them" }
        )?;
    } else {
        text.push_str("the activation of ")?;
        at.scene.write_tasks(text, tasks)?;
        write!(text, ", started at {start}, is over since {last}")?;
    }
    if !ok {
        write_failures(text, at, tasks)?;
        write!(text, ", so TASKING_ERROR is raised in {}", at.task(*by))?;
    }
    text.push_str(" (9.3)")
}

// When the last of some tasks was activated, or had ended.
fn last_activated(at: Arrival<'_>, tasks: &[TaskNo]) -> u32 {
    let mut last = 0;
    for task in tasks {
        last = at.past.of_task(*task).activated().max(last);
    }
    last
}

// Which of some tasks failed in their activation, and when.
fn write_failures(text: &mut String, at: Arrival<'_>, tasks: &[TaskNo]) -> Result<(), AllocError> {
    let mut before = "; ";
    for task in tasks {
        let marks = at.past.of_task(*task);
        if marks.has_failed {
            let up = marks.up;
            write!(text, "{before}{} failed at {up}", at.task(*task))?;
            before = ", ";
        }
    }
    Ok(())
}

fn write_gone(text: &mut String, at: Arrival<'_>, task: TaskNo) -> Result<(), AllocError> {
    let marks = at.past.of_task(task);
    if marks.completed == 0 {
        return write_abandoned(text, at, task, marks);
    }
    let completed = marks.completed;
    write!(
        text,
        "{} is completed since {completed}, and ",
        at.task(task)
    )?;
    write_dependents(text, "it", marks.last_dependent)?;
    text.push_str(" (9.4)")
}

// That no task is left that depends on a master, and since when.
fn write_dependents(text: &mut String, master: &str, last: u32) -> Result<(), AllocError> {
    if last == 0 {
        write!(text, "no task depends on {master}")
    } else {
        write!(
            text,
            "all tasks that depended on {master} are terminated since {last}"
        )
    }
}

// Why a task that was never activated never will be (9.3).
fn write_abandoned(
    text: &mut String,
    at: Arrival<'_>,
    task: TaskNo,
    marks: Marks,
) -> Result<(), AllocError> {
    let made = marks.made;
    write!(
        text,
        "{} was made at {made} and never activated, and ",
        at.task(task)
    )?;
    let Some(Event::Created { by, under, .. }) = event_in(at.scene.events, made) else {
        return Ok(());
    };
    let maker = at.past.of_task(*by);
    let ended = earliest(&[maker.completed, maker.terminated]);
    let name = at.task(*by);
    match under {
        Master::Block(opened) if closed_first(at, *opened, ended) => {
            let closed = at.past.of_block(*opened).closed;
            let block = at.scene.block(*opened);
            write!(
                text,
                "{name}, which made it in block {block}, closed this at {closed} (9.3)"
            )
        }
        _ if ended == maker.completed => {
            write!(
                text,
                "{name}, which made it, is completed since {ended} (9.3)"
            )
        }
        _ => write!(
            text,
            "{name}, which made it, is terminated since {ended} (9.3)"
        ),
    }
}

// Whether a block was closed, and its task hadn't ended before.
fn closed_first(at: Arrival<'_>, opened: u32, ended: u32) -> bool {
    let closed = at.past.of_block(opened).closed;
    closed > 0 && (ended == 0 || closed < ended)
}

fn write_quit(text: &mut String, at: Arrival<'_>, master: Master) -> Result<(), AllocError> {
    at.write_master(text, master)?;
    let complete = complete_since(at, master);
    write!(
        text,
        " is complete since {complete}, and each task that depends on it "
    )?;
    let gone = at.past.gone_before;
    if gone > 0 {
        write!(text, "is terminated, the last since {gone}, or ")?;
    }
    text.push_str("waits at an open terminate alternative with no call queued: ")?;
    let last = write_quitting(text, at)?;
    if last.left_queue > complete.max(gone).max(last.wait) {
        let left = last.left_queue;
        write!(
            text,
            "; the last call queued for one of them left its queue at {left}"
        )?;
    }
    text.push_str(" (9.4, 9.7.1)")
}

/// Of the tasks that quit together, the last wait, and the last time that a call left a queue of theirs.
#[derive(Clone, Copy, Debug)]
struct LastOfThem {
    wait: u32,
    left_queue: u32,
}

// The tasks that quit together, and since when each waits.
fn write_quitting(text: &mut String, at: Arrival<'_>) -> Result<LastOfThem, AllocError> {
    let quitting = at.past.ended();
    let mut last = LastOfThem {
        wait: 0,
        left_queue: 0,
    };
    for (i, span) in quitting.iter().enumerate() {
        let before = match quitting.len() - i {
            _ if i == 0 => "",
            1 => " and ",
            _ => ", ",
        };
        let since = span.from;
        write!(text, "{before}{} since {since}", at.task(span.task))?;
        last.wait = since.max(last.wait);
        last.left_queue = at.past.of_task(span.task).left_queue.max(last.left_queue);
    }
    Ok(last)
}

// Since when a master is complete (9.4): a body that its task is, a block that it was closed or that its task ended.
fn complete_since(at: Arrival<'_>, master: Master) -> u32 {
    match master {
        Master::Body(task) => at.past.of_task(task).completed,
        Master::Block(opened) => {
            let ended = match event_in(at.scene.events, opened) {
                Some(Event::Opened { by, .. }) => {
                    let owner = at.past.of_task(*by);
                    earliest(&[owner.completed, owner.terminated])
                }
                _ => 0,
            };
            earliest(&[at.past.of_block(opened).closed, ended])
        }
    }
}

fn write_left(text: &mut String, at: Arrival<'_>, close: u32) -> Result<(), AllocError> {
    let Some(Event::Closed { block, .. }) = event_in(at.scene.events, close) else {
        return Ok(());
    };
    let name = match holder(at.scene.events, close) {
        Some(by) => at.task(by),
        None => return Ok(()),
    };
    write!(
        text,
        "{name} is at the end of block {} since {close}, and ",
        at.scene.block(*block)
    )?;
    write_dependents(text, "it", at.past.of_block(*block).last_dependent)?;
    text.push_str(" (9.4)")
}
