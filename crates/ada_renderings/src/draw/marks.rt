//! The marks of events on the bars of their tasks, and the arrows between them.

use crate::draw::picture::{COLUMN, LEFT, Page, x_of};
use ada_events::journal::event_in;
use ada_events::limits::MOST_MEMBERS;
use ada_events::{Entry, Event, Family, Master, TaskNo};
use ada_explain::Scene;
use ada_explain::lives::{Span, Stage, holder};
use std::alloc::AllocError;

/// Appends the mark of an event on its task's bar, and the arrow of a call or a rendezvous.
pub(crate) fn write_event(
    out: &mut String,
    page: &Page<'_>,
    position: u32,
) -> Result<(), AllocError> {
    let scene = page.scene;
    let Some(event) = event_in(scene.events, position) else {
        return Ok(());
    };
    let y = page.y_at(position);
    match event {
        Event::Called { by, .. } => {
            write_mark(out, x_of(*by), y)?;
            write_call(out, scene, position, y)
        }
        Event::Met { call, wait } => {
            let (caller, acceptor) = (holder(scene.events, *call), holder(scene.events, *wait));
            write_meeting(out, caller, acceptor, y)?;
            write_entry(out, scene, *call, caller, acceptor, y)
        }
        Event::Ended { by, call, .. } => {
            write_mark(out, x_of(*by), y)?;
            write_meeting(out, Some(*by), holder(scene.events, *call), y)
        }
        Event::Ticked { .. } => {
            let right = page.right();
            write!(
                out,
                "<path class=\"tick\" d=\"M {LEFT} {y} H {right}\"><title>a tick</title></path>\n"
            )
        }
        Event::Left { close } => write_bracket(out, page, *close, y),
        _ => match doer(scene, event) {
            Some((task, true)) => write_mark(out, x_of(task), y),
            Some((task, false)) => write_step(out, x_of(task), y),
            None => Ok(()),
        },
    }
}

// The arrow of the call at a position, with the name of its entry.
fn write_call(out: &mut String, scene: Scene<'_>, call: u32, y: usize) -> Result<(), AllocError> {
    let Some(Event::Called { by, callee, .. }) = event_in(scene.events, call) else {
        return Ok(());
    };
    write_arrow(out, "call", x_of(*by), x_of(*callee), y)?;
    write_entry(out, scene, call, Some(*by), Some(*callee), y)
}

// The name of the entry that the call at a position calls, beside the column that its arrow leaves.
fn write_entry(
    out: &mut String,
    scene: Scene<'_>,
    call: u32,
    from: Option<TaskNo>,
    to: Option<TaskNo>,
    y: usize,
) -> Result<(), AllocError> {
    let (Some(from), Some(to)) = (from, to) else {
        return Ok(());
    };
    let Some(Event::Called { callee, entry, .. }) = event_in(scene.events, call) else {
        return Ok(());
    };
    let x = if from.0 <= to.0 {
        x_of(from).saturating_add(COLUMN / 2)
    } else {
        x_of(from).saturating_sub(COLUMN / 2)
    };
    let base = y.saturating_sub(4);
    write!(out, "<text class=\"entry\" x=\"{x}\" y=\"{base}\">")?;
    write_entry_name(out, scene, *callee, *entry)?;
    write!(out, "</text>\n")
}

// An entry without its task; with an index only where its family has several.
fn write_entry_name(
    out: &mut String,
    scene: Scene<'_>,
    callee: TaskNo,
    entry: Entry,
) -> Result<(), AllocError> {
    let name = scene.family_name(callee, entry.family);
    match scene.declared(callee, entry.family) {
        Some(Family { low: 0, high: 0 }) => out.push_str(name),
        _ => write!(out, "{name}({})", entry.index),
    }
}

/// Appends a cross at each task that an abort hits, and a line beneath each that a quit ends, if that event is drawn.
pub(crate) fn write_ends(out: &mut String, page: &Page<'_>) -> Result<(), AllocError> {
    for span in page.lives.spans() {
        if page.view.part.has(span.from) {
            write_end(out, page, *span)?;
        }
    }
    Ok(())
}

// What ends a task that the abort or the quit at the beginning of a span reaches.
fn write_end(out: &mut String, page: &Page<'_>, span: Span) -> Result<(), AllocError> {
    let x = x_of(span.task);
    let y = page.y_at(span.from);
    let name = page.scene.task(span.task);
    match (span.stage, event_in(page.scene.events, span.from)) {
        (Stage::Abnormal, Some(Event::Aborted { .. })) => {
            let (left, right) = (x.saturating_sub(6), x.saturating_add(6));
            let (high, low) = (y.saturating_sub(6), y.saturating_add(6));
            write!(
                out,
                "<path class=\"hit\" d=\"M {left} {high} L {right} {low} M {left} {low}"
            )?;
            write!(out, " L {right} {high}\">")?;
            write!(out, "<title>{name}: hit by the abort</title></path>\n")
        }
        (Stage::Terminated, Some(Event::Quit { .. })) => {
            let (left, right) = (x.saturating_sub(9), x.saturating_add(9));
            write!(out, "<path class=\"quit\" d=\"M {left} {y} H {right}\">")?;
            write!(out, "<title>{name}: ended by the quit</title></path>\n")
        }
        _ => Ok(()),
    }
}

// The arrow of a rendezvous from one task to another one.
fn write_meeting(
    out: &mut String,
    from: Option<TaskNo>,
    to: Option<TaskNo>,
    y: usize,
) -> Result<(), AllocError> {
    match (from, to) {
        (Some(from), Some(to)) => write_arrow(out, "met", x_of(from), x_of(to), y),
        _ => Ok(()),
    }
}

// The task on whose bar an event is marked, and whether the task asked for it.
fn doer(scene: Scene<'_>, event: &Event) -> Option<(TaskNo, bool)> {
    match event {
        Event::Opened { by, .. }
        | Event::Created { by, .. }
        | Event::Started { by, .. }
        | Event::Elaborated { by, .. }
        | Event::Waiting { by, .. }
        | Event::Paused { by, .. }
        | Event::Closed { by, .. }
        | Event::Completed { by }
        | Event::Aborted { by, .. } => Some((*by, true)),
        Event::Halted { task } | Event::Gone { task } => Some((*task, false)),
        Event::Failed { call: position }
        | Event::Cancelled { call: position }
        | Event::Passed { wait: position, .. }
        | Event::Woken { pause: position }
        | Event::Activated {
            start: position,
            ..
        } => match holder(scene.events, *position) {
            Some(task) => Some((task, false)),
            None => None,
        },
        _ => None,
    }
}

fn write_mark(out: &mut String, x: usize, y: usize) -> Result<(), AllocError> {
    write!(
        out,
        "<circle class=\"mark\" cx=\"{x}\" cy=\"{y}\" r=\"3\"><title>asked for</title></circle>\n"
    )
}

fn write_step(out: &mut String, x: usize, y: usize) -> Result<(), AllocError> {
    write!(
        out,
        "<circle class=\"step\" cx=\"{x}\" cy=\"{y}\" r=\"4\"><title>forced</title></circle>\n"
    )
}

/// Appends an arrow from one column to another one; a loop to the same.
pub(crate) fn write_arrow(
    out: &mut String,
    class: &str,
    from: usize,
    to: usize,
    y: usize,
) -> Result<(), AllocError> {
    let name = match class {
        "call" => "a call",
        "served" => "last served",
        _ => "a rendezvous",
    };
    let high = y.saturating_sub(4);
    let low = y.saturating_add(4);
    if from == to {
        let beside = from.saturating_add(24);
        write!(
            out,
            "<path class=\"{class}\" d=\"M {from} {high} H {beside} V {low} H {from}\">"
        )?;
        return write!(out, "<title>{name}</title></path>\n");
    }
    let head = if from < to {
        to.saturating_sub(8)
    } else {
        to.saturating_add(8)
    };
    write!(
        out,
        "<g><title>{name}</title><path class=\"{class}\" d=\"M {from} {y} H {to}\"/>"
    )?;
    write!(
        out,
        "<path class=\"met\" d=\"M {head} {high} L {to} {y} L {head} {low}\"/></g>\n"
    )
}

// How many blocks are around one.
fn depth_of(scene: Scene<'_>, block: u32) -> usize {
    let mut depth = 0usize;
    let mut next = block;
    for _ in 0..MOST_MEMBERS {
        match event_in(scene.events, next) {
            Some(
                Event::Opened {
                    under: Master::Block(around),
                    ..
                },
            ) => next = *around,
            _ => return depth,
        }
        depth = depth.saturating_add(1);
    }
    depth
}

// A bracket from the opening of a block to its end, where the close at a position was left.
fn write_bracket(
    out: &mut String,
    page: &Page<'_>,
    close: u32,
    bottom: usize,
) -> Result<(), AllocError> {
    let scene = page.scene;
    let Some(Event::Closed { by, block }) = event_in(scene.events, close) else {
        return Ok(());
    };
    let top = page.y_at(*block);
    let inner = x_of(*by).saturating_sub(12);
    let depth = depth_of(scene, *block);
    let outer = inner.saturating_sub(26usize.saturating_sub(depth.saturating_mul(4)).max(6));
    let name = scene.block(*block);
    write!(
        out,
        "<path class=\"block\" d=\"M {inner} {top} H {outer} V {bottom} H {inner}\">"
    )?;
    write!(out, "<title>block {name}</title></path>\n")
}
