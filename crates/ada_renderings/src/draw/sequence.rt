//! A play as a sequence diagram of Mermaid.

use crate::draw::view::Part;
use ada_events::journal::event_in;
use ada_events::{Event, EventTail, Master, TaskNo, Way};
use ada_explain::Scene;
use ada_explain::lives::holder;
use ada_explain::reasons::{write_choices, write_reason, write_tail};
use ada_replay::Account;
use ada_waiting::{Verdict, reason_in, verdict_in};
use std::alloc::{AllocError, Global};

/// A sequence diagram: the calls with their rendezvous and what became of them, what tasks wait for, and who activates
/// and aborts whom; at the end what each task waits for, if the play is stuck there.
pub fn write_sequence(alloc: Global, account: &Account, part: Part) -> Result<String, AllocError> {
    let scene = Scene::at_end(account);
    let mut out = String::new(alloc);
    write!(out, "sequenceDiagram\n")?;
    write_participants(&mut out, scene)?;
    for (i, event) in scene.events.iter().enumerate() {
        if part.has(i as u32 + 1) {
            write_step(&mut out, scene, event)?;
        }
    }
    if part.to as usize >= scene.events.len() && verdict_in(scene.kernel) == Verdict::Stuck {
        write_stuck(&mut out, scene)?;
    }
    Ok(out)
}

// Each task, in order of creation.
fn write_participants(out: &mut String, scene: Scene<'_>) -> Result<(), AllocError> {
    for task in 0..scene.kernel.tasks() {
        write!(out, "  participant {}\n", scene.task(TaskNo(task)))?;
    }
    Ok(())
}

// What an event adds to the diagram, if anything.
fn write_step(out: &mut String, scene: Scene<'_>, event: &Event) -> Result<(), AllocError> {
    match event {
        Event::Called {
            by,
            callee,
            entry,
            ..
        } => {
            let (from, to) = (scene.task(*by), scene.task(*callee));
            write!(
                out,
                "  {from}->>{to}: call {}\n",
                scene.entry(*callee, *entry)
            )
        }
        Event::Met { call, wait } => write_between(out, scene, *call, *wait),
        Event::Ended { by, call, raised } => write_end(out, scene, *by, *call, *raised),
        Event::Started { by, tasks } => {
            write_arrows(out, scene, *by, tasks.as_slice(), "->>", "activate")
        }
        Event::Aborted { by, tasks } => {
            write_arrows(out, scene, *by, tasks.as_slice(), "-x", "abort")
        }
        Event::Ticked { now } => write!(out, "  Note over main: moment {now}\n"),
        Event::Quit { master } => write_quit(out, scene, *master),
        _ => write_release(out, scene, event),
    }
}

// What an event adds that is about one task.
fn write_release(out: &mut String, scene: Scene<'_>, event: &Event) -> Result<(), AllocError> {
    match event {
        Event::Waiting { .. } | Event::Paused { .. } | Event::Closed { .. } => {
            write_wait(out, scene, event)
        }
        Event::Elaborated { by, ok } => {
            write_note(out, scene, Some(*by), if *ok { "active" } else { "failed" })
        }
        Event::Activated { start, ok } => {
            let text = if *ok {
                "activation over"
            } else {
                "activation over: TASKING_ERROR"
            };
            write_note(out, scene, holder(scene.events, *start), text)
        }
        Event::Failed { call } => {
            write_note(out, scene, holder(scene.events, *call), "TASKING_ERROR")
        }
        Event::Cancelled { call } => {
            write_note(out, scene, holder(scene.events, *call), "call cancelled")
        }
        Event::Passed { wait, way } => {
            let text = match way {
                Way::Otherwise => "else part",
                Way::Delay(_) => "delay alternative",
                Way::ProgramError => "PROGRAM_ERROR",
            };
            write_note(out, scene, holder(scene.events, *wait), text)
        }
        Event::Woken { pause } => write_note(
            out,
            scene,
            holder(scene.events, *pause),
            "delay over",
        ),
        Event::Left { close } => write_note(out, scene, holder(scene.events, *close), "block left"),
        Event::Completed { by } => write_note(out, scene, Some(*by), "completed"),
        Event::Halted { task } => write_note(out, scene, Some(*task), "completed by the abort"),
        Event::Gone { task } => write_note(out, scene, Some(*task), "terminated"),
        _ => Ok(()),
    }
}

// What a task waits for from an event on.
fn write_wait(out: &mut String, scene: Scene<'_>, event: &Event) -> Result<(), AllocError> {
    match event {
        Event::Waiting {
            by,
            choices,
            tail,
            ..
        } => {
            write!(out, "  Note over {}: waits", scene.task(*by))?;
            write_choices(out, scene, *by, choices.as_slice())?;
            match tail {
                EventTail::Otherwise => write!(out, ", or the else part")?,
                _ => write_tail(out, tail)?,
            }
            write!(out, "\n")
        }
        Event::Paused { by, due } => write!(
            out,
            "  Note over {}: delayed until moment {due}\n",
            scene.task(*by)
        ),
        Event::Closed { by, block } => write!(
            out,
            "  Note over {}: waits at the end of block {}\n",
            scene.task(*by),
            scene.block(*block)
        ),
        _ => Ok(()),
    }
}

// An arrow from one task to each of some.
fn write_arrows(
    out: &mut String,
    scene: Scene<'_>,
    by: TaskNo,
    tasks: &[TaskNo],
    arrow: &str,
    text: &str,
) -> Result<(), AllocError> {
    let from = scene.task(by);
    for task in tasks {
        write!(out, "  {from}{arrow}{}: {text}\n", scene.task(*task))?;
    }
    Ok(())
}

// All that depend on a master terminate together.
fn write_quit(out: &mut String, scene: Scene<'_>, master: Master) -> Result<(), AllocError> {
    match master {
        Master::Body(task) => write!(
            out,
            "  Note over {}: its dependent tasks terminate\n",
            scene.task(task)
        ),
        Master::Block(opened) => match event_in(scene.events, opened) {
            Some(Event::Opened { by, .. }) => write!(
                out,
                "  Note over {}: the dependent tasks of block {} terminate\n",
                scene.task(*by),
                scene.block(opened)
            ),
            _ => Ok(()),
        },
    }
}

// The end of a rendezvous, by an exception or not.
fn write_end(
    out: &mut String,
    scene: Scene<'_>,
    by: TaskNo,
    call: u32,
    raised: bool,
) -> Result<(), AllocError> {
    let Some(caller) = holder(scene.events, call) else {
        return Ok(());
    };
    let (from, to) = (scene.task(by), scene.task(caller));
    let how = if raised { "exception" } else { "end" };
    write!(out, "  {from}-->>{to}: {how}\n")
}

fn write_between(
    out: &mut String,
    scene: Scene<'_>,
    call: u32,
    wait: u32,
) -> Result<(), AllocError> {
    match (holder(scene.events, call), holder(scene.events, wait)) {
        (Some(caller), Some(acceptor)) => {
            let (from, to) = (scene.task(caller), scene.task(acceptor));
            write!(out, "  Note over {from},{to}: rendezvous\n")
        }
        _ => Ok(()),
    }
}

fn write_note(
    out: &mut String,
    scene: Scene<'_>,
    task: Option<TaskNo>,
    text: &str,
) -> Result<(), AllocError> {
    match task {
        Some(task) => write!(out, "  Note over {}: {text}\n", scene.task(task)),
        None => Ok(()),
    }
}

// What each task waits for that isn't terminated.
fn write_stuck(out: &mut String, scene: Scene<'_>) -> Result<(), AllocError> {
    for task in 0..scene.kernel.tasks() {
        let task = TaskNo(task);
        if let Some(reason) = reason_in(scene.kernel, task) {
            write!(out, "  Note over {}: ", scene.task(task))?;
            write_reason(out, scene, task, reason)?;
            write!(out, "\n")?;
        }
    }
    write!(out, "  Note over main: stuck\n")
}
