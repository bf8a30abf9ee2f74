//! What stands still at the end of a play, and what would let it go on.
use crate::Scene;
use crate::circles::circles;
use crate::clients::Clients;
use crate::end::End;
use crate::reasons::{maker, write_reason};
use ada_events::journal::event_in;
use ada_events::{Event, TaskNo};
use ada_waiting::{Reason, Verdict, verdict_in};
use std::alloc::AllocError;

/// What was found at the end of a play.
#[derive(Clone, Copy, Debug, PartialEq, Eq)]
pub struct Standstill {
    pub verdict: Verdict,
    /// Whether tasks wait for one another in a circle.
    pub has_circle: bool,
}

/// Appends what each task waits for that isn't terminated when a play ends, circles of them, and what can let the
/// journal go on.
pub fn write_standstill(text: &mut String, scene: Scene<'_>) -> Result<Standstill, AllocError> {
    let verdict = verdict_in(scene.kernel);
    if verdict == Verdict::Finished {
        write!(text, "\nThe main program is terminated.\n")?;
        return Ok(Standstill {
            verdict,
            has_circle: false,
        });
    }
    let end = End { scene };
    let clients = Clients::of(*text.allocator(), scene.events)?;
    write!(text, "\nAt the end:\n")?;
    for task in 0..end.tasks() {
        write_task(text, &end, &clients, TaskNo(task))?;
    }
    let has_circle = write_circles(text, &end)?;
    write_verdict(text, &end, verdict)?;
    Ok(Standstill {
        verdict,
        has_circle,
    })
}

/// Appends what one task does, if it isn't terminated.
pub fn write_task(
    text: &mut String,
    end: &End<'_>,
    clients: &Clients,
    task: TaskNo,
) -> Result<(), AllocError> {
    match end.reason(task) {
        Some(reason) => {
            write!(text, "  ")?;
            write_reason(text, end.scene, task, reason)?;
            write_remedy(text, end, task, reason)?;
            if let Some(client) = clients.client_of(end.scene, task) {
                write_client(text, end, client)?;
            }
            write!(text, ".\n")
        }
        None if end.runs(task) => write!(text, "  {} runs: it may act.\n", end.scene.task(task)),
        None => Ok(()),
    }
}

// What would let a task go on.
fn write_remedy(
    text: &mut String,
    end: &End<'_>,
    task: TaskNo,
    reason: Reason,
) -> Result<(), AllocError> {
    let scene = end.scene;
    match reason {
        Reason::NotStarted => match maker(scene, task) {
            Some(maker) => write!(text, "; {} would have to activate it", scene.task(maker)),
            None => Ok(()),
        },
        Reason::Activating { .. } => write!(text, ", which would have to come up"),
        Reason::Queued { call } => write_acceptor(text, scene, call),
        Reason::InRendezvous { .. } => write!(text, ", and would have to end it"),
        Reason::Waiting { wait } => write_callers(text, end, task, wait),
        Reason::Delayed { .. } => write!(text, ", to which a tick would have to come"),
        Reason::Leaving { .. } | Reason::Completed => {
            write!(text, ", which would have to terminate")
        }
    }
}

fn write_acceptor(text: &mut String, scene: Scene<'_>, call: u32) -> Result<(), AllocError> {
    match event_in(scene.events, call) {
        Some(Event::Called { callee, .. }) => {
            write!(text, "; {} would have to accept it", scene.task(*callee))
        }
        _ => Ok(()),
    }
}

// Whether a wait has an open accept alternative.
fn waits_for_calls(scene: Scene<'_>, wait: u32) -> bool {
    match event_in(scene.events, wait) {
        Some(Event::Waiting { choices, .. }) => choices.as_slice().iter().any(|c| c.guard),
        _ => false,
    }
}

// Who could call a task that waits for a call.
fn write_callers(
    text: &mut String,
    end: &End<'_>,
    task: TaskNo,
    wait: u32,
) -> Result<(), AllocError> {
    if !waits_for_calls(end.scene, wait) {
        return Ok(());
    }
    let runners = end.runners(*text.allocator(), task)?;
    if runners.is_empty() {
        return write!(text, "; no task runs that could call it");
    }
    write!(text, "; ")?;
    end.scene.write_tasks(text, &runners)?;
    write!(text, " could call it")
}

// Whom a task served last, and what that does.
fn write_client(text: &mut String, end: &End<'_>, client: TaskNo) -> Result<(), AllocError> {
    write!(text, "; it last served {}, which ", end.scene.task(client))?;
    match end.reason(client) {
        None => text.push_str("runs"),
        Some(Reason::NotStarted) => text.push_str("was never activated"),
        Some(Reason::Activating { .. }) => text.push_str("waits for an activation"),
        Some(Reason::Queued { call }) => write_call(text, end.scene, "waits in", call),
        Some(Reason::InRendezvous { call }) => write_call(text, end.scene, "is served in", call),
        Some(Reason::Waiting { .. }) => text.push_str("waits for a call"),
        Some(Reason::Delayed { .. }) => text.push_str("is delayed"),
        Some(Reason::Leaving { .. }) => text.push_str("waits at the end of a block"),
        Some(Reason::Completed) => text.push_str("is completed"),
    }
}

// That a task does something in its call, the event at a position.
fn write_call(
    text: &mut String,
    scene: Scene<'_>,
    does: &str,
    call: u32,
) -> Result<(), AllocError> {
    match event_in(scene.events, call) {
        Some(Event::Called { callee, entry, .. }) => {
            write!(text, "{does} its call of {}", scene.entry(*callee, *entry))
        }
        _ => Ok(()),
    }
}

// The circles of tasks that wait for one another; whether there is one.
fn write_circles(text: &mut String, end: &End<'_>) -> Result<bool, AllocError> {
    let circles = circles(*text.allocator(), end)?;
    for circle in &circles {
        write_circle(text, end.scene, circle)?;
    }
    Ok(!circles.is_empty())
}

fn write_circle(text: &mut String, scene: Scene<'_>, circle: &[TaskNo]) -> Result<(), AllocError> {
    let Some(first) = circle.first() else {
        return Ok(());
    };
    write!(text, "  A circle: {} waits", scene.task(*first))?;
    for next in &circle[1..] {
        write!(text, " for {}, which waits", scene.task(*next))?;
    }
    write!(text, " for {}.\n", scene.task(*first))
}

/// Appends what can let the journal go on, if the main program isn't terminated.
pub fn write_verdict(text: &mut String, end: &End<'_>, verdict: Verdict) -> Result<(), AllocError> {
    match verdict {
        Verdict::Finished => Ok(()),
        Verdict::GoesOn => {
            let runners = end.runners(*text.allocator(), TaskNo(u16::MAX))?;
            write!(text, "Verdict: could go on, by a line of ")?;
            end.scene.write_tasks(text, &runners)?;
            write!(text, ".\n")
        }
        Verdict::WaitsForTick { until } => {
            write!(text, "Verdict: waits for a tick until {until}.\n")
        }
        Verdict::Stuck => write!(
            text,
            "Verdict: stuck: no task runs, and no tick changes that.\n"
        ),
    }
}
