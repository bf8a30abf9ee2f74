//! The sentence of each cause for which a request is refused.

use crate::Scene;
use crate::nesting::{frame, innermost, served};
use crate::reasons::{maker, write_reason};
use ada_events::journal::event_in;
use ada_events::limits::{
    LAST_MOMENT, MOST_APPENDED, MOST_EVENTS, MOST_MEMBERS, MOST_SLOTS, MOST_TASKS,
};
use ada_events::{Choice, Entry, Event, Family, Master, Member, Refusal, Request, TaskNo};
use ada_waiting::reason_in;
use std::alloc::AllocError;

// The task that makes a request; none of a tick.
fn asker(request: &Request) -> Option<TaskNo> {
    match request {
        Request::Open { by }
        | Request::Create { by, .. }
        | Request::Activate { by, .. }
        | Request::Elaborated { by, .. }
        | Request::Call { by, .. }
        | Request::Wait { by, .. }
        | Request::Delay { by, .. }
        | Request::End { by, .. }
        | Request::Close { by }
        | Request::Complete { by }
        | Request::Abort { by, .. } => Some(*by),
        Request::Tick { .. } => None,
    }
}

/// Appends why a request was refused, whose tasks all exist.
pub fn write_cause(
    text: &mut String,
    scene: Scene<'_>,
    request: &Request,
    cause: Refusal,
) -> Result<(), AllocError> {
    match asker(request) {
        Some(by) => write_own_cause(text, scene, by, request, cause),
        None => write_moment(text, scene, cause),
    }
}

// Why a tick was refused.
fn write_moment(text: &mut String, scene: Scene<'_>, cause: Refusal) -> Result<(), AllocError> {
    match cause {
        Refusal::MomentBack => {
            let now = scene.kernel.view().moment();
            write!(
                text,
                "the moment is {now} already, and a tick names a moment, not a duration"
            )
        }
        Refusal::JournalFull => write_full(text, scene),
        _ => write!(text, "the last moment is {LAST_MOMENT}"),
    }
}

// Why the request of a task was refused.
fn write_own_cause(
    text: &mut String,
    scene: Scene<'_>,
    by: TaskNo,
    request: &Request,
    cause: Refusal,
) -> Result<(), AllocError> {
    match cause {
        Refusal::NotRunning => write_not_running(text, scene, by),
        Refusal::DuringActivation | Refusal::NotActivating => {
            write_activation(text, scene, by, cause)
        }
        Refusal::NotYourMaster => write_not_your_master(text, scene, by, request),
        Refusal::EmptyList => write!(text, "the list of tasks is empty"),
        Refusal::NotYourTask => write_not_your_task(text, scene, by, request),
        Refusal::NoAccept => write!(text, "a select has to have an accept alternative"),
        Refusal::ConstraintError => write_constraint(text, scene, by, request),
        Refusal::SameFamilyNested => write_same_family(text, scene, by, request),
        Refusal::TerminateInAccept => write_in_accept(text, scene, by),
        Refusal::NotInAccept | Refusal::NoBlock | Refusal::StillNested => {
            write_nest(text, scene, by)
        }
        Refusal::MainTask => write!(text, "the main program can't be aborted"),
        _ => write_limit(text, scene, by, request, cause),
    }
}

// Why a task may not end its activation, or may not do yet what follows it.
fn write_activation(
    text: &mut String,
    scene: Scene<'_>,
    by: TaskNo,
    cause: Refusal,
) -> Result<(), AllocError> {
    let name = scene.task(by);
    match cause {
        Refusal::NotActivating if by.0 == 0 => {
            write!(text, "{name} is the main program, which nobody activates")
        }
        Refusal::NotActivating => write!(text, "{name} has come up already"),
        _ => write!(
            text,
            "{name} is still being activated: it has to come up first"
        ),
    }
}

// Which limit a request would go beyond.
fn write_limit(
    text: &mut String,
    scene: Scene<'_>,
    by: TaskNo,
    request: &Request,
    cause: Refusal,
) -> Result<(), AllocError> {
    let name = scene.task(by);
    match cause {
        Refusal::MomentBack | Refusal::MomentTooLarge => {
            write!(text, "it would end after the last moment, {LAST_MOMENT}")
        }
        Refusal::TooManyTasks => {
            write!(
                text,
                "there are {MOST_TASKS} tasks, those that are gone included"
            )
        }
        Refusal::TooManySlots => write_slots(text, scene, request),
        Refusal::TooDeep => {
            write!(
                text,
                "{name} is within {MOST_MEMBERS} blocks and rendezvous already"
            )
        }
        Refusal::JournalFull => write_full(text, scene),
        Refusal::OutOfMemory => write!(text, "memory was refused"),
        _ => write!(text, "the task or its entry doesn't exist"),
    }
}

/// Appends why a task isn't running.
pub fn write_not_running(
    text: &mut String,
    scene: Scene<'_>,
    task: TaskNo,
) -> Result<(), AllocError> {
    match reason_in(scene.kernel, task) {
        Some(reason) => write_reason(text, scene, task, reason),
        None => write!(text, "{} is terminated", scene.task(task)),
    }
}

fn write_not_your_master(
    text: &mut String,
    scene: Scene<'_>,
    by: TaskNo,
    request: &Request,
) -> Result<(), AllocError> {
    let Request::Create { master, .. } = request else {
        return Ok(());
    };
    let name = scene.task(by);
    if let Master::Block(0) = master {
        return write!(
            text,
            "the block isn't open: the line that was to open it was refused"
        );
    }
    let kind = match master {
        Master::Body(_) => "",
        Master::Block(_) => "block ",
    };
    let master = scene.master(*master);
    match frame(scene, by) {
        Master::Body(_) => {
            write!(
                text,
                "{name} is in its own body, which doesn't depend on {kind}{master}"
            )
        }
        Master::Block(opened) => {
            let block = scene.block(opened);
            write!(
                text,
                "{name} is in block {block}, which doesn't depend on {kind}{master}"
            )
        }
    }
}

// Why a task may not be activated by another one; none if it may.
fn write_not_activated(
    text: &mut String,
    scene: Scene<'_>,
    by: TaskNo,
    task: TaskNo,
) -> Result<bool, AllocError> {
    let name = scene.task(task);
    let Some(maker) = maker(scene, task) else {
        write!(text, "{name} is the main program, which nobody activates")?;
        return Ok(true);
    };
    if maker.0 != by.0 {
        let maker = scene.task(maker);
        write!(
            text,
            "{name} was made by {maker}, who alone may activate it"
        )?;
        return Ok(true);
    }
    if scene.kernel.view().record(task).stage.named {
        write!(text, "{name} was activated already")?;
        return Ok(true);
    }
    Ok(false)
}

fn write_not_your_task(
    text: &mut String,
    scene: Scene<'_>,
    by: TaskNo,
    request: &Request,
) -> Result<(), AllocError> {
    let Request::Activate { tasks, .. } = request else {
        return Ok(());
    };
    for task in tasks.as_slice() {
        if write_not_activated(text, scene, by, *task)? {
            return Ok(());
        }
    }
    write!(text, "a task is named twice")
}

/// Appends the range that an entry's index is outside of.
pub fn write_outside(
    text: &mut String,
    scene: Scene<'_>,
    task: TaskNo,
    entry: Entry,
) -> Result<(), AllocError> {
    let index = entry.index;
    let name = scene.family(task, entry.family);
    match scene.declared(task, entry.family) {
        Some(Family { low: 0, high: 0 }) => {
            write!(
                text,
                "index {index}: {name} is a single entry, which has none"
            )
        }
        Some(family) if family.high < family.low => {
            write!(text, "index {index}: {name} has no entry")
        }
        Some(family) => {
            let low = family.low;
            let high = family.high;
            write!(
                text,
                "index {index}: {name} has the entries {low} to {high}"
            )
        }
        None => write!(text, "{name} doesn't exist"),
    }
}

// Whether the index of an entry lies outside the range of its family.
fn is_outside(scene: Scene<'_>, task: TaskNo, entry: Entry) -> bool {
    match scene.declared(task, entry.family) {
        Some(family) => !family.contains(entry.index),
        None => false,
    }
}

// The first open choice whose index is outside of its range.
fn outside_choice(scene: Scene<'_>, by: TaskNo, choices: &[Choice]) -> Option<Entry> {
    for choice in choices {
        if choice.guard && is_outside(scene, by, choice.entry) {
            return Some(choice.entry);
        }
    }
    None
}

fn write_constraint(
    text: &mut String,
    scene: Scene<'_>,
    by: TaskNo,
    request: &Request,
) -> Result<(), AllocError> {
    match request {
        Request::Call { callee, entry, .. } => write_outside(text, scene, *callee, *entry),
        Request::Wait { choices, .. } => match outside_choice(scene, by, choices.as_slice()) {
            Some(entry) => write_outside(text, scene, by, entry),
            None => Ok(()),
        },
        _ => Ok(()),
    }
}

fn write_same_family(
    text: &mut String,
    scene: Scene<'_>,
    by: TaskNo,
    request: &Request,
) -> Result<(), AllocError> {
    let Request::Wait { choices, .. } = request else {
        return Ok(());
    };
    let name = scene.task(by);
    for choice in choices.as_slice() {
        if let Some(served) = served(scene, by, choice.entry.family) {
            let entry = scene.entry(by, served);
            return write!(text, "{name} serves a call of the same family: {entry}");
        }
    }
    Ok(())
}

fn write_in_accept(text: &mut String, scene: Scene<'_>, by: TaskNo) -> Result<(), AllocError> {
    write!(
        text,
        "{} is within an accept statement, where no terminate may stand",
        scene.task(by)
    )
}

// What a task is innermost within.
fn write_nest(text: &mut String, scene: Scene<'_>, by: TaskNo) -> Result<(), AllocError> {
    let name = scene.task(by);
    match innermost(scene, by) {
        None => write!(text, "{name} is within no block and serves no call"),
        Some(Member::Block(opened)) => {
            write!(
                text,
                "{name} is in block {} since event {opened}",
                scene.block(opened)
            )
        }
        Some(Member::Rendezvous(call)) => write_serving(text, scene, by, call),
    }
}

fn write_serving(
    text: &mut String,
    scene: Scene<'_>,
    by: TaskNo,
    call: u32,
) -> Result<(), AllocError> {
    let name = scene.task(by);
    match event_in(scene.events, call) {
        Some(
            Event::Called {
                by: caller,
                entry,
                ..
            },
        ) => {
            let caller = scene.task(*caller);
            let entry = scene.entry(by, *entry);
            write!(
                text,
                "{name} serves the call of {entry} by {caller}, event {call}"
            )
        }
        _ => Ok(()),
    }
}

fn write_slots(text: &mut String, scene: Scene<'_>, request: &Request) -> Result<(), AllocError> {
    let Request::Create { families, .. } = request else {
        return Ok(());
    };
    let count = scene.kernel.view().tables().slots();
    let more = Family::entries_in(families.as_slice());
    write!(
        text,
        "the tasks have {count} entries, and {more} more would pass {MOST_SLOTS}"
    )
}

fn write_full(text: &mut String, scene: Scene<'_>) -> Result<(), AllocError> {
    let count = scene.events.len();
    write!(
        text,
        "the journal has {count} of {MOST_EVENTS} events, and needs room for {MOST_APPENDED}"
    )
}
