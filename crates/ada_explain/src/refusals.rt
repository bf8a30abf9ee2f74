//! Why a line was refused, in a sentence with the facts.

use crate::Scene;
use crate::causes::{write_cause, write_not_running, write_outside};
use ada_events::Refusal;
use ada_replay::Refused;
use ada_script::{Line, Name, Statement, request};
use std::alloc::AllocError;

/// Appends why a line was refused.
pub fn write_refused(text: &mut String, refused: Refused<'_>) -> Result<(), AllocError> {
    let Refused {
        kernel,
        names,
        lines,
        statement,
        cause,
    } = refused;
    let scene = Scene::of(kernel, names);
    if cause == Refusal::UnknownTask {
        return write_unknown_task(text, scene, lines, statement);
    }
    match request(statement, scene.names) {
        Some(request) => write_cause(text, scene, &request, cause),
        None => write_not_shown(text, scene, statement, cause),
    }
}

// Whether a name is bound to no task.
fn is_unmade(scene: Scene<'_>, name: &Name) -> bool {
    scene.names.task(name).0 == u16::MAX
}

// The first of two names that is bound to no task.
fn first_unmade<'a>(scene: Scene<'_>, by: &'a Name, other: &'a Name) -> Option<&'a Name> {
    if is_unmade(scene, by) {
        Some(by)
    } else if is_unmade(scene, other) {
        Some(other)
    } else {
        None
    }
}

// The first of some names that is bound to no task.
fn listed_unmade<'a>(scene: Scene<'_>, by: &'a Name, others: &'a [Name]) -> Option<&'a Name> {
    if is_unmade(scene, by) {
        return Some(by);
    }
    others.iter().find(|name| is_unmade(scene, name))
}

// The first name of a statement that is bound to no task, of those that have to be.
fn unmade<'a>(scene: Scene<'_>, statement: &'a Statement) -> Option<&'a Name> {
    match statement {
        Statement::Tick { .. } => None,
        Statement::Create { by, under, .. } => first_unmade(scene, by, under),
        Statement::Activate { by, tasks } | Statement::Abort { by, tasks } => {
            listed_unmade(scene, by, tasks.as_slice())
        }
        Statement::Call { by, callee, .. }
        | Statement::CallWithin { by, callee, .. }
        | Statement::Try { by, callee, .. } => first_unmade(scene, by, callee),
        Statement::ShowCallable { by, task } | Statement::ShowTerminated { by, task } => {
            first_unmade(scene, by, task)
        }
        Statement::Open { by, .. }
        | Statement::Up { by }
        | Statement::Fail { by }
        | Statement::Accept { by, .. }
        | Statement::Select { by, .. }
        | Statement::End { by }
        | Statement::Raise { by }
        | Statement::Close { by }
        | Statement::Delay { by, .. }
        | Statement::Complete { by }
        | Statement::ShowCount { by, .. } => first_unmade(scene, by, by),
    }
}

// The line that was to make a task of this name.
fn creating_line(lines: &[Line], name: &Name) -> Option<u32> {
    for line in lines {
        if let Statement::Create { task, .. } = &line.statement
            && task == name
        {
            return Some(line.line);
        }
    }
    None
}

fn write_unknown_task(
    text: &mut String,
    scene: Scene<'_>,
    lines: &[Line],
    statement: &Statement,
) -> Result<(), AllocError> {
    let Some(name) = unmade(scene, statement) else {
        return Ok(());
    };
    let name_shown = name.as_str();
    match creating_line(lines, name) {
        Some(line) => write!(
            text,
            "{name_shown} doesn't exist: line {line}, which was to make it, was refused"
        ),
        None => write!(text, "{name_shown} doesn't exist"),
    }
}

// COUNT alone is refused of a task that exists (9.9).
fn write_not_shown(
    text: &mut String,
    scene: Scene<'_>,
    statement: &Statement,
    cause: Refusal,
) -> Result<(), AllocError> {
    let Statement::ShowCount { by, entry } = statement else {
        return Ok(());
    };
    let task = scene.names.task(by);
    if cause == Refusal::NotRunning {
        write_not_running(text, scene, task)
    } else {
        write_outside(text, scene, task, scene.names.entry(by, entry))
    }
}
