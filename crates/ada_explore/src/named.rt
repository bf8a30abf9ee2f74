//! What the lines name that are left of a script. Nothing is promised of it.

use crate::Rest;
use ada_events::Master;
use ada_script::{Line, Name, Names, Statement};
use ada_search::{KeyWriter, TaskSet};
use std::alloc::{AllocError, Global};

/// The tasks that the lines name that are left.
pub(crate) fn named_tasks(script: &[Line], rest: &Rest) -> TaskSet {
    let mut named = TaskSet::new();
    for place in &rest.left {
        if let Some(line) = script.get(usize::from(*place)) {
            add_named(&mut named, &line.statement, &rest.names);
        }
    }
    named
}

/// The blocks under which they make tasks, by the positions of their openings.
pub(crate) fn named_blocks(
    alloc: Global,
    script: &[Line],
    rest: &Rest,
) -> Result<Vec<u32>, AllocError> {
    let mut blocks = Vec::new(alloc);
    for place in &rest.left {
        let under = script
            .get(usize::from(*place))
            .and_then(|line| block_under(&line.statement, &rest.names));
        if let Some(at) = under {
            blocks.push(at)?;
        }
    }
    Ok(blocks)
}

// Puts the tasks that a statement names into a set.
fn add_named(named: &mut TaskSet, statement: &Statement, names: &Names) {
    if let Some(by) = speaker(statement) {
        named.insert(names.task(by));
    }
    match statement {
        Statement::Create { under, .. } => {
            if let Master::Body(task) = names.master(under) {
                named.insert(task);
            }
        }
        Statement::Activate { tasks, .. } | Statement::Abort { tasks, .. } => {
            for name in tasks.as_slice() {
                named.insert(names.task(name));
            }
        }
        Statement::Call { callee, .. }
        | Statement::CallWithin { callee, .. }
        | Statement::Try { callee, .. } => {
            named.insert(names.task(callee));
        }
        _ => {}
    }
}

// The name of the task that says a statement; none of a tick.
fn speaker(statement: &Statement) -> Option<&Name> {
    match statement {
        Statement::Create { by, .. }
        | Statement::Activate { by, .. }
        | Statement::Abort { by, .. }
        | Statement::Call { by, .. }
        | Statement::CallWithin { by, .. }
        | Statement::Try { by, .. }
        | Statement::Open { by, .. }
        | Statement::Up { by }
        | Statement::Fail { by }
        | Statement::Accept { by, .. }
        | Statement::Select { by, .. }
        | Statement::End { by }
        | Statement::Raise { by }
        | Statement::Close { by }
        | Statement::Delay { by, .. }
        | Statement::Complete { by } => Some(by),
        _ => None,
    }
}

// The position of the block under which a statement makes a task, if that is opened: there is no position 0.
fn block_under(statement: &Statement, names: &Names) -> Option<u32> {
    match statement {
        Statement::Create { under, .. } => match names.master(under) {
            Master::Block(0) | Master::Body(_) => None,
            Master::Block(at) => Some(at),
        },
        _ => None,
    }
}

/// Writes what each name that a line declares stands for.
pub(crate) fn write_declared(
    key: &mut KeyWriter<'_, '_>,
    script: &[Line],
    rest: &Rest,
) -> Result<(), AllocError> {
    for line in script {
        match &line.statement {
            Statement::Create { task, .. } => key.task(rest.names.task(task))?,
            Statement::Open { block, .. } => {
                if let Master::Block(at) = rest.names.master(block) {
                    key.block(at)?;
                }
            }
            _ => {}
        }
    }
    Ok(())
}
