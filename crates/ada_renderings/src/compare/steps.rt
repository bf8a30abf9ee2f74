//! What each line of a script did, in words that hold wherever its events stand.

use ada_events::Event;
use ada_events::journal::event_in;
use ada_explain::Scene;
use ada_explain::lives::holder;
use ada_explain::rows::{Row, Rows, Shows};
use ada_replay::Account;
use std::alloc::{AllocError, Global};

/// A line of a script, and what it did: the first of its rows, and how many there are.
#[derive(Drop)]
pub struct Step {
    pub line: u32,
    /// The words of the statement, with one space between them.
    pub statement: String,
    /// What it printed, with the names of tasks where it has positions of events.
    pub effect: String,
    pub first: usize,
    pub count: usize,
}

/// The steps of a play, in their order.
pub fn steps_of(
    alloc: Global,
    account: &Account,
    rows: &Rows<'_>,
) -> Result<Vec<Step>, AllocError> {
    let scene = Scene::at_end(account);
    let mut steps: Vec<Step> = Vec::new(alloc);
    for (place, row) in rows.rows.iter().enumerate() {
        if row.is_first() {
            steps.push(Step {
                line: row.line,
                statement: plain(alloc, row.statement)?,
                effect: String::new(alloc),
                first: place,
                count: 0,
            })?;
        }
        if let Some(step) = steps.last_mut() {
            step.count = step.count.saturating_add(1);
            write_effect(&mut step.effect, scene, row)?;
        }
    }
    Ok(steps)
}

// The words of a statement, with one space between them.
fn plain(alloc: Global, statement: &str) -> Result<String, AllocError> {
    let mut words = String::new(alloc);
    for word in statement.split(' ') {
        if !word.is_empty() {
            words.push_str(word)?;
            words.push(' ')?;
        }
    }
    Ok(words)
}

// Appends what a row shows. An event that names others by their positions names the task of the first instead, which
// has done nothing else since, and the entry of a call.
fn write_effect(text: &mut String, scene: Scene<'_>, row: &Row<'_>) -> Result<(), AllocError> {
    match named(scene, row) {
        Some(position) => {
            write_plain(text, row.without_position())?;
            text.push_str(task_at(scene, position))?;
            write_entry(text, scene, position)?;
        }
        None if row.shows == Shows::Answer => write_answer(text, row.printed)?,
        None => text.push_str(row.without_position())?,
    }
    text.push('\n')
}

// Appends the entry of the call at a position, always with its index, since the text is only compared.
fn write_entry(text: &mut String, scene: Scene<'_>, position: u32) -> Result<(), AllocError> {
    match event_in(scene.events, position) {
        Some(Event::Called { callee, entry, .. }) => {
            let family = scene.family(*callee, entry.family);
            write!(text, " {family}({})", entry.index)
        }
        _ => Ok(()),
    }
}

fn task_at(scene: Scene<'_>, position: u32) -> &str {
    match holder(scene.events, position) {
        Some(task) => scene.task(task),
        None => "?",
    }
}

// Appends the words that aren't positions. Only the number of a delay alternative isn't one either.
fn write_plain(text: &mut String, printed: &str) -> Result<(), AllocError> {
    let mut is_number = false;
    for word in printed.split(' ') {
        if is_number || !word.starts_with(|c: char| c.is_ascii_digit()) {
            text.push_str(word)?;
            text.push(' ')?;
        }
        is_number = word == "delay";
    }
    Ok(())
}

// A refusal or a value, without the number of its line.
fn write_answer(text: &mut String, printed: &str) -> Result<(), AllocError> {
    match printed.split_once(':') {
        Some((_, answer)) => text.push_str(answer),
        None => text.push_str(printed),
    }
}

/// The task of the event that a row's event names first by its position, if it names one.
pub fn partner<'a>(scene: Scene<'a>, row: &Row<'_>) -> Option<&'a str> {
    let position = named(scene, row)?;
    Some(task_at(scene, position))
}

// The position that a row's event names first, if it names one.
fn named(scene: Scene<'_>, row: &Row<'_>) -> Option<u32> {
    let (Shows::Asked(position) | Shows::Forced(position)) = row.shows else {
        return None;
    };
    match event_in(scene.events, position)? {
        Event::Ended { call, .. }
        | Event::Failed { call }
        | Event::Met { call, .. }
        | Event::Cancelled { call } => Some(*call),
        Event::Woken { pause } => Some(*pause),
        Event::Activated { start, .. } => Some(*start),
        Event::Left { close } => Some(*close),
        Event::Passed { wait, .. } => Some(*wait),
        _ => None,
    }
}
