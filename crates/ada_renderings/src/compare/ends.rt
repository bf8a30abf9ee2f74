//! What differs at the ends of two plays.

use ada_events::TaskNo;
use ada_explain::Scene;
use ada_explain::end::End;
use ada_explain::reasons::write_reason;
use ada_replay::{Account, Answer};
use ada_waiting::{Verdict, verdict_in};
use std::alloc::{AllocError, Global};

/// Appends what each task does at the end of two plays that does something else in the other one, how many lines were
/// refused, and what can let the plays go on, as far as these differ.
pub fn write_ends(text: &mut String, first: &Account, second: &Account) -> Result<(), AllocError> {
    let alloc = *text.allocator();
    let one = End {
        scene: Scene::at_end(first),
    };
    let other = End {
        scene: Scene::at_end(second),
    };
    write!(text, "\nAt the end:\n")?;
    let before = text.len();
    for task in 0..one.tasks() {
        let name = one.scene.task(TaskNo(task));
        let state = state_of(alloc, &one, Some(TaskNo(task)))?;
        let with = state_of(alloc, &other, task_named(&other, name))?;
        write_states(text, &state, &with)?;
    }
    for task in 0..other.tasks() {
        let name = other.scene.task(TaskNo(task));
        if task_named(&one, name).is_none() {
            write_states(text, "", &state_of(alloc, &other, Some(TaskNo(task)))?)?;
        }
    }
    write_states(
        text,
        &refused_of(alloc, first)?,
        &refused_of(alloc, second)?,
    )?;
    write_states(
        text,
        &verdict_text(alloc, first)?,
        &verdict_text(alloc, second)?,
    )?;
    if text.len() == before {
        write!(text, "  the same\n")?;
    }
    Ok(())
}

// The task of a name.
fn task_named(end: &End<'_>, name: &str) -> Option<TaskNo> {
    for task in 0..end.tasks() {
        if end.scene.task(TaskNo(task)) == name {
            return Some(TaskNo(task));
        }
    }
    None
}

// What a task does at the end; nothing where there is none.
fn state_of(alloc: Global, end: &End<'_>, task: Option<TaskNo>) -> Result<String, AllocError> {
    let mut state = String::new(alloc);
    if let Some(task) = task {
        let name = end.scene.task(task);
        match end.reason(task) {
            Some(reason) => write_reason(&mut state, end.scene, task, reason)?,
            None if end.runs(task) => write!(state, "{name} runs")?,
            None => write!(state, "{name} is terminated")?,
        }
    }
    Ok(state)
}

fn refused_of(alloc: Global, account: &Account) -> Result<String, AllocError> {
    let count = account
        .answers
        .iter()
        .filter(|answer| matches!(answer, Answer::Refused(_)))
        .count();
    match count {
        1 => format!(in alloc; "1 line is refused"),
        _ => format!(in alloc; "{count} lines are refused"),
    }
}

fn verdict_text(alloc: Global, account: &Account) -> Result<String, AllocError> {
    match verdict_in(&account.kernel) {
        Verdict::Finished => format!(in alloc; "verdict: terminated"),
        Verdict::GoesOn => format!(in alloc; "verdict: could go on"),
        Verdict::WaitsForTick { until } => {
            format!(in alloc; "verdict: waits for a tick until {until}")
        }
        Verdict::Stuck => format!(in alloc; "verdict: stuck"),
    }
}

// Appends what is so at one end and not at the other one.
fn write_states(text: &mut String, state: &str, with: &str) -> Result<(), AllocError> {
    let alloc = *text.allocator();
    if without_positions(alloc, state)? == without_positions(alloc, with)? {
        return Ok(());
    }
    if !state.is_empty() {
        write!(text, "- {state}\n")?;
    }
    if !with.is_empty() {
        write!(text, "+ {with}\n")?;
    }
    Ok(())
}

// A sentence without the positions of events, each of which follows the word `event`.
fn without_positions(alloc: Global, sentence: &str) -> Result<String, AllocError> {
    let mut text = String::new(alloc);
    let mut is_position = false;
    for word in sentence.split(' ') {
        if is_position {
            text.push_str(word.trim_start_matches(|c: char| c.is_ascii_digit()))?;
        } else {
            text.push_str(word)?;
        }
        text.push(' ')?;
        is_position = word == "event";
    }
    Ok(text)
}
