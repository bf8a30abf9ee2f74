//! A journal beside its script, with the reason under each refused line, and perhaps under each event.

use crate::Scene;
use crate::arrival::Arrival;
use crate::past::Past;
use crate::rows::{Row, Rows, Shows, write_margin};
use crate::sentences::Sentences;
use crate::standstill::{Standstill, write_standstill};
use ada_events::journal::event_in;
use ada_replay::{Account, Answer, RunFault, account_before};
use ada_script::Script;
use std::alloc::{AllocError, Global};

/// An explanation, and what it found.
#[derive(Drop)]
pub struct Explanation {
    pub text: String,
    /// How many lines were refused.
    pub refused: u32,
    pub standstill: Standstill,
}

/// Plays a script, of which this is the source, and explains the play; also why each event came, where that is asked
/// for. An `Err` is `Memory`.
pub fn explain(
    alloc: Global,
    source: &[u8],
    script: Script,
    is_each: bool,
) -> Result<Explanation, RunFault> {
    let mut sentences = Sentences::new(alloc);
    let account = account_before(alloc, script, &mut sentences)?;
    explanation_of(alloc, source, &account, &sentences, is_each).map_err(|_| RunFault::Memory)
}

/// Explains a play of a script, of which this is the source, with the sentences of its refused lines; also why each
/// event came, where that is asked for.
pub fn explanation_of(
    alloc: Global,
    source: &[u8],
    account: &Account,
    sentences: &Sentences,
    is_each: bool,
) -> Result<Explanation, AllocError> {
    let rows = Rows::of(alloc, source, account)?;
    let width = rows.width();
    let mut text = String::new(alloc);
    let mut past = if is_each {
        Some(Past::new(alloc)?)
    } else {
        None
    };
    let mut answers = account.answers.iter();
    let mut sentences = sentences.sentences.iter();
    let mut refused = 0u32;
    for row in &rows.rows {
        row.write(&mut text, "", width)?;
        text.push('\n')?;
        if row.is_first()
            && let Some(Answer::Refused(_)) = answers.next()
            && let Some(sentence) = sentences.next()
        {
            write_margin(&mut text, width)?;
            write!(text, "  {sentence}\n")?;
            refused = refused.saturating_add(1);
        }
        if let Some(past) = &mut past {
            write_origin(&mut text, Scene::at_end(account), past, row, width)?;
        }
    }
    let standstill = write_standstill(&mut text, Scene::at_end(account))?;
    Ok(Explanation {
        text,
        refused,
        standstill,
    })
}

// Appends why the event of a row came, if it shows one, after the rows before it.
fn write_origin(
    text: &mut String,
    scene: Scene<'_>,
    past: &mut Past,
    row: &Row<'_>,
    width: usize,
) -> Result<(), AllocError> {
    let (Shows::Asked(position) | Shows::Forced(position)) = row.shows else {
        return Ok(());
    };
    let Some(event) = event_in(scene.events, position) else {
        return Ok(());
    };
    past.take(scene, position, event)?;
    let arrival = Arrival {
        scene,
        past,
        position,
    };
    write_margin(text, width)?;
    match arrival.row() {
        Some(number) => write!(text, "  row {number}: ")?,
        None => text.push_str("  ")?,
    }
    arrival.write(text)?;
    text.push('\n')
}
