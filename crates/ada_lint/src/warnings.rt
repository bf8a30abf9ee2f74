//! What a script surely doesn't mean.

use crate::finding::{Finding, Kind};
use crate::uses::Uses;
use crate::words::{Word, words_of};
use ada_events::Tail;
use ada_script::cursor::Lines;
use ada_script::{Alternative, Declaration, Line, Name, Statement};
use std::alloc::{AllocError, Global};

/// Finds tasks that are never activated, entries that are never called or never accepted, a main program that is never
/// completed, and picks that can never matter, each at its word; the lines are those of the text.
pub fn warnings_of(alloc: Global, text: &[u8], lines: &[Line]) -> Result<Vec<Finding>, AllocError> {
    let uses = Uses::of(alloc, lines)?;
    let mut findings = Vec::new(alloc);
    let mut rest = Lines::new(text);
    let mut number = 0u32;
    let mut words = Vec::new(alloc);
    for line in lines {
        for _ in number..line.line {
            words = words_of(alloc, rest.next().unwrap_or(&[]))?;
        }
        number = number.max(line.line);
        warn_of_line(alloc, &uses, line, &words, &mut findings)?;
    }
    if let Some(last) = lines.last()
        && !uses.completes_main
    {
        let message = format!(in alloc; "`main` is never completed")?;
        push(&mut findings, last.line, None, message)?;
    }
    Ok(findings)
}

// The warning stands at this word, or at the beginning of the line.
fn push(
    findings: &mut Vec<Finding>,
    line: u32,
    word: Option<&Word<'_>>,
    message: String,
) -> Result<(), AllocError> {
    let (place, length) = match word {
        Some(word) => (word.place, word.text.len()),
        None => (0, 1),
    };
    findings.push(Finding {
        kind: Kind::Warning,
        line,
        place,
        length,
        message,
        repair: None,
    })?;
    Ok(())
}

fn warn_of_line(
    alloc: Global,
    uses: &Uses<'_>,
    line: &Line,
    words: &[Word<'_>],
    findings: &mut Vec<Finding>,
) -> Result<(), AllocError> {
    match &line.statement {
        Statement::Create { task, families, .. } => {
            if !uses.activated.contains(&task.as_str()) {
                let message = format!(in alloc; "`{}` is never activated", task.as_str())?;
                push(findings, line.line, words.get(2), message)?;
            }
            let of_entries = words.get(5..).unwrap_or(&[]);
            warn_of_entries(
                alloc,
                uses,
                line.line,
                task,
                families.as_slice(),
                of_entries,
                findings,
            )
        }
        Statement::Select {
            pick,
            choices,
            tail,
            ..
        } if *pick > 0 && !may_pick(choices.as_slice(), tail.get()) => {
            let message = format!(in alloc;
                "the pick {pick} never matters: at most one alternative is open"
            )?;
            push(findings, line.line, words.get(2), message)
        }
        _ => Ok(()),
    }
}

// Whether a pick may choose among several alternatives.
fn may_pick(choices: &[Alternative], tail: &Tail) -> bool {
    let open = choices.iter().filter(|choice| choice.guard).count();
    let delays = match tail {
        Tail::Delays(pauses) => pauses.as_slice().iter().filter(|pause| pause.guard).count(),
        _ => 0,
    };
    open > 1 || delays > 1
}

fn warn_of_entries(
    alloc: Global,
    uses: &Uses<'_>,
    number: u32,
    task: &Name,
    families: &[Declaration],
    words: &[Word<'_>],
    findings: &mut Vec<Finding>,
) -> Result<(), AllocError> {
    let task = task.as_str();
    for family in families {
        let entry = family.name.as_str();
        let is_called = uses.called.contains(&(task, entry));
        let is_accepted = uses.accepted.contains(&(task, entry));
        let how = match (is_called, is_accepted) {
            (true, true) => continue,
            (false, true) => "called",
            (true, false) => "accepted",
            (false, false) => "called or accepted",
        };
        let word = words.iter().find(|word| word.text == entry);
        let message = format!(in alloc; "the entry `{entry}` of `{task}` is never {how}")?;
        push(findings, number, word, message)?;
    }
    Ok(())
}
