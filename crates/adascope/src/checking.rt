//! How plays are held against what comments of their scripts say.

use crate::obeying::{STANDARD_INPUT, text_of};
use crate::order::Checking;
use crate::output::write_text;
use ada_expectations::{Outcome, Suite, judge};
use ada_findings::{Failure, Finding, ScopeFault};
use ada_replay::RunFault;
use std::io::{Input, Print};
use std::rt::Files;

/// What was found of a file.
enum Found {
    Finding(Finding),
    /// It can't be read.
    Unread(ScopeFault),
}

/// Checks the plays of some scripts, and tells of each what isn't as is expected. The finding is the worst one: a file
/// that is no script, and then a play that isn't as is expected. An `Err` names the first file that can't be read, when
/// the others were checked.
pub fn tell_checks<'a, R: Files + Input + Print + AllocGlobal>(
    rt: &R,
    order: &Checking<'a>,
) -> Result<Finding, Failure<'a>> {
    let mut suite = Suite::new(rt.alloc(), order.form);
    let mut worst = Finding::Nothing;
    let mut unread = None;
    for file in &order.files {
        match tell_check(rt, &mut suite, order, file) {
            Ok(Found::Finding(found)) => worst = worse(worst, found),
            Ok(Found::Unread(fault)) if unread.is_none() => unread = Some((*file, fault)),
            Ok(Found::Unread(_)) => {}
            Err(fault) => return Err(Failure { file: None, fault }),
        }
    }
    if let Err(fault) = tell_end(rt, &suite) {
        return Err(Failure { file: None, fault });
    }
    match unread {
        Some((file, fault)) => Err(Failure {
            file: Some(file),
            fault,
        }),
        None => Ok(worst),
    }
}

fn worse(worst: Finding, found: Finding) -> Finding {
    match (worst, found) {
        (Finding::Faulty, _) | (_, Finding::Faulty) => Finding::Faulty,
        (Finding::Nothing, _) => found,
        _ => worst,
    }
}

fn tell_end<R: Print + AllocGlobal>(rt: &R, suite: &Suite) -> Result<(), ScopeFault> {
    let rest = suite.end().map_err(|_| RunFault::Memory)?;
    write_text(rt, &rest)
}

fn tell_check<R: Files + Input + Print + AllocGlobal>(
    rt: &R,
    suite: &mut Suite,
    order: &Checking<'_>,
    file: &str,
) -> Result<Found, ScopeFault> {
    let (path, name) = if file == "-" {
        (None, STANDARD_INPUT)
    } else {
        (Some(file), file)
    };
    match text_of(rt, path) {
        Ok(text) => Ok(Found::Finding(tell_play(rt, suite, order, name, &text)?)),
        Err(ScopeFault::Run(RunFault::Memory)) => Err(ScopeFault::Run(RunFault::Memory)),
        Err(fault) => {
            tell(rt, suite, name, Outcome::Unread)?;
            Ok(Found::Unread(fault))
        }
    }
}

fn tell_play<R: Print + AllocGlobal>(
    rt: &R,
    suite: &mut Suite,
    order: &Checking<'_>,
    name: &str,
    text: &[u8],
) -> Result<Finding, ScopeFault> {
    match judge(rt.alloc(), text, order.is_to_end) {
        Ok(judgement) => {
            tell(rt, suite, name, Outcome::Played(&judgement))?;
            Ok(finding(judgement.failing.is_empty()))
        }
        Err(RunFault::Memory) => Err(ScopeFault::Run(RunFault::Memory)),
        Err(fault) => {
            tell(rt, suite, name, Outcome::NoScript(&fault))?;
            Ok(Finding::Faulty)
        }
    }
}

fn finding(is_met: bool) -> Finding {
    if is_met {
        Finding::Nothing
    } else {
        Finding::Standstill
    }
}

// Tells of a script what is to be told by now.
fn tell<R: Print + AllocGlobal>(
    rt: &R,
    suite: &mut Suite,
    name: &str,
    outcome: Outcome<'_, '_>,
) -> Result<(), ScopeFault> {
    let text = suite.add(name, outcome).map_err(|_| RunFault::Memory)?;
    write_text(rt, &text)
}
