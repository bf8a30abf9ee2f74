//! How an order is obeyed.

use crate::checking::tell_checks;
use crate::conforming::{bytes_of, tell_conformance};
use crate::exploring::tell_schedules;
use crate::fixing::tell_repairs;
use crate::input::{MOST_BYTES, MOST_LOG_LINES};
use crate::order::{Job, What};
use crate::output::write_text;
use crate::paging::tell_pages;
use crate::painting::{Kind, painted};
use ada_explain::{Explanation, explain};
use ada_findings::{Failure, Finding, Form, ScopeFault, check};
use ada_renderings::compare::compare;
use ada_renderings::compare::comparison::Played;
use ada_renderings::draw::{write_graph, write_picture, write_sequence};
use ada_renderings::json::write_events;
use ada_replay::input::read_input;
use ada_replay::replaying::{read_script, read_script_within};
use ada_replay::{Account, RunFault, account_of};
use ada_waiting::Verdict;
use std::alloc::Global;
use std::fs;
use std::io::{Eprint, Input, Print};
use std::rt::Files;
use std::time::Clock;

/// How the standard input is called where a file's name would stand.
pub(crate) static STANDARD_INPUT: &str = "<stdin>";

/// What the terminals show, if there are some.
#[derive(Clone, Copy, Debug, PartialEq, Eq)]
pub struct Terminals {
    /// Whether the text has colours.
    pub is_colored: bool,
    /// Whether a line on standard error says how a search goes on.
    pub is_watched: bool,
}

/// Does what was ordered, and says what was found.
pub fn obey<'a, R: Files + Input + Print + Eprint + Clock + AllocGlobal>(
    rt: &R,
    job: Job<'a>,
    terminals: Terminals,
) -> Result<Finding, Failure<'a>> {
    let is_colored = terminals.is_colored;
    match job {
        Job::Tell {
            what,
            file,
            is_strict,
        } => {
            let told = tell(rt, what, file, is_strict, is_colored);
            told.map_err(|fault| failure(file, fault))
        }
        Job::Compare { first, second } => tell_difference(rt, first, second, is_colored),
        Job::Conform { file, is_strict } => {
            tell_conformance(rt, file, is_strict).map_err(|fault| failure(file, fault))
        }
        Job::Explore(order) => {
            let told = tell_schedules(rt, &order, terminals.is_watched);
            told.map_err(|fault| failure(order.file, fault))
        }
        Job::Check(order) => tell_checks(rt, &order),
        Job::Page(order) => tell_pages(rt, &order),
        Job::Fix(order) => tell_repairs(rt, &order, is_colored).map_err(|fault| failure(
            order.file, fault,
        )),
    }
}

// Where the output can't be written no file is at fault.
fn failure<'a>(file: Option<&'a str>, fault: ScopeFault) -> Failure<'a> {
    let file = match fault {
        ScopeFault::Run(RunFault::Write) | ScopeFault::Closed => None,
        _ => file,
    };
    Failure { file, fault }
}

// Writes a text, with colours if it has some.
fn print<R: Print + AllocGlobal>(
    rt: &R,
    text: &str,
    kind: Kind,
    is_colored: bool,
) -> Result<(), ScopeFault> {
    if !is_colored {
        return write_text(rt, text);
    }
    let text = painted(rt.alloc(), text, kind).map_err(|_| RunFault::Memory)?;
    write_text(rt, &text)
}

/// The text of a file, or of the standard input.
pub(crate) fn text_of<R: Files + Input + AllocGlobal>(
    rt: &R,
    file: Option<&str>,
) -> Result<Vec<u8>, ScopeFault> {
    match file {
        Some(file) => {
            let mut reader = fs::open(rt, file).map_err(|_| ScopeFault::Open)?;
            let text = read_input(rt.alloc(), &mut reader)?;
            Ok(text)
        }
        None => {
            let text = read_input(rt.alloc(), &mut rt.reader())?;
            Ok(text)
        }
    }
}

// The text of a script, or of a log, which may be longer.
fn long_text_of<R: Files + Input + AllocGlobal>(
    rt: &R,
    file: Option<&str>,
) -> Result<Vec<u8>, ScopeFault> {
    let text = bytes_of(rt, file)?;
    if text.len() > MOST_BYTES {
        return Err(ScopeFault::TooLong);
    }
    Ok(text)
}

fn tell<R: Files + Input + Print + AllocGlobal>(
    rt: &R,
    what: What,
    file: Option<&str>,
    is_strict: bool,
    is_colored: bool,
) -> Result<Finding, ScopeFault> {
    let text = match what {
        What::Faults(_) | What::FaultRecords(_) => text_of(rt, file)?,
        _ => long_text_of(rt, file)?,
    };
    match what {
        What::Explanation => tell_explanation(rt, &text, false, is_strict, is_colored),
        What::Reasons => tell_explanation(rt, &text, true, is_strict, is_colored),
        What::Faults(most) => {
            let form = Form::Text(file.unwrap_or(STANDARD_INPUT));
            tell_faults(rt, form, &text, most, is_colored)
        }
        What::FaultRecords(most) => tell_faults(rt, Form::Json, &text, most, false),
        What::Picture(_) | What::Sequence(_) | What::Graph | What::Events => draw(rt, &text, what),
    }
}

fn explanation_of(alloc: Global, text: &[u8], is_each: bool) -> Result<Explanation, RunFault> {
    let script = read_script_within(alloc, text, MOST_LOG_LINES)?;
    explain(alloc, text, script, is_each)
}

// Whether something was found that was looked for.
fn finding(explanation: &Explanation, is_strict: bool) -> Finding {
    let standstill = &explanation.standstill;
    let is_found = explanation.refused > 0
        || standstill.has_circle
        || standstill.verdict == Verdict::Stuck;
    if is_strict && is_found {
        Finding::Standstill
    } else {
        Finding::Nothing
    }
}

fn tell_explanation<R: Print + AllocGlobal>(
    rt: &R,
    text: &[u8],
    is_each: bool,
    is_strict: bool,
    is_colored: bool,
) -> Result<Finding, ScopeFault> {
    let explanation = explanation_of(rt.alloc(), text, is_each)?;
    print(rt, &explanation.text, Kind::Explanation, is_colored)?;
    Ok(finding(&explanation, is_strict))
}

fn drawn(alloc: Global, text: &[u8], what: What) -> Result<String, RunFault> {
    let script = read_script_within(alloc, text, MOST_LOG_LINES)?;
    let account = account_of(alloc, script)?;
    let drawn = match what {
        What::Picture(view) => write_picture(alloc, text, &account, view),
        What::Sequence(part) => write_sequence(alloc, &account, part),
        What::Graph => write_graph(alloc, &account),
        _ => write_events(alloc, text, &account),
    };
    drawn.map_err(|_| RunFault::Memory)
}

fn draw<R: Print + AllocGlobal>(rt: &R, text: &[u8], what: What) -> Result<Finding, ScopeFault> {
    let drawn = drawn(rt.alloc(), text, what)?;
    write_text(rt, &drawn)?;
    Ok(Finding::Nothing)
}

fn tell_faults<R: Print + AllocGlobal>(
    rt: &R,
    form: Form<'_>,
    text: &[u8],
    most: usize,
    is_colored: bool,
) -> Result<Finding, ScopeFault> {
    let (told, finding) = check(rt.alloc(), form, text, most)?;
    print(rt, &told, Kind::Findings, is_colored)?;
    Ok(finding)
}

// The text of a script that is to be compared, and its play.
fn play<R: Files + Input + AllocGlobal>(
    rt: &R,
    file: Option<&str>,
) -> Result<(Vec<u8>, Account), ScopeFault> {
    let text = text_of(rt, file)?;
    let script = match read_script(rt.alloc(), &text) {
        Ok(script) => script,
        Err(RunFault::Memory) => return Err(ScopeFault::Run(RunFault::Memory)),
        Err(fault) => return Err(ScopeFault::Compared(fault)),
    };
    let account = account_of(rt.alloc(), script)?;
    Ok((text, account))
}

fn tell_difference<'a, R: Files + Input + Print + AllocGlobal>(
    rt: &R,
    first: Option<&'a str>,
    second: Option<&'a str>,
    is_colored: bool,
) -> Result<Finding, Failure<'a>> {
    let (text, account) = play(rt, first).map_err(|fault| Failure { file: first, fault })?;
    let one = Played {
        name: first.unwrap_or(STANDARD_INPUT),
        source: &text,
        account: &account,
    };
    compare_with(rt, one, second, is_colored)
}

// Compares a play with that of a second script.
fn compare_with<'a, R: Files + Input + Print + AllocGlobal>(
    rt: &R,
    one: Played<'_>,
    second: Option<&'a str>,
    is_colored: bool,
) -> Result<Finding, Failure<'a>> {
    let (text, account) = play(rt, second).map_err(|fault| Failure {
        file: second,
        fault,
    })?;
    let two = Played {
        name: second.unwrap_or(STANDARD_INPUT),
        source: &text,
        account: &account,
    };
    write_difference(rt, one, two, is_colored).map_err(|fault| Failure { file: None, fault })
}

fn write_difference<R: Print + AllocGlobal>(
    rt: &R,
    first: Played<'_>,
    second: Played<'_>,
    is_colored: bool,
) -> Result<Finding, ScopeFault> {
    let comparison = compare(rt.alloc(), first, second).map_err(|_| RunFault::Memory)?;
    print(rt, &comparison.text, Kind::Difference, is_colored)?;
    Ok(if comparison.differs {
        Finding::Difference
    } else {
        Finding::Nothing
    })
}
