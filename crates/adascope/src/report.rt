//! What is told of a log.

use crate::announced::{Announced, write_announced};
use crate::input::Log;
use ada_events::Refusal;
use ada_explain::Scene;
use ada_explain::refusals::write_refused;
use ada_explain::standstill::write_standstill;
use ada_replay::{Course, Judgement, Refused};
use ada_script::cursor::Lines;
use ada_script::{ScriptFault, Statement};
use ada_waiting::Verdict;
use std::alloc::{AllocError, Global};

/// What is told of a log, and whether something is stuck at its end, or tasks wait for one another in a circle.
#[derive(Drop)]
pub struct Report {
    pub text: String,
    pub stands_still: bool,
}

/// What is told of a log, which is called so: the line that stops it, and why; how far it conforms; and, if it
/// conforms and doesn't come to its end, what stands still there, with what was announced.
pub fn report_of(
    alloc: Global,
    file: &str,
    log: &Log,
    course: &Course,
    announced: Option<&Announced>,
) -> Result<Report, AllocError> {
    let mut text = String::new(alloc);
    let mut stands_still = false;
    match &course.judgement {
        Judgement::Conforms => {
            write_conforming(&mut text, course)?;
            write_rest(&mut text, log, course)?;
            stands_still = match announced {
                Some(announced) => write_announced(&mut text, announced, course)?,
                None => write_end(&mut text, course)?,
            };
        }
        Judgement::Refused {
            line,
            statement,
            cause,
        } => {
            write!(text, "{file}:{line}: refused: ")?;
            write_why(&mut text, course, statement, *cause)?;
            write_line(&mut text, log, *line)?;
            write_limit(&mut text, *cause)?;
            write_before(&mut text, course)?;
        }
        Judgement::Faulty(fault) => {
            write_fault(&mut text, file, *fault)?;
            write_line(&mut text, log, fault.line)?;
            write_before(&mut text, course)?;
        }
    }
    Ok(Report { text, stands_still })
}

/// Appends how far a log conforms that a line stops.
pub fn write_before(text: &mut String, course: &Course) -> Result<(), AllocError> {
    text.push_str("Before it ")?;
    write_extent(text, course)?;
    text.push_str(".\n")
}

/// Appends a number of things, as `1 line` or `2 lines`.
pub fn write_count(text: &mut String, count: u32, thing: &str) -> Result<(), AllocError> {
    let ending = if count == 1 { "" } else { "s" };
    write!(text, "{count} {thing}{ending}")
}

// How many lines conform, and what they came to.
fn write_extent(text: &mut String, course: &Course) -> Result<(), AllocError> {
    write_count(text, course.lines, "line")?;
    text.push_str(if course.lines == 1 {
        " conforms: "
    } else {
        " conform: "
    })?;
    write_count(text, course.kernel.journal().len(), "event")?;
    text.push_str(", ")?;
    write_count(text, u32::from(course.kernel.tasks()), "task")
}

fn write_conforming(text: &mut String, course: &Course) -> Result<(), AllocError> {
    write_extent(text, course)?;
    text.push_str(if course.kernel.finished() {
        "; the main program is terminated.\n"
    } else {
        "; the main program isn't terminated.\n"
    })
}

// Says of a last line that it isn't judged, if it has no line feed.
fn write_rest(text: &mut String, log: &Log, course: &Course) -> Result<(), AllocError> {
    if log.rest().is_empty() {
        return Ok(());
    }
    let number = course.lines.saturating_add(1);
    write!(
        text,
        "Line {number} isn't judged: it has no line feed, so it may have been cut off.\n"
    )
}

/// Appends what stands still, if the main program isn't terminated; whether it is stuck, or has a circle.
pub fn write_end(text: &mut String, course: &Course) -> Result<bool, AllocError> {
    if course.kernel.finished() {
        return Ok(false);
    }
    let standstill = write_standstill(text, Scene::of(&course.kernel, &course.names))?;
    Ok(standstill.has_circle || standstill.verdict == Verdict::Stuck)
}

/// Appends why a line is refused, and its cause.
pub fn write_why(
    text: &mut String,
    course: &Course,
    statement: &Statement,
    cause: Refusal,
) -> Result<(), AllocError> {
    let refused = Refused {
        kernel: &course.kernel,
        names: &course.names,
        lines: &[],
        statement,
        cause,
    };
    write_refused(text, refused)?;
    write!(text, " [{cause}]\n")
}

fn write_fault(text: &mut String, file: &str, fault: ScriptFault) -> Result<(), AllocError> {
    let line = fault.line;
    let cause = fault.cause;
    write!(
        text,
        "{file}:{line}: error: this is no line of the language [{cause}]\n"
    )
}

/// Appends the line of a number, from 1.
pub fn write_line(text: &mut String, log: &Log, number: u32) -> Result<(), AllocError> {
    let mut rest = Lines::new(log.lines());
    let mut line: &[u8] = &[];
    for _ in 0..number {
        line = rest.next().unwrap_or(&[]);
    }
    let shown = String::from_utf8_lossy(*text.allocator(), line)?;
    write!(text, "  {}\n", shown.trim())
}

// Says of a limit of the kernel that it is one.
fn write_limit(text: &mut String, cause: Refusal) -> Result<(), AllocError> {
    let limit = match cause {
        Refusal::JournalFull => "The log is too long for a kernel.",
        Refusal::TooManyTasks
        | Refusal::TooManySlots
        | Refusal::TooDeep
        | Refusal::MomentTooLarge => "This is a limit of the kernel.",
        _ => return Ok(()),
    };
    text.push_str(limit)?;
    text.push_str(" No rule of Ada refuses this line: ")?;
    text.push_str("it and those after it aren't judged.\n")
}
