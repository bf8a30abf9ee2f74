//! What was announced in a log, and isn't over.

use crate::input::Log;
use crate::report::{write_count, write_end, write_line, write_why};
use ada_replay::{Course, Judgement, RunFault, follow};
use ada_script::cursor::Lines;
use std::alloc::{AllocError, Global};

/// A log with the lines as made that were announced and aren't over, and what it comes to.
#[derive(Drop)]
pub struct Announced {
    /// How many these lines are: the last of the log, and one at least.
    count: u32,
    log: Log,
    course: Course,
}

/// What a log comes to with what was announced; none if nothing is, or if a line may follow it that was cut off.
pub fn announced_of(
    alloc: Global,
    log: &Log,
    course: &Course,
) -> Result<Option<Announced>, RunFault> {
    let count = count_marked(log.lines());
    if count == 0 || !log.rest().is_empty() {
        return Ok(None);
    }
    let first = course.lines.saturating_sub(count);
    let made = made(alloc, log, first).map_err(|_| RunFault::Memory)?;
    match Log::of(made) {
        Some(log) => {
            let course = follow(alloc, log.lines())?;
            Ok(Some(Announced { count, log, course }))
        }
        None => Ok(None),
    }
}

// How many lines stand last that have the mark of what is announced.
fn count_marked(lines: &[u8]) -> u32 {
    let mut count = 0u32;
    let mut rest = Lines::new(lines);
    while let Some(line) = rest.next() {
        count = match line {
            [b'#', b'?', ..] => count.saturating_add(1),
            _ => 0,
        };
    }
    count
}

// The lines of a log, without the marks of those that come after so many.
fn made(alloc: Global, log: &Log, first: u32) -> Result<Vec<u8>, AllocError> {
    let mut made = Vec::new(alloc);
    made.extend_from_slice(log.first_lines(first))?;
    let mut rest = Lines::new(log.lines_after(first));
    while let Some(line) = rest.next() {
        made.extend_from_slice(unmarked(line))?;
        made.push(b'\n')?;
    }
    Ok(made)
}

fn unmarked(line: &[u8]) -> &[u8] {
    match line {
        [b'#', b'?', said @ ..] => said,
        _ => line,
    }
}

/// Appends what stands still at the end, with what was announced if the rules allow it; whether it is stuck, or has a
/// circle.
pub fn write_announced(
    text: &mut String,
    announced: &Announced,
    course: &Course,
) -> Result<bool, AllocError> {
    if let Judgement::Conforms = announced.course.judgement {
        write_with(text, announced)?;
        return write_end(text, &announced.course);
    }
    write_stop(text, announced)?;
    if !course.kernel.finished() {
        text.push_str("The end is told without what was announced.\n")?;
    }
    write_end(text, course)
}

// Says that the end is told with what was announced.
fn write_with(text: &mut String, announced: &Announced) -> Result<(), AllocError> {
    let is_finished = announced.course.kernel.finished();
    text.push_str(if is_finished {
        "With what was announced and isn't over, the last "
    } else {
        "The end is told with what was announced and isn't over: the last "
    })?;
    if announced.count == 1 {
        text.push_str("line")?;
    } else {
        write_count(text, announced.count, "line")?;
    }
    text.push_str(if is_finished { ", it is.\n" } else { ".\n" })
}

// Names the line that was announced and can't be made, and says why.
fn write_stop(text: &mut String, announced: &Announced) -> Result<(), AllocError> {
    let course = &announced.course;
    match &course.judgement {
        Judgement::Conforms => Ok(()),
        Judgement::Refused {
            line,
            statement,
            cause,
        } => {
            write!(text, "Line {line} was announced, and is refused: ")?;
            write_why(text, course, statement, *cause)?;
            write_line(text, &announced.log, *line)
        }
        Judgement::Faulty(fault) => {
            let line = fault.line;
            let cause = fault.cause;
            write!(
                text,
                "Line {line} was announced, and is no line of the language [{cause}]\n"
            )?;
            write_line(text, &announced.log, line)
        }
    }
}
