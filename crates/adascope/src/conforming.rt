//! How a log is checked.

use crate::announced::announced_of;
use crate::input::{Log, read_log};
use crate::obeying::STANDARD_INPUT;
use crate::output::write_text;
use crate::report::{Report, report_of, write_before};
use ada_findings::{Finding, Form, ScopeFault, check};
use ada_replay::{Course, Judgement, RunFault, follow};
use ada_script::ScriptFault;
use std::alloc::Global;
use std::fs;
use std::io::{Input, Print};
use std::rt::Files;

/// The last line that a script has, and so the last of which `lint` can say what is wrong with it.
const LAST_LINE: u32 = 4096;

// The log that a file has, or the standard input.
fn log_of<R: Files + Input + AllocGlobal>(rt: &R, file: Option<&str>) -> Result<Log, ScopeFault> {
    Log::of(bytes_of(rt, file)?).ok_or(ScopeFault::TooLong)
}

/// The bytes of a file, or of the standard input: as many as a log has, and one more if there are more.
pub(crate) fn bytes_of<R: Files + Input + AllocGlobal>(
    rt: &R,
    file: Option<&str>,
) -> Result<Vec<u8>, ScopeFault> {
    let bytes = match file {
        Some(file) => {
            let reader = fs::open(rt, file).map_err(|_| ScopeFault::Open)?;
            read_log(rt.alloc(), reader)?
        }
        None => read_log(rt.alloc(), rt.reader())?,
    };
    Ok(bytes)
}

// What `lint` says of a log's first faulty line, where a script may have that many lines, and how far the log conforms.
fn faulty_report(
    alloc: Global,
    file: &str,
    log: &Log,
    course: &Course,
    fault: ScriptFault,
) -> Result<Report, RunFault> {
    if fault.line > LAST_LINE {
        return report_of(alloc, file, log, course, None).map_err(|_| RunFault::Memory);
    }
    let (mut text, _) = check(
        alloc,
        Form::Text(file),
        log.first_lines(fault.line),
        usize::MAX,
    )?;
    write_before(&mut text, course).map_err(|_| RunFault::Memory)?;
    Ok(Report {
        text,
        stands_still: false,
    })
}

fn conforming_report(
    alloc: Global,
    file: &str,
    log: &Log,
    course: &Course,
) -> Result<Report, RunFault> {
    let announced = announced_of(alloc, log, course)?;
    report_of(alloc, file, log, course, announced.as_ref()).map_err(|_| RunFault::Memory)
}

fn report(alloc: Global, file: &str, log: &Log, course: &Course) -> Result<Report, RunFault> {
    match &course.judgement {
        Judgement::Conforms => conforming_report(alloc, file, log, course),
        Judgement::Faulty(fault) => faulty_report(alloc, file, log, course, *fault),
        Judgement::Refused { .. } => {
            report_of(alloc, file, log, course, None).map_err(|_| RunFault::Memory)
        }
    }
}

// What is found in a log that is judged so; that it ends in a standstill, if this was looked for.
fn finding_of(judgement: &Judgement, is_standstill: bool) -> Finding {
    match judgement {
        Judgement::Conforms if is_standstill => Finding::Standstill,
        Judgement::Conforms => Finding::Nothing,
        Judgement::Refused { .. } => Finding::Refused,
        Judgement::Faulty(_) => Finding::NoLog,
    }
}

/// Checks the log that a file has, or the standard input, writes what is told of it, and says what was found, a
/// standstill at its end too if this is looked for.
pub fn tell_conformance<R: Files + Input + Print + AllocGlobal>(
    rt: &R,
    file: Option<&str>,
    is_strict: bool,
) -> Result<Finding, ScopeFault> {
    let log = log_of(rt, file)?;
    let course = follow(rt.alloc(), log.lines())?;
    let report = report(rt.alloc(), file.unwrap_or(STANDARD_INPUT), &log, &course)?;
    write_text(rt, &report.text)?;
    Ok(finding_of(&course.judgement, is_strict && report.stands_still))
}
