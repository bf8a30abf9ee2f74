//! Printing findings in the form that editors read.

use crate::finding::{Finding, Kind};
use crate::review::Review;
use crate::shown::{width_of, write_shown};
use ada_script::cursor::Lines;
use std::alloc::{AllocError, Global};

/// The first findings of a text, so many at most, each as `FILE:LINE:COLUMN: error: ..` with its line and a caret
/// beneath, and a line that counts the others. Columns count bytes, from 1.
pub fn print_review(
    alloc: Global,
    file: &str,
    text: &[u8],
    review: &Review,
    most: usize,
) -> Result<String, AllocError> {
    let mut printed = String::new(alloc);
    let findings = &review.findings;
    print_findings(
        &mut printed,
        file,
        text,
        findings.get(..most).unwrap_or(findings),
    )?;
    let left = findings.len().saturating_sub(most);
    if left > 0 {
        write!(printed, "{file}: {left} more; --all shows all\n")?;
    }
    Ok(printed)
}

fn print_findings(
    printed: &mut String,
    file: &str,
    text: &[u8],
    findings: &[Finding],
) -> Result<(), AllocError> {
    let mut rest = Lines::new(text);
    let mut number = 0u32;
    let mut line: &[u8] = &[];
    for finding in findings {
        for _ in number..finding.line {
            line = rest.next().unwrap_or(&[]);
        }
        number = number.max(finding.line);
        print_finding(printed, file, line, finding)?;
    }
    Ok(())
}

fn print_finding(
    printed: &mut String,
    file: &str,
    line: &[u8],
    finding: &Finding,
) -> Result<(), AllocError> {
    let number = finding.line;
    let column = finding.place.saturating_add(1);
    let message = &finding.message;
    match finding.kind {
        Kind::Fault(cause) => write!(
            printed,
            "{file}:{number}:{column}: error: {message} [{cause}]\n"
        )?,
        Kind::Warning => write!(printed, "{file}:{number}:{column}: warning: {message}\n")?,
    }
    print_place(printed, line, finding)
}

// The line, and a caret beneath the place.
fn print_place(printed: &mut String, line: &[u8], finding: &Finding) -> Result<(), AllocError> {
    let mut shown = String::new(*printed.allocator());
    write_shown(&mut shown, line)?;
    write!(printed, "  {}\n  ", shown.trim_end())?;
    let end = finding.place.saturating_add(finding.length).min(line.len());
    let before = line.get(..finding.place).unwrap_or(line);
    let place = line.get(finding.place..end).unwrap_or(&[]);
    print_many(printed, ' ', width_of(before))?;
    print_many(printed, ' ', finding.place.saturating_sub(line.len()))?;
    printed.push('^')?;
    print_many(printed, '~', width_of(place).saturating_sub(1))?;
    printed.push('\n')?;
    Ok(())
}

// A character again and again.
fn print_many(printed: &mut String, character: char, count: usize) -> Result<(), AllocError> {
    for _ in 0..count {
        printed.push(character)?;
    }
    Ok(())
}
