//! Plays as one document.

use crate::moments::{Shown, show};
use crate::texts::put_quoted;
use ada_lint::finding::{Finding, Kind};
use ada_lint::review::{Review, review_of};
use ada_replay::RunFault;
use ada_replay::replaying::read_script;
use ada_script::cursor::Lines;
use std::alloc::{AllocError, Global};

/// A script, and how its file is called.
#[derive(Clone, Copy)]
pub struct Play<'a> {
    pub file: &'a str,
    pub text: &'a [u8],
}

/// Plays as a document, and whether one of the scripts has a faulty line.
#[derive(Drop)]
pub struct Document {
    pub text: String,
    pub is_faulty: bool,
}

/// A play, and what was found in its script. Of a script with a faulty line those before the first one were played.
#[derive(Drop)]
pub struct Played {
    pub review: Review,
    pub shown: Shown,
}

impl Played {
    /// Plays a script. An `Err` is `Memory`.
    pub fn of(alloc: Global, play: &Play<'_>) -> Result<Self, RunFault> {
        let review = review_of(alloc, play.text).map_err(|_| RunFault::Memory)?;
        let text = match review.fault {
            Some(fault) => lines_before(play.text, fault.line),
            None => play.text,
        };
        let script = read_script(alloc, text)?;
        let shown = show(alloc, script)?;
        Ok(Played { review, shown })
    }
}

impl Document {
    /// No play.
    pub fn new(alloc: Global) -> Self {
        Document {
            text: String::new(alloc),
            is_faulty: false,
        }
    }

    /// Puts a play last.
    pub fn push(&mut self, play: &Play<'_>, played: &Played) -> Result<(), AllocError> {
        self.text.push_str(if self.text.is_empty() {
            "{\"format\":\"adatask play\",\"version\":1,\"plays\":[\n"
        } else {
            ",\n"
        })?;
        self.is_faulty = self.is_faulty || played.review.fault.is_some();
        write_object(&mut self.text, play, played)
    }

    /// Ends the document, after its last play.
    pub fn end(&mut self) -> Result<(), AllocError> {
        self.text.push_str("\n]}\n")
    }
}

/// Plays some scripts, and writes the plays as one JSON object. Of a script with a faulty line those before the first
/// one are played. An `Err` is `Memory`.
pub fn write_plays(alloc: Global, plays: &[Play<'_>]) -> Result<Document, RunFault> {
    let mut document = Document::new(alloc);
    for play in plays {
        let played = Played::of(alloc, play)?;
        document.push(play, &played).map_err(|_| RunFault::Memory)?;
    }
    document.end().map_err(|_| RunFault::Memory)?;
    Ok(document)
}

// The lines before that of a number, from 1.
fn lines_before(text: &[u8], number: u32) -> &[u8] {
    let mut rest = Lines::new(text);
    let mut length = 0usize;
    for _ in 1..number {
        match rest.next() {
            Some(line) => length = length.saturating_add(line.len()).saturating_add(1),
            None => return text,
        }
    }
    text.get(..length).unwrap_or(text)
}

fn write_object(out: &mut String, play: &Play<'_>, played: &Played) -> Result<(), AllocError> {
    out.push_str("{\"file\":")?;
    put_quoted(out, play.file)?;
    out.push_str(",\"script\":[")?;
    write_lines(*out.allocator(), out, play.text)?;
    out.push_str("],\n\"findings\":[")?;
    write_findings(out, &played.review.findings)?;
    out.push_str("],\n\"rows\":")?;
    out.push_str(&played.shown.told.rows)?;
    out.push_str("}]}")
}

fn write_lines(alloc: Global, out: &mut String, text: &[u8]) -> Result<(), AllocError> {
    let mut rest = Lines::new(text);
    let mut before = "\n";
    while let Some(line) = rest.next() {
        out.push_str(before)?;
        before = ",\n";
        put_quoted(out, &String::from_utf8_lossy(alloc, line)?)?;
    }
    Ok(())
}

fn write_findings(out: &mut String, findings: &[Finding]) -> Result<(), AllocError> {
    let mut before = "\n";
    for finding in findings {
        out.push_str(before)?;
        before = ",\n";
        write_finding(out, finding)?;
    }
    Ok(())
}

fn write_finding(out: &mut String, finding: &Finding) -> Result<(), AllocError> {
    let number = finding.line;
    let column = finding.place.saturating_add(1);
    let length = finding.length;
    write!(
        out,
        "{{\"line\":{number},\"column\":{column},\"length\":{length}"
    )?;
    match finding.kind {
        Kind::Fault(cause) => write!(out, ",\"kind\":\"error\",\"cause\":\"{cause}\"")?,
        Kind::Warning => out.push_str(",\"kind\":\"warning\"")?,
    }
    out.push_str(",\"message\":")?;
    put_quoted(out, &finding.message)?;
    out.push('}')
}
