//! What was found of some scripts: a line for each, or a report for programs.

use crate::ending::write_end;
use crate::{Expected, Failing, Judgement};
use ada_replay::RunFault;
use serde_json::{Value, json};
use std::alloc::{AllocError, Global};

/// How it is told.
#[derive(Clone, Copy, Debug, PartialEq, Eq)]
pub enum Form {
    /// A line for each script.
    Text,
    /// A JSON object on a line for each script.
    Json,
    /// One XML document in the form of JUnit.
    Junit,
}

/// What was found of a script.
#[derive(Clone, Copy)]
pub enum Outcome<'a, 't> {
    /// It was played.
    Played(&'a Judgement<'t>),
    /// It is no script.
    NoScript(&'a RunFault),
    /// It can't be opened or read.
    Unread,
}

/// What was found of some scripts so far.
#[derive(Drop)]
pub struct Suite {
    alloc: Global,
    form: Form,
    /// The report so far, if it comes as a whole.
    cases: String,
    tests: u32,
    failures: u32,
    errors: u32,
}

// Appends why a play isn't as is expected.
fn write_failing(
    text: &mut String,
    failing: &Failing<'_>,
    judgement: &Judgement<'_>,
) -> Result<(), AllocError> {
    match failing {
        Failing::Unmet(expectation) => {
            write!(text, "line {}: expected '", expectation.line)?;
            expectation.expected.write(text)?;
            if let Expected::Refused { .. } = expectation.expected {
                return text.push_str("', and it isn't");
            }
            text.push_str("', and it ends '")?;
            write_end(text, judgement.end)?;
            text.push_str("'")
        }
        Failing::Refused { line, cause } => {
            write!(
                text,
                "line {line} is refused, which isn't expected [{cause}]"
            )
        }
        Failing::Misread { line } => write!(text, "line {line}: nothing that can be expected"),
        Failing::Unfinished => {
            text.push_str("the main program isn't terminated; it ends '")?;
            write_end(text, judgement.end)?;
            text.push_str("'")
        }
        Failing::NothingExpected => text.push_str("no comment says what is expected"),
    }
}

// Why a script isn't as is expected; no text if it is.
fn reasons(alloc: Global, outcome: Outcome<'_, '_>) -> Result<String, AllocError> {
    let mut text = String::new(alloc);
    match outcome {
        Outcome::Played(judgement) => {
            for failing in &judgement.failing {
                if !text.is_empty() {
                    text.push_str("; ")?;
                }
                write_failing(&mut text, failing, judgement)?;
            }
        }
        Outcome::NoScript(fault) => write!(text, "{fault}")?,
        Outcome::Unread => text.push_str("cannot read the file")?,
    }
    Ok(text)
}

// Appends a text as XML has it; characters that XML hasn't are question marks.
fn write_escaped(text: &mut String, plain: &str) -> Result<(), AllocError> {
    for character in plain.chars() {
        match character {
            '&' => text.push_str("&amp;")?,
            '<' => text.push_str("&lt;")?,
            '>' => text.push_str("&gt;")?,
            '"' => text.push_str("&quot;")?,
            '\u{0}'..='\u{1f}' | '\u{fffe}' | '\u{ffff}' => text.push('?')?,
            _ => text.push(character)?,
        }
    }
    Ok(())
}

// What is expected and how the play ended, as JSON.
fn members(alloc: Global, judgement: &Judgement<'_>) -> Result<(Value, Value), AllocError> {
    let mut expected = json!(in alloc; [])?;
    for expectation in &judgement.expected {
        let mut words = String::new(alloc);
        expectation.expected.write(&mut words)?;
        let is_met = !judgement.failing.contains(&Failing::Unmet(*expectation));
        let item = json!(in alloc; {"line": expectation.line, "expected": &words, "met": is_met})?;
        if let Some(list) = expected.as_array_mut() {
            list.push(item)?;
        }
    }
    let mut end = String::new(alloc);
    write_end(&mut end, judgement.end)?;
    let end = json!(in alloc; &end)?;
    Ok((expected, end))
}

// A script as a JSON object on a line.
fn object_of(
    alloc: Global,
    file: &str,
    reasons: &str,
    outcome: Outcome<'_, '_>,
) -> Result<String, AllocError> {
    let object = match outcome {
        Outcome::Played(judgement) => {
            let (expected, end) = members(alloc, judgement)?;
            let is_met = reasons.is_empty();
            let has_circle = judgement.end.has_circle;
            json!(in alloc; {
                "file": file,
                "as_expected": is_met,
                "end": end,
                "circle": has_circle,
                "expected": expected,
                "reasons": reasons
            })?
        }
        _ => json!(in alloc; {"file": file, "as_expected": false, "reasons": reasons})?,
    };
    let mut line = object.to_string(alloc)?;
    line.push('\n')?;
    Ok(line)
}

impl Suite {
    /// Nothing yet.
    pub fn new(alloc: Global, form: Form) -> Self {
        Suite {
            alloc,
            form,
            cases: String::new(alloc),
            tests: 0,
            failures: 0,
            errors: 0,
        }
    }

    /// Adds a script, which is called so: what is to be printed of it by now.
    pub fn add(&mut self, file: &str, outcome: Outcome<'_, '_>) -> Result<String, AllocError> {
        let reasons = reasons(self.alloc, outcome)?;
        self.count(outcome, !reasons.is_empty());
        match self.form {
            Form::Text if reasons.is_empty() => format!(in self.alloc; "{file}: as expected\n"),
            Form::Text => format!(in self.alloc; "{file}: {reasons}\n"),
            Form::Json => object_of(self.alloc, file, &reasons, outcome),
            Form::Junit => {
                self.add_case(file, &reasons, outcome)?;
                Ok(String::new(self.alloc))
            }
        }
    }

    fn count(&mut self, outcome: Outcome<'_, '_>, fails: bool) {
        self.tests = self.tests.saturating_add(1);
        let is_played = matches!(outcome, Outcome::Played(_));
        if fails && is_played {
            self.failures = self.failures.saturating_add(1);
        } else if fails {
            self.errors = self.errors.saturating_add(1);
        }
    }

    fn add_case(
        &mut self,
        file: &str,
        reasons: &str,
        outcome: Outcome<'_, '_>,
    ) -> Result<(), AllocError> {
        self.cases
            .push_str("  <testcase classname=\"adascope\" name=\"")?;
        write_escaped(&mut self.cases, file)?;
        if reasons.is_empty() {
            return self.cases.push_str("\"/>\n");
        }
        let element = match outcome {
            Outcome::Played(_) => "failure",
            _ => "error",
        };
        write!(self.cases, "\"><{element} message=\"")?;
        write_escaped(&mut self.cases, reasons)?;
        self.cases.push_str("\"/></testcase>\n")
    }

    /// What is left to be printed at the end.
    pub fn end(&self) -> Result<String, AllocError> {
        let mut text = String::new(self.alloc);
        if self.form == Form::Junit {
            text.push_str("<?xml version=\"1.0\" encoding=\"UTF-8\"?>\n")?;
            write!(
                text,
                "<testsuite name=\"adascope check\" tests=\"{}\"",
                self.tests
            )?;
            write!(
                text,
                " failures=\"{}\" errors=\"{}\">\n",
                self.failures, self.errors
            )?;
            text.push_str(&self.cases)?;
            text.push_str("</testsuite>\n")?;
        }
        Ok(text)
    }
}
