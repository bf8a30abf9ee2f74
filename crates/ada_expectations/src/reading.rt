//! The comments of a script that say what is expected.

use crate::{Ending, Expectation, Expected};
use ada_script::cursor::{Lines, Words};
use std::alloc::{AllocError, Global};
use std::str;

/// What the comments of a script say.
#[derive(Drop)]
pub struct Expectations<'a> {
    /// What is expected, in the order of the lines.
    pub list: Vec<Expectation<'a>>,
    /// The numbers of the lines that begin so, and that say nothing known.
    pub misread: Vec<u32>,
}

/// The number of a line that is to be found yet: the next one that is no comment.
const NEXT: u32 = 0;

/// What the comments of a text say: those whose first words are `# expect:`.
pub fn expectations_in<'a>(alloc: Global, text: &'a [u8]) -> Result<Expectations<'a>, AllocError> {
    let mut found = Expectations {
        list: Vec::new(alloc),
        misread: Vec::new(alloc),
    };
    let mut lines = Lines::new(text);
    let mut number = 0u32;
    while let Some(line) = lines.next() {
        number = number.saturating_add(1);
        found.take(number, line)?;
    }
    Ok(found)
}

impl<'a> Expectations<'a> {
    // Takes the line of a number.
    fn take(&mut self, number: u32, line: &'a [u8]) -> Result<(), AllocError> {
        let mut words = Words::new(line);
        match words.next() {
            Some(b"#expect:") => self.take_words(number, &mut words),
            Some(b"#") if words.peek() == Some(b"expect:") => {
                words.next();
                self.take_words(number, &mut words)
            }
            Some([b'#', ..]) | None => Ok(()),
            Some(_) => {
                self.settle(number);
                Ok(())
            }
        }
    }

    fn take_words(&mut self, line: u32, words: &mut Words<'a>) -> Result<(), AllocError> {
        match expected_by(words) {
            Some(expected) if words.is_over() => self.list.push(Expectation { line, expected })?,
            _ => self.misread.push(line)?,
        }
        Ok(())
    }

    // Refusals that are expected of the next line are of this one.
    fn settle(&mut self, number: u32) {
        for expectation in &mut self.list {
            if let Expected::Refused { line, .. } = &mut expectation.expected {
                if *line == NEXT {
                    *line = number;
                }
            }
        }
    }
}

fn expected_by<'a>(words: &mut Words<'a>) -> Option<Expected<'a>> {
    let ending = match words.next()? {
        b"terminated" => Ending::Terminated,
        b"stuck" => Ending::Stuck,
        b"circle" => Ending::Circle,
        b"goes" if words.next() == Some(b"on") => Ending::GoesOn,
        b"waits" if words.next() == Some(b"until") => Ending::WaitsUntil(
            word(words)?.parse::<i64>().ok()?,
        ),
        b"refused" => return refusal_by(words),
        _ => return None,
    };
    Some(Expected::Ending(ending))
}

// A cause, or a line and a cause.
fn refusal_by<'a>(words: &mut Words<'a>) -> Option<Expected<'a>> {
    let first = word(words)?;
    let (line, cause) = match first.parse::<u32>() {
        Ok(number) => (number, word(words)?),
        Err(_) => (NEXT, first),
    };
    Some(Expected::Refused { line, cause })
}

fn word<'a>(words: &mut Words<'a>) -> Option<&'a str> {
    str::from_utf8(words.next()?).ok()
}
