//! The text of a script, line by line.

use ada_script::cursor::Lines;
use std::alloc::{AllocError, Global};
use std::str;

/// The lines of a script's text.
#[derive(Drop)]
pub struct Source<'a> {
    lines: Vec<&'a [u8]>,
}

fn lines_of(alloc: Global, text: &[u8]) -> Result<Vec<&[u8]>, AllocError> {
    let mut lines = Vec::new(alloc);
    let mut rest = Lines::new(text);
    while let Some(line) = rest.next() {
        lines.push(line)?;
    }
    Ok(lines)
}

impl<'a> Source<'a> {
    /// The lines of a text.
    pub fn of(alloc: Global, text: &'a [u8]) -> Result<Self, AllocError> {
        Ok(Source {
            lines: lines_of(alloc, text)?,
        })
    }

    /// The characters of the line of a number, from 1, without the spaces around them; none where it isn't ASCII.
    pub fn line(&self, number: u32) -> &'a str {
        match self.lines.get((number as usize).saturating_sub(1)) {
            Some(line) => str::from_utf8(line).unwrap_or("").trim(),
            None => "",
        }
    }
}
