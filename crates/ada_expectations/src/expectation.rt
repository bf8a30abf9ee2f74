//! What is expected of a play.

use crate::Ending;
use std::alloc::AllocError;

/// What a comment says.
#[derive(Clone, Copy, Debug, PartialEq, Eq)]
pub enum Expected<'a> {
    /// The play ends so.
    Ending(Ending),
    /// The line of this number, from 1, is refused for the cause of this name.
    Refused { line: u32, cause: &'a str },
}

/// A comment that says what is expected.
#[derive(Clone, Copy, Debug, PartialEq, Eq)]
pub struct Expectation<'a> {
    /// The number of its line, from 1.
    pub line: u32,
    pub expected: Expected<'a>,
}

impl Expected<'_> {
    /// Appends its words, as a comment has them.
    pub fn write(&self, text: &mut String) -> Result<(), AllocError> {
        match self {
            Expected::Ending(ending) => ending.write(text),
            Expected::Refused { line, cause } => write!(text, "refused {line} {cause}"),
        }
    }

    /// Whether it is about how the play ends.
    pub fn is_ending(&self) -> bool {
        matches!(self, Expected::Ending(_))
    }
}
