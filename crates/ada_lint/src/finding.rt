//! What is found in a line.

use ada_script::Cause;

/// How grave a finding is.
#[derive(Clone, Copy, Debug, PartialEq, Eq)]
pub enum Kind {
    /// The line isn't accepted, for this cause.
    Fault(Cause),
    /// The line is accepted, and surely not meant so.
    Warning,
}

/// A finding: its line from 1, the place in it from 0 and how many bytes it concerns, what it says, and what to write
/// in place of these bytes, if that is known.
#[derive(Debug, Drop)]
pub struct Finding {
    pub kind: Kind,
    pub line: u32,
    pub place: usize,
    pub length: usize,
    pub message: String,
    pub repair: Option<String>,
}
