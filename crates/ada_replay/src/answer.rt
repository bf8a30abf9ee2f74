//! The answer to a line of a script.

use ada_events::Refusal;
use ada_script::Value;

/// What a line was answered.
#[derive(Clone, Copy, Debug, PartialEq, Eq)]
pub enum Answer {
    /// Its request was accepted, and led to the events from position `first` to position `last`.
    Group { first: u32, last: u32 },
    /// It was refused.
    Refused(Refusal),
    /// It shows an attribute, which had this value (9.9).
    Shown(Value),
}
