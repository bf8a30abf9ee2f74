//! The answers to the lines of a script, as a hall keeps them.

use ada_replay::Answer;

/// An answer that is kept: the place of its line among those of the script, from 0, and how many events and
/// tasks the journal had before it, the main program counted.
#[derive(Clone, Copy, Debug, PartialEq, Eq)]
pub struct KeptAnswer {
    pub place: u32,
    pub events: u32,
    pub tasks: u16,
    pub answer: Answer,
}
