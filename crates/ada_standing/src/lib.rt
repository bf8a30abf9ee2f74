//! What still matters of a journal: when a second, shorter journal may stand in for it. Its definitions speak of two
//! journals, and of which task and which position of the second stand for those of the first.
//!
//! Section numbers are those of the Ada 83 manual, ANSI/MIL-STD-1815A.
#![tactic(auto)]

pub mod laws;
pub mod renaming;

pub use renaming::{Place, Renaming};
