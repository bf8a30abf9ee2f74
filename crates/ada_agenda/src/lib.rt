//! What is to be looked at next: rows of numbers, of which the first is found by a few words; and what some kinds of
//! event put into them, where a forced step may newly be due.
#![tactic(auto)]

mod agenda;
mod bits;
pub mod keeping;
mod levels;
mod numbers;

pub use agenda::Agenda;
pub use numbers::{MOST_KEYS, Numbers};
