//! Reads a text of an Ada 83 subset to a syntax tree. What lies outside of the subset is refused by name, line and
//! column. The reader isn't proved against a grammar: tests show what it reads and what it refuses.
//!
//! Section numbers are those of the Ada 83 manual, ANSI/MIL-STD-1815A.
#![tactic(auto)]

mod attributes;
pub mod fault;
mod kind;
mod lexer;
mod lexical;
mod number;
mod parser;
pub mod place;
mod reading;
pub mod tree;
mod word;

pub use fault::{Cause, Fault, Trouble, Wanted};
pub use kind::Kind;
pub use place::Place;
pub use reading::{fault_at, read};
pub use tree::Tree;
pub use word::Word;
