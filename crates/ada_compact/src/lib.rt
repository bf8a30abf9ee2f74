//! A kernel with a shorter journal in place of another kernel: how it is made (`walk`), and the check that its journal
//! stands in for the other one's (`comparison`). The walk promises nothing: what it made is checked.
//!
//! Section numbers are those of the Ada 83 manual, ANSI/MIL-STD-1815A.
#![tactic(auto)]

pub mod compacting;
pub mod comparison;
pub mod failure;
pub mod walk;

pub use compacting::{compact, stands_in};
pub use failure::NotCompacted;
pub use walk::Compacted;
