//! The repairs of a script that are certain: what it says stays, and it is written as the language wants it.
#![tactic(auto)]

pub mod ascii;
pub mod ends;
pub mod fixing;
pub mod making;
pub mod places;
pub mod reading;
pub mod repair;
pub mod short_names;

pub use fixing::{Fixed, fix};
