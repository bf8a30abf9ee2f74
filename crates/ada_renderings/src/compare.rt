//! Where two plays part: their steps side by side, and what differs at their ends.
pub mod alignment;
pub mod comparison;
pub mod ends;
pub mod steps;

pub use comparison::{Comparison, compare};
