//! The faulty lines of a script, each with its word and what to write instead, and what a script surely doesn't mean.
#![tactic(auto)]

pub mod checking;
pub mod declared;
pub mod expected;
pub mod faults;
pub mod finding;
pub mod json;
pub mod nearest;
pub mod outside;
pub mod printing;
pub mod review;
pub mod shown;
pub mod uses;
pub mod warnings;
pub mod words;

pub use finding::{Finding, Kind};
pub use json::write_review;
pub use printing::print_review;
pub use review::{Review, review_of};
