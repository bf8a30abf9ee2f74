//! All schedules of a script, as a program whose schedules are searched: which of its lines may come next, and what is
//! left of it. The search promises nothing: what it found is followed again, and that none gets stuck is found by a
//! second search, whose merging is checked.
//!
//! Section numbers are those of the Ada 83 manual, ANSI/MIL-STD-1815A.
#![tactic(auto)]

mod ahead;
mod alike;
pub mod finding;
mod named;
mod performing;
pub mod rest;
mod search;
pub mod space;
pub mod stopping;
pub mod turns;

pub use ada_search::{Halt, Progress, Unwatched, Watch, is_stuck};
pub use finding::{Finding, Stop, explore};
pub use rest::Rest;
pub use search::{End, Refused};
pub use space::Space;
pub use stopping::never_says;
pub use turns::{Freedom, Picks, Time, Turn};

/// Where a schedule of a script has come to.
pub type Standing = ada_search::Standing<Rest>;
