//! The schedules of a behaviour, one move after another: what its objects ask of a kernel, what they are told of their
//! tasks, and what is left to do. So all of them can be searched.
//!
//! Section numbers are those of the Ada 83 manual, ANSI/MIL-STD-1815A.
#![tactic(auto)]

mod alike;
mod asking;
mod choosing;
mod moving;
pub mod rest;
pub mod space;
mod telling;

pub use rest::Rest;
pub use space::Space;
