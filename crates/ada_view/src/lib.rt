//! A journal as the kernel's records and tables show it, with no search: whether a row of the forced steps gives a step
//! at a key, whom a termination of dependents (9.4) and an abort (9.10) reach, and what a kernel is asked.
#![tactic(auto)]

pub mod boards;
pub mod calls;
pub mod counts;
pub mod endings;
pub mod holds;
pub mod nests;
pub mod queries;
pub mod rows;
pub mod slots;
mod touched;
pub mod view;
pub mod waits;

pub use touched::{dependents, flag_of, hit, named};
pub use view::View;
