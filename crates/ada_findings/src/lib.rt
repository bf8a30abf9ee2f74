//! What a command of the second program found, and how it ends then.
#![tactic(auto)]

pub mod checking;
pub mod fault;

pub use checking::{Form, Repaired, check, repair};
pub use fault::{Failure, Finding, ScopeFault, status_of};
