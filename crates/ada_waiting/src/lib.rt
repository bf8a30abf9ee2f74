//! Why a task doesn't go on by itself, and when nothing can let a journal go on, by what a kernel keeps: nothing is
//! searched. Each law is the contract of a function that does nothing.
#![tactic(auto)]

pub mod awaited;
pub mod laws;
pub mod reasons;
pub mod runnable;
mod says;
pub mod standstill;

pub use awaited::{awaits, first_awaited};
pub use reasons::{Reason, reason_in};
pub use runnable::first_runnable;
pub use standstill::{Verdict, due_in, next_due, verdict_in};
