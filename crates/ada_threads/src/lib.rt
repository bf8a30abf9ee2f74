//! The threads of tasks beneath a run time: which may go on, whom each serves, and which masters it is within.
//!
//! Section numbers are those of the Ada 83 manual, ANSI/MIL-STD-1815A.
#![tactic(auto)]

pub mod entered;
pub mod going;
pub mod serving;
pub mod settling;
pub mod thread;
pub mod threads;

pub use entered::Entered;
pub use going::Stay;
pub use serving::Serving;
pub use thread::Thread;
pub use threads::Threads;
