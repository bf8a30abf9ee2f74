//! A kernel that lives on, and names that last.
//!
//! Section numbers are those of the Ada 83 manual, ANSI/MIL-STD-1815A.
#![tactic(auto)]

pub mod asking;
pub mod awaited;
pub mod clock;
pub mod comparing;
pub mod counting;
pub mod ended;
pub mod events;
pub mod failure;
pub mod forgetting;
pub mod kernel;
pub mod masters;
pub mod moving;
pub mod names;
pub mod outcomes;
pub mod queues;
pub mod reasons;
pub mod requests;
pub mod rows;
pub mod runnable;
pub mod standstill;
pub mod waiting;

pub use failure::NotDone;
pub use kernel::LongKernel;
pub use masters::Dependent;
pub use moving::NotMoved;
pub use outcomes::LastingOutcome;
pub use reasons::LastingReason;
pub use requests::{LastingMaster, LastingRequest, LastingTasks};
pub use rows::Row;
