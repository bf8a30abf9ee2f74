//! The tables of the tasking kernel: who waits where, what depends on what, and what each task is in. The calls that
//! wait for an entry (9.5) are linked to one another, so that no queue is ever walked.
//!
//! Section numbers are those of the Ada 83 manual, ANSI/MIL-STD-1815A.
#![tactic(auto)]

mod change;
mod layers;
mod nodes;
mod phase;
mod queues;
mod slots;
mod tables;
mod task;
mod tasks;

pub use ada_events::Member;
pub use layers::{Layer, Layers};
pub use phase::Phase;
pub use queues::Queues;
pub use tables::Tables;
