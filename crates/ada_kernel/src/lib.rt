//! The kernel beneath Ada tasks: it takes requests, appends what they lead to, and refuses the rest.
//!
//! Whenever it is at rest, its journal is lawful and settled under the rules of sections 9.3 to 9.7,
//! 9.9, 9.10 and 11.5 of the Ada 83 manual, ANSI/MIL-STD-1815A. Each request and each forced step has one function, by
//! matter: what refuses it, the event that it becomes, and what that changes.
#![tactic(auto)]

mod aborts;
mod activation;
mod answering;
mod copying;
mod delays;
mod index;
pub mod kernel;
mod masters;
mod rendezvous;
mod stepping;
mod waits;

pub use ada_records::Record;
pub use kernel::Kernel;
