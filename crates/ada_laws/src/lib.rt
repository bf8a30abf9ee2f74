//! Laws of journals: what holds of every lawful journal and of all that a request leads to. Each law is
//! the contract of a function that does nothing.
//!
//! Section numbers are those of the Ada 83 manual, ANSI/MIL-STD-1815A.
#![tactic(auto)]

pub mod calls;
pub mod dependents;
pub mod groups;
pub mod lasting;
pub mod laws;
pub mod limits;
pub mod masters;
pub mod outcomes;
pub mod requests;
pub mod showing;
pub mod slots;
pub mod suspension;
pub mod unlimited;
