//! Requests, answers and events in plain numbers, as they go to and come from programs in C and Ada.
#![tactic(auto)]

pub mod bad;
pub mod boards;
pub mod codes;
pub mod events;
pub mod laws;
pub mod lists;
pub mod outcomes;
pub mod parts;
pub mod requests;

pub use bad::Bad;
