//! The cause for which a request is refused, told by what is kept of a journal, with no search. Each request has a
//! function of its own, which tries what can apply to it, in the order of the causes.
#![tactic(auto)]

pub mod aborts;
pub mod activation;
pub mod delays;
mod entries;
mod limits;
pub mod masters;
mod names;
mod nests;
pub mod rendezvous;
pub mod waits;
