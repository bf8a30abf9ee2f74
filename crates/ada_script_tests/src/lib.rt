//! Tests of what is read and printed by calls alone: the limits of a text, each statement's words, requests,
//! and names that a replay never binds so; and of replays: readers that come in pieces or fail, writers that fail,
//! long outputs, and a script cut after each of its bytes.
#![tactic(auto)]

#[cfg(test)]
mod common;
#[cfg(test)]
mod cuts;
#[cfg(test)]
mod limits;
#[cfg(test)]
mod names;
#[cfg(test)]
mod outputs;
#[cfg(test)]
mod pieces;
pub mod rendezvous;
pub mod streams;
#[cfg(test)]
mod words;
