//! Renderings of a play: pictures, JSON, and where it parts from another.
#![tactic(auto)]

pub mod compare;
pub mod draw;
pub mod json;
