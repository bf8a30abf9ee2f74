//! How a kernel answers a request: it refuses it, or appends its event and the steps that the journal then
//! forces. What answers for the journal, by a search or by an index of it, is a type parameter.
#![tactic(auto)]

mod answering;
pub mod engine;

pub use answering::{make_room, step};
pub use engine::Engine;
