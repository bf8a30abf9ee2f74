//! Printing what the kernel answers, with the names of a script.
#![tactic(auto)]

mod events;
mod lines;
mod parts;
pub mod value;

pub use lines::{write_event, write_refusal, write_shown};
pub use value::Value;
