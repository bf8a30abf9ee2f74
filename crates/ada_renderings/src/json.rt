//! A play as JSON: an object for each event, refusal and shown attribute, and for how it ends, each on a line of its
//! own.
pub mod ending;
pub mod events;
pub mod members;
pub mod telling;

pub use events::write_events;
