//! What floors are made of: the same work done with nothing that decides what comes of it.

mod events;
mod text;

pub use events::push_events;
pub use text::{Tokens, read_text, write_text};
