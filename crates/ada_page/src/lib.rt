//! The page of a play: what stands after each line of a script, as a document, and a page that steps through it.
#![tactic(auto)]

pub mod calls;
pub mod changing;
pub mod circles;
pub mod document;
pub mod moments;
pub mod nests;
pub mod page;
pub mod queues;
pub mod rows;
pub mod sentence;
pub mod standing;
pub mod telling;
pub mod template;
pub mod texts;
pub mod whys;

pub use document::{Document, Play, write_plays};
pub use moments::{Moment, Shown, show};
pub use page::write_page;
pub use standing::{Doing, Standing, standing_of};
