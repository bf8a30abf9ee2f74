//! Pictures of a play: its tasks and events in time, its calls as a sequence, and who waits for whom at its end.
pub mod graph;
mod held;
mod marks;
pub mod markup;
pub mod picture;
pub mod sequence;
mod style;
pub mod view;

pub use graph::write_graph;
pub use picture::write_picture;
pub use sequence::write_sequence;
pub use view::{Part, Scheme, View};
