//! The hall: what threads share under one lock. It holds a kernel, the writer of its board, and the answers
//! to the lines of a script.
#![tactic(auto)]

pub mod answer;
pub mod answers;
pub mod asking;
pub mod hall;
pub mod printing;
pub mod published;
mod saying;
pub mod session;
pub mod speakers;
pub mod tally;
pub mod turns;

pub use ada_replay::Answer;
pub use answer::KeptAnswer;
pub use asking::{Asked, Asking};
pub use hall::Hall;
pub use published::Told;
pub use session::Session;
pub use turns::Turns;
