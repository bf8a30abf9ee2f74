//! Searches all schedules of a program over a kernel, and says what holds of whatever they come to. A state is taken
//! for one that was met only if that stands in for it, so what was met at the end covers all.
//!
//! Section numbers are those of the Ada 83 manual, ANSI/MIL-STD-1815A.
#![tactic(auto)]

mod check;
mod covering;
mod following;
mod guess;
mod halt;
mod keep;
mod key;
mod schedules;
mod standing;
mod states;
mod stuck;
mod task_set;
mod watch;
mod wish;

pub use covering::{covered_by, stays_well};
pub use following::{begin, copy_of, follow};
pub use halt::Halt;
pub use keep::Kept;
pub use key::{KeyWriter, write_key};
pub use schedules::Schedules;
pub use standing::Standing;
pub use stuck::is_stuck;
pub use task_set::TaskSet;
pub use watch::{LOOK, Progress, Unwatched, Watch};
pub use wish::{NotStuck, Wish};
