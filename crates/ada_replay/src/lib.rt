//! Playing scripts of requests on a kernel, the account of a play, and following a log.
#![tactic(auto)]

pub mod account;
pub mod answer;
pub mod course;
pub mod fault;
pub mod input;
pub mod judgement;
mod kernel_sink;
pub mod laws;
mod log_line;
pub mod output;
pub mod play;
pub mod replaying;
pub mod shows;
pub mod witness;

pub use account::{Account, account_before, account_of};
pub use answer::Answer;
pub use course::{Course, follow};
pub use fault::{Ending, RunFault, status_of};
pub use judgement::Judgement;
pub use replaying::replay;
pub use witness::{Refused, Witness};
