//! Keeps an agenda up with its journal through the events of each kind, by what is kept of the journal: what an event
//! can newly force is put in, and at times a little more, but never too little.
#![tactic(auto)]

pub mod calls;
pub mod endings;
pub mod kinds;
mod masters;
pub mod moments;
mod next_due;
mod sweeps;
mod unstarted;

pub use next_due::NextDue;
pub use unstarted::FirstUnstarted;
