//! The names, requests and events of the tasking kernel, the journal that keeps them, and what a request says of its
//! event by itself: moments, positions, and which of its alternatives a selective wait takes.
//!
//! Section numbers are those of the Ada 83 manual, ANSI/MIL-STD-1815A. Contracts see a journal as the
//! list of its events with the newest first, and a moment as a whole number of milliseconds.
#![tactic(auto)]

pub mod asks;
pub mod board;
pub mod bounded;
pub mod event;
pub mod journal;
pub mod limits;
pub mod names;
pub mod outcome;
pub mod refusal;
pub mod request;
pub mod small_list;
pub mod stored;
pub mod waits;

pub use asks::{asked_tail, call_due, due_after, member_position};
pub use board::Board;
pub use bounded::Bounded;
pub use event::{Event, EventTail, Way};
pub use journal::Journal;
pub use names::{
    Choice, ChoiceList, Choices, DueList, Dues, Entry, Families, Family, FamilyList, Master,
    Member, Patience, Pause, Pauses, TaskList, TaskNo, Tasks,
};
pub use outcome::Outcome;
pub use refusal::Refusal;
pub use request::{Request, Tail};
pub use small_list::SmallList;
pub use stored::Stored;
pub use waits::{ChoiceNumbers, DelayNumbers, is_due, picked, push_if, way_of};
