//! The plain program: the reference implementation of the kernel's rules, which searches the journal.
//!
//! It keeps nothing but the journal. Each file has the name of a file of definitions of `ada_events`, or of
//! `ada_waiting`, and computes what stands there by a search over all events: it is written to be right and to
//! be read, not to be fast. Each function's contract says that its result is the definition's, of the events in
//! the order in which they came. From the bottom up: what each event says, and what a search finds of tasks,
//! masters, phases, calls and nests; the steps that a journal forces, one function for each row; why a request
//! is refused, and what an accepted one becomes; what becomes of a task, its attributes, its slots and the
//! board; why a task waits, for whom, and what can let a journal go on. The plain kernel, which answers requests
//! by the two in the middle, is what others are compared with. No product stands on this crate, and it calls no
//! code of the kernel's crates: of these it has definitions, lemmas, and two enums.
#![tactic(auto)]

pub mod asks;
pub mod attributes;
pub mod awaited;
pub mod boards;
pub mod calls;
pub mod forced;
pub mod kernel;
pub mod limits;
pub mod masters;
pub mod nests;
pub mod outcomes;
pub mod phases;
pub mod reasons;
pub mod refusals;
pub mod says;
pub mod slots;
pub mod standstill;
pub mod tasks;
pub mod termination;
pub mod waits;

pub use attributes::{
    is_finished, known_callable, known_outcome, known_running, known_terminated, own_count,
};
pub use awaited::waits_for;
pub use boards::{board, tasks_in};
pub use kernel::PlainKernel;
pub use nests::{frame, innermost};
pub use phases::{has_start, is_elaborated, is_running};
pub use reasons::reason_of;
pub use slots::{number_within, slot};
pub use standstill::verdict_of;
pub use tasks::{families, making_of, moment};
