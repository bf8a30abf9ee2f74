//! What the lines of a script say, and the names that they declare, with what these are bound to.
#![tactic(auto)]

pub mod fault;
pub mod meaning;
pub mod name;
pub mod names;
mod places;
mod requests;
pub mod statement;

pub use fault::{Cause, ScriptFault};
pub use meaning::{Bound, EntryNames, Made, Meaning};
pub use name::Name;
pub use names::Names;
pub use requests::{RequestSink, request, request_of, send};
pub use statement::{
    Alternative, Alternatives, Declaration, Declarations, EntryName, Statement, TaskNames,
};
