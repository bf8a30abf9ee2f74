//! Resolves the names of an Ada text, which `ada_text` read to a tree: what each name denotes by the visibility rules
//! of chapter 8. Names that need types wait for them: components of arrays of tasks, names before an arrow in a call,
//! and which of several enumeration literals is meant.
//!
//! Subprograms and entries don't overload: two of one name in one declarative region are refused, and an inner one
//! hides an outer one, whatever its parameters. Section numbers are those of the Ada 83 manual, ANSI/MIL-STD-1815A.
#![tactic(auto)]

mod construct;
mod declared_names;
pub mod meaning;
mod predefined;
mod profile;
pub mod resolved;
mod resolver;
mod resolving;
mod scopes;
mod spelling;
mod symbols;
mod whole;

pub use meaning::{Literal, LiteralId, Meaning, Predefined};
pub use resolved::{Home, Resolved};
pub use resolving::resolve;
