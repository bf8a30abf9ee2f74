//! Says of what type each expression of an Ada text is, whose names `ada_names` resolved: which of several enumeration
//! literals is meant, what is static, and what each name with parentheses is. Refuses what breaks the rules of types.
//!
//! Bounds of types and subtypes are static, so that all ranges but those of loops and of membership tests are known
//! here. Section numbers are those of the Ada 83 manual, ANSI/MIL-STD-1815A.
#![tactic(auto)]

mod arithmetic;
pub mod bounds;
mod call_graph;
mod checker;
mod checking;
mod choices;
pub mod class;
mod spelling;
pub mod typed;
pub mod types;
mod unit;
mod whole;

pub use bounds::Bounds;
pub use checking::check;
pub use class::{Access, Class};
pub use typed::{Declared, Typed};
pub use types::{Subtype, TypeForm, TypeId};
