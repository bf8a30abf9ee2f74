//! The units around a place.

use crate::types::Subtype;
use ada_text::tree::DeclarationId;

/// A unit with its body (chapters 6 and 9), by its first declaration.
#[derive(Clone, Copy, PartialEq, Eq)]
pub enum Unit {
    /// The main program.
    Main,
    Procedure(DeclarationId),
    /// A function, with the subtype of its result.
    Function(DeclarationId, Subtype),
    Task(DeclarationId),
}

impl Unit {
    /// The subprogram, if this is one.
    pub fn subprogram(self) -> Option<DeclarationId> {
        match self {
            Unit::Procedure(id) | Unit::Function(id, _) => Some(id),
            Unit::Main | Unit::Task(_) => None,
        }
    }
}

/// A unit around a place, and whether a return statement stands in it.
#[derive(Clone, Copy)]
pub struct Enclosing {
    pub unit: Unit,
    pub returns: bool,
}
