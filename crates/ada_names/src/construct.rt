//! What encloses a place of a text.

use crate::meaning::Meaning;
use ada_text::tree::{BodyId, DeclarationId, StatementId};

/// What has a declarative region of its own (8.1), or a handler, which raise statements ask for (11.3).
#[derive(Clone, Copy, PartialEq, Eq)]
pub enum Construct {
    /// The main program.
    Main,
    /// A subprogram with its body, by its first declaration (6.3).
    Subprogram(DeclarationId),
    /// A task with its body, by its declaration (9.1).
    Task(DeclarationId),
    /// A block (5.6).
    Block(StatementId),
    /// A loop (5.5).
    Loop(StatementId),
    /// An accept statement (9.5), with its task and the position of its entry there.
    Accept {
        statement: StatementId,
        task: DeclarationId,
        position: usize,
    },
    /// An exception handler (11.2).
    Handler,
}

impl Construct {
    /// Whether this is the body of a program unit (chapters 6 and 9).
    pub fn is_unit(self) -> bool {
        matches!(
            self,
            Construct::Main | Construct::Subprogram(_) | Construct::Task(_)
        )
    }

    /// Whether no exit statement leaves this (5.7).
    pub fn keeps_exits(self) -> bool {
        self.is_unit() || matches!(self, Construct::Accept { .. })
    }

    /// Whether a name that denotes this is one of the construct (4.1.3).
    pub fn is_named_by(self, meaning: Meaning) -> bool {
        match self {
            Construct::Main => meaning == Meaning::Main,
            Construct::Subprogram(id) | Construct::Task(id) => meaning == Meaning::Declaration(id),
            Construct::Block(id) | Construct::Loop(id) => meaning == Meaning::Statement(id),
            Construct::Accept { task, position, .. } => {
                meaning == Meaning::Entry { task, position }
            }
            Construct::Handler => false,
        }
    }
}

/// A construct around a place.
#[derive(Clone, Copy)]
pub struct Enclosing {
    pub construct: Construct,
    /// Its body, if it has declarations.
    pub body: Option<BodyId>,
    /// The index of its first name among the visible ones.
    pub first: usize,
}
