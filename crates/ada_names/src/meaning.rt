//! What names denote.

use ada_text::tree::{DeclarationId, StatementId};

/// The index of an enumeration literal among those of a text.
#[derive(Clone, Copy, Debug, PartialEq, Eq, Hash)]
pub struct LiteralId(pub usize);

impl LiteralId {
    /// The literal FALSE of BOOLEAN (annex C).
    pub const FALSE: LiteralId = LiteralId(0);
    /// The literal TRUE of BOOLEAN (annex C).
    pub const TRUE: LiteralId = LiteralId(1);
}

/// An enumeration literal (3.5.1).
#[derive(Clone, Copy, Debug, PartialEq, Eq)]
pub struct Literal {
    /// The declaration of its type, if that isn't BOOLEAN.
    pub owner: Option<DeclarationId>,
    /// Its position in its type, from 0.
    pub position: usize,
    /// The next literal of the same name that is visible where this one is: this one overloads it (8.3).
    pub overloaded: Option<LiteralId>,
}

/// What a name denotes (8.3). Positions count from 0.
#[derive(Clone, Copy, Debug, PartialEq, Eq, Hash)]
pub enum Meaning {
    /// An object, a type, a subtype, a subprogram, a task or an exception, by its first declaration.
    Declaration(DeclarationId),
    /// An enumeration literal (3.5.1), the innermost one of those that overload one another.
    Literal(LiteralId),
    /// A parameter of a subprogram (6.1).
    Parameter {
        subprogram: DeclarationId,
        position: usize,
    },
    /// An entry of a task or of a task type (9.5).
    Entry {
        task: DeclarationId,
        position: usize,
    },
    /// A parameter of an accept statement (9.5).
    AcceptParameter {
        accept: StatementId,
        position: usize,
    },
    /// The parameter of a loop (5.5).
    LoopParameter(StatementId),
    /// A loop (5.5) or a block (5.6) by its name.
    Statement(StatementId),
    /// The main program (10.1).
    Main,
    /// What the language or TEXT_IO declares.
    Predefined(Predefined),
}

/// What the package STANDARD (annex C) and the package TEXT_IO (14.3) declare, but for literals.
#[derive(Clone, Copy, Debug, PartialEq, Eq, Hash)]
pub enum Predefined {
    Standard,
    Boolean,
    Integer,
    Natural,
    Positive,
    Character,
    Text,
    Duration,
    ConstraintError,
    NumericError,
    ProgramError,
    StorageError,
    TaskingError,
    TextIo,
    Put,
    PutLine,
    NewLine,
}
