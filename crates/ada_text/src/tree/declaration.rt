//! Declarations (chapter 3), of subprograms (6.1), tasks (9.1) and exceptions (11.1) too.

use super::expression::{ExpressionId, Identifier};
use super::statement::BodyId;
use super::task::Entry;

/// The index of a declaration in its tree.
#[derive(Clone, Copy, Debug, PartialEq, Eq, Hash)]
pub struct DeclarationId(pub u32);

/// A declaration, and the name that it declares.
#[derive(Drop)]
pub struct Declaration {
    pub name: Identifier,
    pub form: DeclarationForm,
}

/// What a declaration declares.
#[derive(Drop)]
pub enum DeclarationForm {
    /// A variable or a constant (3.2.1).
    Object {
        is_constant: bool,
        definition: TypeDefinition,
        value: Option<ExpressionId>,
    },
    /// A type (3.3.1).
    Type(TypeDefinition),
    /// A subtype (3.3.2).
    Subtype(ExpressionId),
    /// A procedure, or a function with the subtype of its result (6.1). It has no body if that stands further on.
    Subprogram {
        parameters: Vec<Parameter>,
        result: Option<ExpressionId>,
        body: Option<BodyId>,
    },
    /// A task, or a task type (9.1).
    Task {
        is_type: bool,
        entries: Vec<Entry>,
    },
    /// The body of a task or a task type (9.1).
    TaskBody(BodyId),
    /// An exception (11.1).
    Exception,
}

/// What a type is.
#[derive(Drop)]
pub enum TypeDefinition {
    /// A subtype of a type that has a name (3.3.2).
    Named(ExpressionId),
    /// An enumeration type (3.5.1), with its literals.
    Enumeration(Vec<Identifier>),
    /// An integer type (3.5.4), with its range.
    Integer(ExpressionId),
    /// A constrained array type of one dimension (3.6), with its index range and the subtype of its components.
    Array {
        index: ExpressionId,
        component: ExpressionId,
    },
}

/// How a parameter is passed (6.2).
#[derive(Clone, Copy, PartialEq, Eq)]
pub enum Mode {
    In,
    InOut,
    Out,
}

/// A parameter of a subprogram (6.1) or of an entry (9.5).
#[derive(Clone, Copy)]
pub struct Parameter {
    pub name: Identifier,
    pub mode: Mode,
    pub subtype: ExpressionId,
}
