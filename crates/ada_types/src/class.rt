//! What expressions are (chapter 4).

use crate::bounds::Bounds;
use crate::types::{Subtype, TypeId};
use ada_names::{LiteralId, Predefined};
use ada_text::tree::DeclarationId;

/// What may be done with an object (3.2.1, 6.2).
#[derive(Clone, Copy, Debug, PartialEq, Eq)]
pub enum Access {
    /// It is read: a constant, a parameter of mode `in` or of a loop, or a task.
    Constant,
    /// It is read and assigned to.
    Variable,
    /// It is assigned to: a parameter of mode `out`.
    Out,
}

/// What an expression is, of which type, and its value if that is static (4.9): a number, the position of an
/// enumeration literal or of a character, or thousandths of a second.
#[derive(Clone, Copy, Debug, PartialEq, Eq)]
pub enum Class {
    /// A value that is none of the further ones (4.4).
    Value {
        base: TypeId,
        value: Option<i64>,
    },
    /// An enumeration literal (3.5.1), and its position.
    Literal {
        base: TypeId,
        literal: LiteralId,
        value: i64,
    },
    /// An object (3.2), a component (4.1.1) or a parameter; a task type's name in its body is that of the task (9.1).
    Object {
        subtype: Subtype,
        access: Access,
        value: Option<i64>,
    },
    /// A call of a function (6.4), by its first declaration, and the subtype of its result.
    Call {
        function: DeclarationId,
        subtype: Subtype,
    },
    /// A conversion to this subtype (4.6).
    Conversion(Subtype),
    /// A type or a subtype (3.3).
    Subtype(Subtype),
    /// A range (3.5), or a subtype with a range: its bounds, if they are static.
    Range {
        base: TypeId,
        bounds: Option<Bounds>,
    },
    /// An attribute of this subtype that is a function (3.5.5), before its argument.
    AttributeFunction(Subtype),
    /// A function that has parameters, before its arguments.
    Function(DeclarationId),
    /// A procedure: before its arguments, or called, if it has no parameters.
    Procedure(DeclarationId),
    /// A call of a procedure with arguments (6.4).
    ProcedureCall(DeclarationId),
    /// A procedure of TEXT_IO (14.3): before its argument, or called without one.
    Output(Predefined),
    /// A call of such a procedure with its argument.
    OutputCall(Predefined),
    /// An entry, or a member of a family (9.5): before its arguments, or called, if it has no parameters.
    Entry {
        task: DeclarationId,
        position: usize,
    },
    /// A family of entries, before its index (9.5).
    Family {
        task: DeclarationId,
        position: usize,
    },
    /// A call of an entry with arguments (9.5).
    EntryCall {
        task: DeclarationId,
        position: usize,
    },
    /// The name of a parameter before an arrow (6.4.1), by its position.
    Formal(usize),
    /// An exception (11.1).
    Exception,
    /// A unit, a block, a loop or a package, before a point (4.1.3).
    Region,
}

impl Class {
    /// The type of a value.
    pub fn base(self) -> Option<TypeId> {
        match self {
            Class::Value { base, .. } | Class::Literal { base, .. } => Some(base),
            Class::Object { subtype, .. } | Class::Call { subtype, .. } => Some(subtype.base),
            Class::Conversion(subtype) => Some(subtype.base),
            _ => None,
        }
    }

    /// The value, if it is static (4.9).
    pub fn static_value(self) -> Option<i64> {
        match self {
            Class::Value { value, .. } | Class::Object { value, .. } => value,
            Class::Literal { value, .. } => Some(value),
            _ => None,
        }
    }

    /// The subtype of an object, or of a conversion, whose values alone a case statement chooses from (5.4).
    pub fn subtype(self) -> Option<Subtype> {
        match self {
            Class::Object { subtype, .. } | Class::Conversion(subtype) => Some(subtype),
            _ => None,
        }
    }
}
