//! Expressions and names (chapter 4).

/// The index of an expression in its tree.
#[derive(Clone, Copy, PartialEq, Eq)]
pub struct ExpressionId(pub u32);

/// An identifier as the text has it (2.3): the index of its first byte, and the one after its last.
#[derive(Clone, Copy, PartialEq, Eq)]
pub struct Identifier {
    pub at: u32,
    pub end: u32,
}

/// An expression, or a range or a choice, which stand among expressions; and the index of the byte where it begins, or
/// of its operator, or of what follows its prefix.
#[derive(Drop)]
pub struct Expression {
    pub at: u32,
    pub form: ExpressionForm,
}

/// What an expression is.
#[derive(Drop)]
pub enum ExpressionForm {
    /// An integer literal (2.4), from 0 on.
    Integer(i64),
    /// A real literal (2.4) in thousandths, for durations alone.
    Real(i64),
    /// A character literal (2.5), 32 to 126.
    Character(u8),
    /// A string literal (2.6), with its quotation marks.
    Text(Identifier),
    /// A simple name (4.1).
    Name(Identifier),
    /// A selected component (4.1.3): an entry of a task.
    Selected {
        prefix: ExpressionId,
        selector: Identifier,
    },
    /// A name with something in parentheses: an indexed component (4.1.1), a call (6.4, 9.5) or a conversion (4.6).
    Applied {
        prefix: ExpressionId,
        arguments: Vec<Association>,
    },
    /// An attribute (4.1.4) without its argument.
    Attribute {
        prefix: ExpressionId,
        attribute: Attribute,
    },
    /// A qualified expression (4.7), whose operand may be an aggregate.
    Qualified {
        mark: ExpressionId,
        operand: ExpressionId,
    },
    /// An aggregate (4.3).
    Aggregate(Vec<Association>),
    /// A range (3.5) between two bounds.
    Range {
        low: ExpressionId,
        high: ExpressionId,
    },
    /// A subtype with a range constraint (3.3.2).
    Constrained {
        mark: ExpressionId,
        range: ExpressionId,
    },
    /// The choice `others` (3.7.3).
    Others,
    /// An operator with one operand (4.5.4, 4.5.6).
    Unary {
        operator: UnaryOperator,
        operand: ExpressionId,
    },
    /// An operator or a short-circuit form between two operands (4.5.1 to 4.5.6), or a membership test (4.5.2).
    Binary {
        operator: BinaryOperator,
        left: ExpressionId,
        right: ExpressionId,
    },
}

/// A component of an aggregate (4.3) or an argument of a call (6.4): its value, and the choices or the name before the
/// arrow, of which there are none if it goes by its position.
#[derive(Drop)]
pub struct Association {
    pub choices: Vec<ExpressionId>,
    pub value: ExpressionId,
}

/// The attributes of the subset (annex A).
#[derive(Clone, Copy, PartialEq, Eq)]
pub enum Attribute {
    First,
    Last,
    Length,
    Range,
    Image,
    Succ,
    Pred,
    Pos,
    Val,
    Count,
    Callable,
    Terminated,
}

/// The operators with one operand (4.5.4, 4.5.6).
#[derive(Clone, Copy, PartialEq, Eq)]
pub enum UnaryOperator {
    Plus,
    Minus,
    Not,
    Abs,
}

/// The operators with two operands (4.5), short-circuit forms (4.5.1) and membership tests (4.5.2).
#[derive(Clone, Copy, PartialEq, Eq)]
pub enum BinaryOperator {
    And,
    Or,
    Xor,
    AndThen,
    OrElse,
    Equal,
    NotEqual,
    Less,
    LessEqual,
    Greater,
    GreaterEqual,
    In,
    NotIn,
    Add,
    Subtract,
    Concatenate,
    Multiply,
    Divide,
    Mod,
    Rem,
    Power,
}
