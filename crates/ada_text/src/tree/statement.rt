//! Statements (chapter 5), and what has statements between its `begin` and its `end`.

use super::declaration::DeclarationId;
use super::expression::{ExpressionId, Identifier};
use super::task::{Accept, Select};

/// The index of a statement in its tree.
#[derive(Clone, Copy, Debug, PartialEq, Eq, Hash)]
pub struct StatementId(pub u32);

/// The index of a body in its tree.
#[derive(Clone, Copy, Debug, PartialEq, Eq)]
pub struct BodyId(pub u32);

/// A statement, and the index of the byte where it begins.
#[derive(Drop)]
pub struct Statement {
    pub at: u32,
    pub form: StatementForm,
}

/// What a statement is.
#[derive(Drop)]
pub enum StatementForm {
    /// 5.1.
    Null,
    /// 5.2.
    Assignment {
        target: ExpressionId,
        value: ExpressionId,
    },
    /// A call of a procedure (6.4) or of an entry (9.5), with its arguments.
    Call(ExpressionId),
    /// 5.3: the conditions in their order, then what stands after `else`.
    If {
        arms: Vec<Arm>,
        otherwise: Vec<StatementId>,
    },
    /// 5.4.
    Case {
        selector: ExpressionId,
        alternatives: Vec<Alternative>,
    },
    /// 5.5.
    Loop {
        name: Option<Identifier>,
        iteration: Iteration,
        statements: Vec<StatementId>,
    },
    /// 5.6.
    Block {
        name: Option<Identifier>,
        body: BodyId,
    },
    /// 5.7.
    Exit {
        name: Option<Identifier>,
        condition: Option<ExpressionId>,
    },
    /// 5.8.
    Return(Option<ExpressionId>),
    /// 9.5.
    Accept(Accept),
    /// 9.6.
    Delay(ExpressionId),
    /// 9.7.
    Select(Select),
    /// The alternative that a selective wait may end its task by (9.7.1).
    Terminate,
    /// 9.10.
    Abort(Vec<ExpressionId>),
    /// 11.3.
    Raise(Option<ExpressionId>),
}

/// A condition of an if statement, and the statements after it (5.3).
#[derive(Drop)]
pub struct Arm {
    pub condition: ExpressionId,
    pub statements: Vec<StatementId>,
}

/// Statements after `when`: an alternative of a case statement (5.4), or an exception handler (11.2).
#[derive(Drop)]
pub struct Alternative {
    pub choices: Vec<ExpressionId>,
    pub statements: Vec<StatementId>,
}

/// How often a loop repeats (5.5).
#[derive(Drop)]
pub enum Iteration {
    /// For ever.
    Endless,
    /// While a condition holds.
    While(ExpressionId),
    /// For each value of a range, from its end if `reverse` stands there.
    For {
        parameter: Identifier,
        range: ExpressionId,
        is_reverse: bool,
    },
}

/// Declarations, statements and handlers: of a block (5.6), a subprogram (6.3) or a task (9.1).
#[derive(Drop)]
pub struct Body {
    pub declarations: Vec<DeclarationId>,
    pub statements: Vec<StatementId>,
    pub handlers: Vec<Alternative>,
}
