//! Tasks (chapter 9).

use super::declaration::Parameter;
use super::expression::{ExpressionId, Identifier};
use super::statement::StatementId;

/// An entry, or a family of entries with its range (9.5).
#[derive(Drop)]
pub struct Entry {
    pub name: Identifier,
    pub range: Option<ExpressionId>,
    pub parameters: Vec<Parameter>,
}

/// An accept statement (9.5), with the index of its entry in a family.
#[derive(Drop)]
pub struct Accept {
    pub entry: Identifier,
    pub index: Option<ExpressionId>,
    pub parameters: Vec<Parameter>,
    pub statements: Vec<StatementId>,
}

/// A select statement (9.7): a selective wait, or a conditional or timed entry call.
#[derive(Drop)]
pub struct Select {
    pub alternatives: Vec<SelectAlternative>,
    pub otherwise: Option<Vec<StatementId>>,
}

/// An alternative of a select statement: its guard, what it waits for, and the statements after that.
#[derive(Drop)]
pub struct SelectAlternative {
    pub guard: Option<ExpressionId>,
    pub event: StatementId,
    pub statements: Vec<StatementId>,
}
