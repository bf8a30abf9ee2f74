//! What may stand where among what is read as expressions: ranges (3.5), choices (3.7.3), values and targets.

ghost use Rattle.std.specs.Prelude.{◌≡◌, ◌<◌, OnOk};

use super::{DEEPEST, Parser};
use crate::fault::{Cause, Trouble, Wanted};
use crate::kind::Kind;
use crate::tree::expression::{Attribute, ExpressionForm, ExpressionId};

/// What was read where a choice may stand (3.7.3).
#[derive(Clone, Copy)]
enum Choice {
    /// A range between two bounds (3.5).
    Bounds,
    /// The attribute RANGE (3.6.2).
    RangeAttribute,
    /// A name, perhaps of a subtype (3.3.2).
    Name,
    /// A name with a selector (4.1.3), or with something in parentheses (4.1.1, 6.4).
    Component,
    /// A subtype with a range (3.3.2).
    Constrained,
    /// `others`.
    Others,
    /// Any other expression.
    Value,
}

/// What such an expression is.
fn choice_of(form: &ExpressionForm) -> Choice {
    match form {
        ExpressionForm::Range { .. } => Choice::Bounds,
        ExpressionForm::Attribute { attribute, .. } if *attribute == Attribute::Range => {
            Choice::RangeAttribute
        }
        ExpressionForm::Name(_) => Choice::Name,
        ExpressionForm::Selected { .. } | ExpressionForm::Applied { .. } => Choice::Component,
        ExpressionForm::Constrained { .. } => Choice::Constrained,
        ExpressionForm::Others => Choice::Others,
        _ => Choice::Value,
    }
}

impl<'a> Parser<'a> {
    /// What was read, and where.
    fn choice_read(&self, id: ExpressionId) -> (Choice, u32) {
        match self.nodes.expressions.get(id.0 as usize) {
            Some(expression) => (choice_of(&expression.form), expression.at),
            None => (Choice::Value, self.end),
        }
    }

    /// What was read is a range (3.5).
    pub fn check_range(&self, range: ExpressionId) -> Result<(), Trouble> {
        match self.choice_read(range) {
            (Choice::Bounds | Choice::RangeAttribute, _) => Ok(()),
            (_, at) => Err(Trouble {
                at,
                cause: Cause::NoRange,
            }),
        }
    }

    /// What was read is the name of a subtype (3.3.2).
    fn check_mark(&self, mark: ExpressionId) -> Result<(), Trouble> {
        match self.choice_read(mark) {
            (Choice::Name, _) => Ok(()),
            (_, at) => Err(Trouble {
                at,
                cause: Cause::NoDiscreteRange,
            }),
        }
    }

    /// What was read may be called (6.4, 9.5) or assigned to (5.2).
    pub fn check_target(&self, target: ExpressionId) -> Result<(), Trouble> {
        match self.choice_read(target) {
            (Choice::Name | Choice::Component, _) => Ok(()),
            (_, at) => Err(Trouble {
                at,
                cause: Cause::Unexpected {
                    wanted: Wanted::CallOrAssignment,
                    found: Kind::Tick,
                },
            }),
        }
    }

    /// What was read is a discrete range (3.6.1), or may follow `in` (4.5.2).
    pub fn check_discrete_range(&self, range: ExpressionId) -> Result<(), Trouble> {
        match self.choice_read(range) {
            (Choice::Value | Choice::Component | Choice::Others, at) => Err(Trouble {
                at,
                cause: Cause::NoDiscreteRange,
            }),
            _ => Ok(()),
        }
    }

    /// What was read without an arrow after it, and after such choices, is the value of a component (4.3) or of an
    /// argument (6.4).
    pub fn check_component(
        &self,
        choices: &[ExpressionId],
        value: ExpressionId,
    ) -> Result<(), Trouble> {
        match self.choice_read(value) {
            (Choice::Bounds | Choice::Constrained, at) if choices.is_empty() => Err(Trouble {
                at,
                cause: Cause::Slices,
            }),
            (Choice::Others, _) => Err(self.unexpected(Wanted::Word(Kind::Arrow))),
            _ if choices.is_empty() => Ok(()),
            _ => Err(self.unexpected(Wanted::Word(Kind::Arrow))),
        }
    }

    /// Reads a discrete range (3.6.1): a range, or a subtype, perhaps with a range.
    pub fn discrete_range(&mut self) -> Result<ExpressionId, Trouble>
        ensures { OnOk result (self.new < self.old) }
    {
        let range = self.choice(DEEPEST)?;
        self.check_discrete_range(range)?;
        Ok(range)
    }

    /// Adds a subtype with a range (3.3.2).
    pub fn constrained(
        &mut self,
        mark: ExpressionId,
        range: ExpressionId,
        at: u32,
    ) -> Result<ExpressionId, Trouble>
        ensures { self.new ≡ self.old }
    {
        self.check_mark(mark)?;
        self.check_range(range)?;
        self.expression_node(at, ExpressionForm::Constrained { mark, range })
    }
}
