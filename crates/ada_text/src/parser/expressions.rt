//! Reading expressions (4.4) and names (4.1).

ghost use Rattle.std.specs.Prelude.{◌≡◌, ◌<◌, ◌≤◌, OnOk};

use super::{Parser, deeper};
use crate::attributes::attribute_of;
use crate::fault::{Cause, Trouble, Wanted};
use crate::kind::Kind;
use crate::number::{integer_value, real_value};
use crate::tree::expression::{
    Association, Attribute, BinaryOperator, ExpressionForm, ExpressionId, UnaryOperator,
};
use crate::word::Word;
use std::mem;

/// What may follow a name.
#[derive(Clone, Copy)]
enum Suffix {
    /// A point was taken, and a selector follows (4.1.3).
    Selector,
    /// An apostrophe was taken, and an attribute follows (4.1.4).
    Attribute,
    /// A parenthesis follows (4.1.1, 4.6, 6.4).
    Arguments,
    /// An apostrophe was taken, and a parenthesis follows (4.7).
    Operand,
}

/// Whether an operator is a membership test (4.5.2).
fn is_membership(operator: BinaryOperator) -> bool {
    matches!(operator, BinaryOperator::In | BinaryOperator::NotIn)
}

/// What a parenthesis encloses, if that is one value without a choice.
fn lone_value(components: &[Association]) -> Option<ExpressionId> {
    match components {
        [only] if only.choices.is_empty() => Some(only.value),
        _ => None,
    }
}

impl<'a> Parser<'a> {
    /// Adds an expression with an operator between two operands.
    fn binary(
        &mut self,
        operator: BinaryOperator,
        left: ExpressionId,
        right: ExpressionId,
        at: u32,
    ) -> Result<ExpressionId, Trouble>
        ensures { self.new ≡ self.old }
    {
        if is_membership(operator) {
            self.check_discrete_range(right)?;
        }
        self.expression_node(
            at,
            ExpressionForm::Binary {
                operator,
                left,
                right,
            },
        )
    }

    /// Adds an expression with an operator before its operand, if there is an operator.
    fn unary(
        &mut self,
        operator: Option<UnaryOperator>,
        operand: ExpressionId,
        at: u32,
    ) -> Result<ExpressionId, Trouble>
        ensures { self.new ≡ self.old }
    {
        match operator {
            Some(operator) => self.expression_node(at, ExpressionForm::Unary { operator, operand }),
            None => Ok(operand),
        }
    }

    /// Takes a point or an apostrophe after a name, and says what follows.
    fn suffix(&mut self) -> Option<Suffix>
        ensures { self.new ≤ self.old }
    {
        if self.kind() == Kind::LeftParenthesis {
            return Some(Suffix::Arguments);
        }
        if self.accept(Kind::Dot) {
            return Some(Suffix::Selector);
        }
        if !self.accept(Kind::Tick) {
            return None;
        }
        if self.kind() == Kind::LeftParenthesis {
            Some(Suffix::Operand)
        } else {
            Some(Suffix::Attribute)
        }
    }

    /// Reads a simple name (4.1).
    pub fn simple_name(&mut self) -> Result<ExpressionId, Trouble>
        ensures { OnOk result (self.new < self.old) }
    {
        if self.kind() != Kind::Identifier {
            return Err(self.unexpected(Wanted::Expression));
        }
        let name = self.identifier()?;
        self.expression_node(name.at, ExpressionForm::Name(name))
    }

    /// Reads the selector after a point (4.1.3).
    fn selected(&mut self, prefix: ExpressionId, at: u32) -> Result<ExpressionId, Trouble>
        ensures { OnOk result (self.new < self.old) }
    {
        let selector = self.identifier()?;
        self.expression_node(at, ExpressionForm::Selected { prefix, selector })
    }

    /// The attribute that the next word names, if it is in the subset.
    fn attribute_ahead(&self) -> Option<Attribute> {
        match self.words {
            [first, ..] if first.kind == Kind::Range => Some(Attribute::Range),
            [first, ..] => attribute_of(self.spelling(first.bounds())),
            [] => None,
        }
    }

    /// Reads the attribute after an apostrophe (4.1.4).
    fn attribute(&mut self, prefix: ExpressionId, at: u32) -> Result<ExpressionId, Trouble>
        ensures { OnOk result (self.new < self.old) }
    {
        match self.attribute_ahead() {
            Some(attribute) if self.take().is_some() => {
                self.expression_node(at, ExpressionForm::Attribute { prefix, attribute })
            }
            _ => Err(self.unexpected(Wanted::Attribute)),
        }
    }

    /// The expression of what a parenthesis encloses: the value itself (4.4), or an aggregate (4.3).
    fn parenthesized(
        &mut self,
        components: Vec<Association>,
        at: u32,
    ) -> Result<ExpressionId, Trouble>
        ensures { self.new ≡ self.old }
    {
        match lone_value(&components) {
            Some(value) => Ok(value),
            None => self.expression_node(at, ExpressionForm::Aggregate(components)),
        }
    }

    /// Adds a qualified expression (4.7).
    fn qualified(
        &mut self,
        mark: ExpressionId,
        components: Vec<Association>,
        at: u32,
    ) -> Result<ExpressionId, Trouble>
        ensures { self.new ≡ self.old }
    {
        let operand = self.parenthesized(components, at)?;
        self.expression_node(at, ExpressionForm::Qualified { mark, operand })
    }

    /// Takes an operator of the highest precedence that has one operand (4.5.6).
    fn highest_operator(&mut self) -> Option<UnaryOperator>
        ensures { self.new ≤ self.old }
    {
        if self.accept(Kind::Abs) {
            return Some(UnaryOperator::Abs);
        }
        if self.accept(Kind::Not) {
            return Some(UnaryOperator::Not);
        }
        None
    }

    /// The literal that a word is (2.4 to 2.6).
    fn literal_form(&self, word: Word) -> Result<ExpressionForm, Cause> {
        let bytes = self.spelling(word.bounds());
        match word.kind {
            Kind::Integer => Ok(ExpressionForm::Integer(integer_value(bytes)?)),
            Kind::Real => Ok(ExpressionForm::Real(real_value(bytes)?)),
            Kind::Character if bytes.len() > 1 => Ok(ExpressionForm::Character(bytes[1])),
            Kind::Text => Ok(ExpressionForm::Text(word.bounds())),
            found => Err(Cause::Unexpected {
                wanted: Wanted::Expression,
                found,
            }),
        }
    }

    /// Reads a literal (2.4 to 2.6).
    fn literal(&mut self) -> Result<ExpressionId, Trouble>
        ensures { OnOk result (self.new < self.old) }
    {
        let at = self.at();
        let Some(word) = self.take() else {
            return Err(self.unexpected(Wanted::Expression));
        };
        let form = self
            .literal_form(word)
            .map_err(|cause| Trouble { at, cause })?;
        self.expression_node(at, form)
    }

    /// Reads an expression: relations with one logical operator between them (4.4).
    #[cycle(expression)]
    pub fn expression(&mut self, depth: u32) -> Result<ExpressionId, Trouble>
        ensures { OnOk result (self.new < self.old) }
    {
        let mut left = self.relation(depth)?;
        let mut before = None;
        let mut at = self.at();
        'relations: while let Some(operator) = self.logical_operator(before)? {
            let right = self.relation(depth)?;
            left = self.binary(operator, left, right, at)?;
            before = Some(operator);
            at = self.at();
        }
        Ok(left)
    }

    /// Reads a relation: simple expressions with a relational operator or a membership test between them (4.4).
    #[cycle(expression)]
    fn relation(&mut self, depth: u32) -> Result<ExpressionId, Trouble>
        ensures { OnOk result (self.new < self.old) }
    {
        let left = self.simple_expression(depth)?;
        let at = self.at();
        let Some(operator) = self.relational_operator() else {
            return Ok(left);
        };
        let right = if is_membership(operator) {
            self.range(depth)?
        } else {
            self.simple_expression(depth)?
        };
        self.binary(operator, left, right, at)
    }

    /// Reads a range (3.5), a range attribute or the name of a subtype.
    #[cycle(expression)]
    pub fn range(&mut self, depth: u32) -> Result<ExpressionId, Trouble>
        ensures { OnOk result (self.new < self.old) }
    {
        let at = self.at();
        let low = self.simple_expression(depth)?;
        if !self.accept(Kind::DoubleDot) {
            return Ok(low);
        }
        let high = self.simple_expression(depth)?;
        self.expression_node(at, ExpressionForm::Range { low, high })
    }

    /// Reads a simple expression: terms with adding operators between them, perhaps after a sign (4.4).
    #[cycle(expression)]
    pub fn simple_expression(&mut self, depth: u32) -> Result<ExpressionId, Trouble>
        ensures { OnOk result (self.new < self.old) }
    {
        let mut at = self.at();
        let sign = self.sign();
        let first = self.term(depth)?;
        let mut left = self.unary(sign, first, at)?;
        at = self.at();
        'terms: while let Some(operator) = self.adding_operator() {
            let right = self.term(depth)?;
            left = self.binary(operator, left, right, at)?;
            at = self.at();
        }
        Ok(left)
    }

    /// Reads a term: factors with multiplying operators between them (4.4).
    #[cycle(expression)]
    fn term(&mut self, depth: u32) -> Result<ExpressionId, Trouble>
        ensures { OnOk result (self.new < self.old) }
    {
        let mut left = self.factor(depth)?;
        let mut at = self.at();
        'factors: while let Some(operator) = self.multiplying_operator() {
            let right = self.factor(depth)?;
            left = self.binary(operator, left, right, at)?;
            at = self.at();
        }
        Ok(left)
    }

    /// Reads a factor: a primary, perhaps with a power, `abs` or `not` (4.4).
    #[cycle(expression)]
    fn factor(&mut self, depth: u32) -> Result<ExpressionId, Trouble>
        ensures { OnOk result (self.new < self.old) }
    {
        let mut at = self.at();
        let operator = self.highest_operator();
        let operand = self.primary(depth)?;
        if operator.is_some() {
            return self.unary(operator, operand, at);
        }
        at = self.at();
        if !self.accept(Kind::DoubleStar) {
            return Ok(operand);
        }
        let power = self.primary(depth)?;
        self.binary(BinaryOperator::Power, operand, power, at)
    }

    /// Reads a primary: a literal, a name, or what stands in parentheses (4.4).
    #[cycle(expression)]
    fn primary(&mut self, depth: u32) -> Result<ExpressionId, Trouble>
        ensures { OnOk result (self.new < self.old) }
    {
        match self.kind() {
            Kind::Identifier => self.name(depth),
            Kind::LeftParenthesis => {
                let at = self.at();
                let components = self.enclosed(depth)?;
                self.parenthesized(components, at)
            }
            _ => self.literal(),
        }
    }

    /// Reads a name, with all that follows it in parentheses, after a point or after an apostrophe (4.1).
    #[cycle(expression)]
    pub fn name(&mut self, depth: u32) -> Result<ExpressionId, Trouble>
        ensures { OnOk result (self.new < self.old) }
    {
        let mut prefix = self.simple_name()?;
        'suffixes: while let Some(suffix) = self.suffix() {
            let at = self.at();
            prefix = match suffix {
                Suffix::Selector => self.selected(prefix, at)?,
                Suffix::Attribute => self.attribute(prefix, at)?,
                Suffix::Arguments => {
                    let arguments = self.enclosed(depth)?;
                    self.expression_node(at, ExpressionForm::Applied { prefix, arguments })?
                }
                Suffix::Operand => {
                    let components = self.enclosed(depth)?;
                    self.qualified(prefix, components, at)?
                }
            };
        }
        Ok(prefix)
    }

    /// Reads what stands in parentheses: components of an aggregate (4.3) or arguments of a call (6.4).
    #[cycle(expression)]
    pub fn enclosed(&mut self, depth: u32) -> Result<Vec<Association>, Trouble>
        ensures { OnOk result (self.new < self.old) }
    {
        let below = deeper(depth, self.at())?;
        self.expect(Kind::LeftParenthesis)?;
        let mut components = Vec::new(self.alloc);
        let mut choices = Vec::new(self.alloc);
        'components: loop {
            let mut value = self.choice(below)?;
            if self.accept(Kind::Bar) {
                choices.push(value)?;
                continue;
            }
            if self.accept(Kind::Arrow) {
                choices.push(value)?;
                value = self.expression(below)?;
            } else {
                self.check_component(&choices, value)?;
            }
            let choices = mem::replace(&mut choices, Vec::new(self.alloc));
            components.push(Association { choices, value })?;
            if !self.accept(Kind::Comma) {
                break;
            }
        }
        self.expect(Kind::RightParenthesis)?;
        Ok(components)
    }

    /// Reads a choice (3.7.3): an expression, a range, a subtype, or `others`.
    #[cycle(expression)]
    pub fn choice(&mut self, depth: u32) -> Result<ExpressionId, Trouble>
        ensures { OnOk result (self.new < self.old) }
    {
        let at = self.at();
        if self.accept(Kind::Others) {
            return self.expression_node(at, ExpressionForm::Others);
        }
        let low = self.expression(depth)?;
        if self.accept(Kind::DoubleDot) {
            let high = self.simple_expression(depth)?;
            return self.expression_node(at, ExpressionForm::Range { low, high });
        }
        if self.accept(Kind::Range) {
            let range = self.range(depth)?;
            return self.constrained(low, range, at);
        }
        Ok(low)
    }
}
