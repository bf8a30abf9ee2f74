//! The operators that words stand for (4.5).

ghost use Rattle.std.specs.Prelude.{◌<◌, ◌≤◌, OnSome, IfOk};

use super::Parser;
use crate::fault::{Cause, Trouble};
use crate::kind::Kind;
use crate::tree::expression::{BinaryOperator, UnaryOperator};

impl<'a> Parser<'a> {
    /// Takes a logical operator or a short-circuit form (4.5.1).
    fn any_logical_operator(&mut self) -> Option<BinaryOperator>
        ensures fewer { OnSome result (self.new < self.old) }
        ensures left { self.new ≤ self.old }
    {
        if self.accept(Kind::And) {
            if self.accept(Kind::Then) {
                return Some(BinaryOperator::AndThen);
            }
            return Some(BinaryOperator::And);
        }
        if self.accept(Kind::Or) {
            if self.accept(Kind::Else) {
                return Some(BinaryOperator::OrElse);
            }
            return Some(BinaryOperator::Or);
        }
        if self.accept(Kind::Xor) {
            return Some(BinaryOperator::Xor);
        }
        None
    }

    /// Takes a logical operator, which is the one before it in the expression, if there is one (4.4).
    pub fn logical_operator(
        &mut self,
        before: Option<BinaryOperator>,
    ) -> Result<Option<BinaryOperator>, Trouble>
        ensures fewer { IfOk result (λ found. OnSome found (self.new < self.old)) }
        ensures left { self.new ≤ self.old }
    {
        let at = self.at();
        let found = self.any_logical_operator();
        match (before, found) {
            (Some(first), Some(second)) if first != second => Err(Trouble {
                at,
                cause: Cause::MixedOperators,
            }),
            _ => Ok(found),
        }
    }

    /// Takes a relational operator, or `in` or `not in` (4.5.2).
    pub fn relational_operator(&mut self) -> Option<BinaryOperator>
        ensures { self.new ≤ self.old }
    {
        let operator = match self.kind() {
            Kind::Equal => BinaryOperator::Equal,
            Kind::NotEqual => BinaryOperator::NotEqual,
            Kind::Less => BinaryOperator::Less,
            Kind::LessEqual => BinaryOperator::LessEqual,
            Kind::Greater => BinaryOperator::Greater,
            Kind::GreaterEqual => BinaryOperator::GreaterEqual,
            Kind::In => BinaryOperator::In,
            Kind::Not if self.second_kind() == Kind::In => {
                self.take();
                BinaryOperator::NotIn
            }
            _ => return None,
        };
        self.take();
        Some(operator)
    }

    /// Takes a binary adding operator (4.5.3).
    pub fn adding_operator(&mut self) -> Option<BinaryOperator>
        ensures fewer { OnSome result (self.new < self.old) }
        ensures left { self.new ≤ self.old }
    {
        if self.accept(Kind::Plus) {
            return Some(BinaryOperator::Add);
        }
        if self.accept(Kind::Minus) {
            return Some(BinaryOperator::Subtract);
        }
        if self.accept(Kind::Ampersand) {
            return Some(BinaryOperator::Concatenate);
        }
        None
    }

    /// Takes a multiplying operator (4.5.5).
    pub fn multiplying_operator(&mut self) -> Option<BinaryOperator>
        ensures fewer { OnSome result (self.new < self.old) }
        ensures left { self.new ≤ self.old }
    {
        if self.accept(Kind::Star) {
            return Some(BinaryOperator::Multiply);
        }
        if self.accept(Kind::Slash) {
            return Some(BinaryOperator::Divide);
        }
        if self.accept(Kind::Mod) {
            return Some(BinaryOperator::Mod);
        }
        if self.accept(Kind::Rem) {
            return Some(BinaryOperator::Rem);
        }
        None
    }

    /// Takes a sign (4.5.4).
    pub fn sign(&mut self) -> Option<UnaryOperator>
        ensures { self.new ≤ self.old }
    {
        if self.accept(Kind::Plus) {
            return Some(UnaryOperator::Plus);
        }
        if self.accept(Kind::Minus) {
            return Some(UnaryOperator::Minus);
        }
        None
    }
}
