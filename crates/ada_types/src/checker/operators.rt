//! Operators (4.5).

use super::Checker;
use super::operands::Operand;
use crate::arithmetic;
use crate::class::Class;
use crate::types::TypeId;
use ada_text::tree::{BinaryOperator, ExpressionId, UnaryOperator};
use ada_text::{Cause, Trouble};

impl<'a> Checker<'a> {
    /// Notes an operator with one operand (4.5.4, 4.5.6).
    pub fn unary(
        &mut self,
        id: ExpressionId,
        operator: UnaryOperator,
        operand: ExpressionId,
    ) -> Result<(), Trouble> {
        let base = if operator == UnaryOperator::Not {
            self.settle_truth(id, operand)?;
            TypeId::BOOLEAN
        } else {
            self.own_type(operand)?
        };
        if operator != UnaryOperator::Not {
            self.check_numeric(id, base)?;
        }
        match self.static_value(operand) {
            Some(value) => {
                let outcome = arithmetic::unary(operator, value).map_err(|cause| self.fault_in(
                    id, cause,
                ))?;
                self.number(id, base, outcome)
            }
            None => self.value(id, base, None),
        }
    }

    /// Notes an operator with two operands (4.5).
    pub fn binary(
        &mut self,
        id: ExpressionId,
        operator: BinaryOperator,
        left: ExpressionId,
        right: ExpressionId,
    ) -> Result<(), Trouble> {
        match operator {
            BinaryOperator::And
            | BinaryOperator::Or
            | BinaryOperator::Xor
            | BinaryOperator::AndThen
            | BinaryOperator::OrElse => self.logical(id, operator, left, right),
            BinaryOperator::Equal | BinaryOperator::NotEqual => {
                self.equality(id, operator, left, right)
            }
            BinaryOperator::Less
            | BinaryOperator::LessEqual
            | BinaryOperator::Greater
            | BinaryOperator::GreaterEqual => self.ordering(id, operator, left, right),
            BinaryOperator::In | BinaryOperator::NotIn => self.membership(id, left, right),
            BinaryOperator::Concatenate => self.concatenation(id, left, right),
            BinaryOperator::Power => self.power(id, left, right),
            BinaryOperator::Multiply | BinaryOperator::Divide => {
                self.product(id, operator, left, right)
            }
            BinaryOperator::Add
            | BinaryOperator::Subtract
            | BinaryOperator::Mod
            | BinaryOperator::Rem => self.sum(id, operator, left, right),
        }
    }

    /// Why an operator isn't there for operands of this type.
    fn no_operator(&self, base: TypeId) -> Cause {
        if base == TypeId::TEXT {
            Cause::Strings
        } else if self.has_tasks(base) {
            Cause::TaskValues
        } else if self.array_of(base).is_some() {
            Cause::ArrayOperators
        } else {
            Cause::NoOperator
        }
    }

    /// An operand is a truth value (4.5.1).
    fn settle_truth(&mut self, id: ExpressionId, operand: ExpressionId) -> Result<(), Trouble> {
        match self.operand(operand)? {
            Operand::Of(base) if base != TypeId::BOOLEAN => {
                Err(self.fault_in(id, self.no_operator(base)))
            }
            _ => self.settle(operand, TypeId::BOOLEAN),
        }
    }

    /// Notes a logical operator or a short-circuit form (4.5.1).
    fn logical(
        &mut self,
        id: ExpressionId,
        operator: BinaryOperator,
        left: ExpressionId,
        right: ExpressionId,
    ) -> Result<(), Trouble> {
        self.settle_truth(id, left)?;
        self.settle_truth(id, right)?;
        self.truth(id, operator, left, right)
    }

    /// Notes a truth value, which is static where the operands are (4.9).
    fn truth(
        &mut self,
        id: ExpressionId,
        operator: BinaryOperator,
        left: ExpressionId,
        right: ExpressionId,
    ) -> Result<(), Trouble> {
        let value = match (self.static_value(left), self.static_value(right)) {
            (Some(left), Some(right)) => arithmetic::truth(operator, left, right),
            _ => None,
        };
        self.value(id, TypeId::BOOLEAN, value)
    }

    /// Notes a comparison of any values but texts and tasks (4.5.2).
    fn equality(
        &mut self,
        id: ExpressionId,
        operator: BinaryOperator,
        left: ExpressionId,
        right: ExpressionId,
    ) -> Result<(), Trouble> {
        self.check_operand(left)?;
        self.check_operand(right)?;
        let base = self.settle_both(left, right)?;
        if base == TypeId::TEXT || self.has_tasks(base) {
            return Err(self.fault_in(id, self.no_operator(base)));
        }
        self.truth(id, operator, left, right)
    }

    /// Notes a comparison of scalar values, which have an order (4.5.2).
    fn ordering(
        &mut self,
        id: ExpressionId,
        operator: BinaryOperator,
        left: ExpressionId,
        right: ExpressionId,
    ) -> Result<(), Trouble> {
        let base = self.settle_both(left, right)?;
        if self.range_of(base).is_none() {
            return Err(self.fault_in(id, self.no_operator(base)));
        }
        self.truth(id, operator, left, right)
    }

    /// Notes a membership test (4.5.2).
    fn membership(
        &mut self,
        id: ExpressionId,
        left: ExpressionId,
        right: ExpressionId,
    ) -> Result<(), Trouble> {
        let ranged = match self.class(right) {
            Some(Class::Range { base, .. }) => Some(base),
            Some(Class::Subtype(_)) => Some(self.discrete_mark(right)?.0),
            Some(_) => return Err(self.fault_in(right, Cause::NoSubtype)),
            None => None,
        };
        let base = match (self.operand(left)?, ranged) {
            (Operand::Of(base), None) => base,
            (Operand::Of(base), Some(ranged)) if ranged == TypeId::UNIVERSAL => base,
            (_, Some(ranged)) => ranged,
            _ => return Err(self.fault_in(left, Cause::UnknownType)),
        };
        self.settle(left, base)?;
        self.settle_range(right, base)?;
        self.value(id, TypeId::BOOLEAN, None)
    }

    /// An operand of `&` is a text or a character (4.5.3).
    fn settle_written(&mut self, id: ExpressionId, operand: ExpressionId) -> Result<(), Trouble> {
        match self.operand(operand)? {
            Operand::Of(base) if base == TypeId::TEXT || base == TypeId::CHARACTER => Ok(()),
            Operand::Of(base) => Err(self.fault_in(id, self.no_operator(base))),
            _ => self.settle(operand, TypeId::CHARACTER),
        }
    }

    /// Notes texts and characters that are put together (4.5.3).
    fn concatenation(
        &mut self,
        id: ExpressionId,
        left: ExpressionId,
        right: ExpressionId,
    ) -> Result<(), Trouble> {
        self.settle_written(id, left)?;
        self.settle_written(id, right)?;
        self.text_value(id)
    }

    /// Values of this type are numbers (4.5.4).
    fn check_numeric(&self, id: ExpressionId, base: TypeId) -> Result<(), Trouble> {
        if self.is_integer(base) || base == TypeId::DURATION {
            Ok(())
        } else {
            Err(self.fault_in(id, self.no_operator(base)))
        }
    }

    /// An operator between numbers of this type is there (4.5.3, 4.5.5): durations are added and subtracted alone.
    fn check_operator(
        &self,
        id: ExpressionId,
        operator: BinaryOperator,
        base: TypeId,
    ) -> Result<(), Trouble> {
        self.check_numeric(id, base)?;
        let adds = matches!(operator, BinaryOperator::Add | BinaryOperator::Subtract);
        if base == TypeId::DURATION && !adds {
            return Err(self.fault_in(id, Cause::NoOperator));
        }
        Ok(())
    }

    /// Notes a sum, a difference or a remainder (4.5.3, 4.5.5).
    fn sum(
        &mut self,
        id: ExpressionId,
        operator: BinaryOperator,
        left: ExpressionId,
        right: ExpressionId,
    ) -> Result<(), Trouble> {
        let base = self.settle_both(left, right)?;
        self.check_operator(id, operator, base)?;
        self.arithmetic(id, operator, left, right, base)
    }

    /// Notes the result of an arithmetic operator of this type.
    fn arithmetic(
        &mut self,
        id: ExpressionId,
        operator: BinaryOperator,
        left: ExpressionId,
        right: ExpressionId,
        base: TypeId,
    ) -> Result<(), Trouble> {
        match (self.static_value(left), self.static_value(right)) {
            (Some(left), Some(right)) => {
                let outcome = arithmetic::arithmetic(operator, left, right).map_err(
                    |cause| self.fault_in(id, cause),
                )?;
                self.number(id, base, outcome)
            }
            (None, Some(0)) if arithmetic::divides(operator) => {
                Err(self.fault_in(id, Cause::DivisionByZero))
            }
            _ => self.value(id, base, None),
        }
    }

    /// Notes a power, whose exponent is of type INTEGER (4.5.6).
    fn power(
        &mut self,
        id: ExpressionId,
        left: ExpressionId,
        right: ExpressionId,
    ) -> Result<(), Trouble> {
        let base = self.own_type(left)?;
        if !self.is_integer(base) {
            return Err(self.fault_in(id, self.no_operator(base)));
        }
        self.settle(right, TypeId::INTEGER)?;
        self.arithmetic(id, BinaryOperator::Power, left, right, base)
    }

    /// Notes a product or a quotient, also of a duration and an integer (4.5.5).
    fn product(
        &mut self,
        id: ExpressionId,
        operator: BinaryOperator,
        left: ExpressionId,
        right: ExpressionId,
    ) -> Result<(), Trouble> {
        let is_duration = |operand: Operand| operand == Operand::Of(TypeId::DURATION);
        let (one, other) = (self.operand(left)?, self.operand(right)?);
        let base = match (is_duration(one), is_duration(other)) {
            (true, false) => {
                self.settle(right, TypeId::INTEGER)?;
                TypeId::DURATION
            }
            (false, true) if operator == BinaryOperator::Multiply => {
                self.settle(left, TypeId::INTEGER)?;
                TypeId::DURATION
            }
            _ => {
                let base = self.settle_both(left, right)?;
                self.check_operator(id, operator, base)?;
                base
            }
        };
        self.arithmetic(id, operator, left, right, base)
    }
}
