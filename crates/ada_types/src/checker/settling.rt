//! What the place of an expression says of its type (8.7).

use super::operands::Operand;
use super::{Checker, Step};
use crate::class::Class;
use crate::types::TypeId;
use ada_text::tree::{BinaryOperator, ExpressionForm, ExpressionId};
use ada_text::{Cause, Trouble};

impl<'a> Checker<'a> {
    /// An expression that was typed is of this type; it is converted, or chosen, if it isn't of one yet.
    pub fn settle(&mut self, id: ExpressionId, base: TypeId) -> Result<(), Trouble> {
        match self.operand(id)? {
            Operand::Of(found) if found == base => Ok(()),
            Operand::Of(found) if found == TypeId::UNIVERSAL && self.is_integer(base) => {
                self.convert(id, base)
            }
            Operand::Literals => self.pick_literal(id, base),
            Operand::Aggregate if self.array_of(base).is_some() => {
                self.note(id, Class::Value { base, value: None });
                self.ask(Step::Components(id, base))
            }
            _ => Err(self.fault_in(id, Cause::WrongType)),
        }
    }

    /// Converts a universal integer implicitly (4.6). Where its value isn't static, the operands are converted.
    fn convert(&mut self, id: ExpressionId, base: TypeId) -> Result<(), Trouble> {
        let value = self.static_value(id);
        match value {
            Some(value) => self.check_value(id, base, value)?,
            None => self.convert_operands(id, base)?,
        }
        self.note(id, Class::Value { base, value });
        Ok(())
    }

    /// A static value lies in the range of its base type (4.10).
    pub fn check_value(&self, id: ExpressionId, base: TypeId, value: i64) -> Result<(), Trouble> {
        match self.range_of(base) {
            Some(range) if range.contains(value) => Ok(()),
            _ => Err(self.fault_in(id, Cause::ValueOutside)),
        }
    }

    /// Asks for the operands of a universal operator to be of this type.
    fn convert_operands(&mut self, id: ExpressionId, base: TypeId) -> Result<(), Trouble> {
        match self.expression_node(id)?.form {
            ExpressionForm::Unary { operand, .. } => self.ask(Step::Settled(operand, base)),
            ExpressionForm::Binary {
                operator,
                left,
                right,
            } => {
                self.ask(Step::Settled(left, base))?;
                if operator == BinaryOperator::Power {
                    return Ok(());
                }
                self.ask(Step::Settled(right, base))
            }
            _ => Ok(()),
        }
    }
}
