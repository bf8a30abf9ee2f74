//! Of what types operands are (4.4).

use super::Checker;
use crate::class::{Access, Class};
use crate::types::TypeId;
use ada_text::tree::{ExpressionForm, ExpressionId};
use ada_text::{Cause, Trouble};

/// What is known of the type of an operand from the operand itself.
#[derive(Clone, Copy, PartialEq, Eq)]
pub enum Operand {
    /// It is of this type.
    Of(TypeId),
    /// It is an enumeration literal of one of several types (3.5.1).
    Literals,
    /// It is an aggregate of an array (4.3).
    Aggregate,
}

impl<'a> Checker<'a> {
    /// The type of an operand that is read, as far as that is known.
    pub fn operand(&self, id: ExpressionId) -> Result<Operand, Trouble> {
        let Some(class) = self.class(id) else {
            return self.open_operand(id);
        };
        if let Class::Object { access, .. } = class {
            if access == Access::Out {
                return Err(self.fault_in(id, Cause::OutParameterRead));
            }
        }
        match class.base() {
            Some(base) => Ok(Operand::Of(base)),
            None => Err(self.fault_in(id, Cause::NoValue)),
        }
    }

    /// An operand whose type its place determines.
    fn open_operand(&self, id: ExpressionId) -> Result<Operand, Trouble> {
        match self.expression_node(id)?.form {
            ExpressionForm::Name(_)
            | ExpressionForm::Selected { .. }
            | ExpressionForm::Character(_) => Ok(Operand::Literals),
            ExpressionForm::Aggregate(_) => Ok(Operand::Aggregate),
            _ => Err(self.fault_in(id, Cause::NoValue)),
        }
    }

    /// The type of an operand that no place determines (8.7).
    pub fn own_type(&self, id: ExpressionId) -> Result<TypeId, Trouble> {
        match self.operand(id)? {
            Operand::Of(base) => Ok(base),
            Operand::Literals | Operand::Aggregate => { Err(self.fault_in(id, Cause::UnknownType)) }
        }
    }

    /// The type that two operands of one type have, if one of them determines it (8.7).
    pub fn common_type(
        &self,
        left: ExpressionId,
        right: ExpressionId,
    ) -> Result<Option<TypeId>, Trouble> {
        match (self.operand(left)?, self.operand(right)?) {
            (Operand::Of(one), Operand::Of(other)) if one == other => Ok(Some(one)),
            (Operand::Of(one), Operand::Of(other)) => match self.converted(one, other) {
                Some(base) => Ok(Some(base)),
                None => Err(self.fault_in(right, Cause::WrongType)),
            },
            (Operand::Of(base), _) | (_, Operand::Of(base)) => Ok(Some(base)),
            (Operand::Literals, Operand::Literals) => self.common_literal(left, right),
            _ => Ok(None),
        }
    }

    /// The type to which an operand of the other type converts implicitly, if one is universal (4.6).
    fn converted(&self, one: TypeId, other: TypeId) -> Option<TypeId> {
        if one == TypeId::UNIVERSAL && self.is_integer(other) {
            Some(other)
        } else if other == TypeId::UNIVERSAL && self.is_integer(one) {
            Some(one)
        } else {
            None
        }
    }

    /// The type that two operands have, which is determined, and settles both.
    pub fn settle_both(
        &mut self,
        left: ExpressionId,
        right: ExpressionId,
    ) -> Result<TypeId, Trouble> {
        let Some(base) = self.common_type(left, right)? else {
            return Err(self.fault_in(left, Cause::UnknownType));
        };
        self.settle(left, base)?;
        self.settle(right, base)?;
        Ok(base)
    }
}
