//! Enumeration literals (3.5.1), and which of several is meant (8.7).

use super::{Checker, broken};
use crate::class::Class;
use crate::types::TypeId;
use ada_names::{Literal, LiteralId, Meaning};
use ada_text::tree::{ExpressionForm, ExpressionId};
use ada_text::{Cause, Trouble};

impl<'a> Checker<'a> {
    /// The literal with this index.
    fn literal(&self, id: LiteralId) -> Result<&'a Literal, Trouble> {
        let resolved = self.resolved;
        resolved.literals.get(id.0).ok_or(broken())
    }

    /// The type of a literal.
    fn type_of_literal(&self, literal: &Literal) -> Result<TypeId, Trouble> {
        match literal.owner {
            Some(owner) => Ok(self.declared_of(owner)?.subtype.base),
            None => Ok(TypeId::BOOLEAN),
        }
    }

    /// What an expression is that means this literal.
    fn class_of_literal(&self, id: LiteralId) -> Result<Class, Trouble> {
        let literal = self.literal(id)?;
        let Ok(value) = i64::try_from(literal.position) else {
            return Err(broken());
        };
        Ok(Class::Literal {
            base: self.type_of_literal(literal)?,
            literal: id,
            value,
        })
    }

    /// The literals that an expression may mean, and the character (2.5).
    fn candidates(&self, id: ExpressionId) -> Result<Vec<Class>, Trouble> {
        let mut candidates = Vec::new(self.alloc);
        let mut next = match self.meaning_of(id) {
            Some(Meaning::Literal(literal)) => Some(literal),
            _ => None,
        };
        for _ in 0..self.resolved.literals.len() {
            let Some(literal) = next else {
                break;
            };
            candidates.push(self.class_of_literal(literal)?)?;
            next = self.literal(literal)?.overloaded;
        }
        if let ExpressionForm::Character(code) = self.expression_node(id)?.form {
            candidates.push(Class::Value {
                base: TypeId::CHARACTER,
                value: Some(i64::from(code)),
            })?;
        }
        Ok(candidates)
    }

    /// Notes which literal is meant, if there is only one of this name.
    pub fn lone_literal(&mut self, id: ExpressionId) -> Result<(), Trouble> {
        let candidates = self.candidates(id)?;
        if let [only] = candidates.as_slice() {
            self.note(id, *only);
        }
        Ok(())
    }

    /// Notes which literal is meant by its type.
    pub fn pick_literal(&mut self, id: ExpressionId, base: TypeId) -> Result<(), Trouble> {
        let candidates = self.candidates(id)?;
        let found = candidates
            .iter()
            .find(|candidate| candidate.base() == Some(base));
        match found {
            Some(class) => {
                self.note(id, *class);
                Ok(())
            }
            None => Err(self.fault_in(id, Cause::WrongType)),
        }
    }

    /// The only type that has both literals, if there is one.
    pub fn common_literal(
        &self,
        left: ExpressionId,
        right: ExpressionId,
    ) -> Result<Option<TypeId>, Trouble> {
        let (ones, others) = (self.candidates(left)?, self.candidates(right)?);
        let mut common = ones.iter().filter(|one| others
            .iter()
            .any(|other| other.base() == one.base()));
        match (common.next(), common.next()) {
            (Some(only), None) => Ok(only.base()),
            (None, _) => Err(self.fault_in(right, Cause::WrongType)),
            _ => Ok(None),
        }
    }
}
