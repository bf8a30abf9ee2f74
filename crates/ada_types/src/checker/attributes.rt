//! Attributes (4.1.4).

use super::Checker;
use crate::bounds::Bounds;
use crate::class::Class;
use crate::types::{Subtype, TypeId};
use crate::unit::Unit;
use ada_names::Meaning;
use ada_text::tree::{Attribute, ExpressionForm, ExpressionId};
use ada_text::{Cause, Trouble};

impl<'a> Checker<'a> {
    /// Notes what a name with an attribute is (4.1.4).
    pub fn attribute(
        &mut self,
        id: ExpressionId,
        prefix: ExpressionId,
        attribute: Attribute,
    ) -> Result<(), Trouble> {
        match attribute {
            Attribute::First => {
                let (base, bounds) = self.prefix_bounds(id, prefix)?;
                self.number(id, base, bounds.low)
            }
            Attribute::Last => {
                let (base, bounds) = self.prefix_bounds(id, prefix)?;
                self.number(id, base, bounds.high)
            }
            Attribute::Length => self.length(id, prefix),
            Attribute::Range => {
                let (base, bounds) = self.index_bounds(id, prefix)?;
                self.note(
                    id,
                    Class::Range {
                        base,
                        bounds: Some(bounds),
                    },
                );
                Ok(())
            }
            Attribute::Image
            | Attribute::Succ
            | Attribute::Pred
            | Attribute::Pos
            | Attribute::Val => self.attribute_function(id, prefix),
            Attribute::Count => self.count(id, prefix),
            Attribute::Callable | Attribute::Terminated => self.task_state(id, prefix),
        }
    }

    /// The index range of the array, or of the array subtype, that a prefix is (3.6.2).
    fn index_bounds(
        &self,
        id: ExpressionId,
        prefix: ExpressionId,
    ) -> Result<(TypeId, Bounds), Trouble> {
        let base = match self.class(prefix) {
            Some(Class::Subtype(subtype)) => Some(subtype.base),
            Some(class) => class.base(),
            None => None,
        };
        match base.and_then(|base| self.array_of(base)) {
            Some((index, _)) => match index.bounds {
                Some(bounds) => Ok((index.base, bounds)),
                None => Err(self.fault_in(id, Cause::WrongPrefix)),
            },
            None => Err(self.fault_in(id, Cause::WrongPrefix)),
        }
    }

    /// The range of the scalar subtype (3.5), or of the array's index (3.6.2), that a prefix is.
    fn prefix_bounds(
        &self,
        id: ExpressionId,
        prefix: ExpressionId,
    ) -> Result<(TypeId, Bounds), Trouble> {
        match self.scalar_prefix(prefix) {
            Some((subtype, bounds)) => Ok((subtype.base, bounds)),
            None => self.index_bounds(id, prefix),
        }
    }

    /// The subtype of a discrete type that a prefix is, with its range.
    fn scalar_prefix(&self, prefix: ExpressionId) -> Option<(Subtype, Bounds)> {
        match self.class(prefix) {
            Some(Class::Subtype(subtype)) if self.is_discrete(subtype.base) => {
                subtype.bounds.map(|bounds| (subtype, bounds))
            }
            _ => None,
        }
    }

    /// Notes how many components an array has (3.6.2).
    fn length(&mut self, id: ExpressionId, prefix: ExpressionId) -> Result<(), Trouble> {
        let (_, bounds) = self.index_bounds(id, prefix)?;
        match i64::try_from(bounds.count()) {
            Ok(count) => self.number(id, TypeId::UNIVERSAL, count),
            Err(_) => Err(self.fault_in(id, Cause::ArrayTooLong)),
        }
    }

    /// Notes an attribute that is a function of a discrete type (3.5.5).
    fn attribute_function(
        &mut self,
        id: ExpressionId,
        prefix: ExpressionId,
    ) -> Result<(), Trouble> {
        match self.scalar_prefix(prefix) {
            Some((subtype, _)) => {
                self.note(id, Class::AttributeFunction(subtype));
                Ok(())
            }
            None => Err(self.fault_in(id, Cause::WrongPrefix)),
        }
    }

    /// The entry that a prefix names without an object (9.9).
    fn named_entry(&self, prefix: ExpressionId) -> Result<Option<Meaning>, Trouble> {
        let name = match &self.expression_node(prefix)?.form {
            ExpressionForm::Applied { prefix, .. } => *prefix,
            _ => prefix,
        };
        Ok(self.meaning_of(name))
    }

    /// Notes how many calls of an entry wait, which is asked in the body of its own task (9.9).
    fn count(&mut self, id: ExpressionId, prefix: ExpressionId) -> Result<(), Trouble> {
        let task = match self.class(prefix) {
            Some(Class::Entry { task, .. }) => task,
            Some(Class::Family { .. }) => {
                return Err(self.fault_in(prefix, Cause::FamilyIndexOfCall));
            }
            _ => return Err(self.fault_in(id, Cause::WrongPrefix)),
        };
        let is_named = matches!(self.named_entry(prefix)?, Some(Meaning::Entry { .. }));
        if !is_named || self.unit()? != Unit::Task(task) {
            return Err(self.fault_in(id, Cause::CountElsewhere));
        }
        self.value(id, TypeId::UNIVERSAL, None)
    }

    /// Notes whether a task is callable or terminated (9.9).
    fn task_state(&mut self, id: ExpressionId, prefix: ExpressionId) -> Result<(), Trouble> {
        self.check_task(prefix)?;
        self.value(id, TypeId::BOOLEAN, None)
    }

    /// An expression is a task (9.2).
    pub fn check_task(&self, id: ExpressionId) -> Result<(), Trouble> {
        let task = self
            .class(id)
            .and_then(|class| class.base())
            .and_then(|base| self.task_of(base));
        match task {
            Some(_) => Ok(()),
            None => Err(self.fault_in(id, Cause::NoTask)),
        }
    }
}
