//! Subtypes (3.3) and ranges (3.5).

use super::{Checker, broken};
use crate::bounds::Bounds;
use crate::class::Class;
use crate::types::{Subtype, TypeId};
use ada_text::tree::{ExpressionForm, ExpressionId};
use ada_text::{Cause, Trouble};

impl<'a> Checker<'a> {
    /// The subtype that an expression names (3.3.2), perhaps with a static range. That of strings isn't named.
    pub fn subtype_of(&self, mark: ExpressionId) -> Result<Subtype, Trouble> {
        match self.typed.subtype(mark) {
            Some(subtype) if subtype.base == TypeId::TEXT => {
                Err(self.fault_in(mark, Cause::Strings))
            }
            Some(subtype) => Ok(subtype),
            None => Err(self.fault_in(mark, self.why_no_subtype(mark))),
        }
    }

    /// Why an expression names no subtype with a static range.
    fn why_no_subtype(&self, mark: ExpressionId) -> Cause {
        match self.class(mark) {
            Some(Class::Range { .. }) => Cause::NotStatic,
            _ => Cause::NoSubtype,
        }
    }

    /// The subtype of a discrete type that an expression names (3.5), with its range.
    pub fn discrete_mark(&self, mark: ExpressionId) -> Result<(TypeId, Bounds), Trouble> {
        let subtype = self.subtype_of(mark)?;
        match subtype.bounds {
            Some(bounds) if self.is_discrete(subtype.base) => Ok((subtype.base, bounds)),
            _ => Err(self.fault_in(mark, Cause::NotDiscrete)),
        }
    }

    /// The bounds of a range, if both are static.
    fn bounds_of(&self, low: ExpressionId, high: ExpressionId) -> Option<Bounds> {
        match (self.static_value(low), self.static_value(high)) {
            (Some(low), Some(high)) => Some(Bounds { low, high }),
            _ => None,
        }
    }

    /// Notes the type and the bounds of a range (3.5), unless only its place determines them.
    pub fn range(
        &mut self,
        id: ExpressionId,
        low: ExpressionId,
        high: ExpressionId,
    ) -> Result<(), Trouble> {
        match self.common_type(low, high)? {
            Some(base) => self.settle_bounds(id, low, high, base),
            None => Ok(()),
        }
    }

    /// Notes that a range has this type.
    fn settle_bounds(
        &mut self,
        id: ExpressionId,
        low: ExpressionId,
        high: ExpressionId,
        base: TypeId,
    ) -> Result<(), Trouble> {
        if !self.is_discrete(base) {
            return Err(self.fault_in(low, Cause::NotDiscrete));
        }
        self.settle(low, base)?;
        self.settle(high, base)?;
        let bounds = self.bounds_of(low, high);
        self.note(id, Class::Range { base, bounds });
        Ok(())
    }

    /// A range, or a subtype in its place, is of this type.
    pub fn settle_range(&mut self, id: ExpressionId, base: TypeId) -> Result<(), Trouble> {
        let node = self.expression_node(id)?;
        match self.class(id) {
            Some(Class::Subtype(subtype)) if subtype.base == base => return Ok(()),
            Some(Class::Range { base: found, .. }) if found == base => return Ok(()),
            _ => {}
        }
        match node.form {
            ExpressionForm::Range { low, high } => self.settle_bounds(id, low, high, base),
            _ => Err(self.fault_in(id, Cause::WrongType)),
        }
    }

    /// Notes the type and the bounds of a subtype with a range (3.3.2), which lies in the subtype.
    pub fn constrained(
        &mut self,
        id: ExpressionId,
        mark: ExpressionId,
        range: ExpressionId,
    ) -> Result<(), Trouble> {
        let (base, outer) = self.discrete_mark(mark)?;
        self.settle_range(range, base)?;
        let Some(Class::Range { bounds, .. }) = self.class(range) else {
            return Err(broken());
        };
        if let Some(bounds) = bounds {
            if !outer.includes(bounds) {
                return Err(self.fault_in(range, Cause::RangeOutside));
            }
        }
        self.note(id, Class::Range { base, bounds });
        Ok(())
    }

    /// Whether a bound is a literal or an attribute (3.6.1).
    fn is_literal_or_attribute(&self, id: ExpressionId) -> Result<bool, Trouble> {
        let bound = match &self.expression_node(id)?.form {
            ExpressionForm::Applied { prefix, .. } => *prefix,
            _ => id,
        };
        let form = &self.expression_node(bound)?.form;
        Ok(matches!(
            form,
            ExpressionForm::Integer(_) | ExpressionForm::Attribute { .. }
        ))
    }

    /// Bounds of integer literals or attributes are of type INTEGER where nothing else says of which type (3.6.1).
    fn settle_universal(&mut self, id: ExpressionId) -> Result<(), Trouble> {
        if let ExpressionForm::Range { low, high } = self.expression_node(id)?.form {
            if !self.is_literal_or_attribute(low)? || !self.is_literal_or_attribute(high)? {
                return Err(self.fault_in(id, Cause::UniversalRange));
            }
        }
        self.settle_range(id, TypeId::INTEGER)
    }

    /// The type of a discrete range (3.6.1), and its bounds, if they are static.
    pub fn discrete_range(
        &mut self,
        id: ExpressionId,
    ) -> Result<(TypeId, Option<Bounds>), Trouble> {
        match self.class(id) {
            Some(Class::Range { base, .. }) if base == TypeId::UNIVERSAL => {
                self.settle_universal(id)?;
            }
            Some(Class::Range { .. }) => {}
            Some(Class::Subtype(_)) => {
                let (base, bounds) = self.discrete_mark(id)?;
                return Ok((base, Some(bounds)));
            }
            Some(_) => return Err(self.fault_in(id, Cause::NotDiscrete)),
            None => return Err(self.fault_in(id, Cause::UnknownType)),
        }
        match self.class(id) {
            Some(Class::Range { base, bounds }) => Ok((base, bounds)),
            _ => Err(broken()),
        }
    }

    /// The subtype of an index (3.6, 9.5), whose bounds are static.
    pub fn index_subtype(&mut self, id: ExpressionId) -> Result<Subtype, Trouble> {
        match self.discrete_range(id)? {
            (base, Some(bounds)) => Ok(Subtype::scalar(base, bounds)),
            (_, None) => Err(self.fault_in(id, Cause::NotStatic)),
        }
    }

    /// The type and the bounds of a static range, which may be that of literals.
    pub fn static_bounds(&self, id: ExpressionId) -> Result<(TypeId, Bounds), Trouble> {
        match self.class(id) {
            Some(Class::Range { base, bounds }) => match bounds {
                Some(bounds) => Ok((base, bounds)),
                None => Err(self.fault_in(id, Cause::NotStatic)),
            },
            Some(Class::Subtype(_)) => self.discrete_mark(id),
            _ => Err(self.fault_in(id, Cause::UnknownType)),
        }
    }
}
