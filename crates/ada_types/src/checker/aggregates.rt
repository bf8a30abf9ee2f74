//! Aggregates of arrays (4.3).

use super::Checker;
use crate::bounds::Bounds;
use crate::choices::Choices;
use crate::class::Class;
use crate::types::{Subtype, TypeId};
use ada_text::tree::{Association, ExpressionForm, ExpressionId};
use ada_text::{Cause, Trouble};

impl<'a> Checker<'a> {
    /// Whether the choice of a component is `others` (3.7.3).
    pub fn is_others(&self, id: ExpressionId) -> bool {
        match self.expression_node(id) {
            Ok(node) => matches!(node.form, ExpressionForm::Others),
            Err(_) => false,
        }
    }

    /// Whether a component is one for all others.
    fn is_for_others(&self, component: &'a Association) -> bool {
        component
            .choices
            .iter()
            .any(|choice| self.is_others(*choice))
    }

    /// What a value would be an aggregate of, if it is one.
    fn components_of(&self, id: ExpressionId) -> Result<Option<&'a [Association]>, Trouble> {
        match &self.expression_node(id)?.form {
            ExpressionForm::Aggregate(components) => Ok(Some(components)),
            _ => Ok(None),
        }
    }

    /// After `:=` an aggregate with `others` has no other choices (4.3.2).
    pub fn check_others(&self, value: ExpressionId) -> Result<(), Trouble> {
        let Some(components) = self.components_of(value)? else {
            return Ok(());
        };
        let Some((last, before)) = components.split_last() else {
            return Ok(());
        };
        let is_chosen = before.iter().any(|part| !part.choices.is_empty());
        if self.is_for_others(last) && is_chosen {
            return Err(self.fault_in(value, Cause::OthersBesideChoices));
        }
        Ok(())
    }

    /// An operand is no aggregate with `others` (4.3.2).
    pub fn check_operand(&self, operand: ExpressionId) -> Result<(), Trouble> {
        let last = self
            .components_of(operand)?
            .and_then(|components| components.last());
        match last {
            Some(last) if self.is_for_others(last) => {
                Err(self.fault_in(operand, Cause::OthersAsOperand))
            }
            _ => Ok(()),
        }
    }

    /// Checks the components of an aggregate of this array type (4.3.2).
    pub fn components(&mut self, id: ExpressionId, base: TypeId) -> Result<(), Trouble> {
        let (Some(components), Some((index, part))) = (self.components_of(id)?, self.array_of(base))
        else {
            return Err(self.fault_in(id, Cause::WrongType));
        };
        self.check_order(components)?;
        self.settle_parts(components, part)?;
        match components.split_last() {
            Some((last, before)) if self.is_for_others(last) => {
                self.check_alone(last)?;
                self.check_parts(id, before, index, true)
            }
            _ => self.check_parts(id, components, index, false),
        }
    }

    /// The values of an aggregate are of the component type.
    fn settle_parts(
        &mut self,
        components: &'a [Association],
        part: Subtype,
    ) -> Result<(), Trouble> {
        for component in components {
            self.settle(component.value, part.base)?;
        }
        Ok(())
    }

    /// `others` is the only choice of its component (4.3).
    fn check_alone(&self, component: &'a Association) -> Result<(), Trouble> {
        let others = component
            .choices
            .iter()
            .find(|choice| self.is_others(**choice));
        match others {
            Some(others) if component.choices.len() > 1 => {
                Err(self.fault_in(*others, Cause::OthersNotAlone))
            }
            _ => Ok(()),
        }
    }

    /// The components but that for all others go by their position, or all by choices; each is there once.
    fn check_parts(
        &mut self,
        id: ExpressionId,
        components: &'a [Association],
        index: Subtype,
        has_others: bool,
    ) -> Result<(), Trouble> {
        let Some(values) = index.bounds else {
            return Err(self.fault_in(id, Cause::WrongType));
        };
        let by_position = components
            .iter()
            .take_while(|part| part.choices.is_empty())
            .count();
        if by_position == 0 {
            return self.check_chosen(id, components, index.base, values, has_others);
        }
        if by_position < components.len() {
            return Err(self.fault_in(id, Cause::MixedAggregate));
        }
        let is_full = u64::try_from(by_position) == Ok(values.count());
        let has_room = u64::try_from(by_position).is_ok_and(|count| count < values.count());
        if is_full || has_others && has_room {
            Ok(())
        } else {
            Err(self.fault_in(id, Cause::ComponentCount))
        }
    }

    /// Each component is chosen once, without `others` (4.3.2).
    fn check_chosen(
        &mut self,
        id: ExpressionId,
        components: &'a [Association],
        base: TypeId,
        values: Bounds,
        has_others: bool,
    ) -> Result<(), Trouble> {
        let mut choices = Choices::among(self.alloc, values);
        for component in components {
            self.choose_all(&component.choices, base, &mut choices)?;
        }
        choices.check(self.expression_node(id)?.at, has_others)
    }

    /// Adds choices, none of which is `others`.
    pub fn choose_all(
        &mut self,
        ids: &'a [ExpressionId],
        base: TypeId,
        choices: &mut Choices,
    ) -> Result<(), Trouble> {
        for id in ids {
            let bounds = self.chosen(*id, base)?;
            choices.add(bounds, self.expression_node(*id)?.at)?;
        }
        Ok(())
    }

    /// The values of this type that a choice names (3.7.3), which are static.
    fn chosen(&mut self, id: ExpressionId, base: TypeId) -> Result<Bounds, Trouble> {
        if self.is_others(id) {
            return Err(self.fault_in(id, Cause::OthersNotAlone));
        }
        if self.is_range(id)? {
            self.settle_range(id, base)?;
            return Ok(self.static_bounds(id)?.1);
        }
        self.settle(id, base)?;
        match self.static_value(id) {
            Some(value) => Ok(Bounds::only(value)),
            None => Err(self.fault_in(id, Cause::NotStatic)),
        }
    }

    /// Whether a choice is a range or a subtype.
    fn is_range(&self, id: ExpressionId) -> Result<bool, Trouble> {
        match self.class(id) {
            Some(Class::Range { .. } | Class::Subtype(_)) => Ok(true),
            _ => Ok(matches!(self.expression_node(id)?.form, ExpressionForm::Range { .. })),
        }
    }
}
