//! Case statements (5.4).

use super::{Checker, Step};
use crate::bounds::Bounds;
use crate::choices::Choices;
use crate::types::TypeId;
use ada_text::tree::{Alternative, ExpressionForm, ExpressionId, StatementId};
use ada_text::{Cause, Trouble};

impl<'a> Checker<'a> {
    /// Asks for a case statement: its expression, its choices, and its statements.
    pub fn case_parts(
        &mut self,
        id: StatementId,
        selector: ExpressionId,
        alternatives: &'a [Alternative],
    ) -> Result<(), Trouble> {
        self.ask(Step::Expression(selector))?;
        self.case_choices(alternatives)?;
        self.ask(Step::Stated(id))?;
        self.case_statements(alternatives)
    }

    /// Asks for the choices of a case statement.
    fn case_choices(&mut self, alternatives: &'a [Alternative]) -> Result<(), Trouble> {
        for alternative in alternatives {
            self.expressions(&alternative.choices)?;
        }
        Ok(())
    }

    /// Asks for the statements of a case statement.
    fn case_statements(&mut self, alternatives: &'a [Alternative]) -> Result<(), Trouble> {
        for alternative in alternatives {
            self.statements(&alternative.statements)?;
        }
        Ok(())
    }

    /// The type of the expression of a case statement, which nothing else determines.
    fn selector_type(&mut self, selector: ExpressionId) -> Result<TypeId, Trouble> {
        let base = self.own_type(selector)?;
        if base == TypeId::UNIVERSAL {
            self.settle(selector, TypeId::INTEGER)?;
            return Ok(TypeId::INTEGER);
        }
        if !self.is_discrete(base) {
            return Err(self.fault_in(selector, Cause::NotDiscrete));
        }
        Ok(base)
    }

    /// The values to choose from: of the subtype of an object, of a conversion or of a qualified expression, else of
    /// the type.
    fn selected_values(&self, selector: ExpressionId, base: TypeId) -> Result<Bounds, Trouble> {
        let subtype = match self.expression_node(selector)?.form {
            ExpressionForm::Qualified { mark, .. } => Some(self.subtype_of(mark)?),
            _ => self.class(selector).and_then(|class| class.subtype()),
        };
        let bounds = subtype.and_then(|subtype| subtype.bounds);
        match bounds.or(self.range_of(base)) {
            Some(bounds) => Ok(bounds),
            None => Err(self.fault_in(selector, Cause::NotDiscrete)),
        }
    }

    /// Each value is chosen once (5.4).
    pub fn case(
        &mut self,
        at: u32,
        selector: ExpressionId,
        alternatives: &'a [Alternative],
    ) -> Result<(), Trouble> {
        let base = self.selector_type(selector)?;
        let values = self.selected_values(selector, base)?;
        let mut choices = Choices::among(self.alloc, values);
        let (chosen, has_others) = match alternatives.split_last() {
            Some((last, before)) if self.is_for_all_others(last) => (before, true),
            _ => (alternatives, false),
        };
        for alternative in chosen {
            self.choose_all(&alternative.choices, base, &mut choices)?;
        }
        choices.check(at, has_others)
    }

    /// Whether `others` is the only choice of an alternative.
    fn is_for_all_others(&self, alternative: &'a Alternative) -> bool {
        match alternative.choices.as_slice() {
            [only] => self.is_others(*only),
            _ => false,
        }
    }
}
