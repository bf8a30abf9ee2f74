//! Expressions (chapter 4), whose parts are typed first.

use super::{Checker, Step};
use crate::class::Class;
use crate::types::{DURATION_RANGE, TypeId};
use ada_text::tree::{Association, ExpressionForm, ExpressionId};
use ada_text::{Cause, Trouble};

impl<'a> Checker<'a> {
    /// Whether an expression is come to for the first time.
    fn is_first_visit(&mut self, id: ExpressionId) -> bool {
        match self.visited.get_mut(id.0 as usize) {
            Some(visited) if !*visited => {
                *visited = true;
                true
            }
            _ => false,
        }
    }

    /// Asks for two expressions.
    fn both(&mut self, one: ExpressionId, other: ExpressionId) -> Result<(), Trouble> {
        self.ask(Step::Expression(one))?;
        self.ask(Step::Expression(other))
    }

    /// Asks for the parts of an expression, and then for the expression itself.
    pub fn expression(&mut self, id: ExpressionId) -> Result<(), Trouble> {
        let node = self.expression_node(id)?;
        if !self.is_first_visit(id) {
            return Ok(());
        }
        match &node.form {
            ExpressionForm::Selected { prefix, .. } | ExpressionForm::Attribute { prefix, .. } => {
                self.ask(Step::Expression(*prefix))?;
            }
            ExpressionForm::Applied { prefix, arguments } => {
                self.ask(Step::Expression(*prefix))?;
                self.arguments(arguments)?;
            }
            ExpressionForm::Qualified { mark, operand } => self.both(*mark, *operand)?,
            ExpressionForm::Aggregate(components) => self.aggregate_parts(components)?,
            ExpressionForm::Range { low, high } => self.both(*low, *high)?,
            ExpressionForm::Constrained { mark, range } => self.both(*mark, *range)?,
            ExpressionForm::Unary { operand, .. } => self.ask(Step::Expression(*operand))?,
            ExpressionForm::Binary { left, right, .. } => self.both(*left, *right)?,
            ExpressionForm::Integer(_)
            | ExpressionForm::Real(_)
            | ExpressionForm::Character(_)
            | ExpressionForm::Text(_)
            | ExpressionForm::Name(_)
            | ExpressionForm::Others => {}
        }
        self.ask(Step::Composed(id))
    }

    /// Asks for the arguments of a call. Names before an arrow are those of parameters (6.4.1).
    fn arguments(&mut self, arguments: &'a [Association]) -> Result<(), Trouble> {
        for argument in arguments {
            self.ask(Step::Expression(argument.value))?;
        }
        Ok(())
    }

    /// Asks for the choices and the values of an aggregate (4.3).
    fn aggregate_parts(&mut self, components: &'a [Association]) -> Result<(), Trouble> {
        for component in components {
            self.expressions(&component.choices)?;
            self.ask(Step::Expression(component.value))?;
        }
        Ok(())
    }

    /// Notes what an expression is whose parts are typed.
    pub fn composed(&mut self, id: ExpressionId) -> Result<(), Trouble> {
        let node = self.expression_node(id)?;
        match &node.form {
            ExpressionForm::Integer(value) => self.number(id, TypeId::UNIVERSAL, *value),
            ExpressionForm::Real(value) => self.real(id, *value),
            ExpressionForm::Character(_) => self.lone_literal(id),
            ExpressionForm::Text(_) => self.text_value(id),
            ExpressionForm::Name(_) => match self.meaning_of(id) {
                Some(meaning) => self.name(id, node.at, meaning),
                None => Ok(()),
            },
            ExpressionForm::Selected { prefix, selector } => self.selected(id, *prefix, *selector),
            ExpressionForm::Applied { prefix, arguments } => self.applied(id, *prefix, arguments),
            ExpressionForm::Attribute { prefix, attribute } => {
                self.attribute(id, *prefix, *attribute)
            }
            ExpressionForm::Qualified { mark, operand } => self.qualified(id, *mark, *operand),
            ExpressionForm::Aggregate(_) | ExpressionForm::Others => Ok(()),
            ExpressionForm::Range { low, high } => self.range(id, *low, *high),
            ExpressionForm::Constrained { mark, range } => self.constrained(id, *mark, *range),
            ExpressionForm::Unary { operator, operand } => self.unary(id, *operator, *operand),
            ExpressionForm::Binary {
                operator,
                left,
                right,
            } => self.binary(id, *operator, *left, *right),
        }
    }

    /// Notes a value of this type.
    pub fn value(
        &mut self,
        id: ExpressionId,
        base: TypeId,
        value: Option<i64>,
    ) -> Result<(), Trouble> {
        self.note(id, Class::Value { base, value });
        Ok(())
    }

    /// Notes a static value of a scalar type, in whose range it lies (4.10).
    pub fn number(&mut self, id: ExpressionId, base: TypeId, value: i64) -> Result<(), Trouble> {
        self.check_value(id, base, value)?;
        self.value(id, base, Some(value))
    }

    /// Notes a real literal (2.4), which is of type DURATION.
    fn real(&mut self, id: ExpressionId, value: i64) -> Result<(), Trouble> {
        if !DURATION_RANGE.contains(value) {
            return Err(self.fault_in(id, Cause::ValueOutside));
        }
        self.value(id, TypeId::DURATION, Some(value))
    }

    /// Notes a text.
    pub fn text_value(&mut self, id: ExpressionId) -> Result<(), Trouble> {
        self.value(id, TypeId::TEXT, None)
    }

    /// Notes a qualified expression (4.7). Its value is static if its operand's is, and lies in the subtype.
    fn qualified(
        &mut self,
        id: ExpressionId,
        mark: ExpressionId,
        operand: ExpressionId,
    ) -> Result<(), Trouble> {
        let subtype = self.subtype_of(mark)?;
        self.settle(operand, subtype.base)?;
        let value = match (self.static_value(operand), subtype.bounds) {
            (Some(value), Some(bounds)) if bounds.contains(value) => Some(value),
            _ => None,
        };
        self.value(id, subtype.base, value)
    }
}
