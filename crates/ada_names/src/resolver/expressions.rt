//! Names in expressions (chapter 4).

use super::{Resolver, Step};
use crate::meaning::Meaning;
use ada_text::Trouble;
use ada_text::tree::{Association, ExpressionForm, ExpressionId, Identifier};

impl<'a> Resolver<'a> {
    /// Asks for expressions.
    pub fn expressions(&mut self, ids: &'a [ExpressionId]) -> Result<(), Trouble> {
        for id in ids {
            self.ask(Step::Expression(*id))?;
        }
        Ok(())
    }

    /// Whether an expression is come to for the first time.
    fn is_first_visit(&mut self, id: ExpressionId) -> bool {
        match self.visited.get_mut(id.0 as usize) {
            Some(visited) if !*visited => {
                *visited = true;
                true
            }
            _ => false,
        }
    }

    /// Resolves a name, or asks for the parts of an expression.
    pub fn expression(&mut self, id: ExpressionId) -> Result<(), Trouble> {
        let node = self.expression_node(id)?;
        if !self.is_first_visit(id) {
            return Ok(());
        }
        match &node.form {
            ExpressionForm::Name(name) => {
                let meaning = self.lookup(*name)?;
                self.note_expression(id, Some(meaning));
                Ok(())
            }
            ExpressionForm::Character(_) => self.character(id, node.at),
            ExpressionForm::Selected { prefix, .. } => {
                self.ask(Step::Expression(*prefix))?;
                self.ask(Step::Selector(id))
            }
            ExpressionForm::Applied { prefix, arguments } => {
                self.ask(Step::Expression(*prefix))?;
                self.arguments(arguments)
            }
            ExpressionForm::Attribute { prefix, .. } => self.ask(Step::Expression(*prefix)),
            ExpressionForm::Qualified { mark, operand } => self.both(*mark, *operand),
            ExpressionForm::Aggregate(components) => self.components(components),
            ExpressionForm::Range { low, high } => self.both(*low, *high),
            ExpressionForm::Constrained { mark, range } => self.both(*mark, *range),
            ExpressionForm::Unary { operand, .. } => self.ask(Step::Expression(*operand)),
            ExpressionForm::Binary { left, right, .. } => self.both(*left, *right),
            ExpressionForm::Integer(_)
            | ExpressionForm::Real(_)
            | ExpressionForm::Text(_)
            | ExpressionForm::Others => Ok(()),
        }
    }

    /// Asks for two expressions.
    pub fn both(&mut self, one: ExpressionId, other: ExpressionId) -> Result<(), Trouble> {
        self.ask(Step::Expression(one))?;
        self.ask(Step::Expression(other))
    }

    /// Asks for the arguments of a call. A name before an arrow is one of a parameter (6.4.1), for which types are
    /// wanted.
    fn arguments(&mut self, arguments: &'a [Association]) -> Result<(), Trouble> {
        for argument in arguments {
            self.ask(Step::Expression(argument.value))?;
        }
        Ok(())
    }

    /// Asks for the components of an aggregate (4.3), with their choices.
    fn components(&mut self, components: &'a [Association]) -> Result<(), Trouble> {
        for component in components {
            self.expressions(&component.choices)?;
            self.ask(Step::Expression(component.value))?;
        }
        Ok(())
    }

    /// Notes which enumeration literal a character literal (2.5) is, if one is visible besides that of CHARACTER.
    fn character(&mut self, id: ExpressionId, at: u32) -> Result<(), Trouble> {
        let end = at.saturating_add(3);
        let symbol = self.symbol(Identifier { at, end })?;
        if let Some(Meaning::Literal(literal)) = self.scopes.meaning(symbol) {
            self.note_expression(id, Some(Meaning::Literal(literal)));
        }
        Ok(())
    }
}
