//! Expanded names and entries of tasks (4.1.3).

use super::{Resolver, broken, trouble};
use crate::meaning::{Meaning, Predefined};
use crate::predefined::{OF_STANDARD, OF_TEXT_IO, meaning_in};
use crate::spelling::is_same;
use ada_text::tree::{DeclarationForm, DeclarationId, ExpressionForm, ExpressionId, Identifier};
use ada_text::{Cause, Trouble};

impl<'a> Resolver<'a> {
    /// Resolves the selector after a prefix that was resolved.
    pub fn selector(&mut self, id: ExpressionId) -> Result<(), Trouble> {
        let ExpressionForm::Selected { prefix, selector } = &self.expression_node(id)?.form else {
            return Err(broken());
        };
        if let Some(meaning) = self.denoted(*prefix) {
            let selected = self.select(meaning, *selector)?;
            self.note_expression(id, selected);
        }
        Ok(())
    }

    /// What a selector denotes after a prefix, if no type is wanted for that.
    fn select(
        &mut self,
        prefix: Meaning,
        selector: Identifier,
    ) -> Result<Option<Meaning>, Trouble> {
        if let Meaning::Predefined(package) = prefix {
            return Ok(Some(self.select_predefined(package, selector)?));
        }
        match self.index_of(prefix) {
            Some(index) => Ok(Some(self.select_inside(index, selector)?)),
            None => self.select_outside(prefix, selector),
        }
    }

    /// What a selector denotes after the name of a predefined package.
    fn select_predefined(
        &self,
        package: Predefined,
        selector: Identifier,
    ) -> Result<Meaning, Trouble> {
        let spelling = self.spelling(selector);
        let (found, otherwise) = match package {
            Predefined::TextIo => (meaning_in(&OF_TEXT_IO, spelling), Cause::OfTextIo),
            Predefined::Standard => (meaning_in(&OF_STANDARD, spelling), Cause::NoSuchSelector),
            _ => (None, Cause::NoSuchSelector),
        };
        found.ok_or(trouble(selector.at, otherwise))
    }

    /// The index of the innermost construct around the place that a name of this meaning names.
    fn index_of(&self, meaning: Meaning) -> Option<usize> {
        self.enclosing
            .iter()
            .rposition(|enclosing| enclosing.construct.is_named_by(meaning))
    }

    /// What a selector denotes that an enclosing construct declares.
    fn select_inside(&mut self, index: usize, selector: Identifier) -> Result<Meaning, Trouble> {
        let symbol = self.symbol(selector)?;
        let first = self.first_of(index);
        let end = self.first_of(index.saturating_add(1));
        self.scopes
            .meaning_between(symbol, first, end)
            .ok_or(trouble(selector.at, Cause::NoSuchSelector))
    }

    /// The index of the first name of the construct with an index, or of the next name.
    fn first_of(&self, index: usize) -> usize {
        match self.enclosing.get(index) {
            Some(enclosing) => enclosing.first,
            None => self.scopes.len(),
        }
    }

    /// What a selector denotes after something that doesn't enclose the place: an entry of a task, if no type is wanted
    /// for that.
    fn select_outside(
        &self,
        prefix: Meaning,
        selector: Identifier,
    ) -> Result<Option<Meaning>, Trouble> {
        let otherwise = trouble(selector.at, Cause::NoSuchSelector);
        match prefix {
            Meaning::Declaration(id) => match self.declaration_node(id)?.form {
                DeclarationForm::Object { .. } => Ok(None),
                DeclarationForm::Task { is_type, .. } if !is_type => {
                    Ok(Some(self.entry(id, selector)?))
                }
                _ => Err(otherwise),
            },
            Meaning::Parameter { .. } | Meaning::AcceptParameter { .. } => Ok(None),
            _ => Err(otherwise),
        }
    }

    /// The entry of this name of a task.
    pub fn entry(&self, task: DeclarationId, name: Identifier) -> Result<Meaning, Trouble> {
        let position = self
            .entries_of(task)?
            .iter()
            .position(|entry| is_same(self.text, entry.name, name));
        match position {
            Some(position) => Ok(Meaning::Entry { task, position }),
            None => Err(trouble(name.at, Cause::NoSuchEntry)),
        }
    }
}
