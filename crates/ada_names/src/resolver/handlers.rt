//! Exception handlers (11.2).

use super::{Resolver, Step, trouble};
use crate::construct::Construct;
use crate::meaning::Meaning;
use ada_text::tree::{Alternative, DeclarationForm, ExpressionForm, ExpressionId};
use ada_text::{Cause, Trouble};
use indexmap::IndexSet;

impl<'a> Resolver<'a> {
    /// Asks for handlers.
    pub fn handlers(&mut self, handlers: &'a [Alternative]) -> Result<(), Trouble> {
        for handler in handlers {
            self.handler_choices(&handler.choices)?;
        }
        self.ask(Step::Choices(handlers))?;
        self.handler_statements(handlers)
    }

    /// Asks for the exceptions of a handler.
    fn handler_choices(&mut self, choices: &'a [ExpressionId]) -> Result<(), Trouble> {
        for choice in choices {
            self.ask(Step::Expression(*choice))?;
            self.ask(Step::Exception(*choice))?;
        }
        Ok(())
    }

    /// Asks for the statements of handlers.
    fn handler_statements(&mut self, handlers: &'a [Alternative]) -> Result<(), Trouble> {
        for handler in handlers {
            self.ask(Step::Open(Construct::Handler, None))?;
            self.statements(&handler.statements)?;
            self.ask(Step::Close)?;
        }
        Ok(())
    }

    /// Whether a name denotes an exception (11.1).
    fn is_exception(&self, meaning: Meaning) -> bool {
        match meaning {
            Meaning::Predefined(predefined) => predefined.is_exception(),
            Meaning::Declaration(id) => match self.declaration_node(id) {
                Ok(node) => matches!(node.form, DeclarationForm::Exception),
                Err(_) => false,
            },
            _ => false,
        }
    }

    /// An expression denotes an exception, or is `others`.
    pub fn check_exception(&self, id: ExpressionId) -> Result<(), Trouble> {
        let node = self.expression_node(id)?;
        if matches!(node.form, ExpressionForm::Others) {
            return Ok(());
        }
        match self.denoted(id) {
            Some(meaning) if self.is_exception(meaning) => Ok(()),
            _ => Err(trouble(node.at, Cause::NoException)),
        }
    }

    /// No exception has two handlers, and `others` stands alone in the last one.
    pub fn check_choices(&self, handlers: &'a [Alternative]) -> Result<(), Trouble> {
        let mut handled = IndexSet::new(self.alloc);
        let Some((last, others)) = handlers.split_last() else {
            return Ok(());
        };
        for handler in others {
            self.check_handler(handler, false, &mut handled)?;
        }
        self.check_handler(last, true, &mut handled)
    }

    /// The exceptions of a handler have no handler before it.
    fn check_handler(
        &self,
        handler: &'a Alternative,
        is_last: bool,
        handled: &mut IndexSet<Meaning>,
    ) -> Result<(), Trouble> {
        let may_be_others = is_last && handler.choices.len() == 1;
        for choice in &handler.choices {
            self.check_choice(*choice, may_be_others, handled)?;
        }
        Ok(())
    }

    /// An exception has no handler before it, and `others` stands where it may.
    fn check_choice(
        &self,
        choice: ExpressionId,
        may_be_others: bool,
        handled: &mut IndexSet<Meaning>,
    ) -> Result<(), Trouble> {
        let at = self.expression_node(choice)?.at;
        let Some(meaning) = self.denoted(choice) else {
            return if may_be_others {
                Ok(())
            } else {
                Err(trouble(at, Cause::OthersNotLast))
            };
        };
        if handled.insert(meaning)? {
            Ok(())
        } else {
            Err(trouble(at, Cause::HandledTwice))
        }
    }
}
