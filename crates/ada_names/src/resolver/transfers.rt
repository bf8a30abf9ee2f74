//! Statements that leave what encloses them: exit (5.7), return (5.8) and raise (11.3).

use super::{Resolver, Step, trouble};
use crate::construct::Construct;
use crate::meaning::Meaning;
use ada_text::tree::{ExpressionId, Identifier, StatementId};
use ada_text::{Cause, Trouble};

impl<'a> Resolver<'a> {
    /// The innermost loop, or the one that is named, if an exit statement may leave it.
    fn loop_around(&self, named: Option<Meaning>) -> Option<StatementId> {
        let found = self
            .enclosing
            .iter()
            .rev()
            .map(|enclosing| enclosing.construct)
            .find(|construct| {
                construct.keeps_exits()
                    || match (construct, named) {
                        (Construct::Loop(_), Some(meaning)) => construct.is_named_by(meaning),
                        (Construct::Loop(_), None) => true,
                        _ => false,
                    }
            });
        match found {
            Some(Construct::Loop(id)) => Some(id),
            _ => None,
        }
    }

    /// Notes which loop an exit statement leaves (5.7).
    pub fn exit(
        &mut self,
        id: StatementId,
        at: u32,
        name: Option<Identifier>,
    ) -> Result<(), Trouble> {
        let (named, otherwise) = match name {
            Some(name) => (
                Some(self.lookup(name)?),
                trouble(name.at, Cause::NoSuchLoop),
            ),
            None => (None, trouble(at, Cause::ExitOutsideOfLoop)),
        };
        let left = self.loop_around(named).ok_or(otherwise)?;
        self.note_statement(id, Meaning::Statement(left));
        Ok(())
    }

    /// A return statement stands in a subprogram (5.8).
    pub fn check_return(&self, at: u32) -> Result<(), Trouble> {
        match self.unit_around() {
            Some(Construct::Main | Construct::Subprogram(_)) => Ok(()),
            _ => Err(trouble(at, Cause::ReturnOutsideOfSubprogram)),
        }
    }

    /// Whether the place is in a handler of the innermost unit around it (11.3).
    fn is_in_handler(&self) -> bool {
        self.enclosing
            .iter()
            .rev()
            .map(|enclosing| enclosing.construct)
            .find(|construct| construct.is_unit() || *construct == Construct::Handler)
            == Some(Construct::Handler)
    }

    /// Asks for the exception of a raise statement. One without a name stands in a handler (11.3).
    pub fn raise(&mut self, at: u32, name: Option<ExpressionId>) -> Result<(), Trouble> {
        match name {
            Some(name) => {
                self.ask(Step::Expression(name))?;
                self.ask(Step::Exception(name))
            }
            None if self.is_in_handler() => Ok(()),
            None => Err(trouble(at, Cause::RaiseOutsideOfHandler)),
        }
    }
}
