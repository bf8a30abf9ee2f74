//! Accept statements (9.5).

use super::{Resolver, Step, trouble};
use crate::construct::Construct;
use crate::meaning::Meaning;
use crate::profile::conform;
use ada_text::tree::{Accept, DeclarationId, StatementId};
use ada_text::{Cause, Trouble};

impl<'a> Resolver<'a> {
    /// The task in whose body an accept statement stands.
    fn task_around(&self, at: u32) -> Result<DeclarationId, Trouble> {
        match self.unit_around() {
            Some(Construct::Task(id)) => Ok(id),
            _ => Err(trouble(at, Cause::AcceptOutsideOfTask)),
        }
    }

    /// Whether an accept statement of this entry encloses the place.
    fn is_accepting(&self, entry: Meaning) -> bool {
        self.enclosing
            .iter()
            .any(|enclosing| enclosing.construct.is_named_by(entry))
    }

    /// An accept statement is written as its entry is declared, and not within another one of it.
    fn check_accept(
        &self,
        accept: &Accept,
        task: DeclarationId,
        position: usize,
    ) -> Result<(), Trouble> {
        let at = accept.entry.at;
        let Some(entry) = self.entries_of(task)?.get(position) else {
            return Err(trouble(at, Cause::NoSuchEntry));
        };
        if self.is_accepting(Meaning::Entry { task, position }) {
            return Err(trouble(at, Cause::AcceptWithinAccept));
        }
        if entry.range.is_some() != accept.index.is_some() {
            return Err(trouble(at, Cause::FamilyIndex));
        }
        let nodes = &self.tree.nodes;
        if !conform(self.text, nodes, &entry.parameters, &accept.parameters) {
            return Err(trouble(at, Cause::OtherParameters));
        }
        Ok(())
    }

    /// Notes the entry of an accept statement, and asks for the names in it.
    pub fn accept(&mut self, id: StatementId, accept: &'a Accept) -> Result<(), Trouble> {
        let task = self.task_around(accept.entry.at)?;
        let entry = self.entry(task, accept.entry)?;
        if let Meaning::Entry { position, .. } = entry {
            self.check_accept(accept, task, position)?;
            self.note_statement(id, entry);
            self.optional(accept.index)?;
            self.subtypes(&accept.parameters)?;
            self.accepted(id, accept, task, position)?;
        }
        Ok(())
    }

    /// Asks for the statements of an accept statement.
    fn accepted(
        &mut self,
        statement: StatementId,
        accept: &'a Accept,
        task: DeclarationId,
        position: usize,
    ) -> Result<(), Trouble> {
        let construct = Construct::Accept {
            statement,
            task,
            position,
        };
        self.ask(Step::Open(construct, None))?;
        self.statements(&accept.statements)?;
        self.ask(Step::Close)
    }
}
