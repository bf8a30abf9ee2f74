//! Tasks and their entries (chapter 9).

use super::{Checker, broken, trouble};
use crate::types::{MOST_COMPONENTS, Subtype, TypeForm};
use ada_names::Meaning;
use ada_text::tree::{Accept, DeclarationId, Entry, ExpressionId, StatementId};
use ada_text::{Cause, Trouble};

impl<'a> Checker<'a> {
    /// Asks for the ranges and the parameters' subtypes of entries (9.5).
    pub fn entry_marks(&mut self, entries: &'a [Entry]) -> Result<(), Trouble> {
        for entry in entries {
            self.optional(entry.range)?;
            self.marks(&entry.parameters)?;
        }
        Ok(())
    }

    /// No subprogram declares tasks.
    pub fn check_task_place(&self, at: u32) -> Result<(), Trouble> {
        match self.subprogram_around() {
            Some(_) => Err(trouble(at, Cause::TasksInSubprogram)),
            None => Ok(()),
        }
    }

    /// Checks the entries of a task (9.1), and notes its type.
    pub fn task(&mut self, id: DeclarationId, entries: &'a [Entry]) -> Result<(), Trouble> {
        self.check_task_place(self.declaration_node(id)?.name.at)?;
        self.check_entries(entries)?;
        let base = self.add_type(TypeForm::Task(id))?;
        self.note_declared(id, Subtype::composite(base), None);
        Ok(())
    }

    /// The ranges of families are static and not too long, and the parameters have no tasks (9.5).
    fn check_entries(&mut self, entries: &'a [Entry]) -> Result<(), Trouble> {
        for entry in entries {
            if let Some(range) = entry.range {
                self.check_family(range)?;
            }
            self.check_parameters(&entry.parameters)?;
        }
        Ok(())
    }

    /// The range of a family is static, and not too long (9.5).
    fn check_family(&mut self, range: ExpressionId) -> Result<(), Trouble> {
        match self.index_subtype(range)?.bounds {
            Some(bounds) if bounds.is_within(MOST_COMPONENTS) => Ok(()),
            _ => Err(self.fault_in(range, Cause::FamilyTooLong)),
        }
    }

    /// Checks the index of an accept statement (9.5), whose parameters are those of its entry.
    pub fn accepted(&mut self, id: StatementId, accept: &'a Accept) -> Result<(), Trouble> {
        let entry = match self.resolved.statements.get(id.0 as usize) {
            Some(Some(Meaning::Entry { task, position })) => self.entry_of(*task, *position)?,
            _ => return Err(broken()),
        };
        if let (Some(range), Some(index)) = (entry.range, accept.index) {
            let subtype = self.index_subtype(range)?;
            self.settle(index, subtype.base)?;
        }
        Ok(())
    }
}
