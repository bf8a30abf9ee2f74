//! Reading tasks and their entries (chapter 9).

ghost use Rattle.std.specs.Prelude.{◌<◌, ◌≤◌, OnOk};

use super::declarations::UnitHead;
use super::{DEEPEST, Parser};
use crate::fault::{Cause, Trouble};
use crate::kind::Kind;
use crate::tree::declaration::{DeclarationForm, DeclarationId};
use crate::tree::expression::{ExpressionId, Identifier};
use crate::tree::task::{Accept, Entry};

impl<'a> Parser<'a> {
    /// Reads the declaration of a task or a task type, or the head of its body (9.1).
    pub fn task_declaration(
        &mut self,
        declarations: &mut Vec<DeclarationId>,
    ) -> Result<Option<UnitHead>, Trouble>
        ensures { OnOk result (self.new < self.old) }
    {
        self.expect(Kind::Task)?;
        if self.accept(Kind::Body) {
            let name = self.identifier()?;
            self.task_body_is()?;
            return Ok(Some(UnitHead::Task { name }));
        }
        let is_type = self.accept(Kind::Type);
        let name = self.identifier()?;
        let entries = self.task_entries(name)?;
        self.semicolon()?;
        let id = self.declaration_node(name, DeclarationForm::Task { is_type, entries })?;
        declarations.push(id)?;
        Ok(None)
    }

    /// Takes the `is` of a task body (9.1), which doesn't stand apart (10.2).
    fn task_body_is(&mut self) -> Result<(), Trouble>
        ensures { OnOk result (self.new ≤ self.old) }
    {
        self.expect(Kind::Is)?;
        if self.kind() == Kind::Separate {
            return Err(self.refused(Cause::Separate));
        }
        Ok(())
    }

    /// Reads the entries of a task up to its end, if its declaration has that (9.1).
    fn task_entries(&mut self, name: Identifier) -> Result<Vec<Entry>, Trouble>
        ensures { OnOk result (self.new ≤ self.old) }
    {
        let mut entries = Vec::new(self.alloc);
        if !self.accept(Kind::Is) {
            return Ok(entries);
        }
        self.pragmas()?;
        'entries: while self.accept(Kind::Entry) {
            let entry = self.entry()?;
            entries.push(entry)?;
            self.pragmas()?;
        }
        if self.kind() == Kind::For {
            return Err(self.refused(Cause::RepresentationClauses));
        }
        self.expect(Kind::End)?;
        self.optional_name(name)?;
        Ok(entries)
    }

    /// Whether parameters stand next, and no range or index (9.5).
    fn is_formal_part_ahead(&self) -> bool {
        self.second_kind() == Kind::Identifier
            && matches!(self.third_kind(), Kind::Colon | Kind::Comma)
    }

    /// Whether the range or the index of a family stands next (9.5).
    fn is_family_ahead(&self) -> bool {
        self.kind() == Kind::LeftParenthesis && !self.is_formal_part_ahead()
    }

    /// Reads the range of a family, if one stands there (9.5).
    fn family_range(&mut self) -> Result<Option<ExpressionId>, Trouble>
        ensures { OnOk result (self.new ≤ self.old) }
    {
        if !self.is_family_ahead() {
            return Ok(None);
        }
        self.take();
        let range = self.discrete_range()?;
        self.expect(Kind::RightParenthesis)?;
        Ok(Some(range))
    }

    /// Reads the index of an entry in its family, if one stands there (9.5).
    fn family_index(&mut self) -> Result<Option<ExpressionId>, Trouble>
        ensures { OnOk result (self.new ≤ self.old) }
    {
        if !self.is_family_ahead() {
            return Ok(None);
        }
        self.take();
        let index = self.expression(DEEPEST)?;
        self.expect(Kind::RightParenthesis)?;
        Ok(Some(index))
    }

    /// Reads the declaration of an entry (9.5) after its first word.
    fn entry(&mut self) -> Result<Entry, Trouble>
        ensures { OnOk result (self.new ≤ self.old) }
    {
        let name = self.identifier()?;
        let range = self.family_range()?;
        let parameters = self.formal_part()?;
        self.semicolon()?;
        Ok(Entry {
            name,
            range,
            parameters,
        })
    }

    /// Reads an accept statement up to its `do` or its semicolon (9.5).
    pub fn accept_head(&mut self) -> Result<Accept, Trouble>
        ensures { OnOk result (self.new < self.old) }
    {
        self.expect(Kind::Accept)?;
        let entry = self.identifier()?;
        let index = self.family_index()?;
        let parameters = self.formal_part()?;
        Ok(Accept {
            entry,
            index,
            parameters,
            statements: Vec::new(self.alloc),
        })
    }
}
