//! Reading statements that contain no others (chapter 5), and the heads and ends of those that do.

ghost use Rattle.std.specs.Prelude.{◌<◌, ◌≤◌, OnOk};

use super::{DEEPEST, Parser};
use crate::fault::{Cause, Trouble, Wanted};
use crate::kind::Kind;
use crate::tree::expression::{ExpressionId, Identifier};
use crate::tree::statement::{Iteration, StatementForm, StatementId};

/// Why no statement of the subset begins with such a word.
fn no_statement(kind: Kind) -> Cause {
    match kind {
        Kind::Goto | Kind::LeftLabel => Cause::Labels,
        found => Cause::Unexpected {
            wanted: Wanted::Statement,
            found,
        },
    }
}

impl<'a> Parser<'a> {
    /// Takes pragmas (2.8), and notes their names.
    pub fn pragmas(&mut self) -> Result<(), Trouble>
        ensures { OnOk result (self.new ≤ self.old) }
    {
        'pragmas: while self.kind() == Kind::Pragma {
            self.pragma()?;
        }
        Ok(())
    }

    /// Takes a pragma (2.8), and notes its name.
    pub fn pragma(&mut self) -> Result<(), Trouble>
        ensures { OnOk result (self.new < self.old) }
    {
        self.expect(Kind::Pragma)?;
        let name = self.identifier()?;
        self.nodes.pragmas.push(name)?;
        if self.kind() == Kind::LeftParenthesis {
            self.enclosed(DEEPEST)?;
        }
        self.semicolon()
    }

    /// Takes the name of a loop or of a block, with its colon, if one stands there (5.5, 5.6).
    pub fn statement_name(&mut self) -> Result<Option<Identifier>, Trouble>
        ensures { OnOk result (self.new ≤ self.old) }
    {
        if self.kind() != Kind::Identifier || self.second_kind() != Kind::Colon {
            return Ok(None);
        }
        let name = self.identifier()?;
        self.expect(Kind::Colon)?;
        match self.kind() {
            Kind::Loop | Kind::While | Kind::For | Kind::Declare | Kind::Begin => Ok(Some(name)),
            _ => Err(self.unexpected(Wanted::Word(Kind::Loop))),
        }
    }

    /// Reads a statement that contains no other (5.1).
    pub fn simple_statement(&mut self, at: u32) -> Result<StatementId, Trouble>
        ensures { OnOk result (self.new < self.old) }
    {
        let form = match self.kind() {
            Kind::Identifier => self.call_or_assignment()?,
            Kind::Exit => self.exit_form()?,
            Kind::Return => self.return_form()?,
            Kind::Abort => self.abort_form()?,
            _ => self.keyword_form()?,
        };
        self.semicolon()?;
        self.statement_node(at, form)
    }

    /// Reads a null statement (5.1), a delay statement (9.6) or a raise statement (11.3).
    fn keyword_form(&mut self) -> Result<StatementForm, Trouble>
        ensures { OnOk result (self.new ≤ self.old) }
    {
        if self.accept(Kind::Null) {
            return Ok(StatementForm::Null);
        }
        if self.accept(Kind::Delay) {
            return Ok(StatementForm::Delay(self.simple_expression(DEEPEST)?));
        }
        if self.accept(Kind::Raise) {
            return Ok(StatementForm::Raise(self.raised()?));
        }
        Err(self.refused(no_statement(self.kind())))
    }

    /// Reads the name of an exception, unless the statement ends (11.3).
    fn raised(&mut self) -> Result<Option<ExpressionId>, Trouble>
        ensures { OnOk result (self.new ≤ self.old) }
    {
        if self.kind() == Kind::Semicolon {
            return Ok(None);
        }
        Ok(Some(self.simple_name()?))
    }

    /// Reads an expression, unless the statement ends.
    fn optional_expression(&mut self) -> Result<Option<ExpressionId>, Trouble>
        ensures { OnOk result (self.new ≤ self.old) }
    {
        if self.kind() == Kind::Semicolon {
            return Ok(None);
        }
        Ok(Some(self.expression(DEEPEST)?))
    }

    /// Reads an assignment (5.2) or a call (6.4, 9.5).
    fn call_or_assignment(&mut self) -> Result<StatementForm, Trouble>
        ensures { OnOk result (self.new ≤ self.old) }
    {
        let target = self.target()?;
        if self.accept(Kind::Assignment) {
            let value = self.expression(DEEPEST)?;
            return Ok(StatementForm::Assignment { target, value });
        }
        if self.kind() != Kind::Semicolon {
            return Err(self.unexpected(Wanted::CallOrAssignment));
        }
        Ok(StatementForm::Call(target))
    }

    /// Reads the name of what is called (6.4, 9.5) or assigned to (5.2).
    pub fn target(&mut self) -> Result<ExpressionId, Trouble>
        ensures { OnOk result (self.new < self.old) }
    {
        let target = self.name(DEEPEST)?;
        self.check_target(target)?;
        Ok(target)
    }

    /// Reads an exit statement (5.7).
    fn exit_form(&mut self) -> Result<StatementForm, Trouble>
        ensures { OnOk result (self.new ≤ self.old) }
    {
        let mut name = None;
        let mut condition = None;
        self.expect(Kind::Exit)?;
        if self.kind() == Kind::Identifier {
            name = Some(self.identifier()?);
        }
        if self.accept(Kind::When) {
            condition = Some(self.expression(DEEPEST)?);
        }
        Ok(StatementForm::Exit { name, condition })
    }

    /// Reads a return statement (5.8).
    fn return_form(&mut self) -> Result<StatementForm, Trouble>
        ensures { OnOk result (self.new ≤ self.old) }
    {
        if self.is_accepting {
            return Err(self.refused(Cause::ReturnOfAccept));
        }
        self.expect(Kind::Return)?;
        Ok(StatementForm::Return(self.optional_expression()?))
    }

    /// Reads an abort statement (9.10).
    fn abort_form(&mut self) -> Result<StatementForm, Trouble>
        ensures { OnOk result (self.new ≤ self.old) }
    {
        let mut tasks = Vec::new(self.alloc);
        self.expect(Kind::Abort)?;
        'tasks: loop {
            let task = self.name(DEEPEST)?;
            tasks.push(task)?;
            if !self.accept(Kind::Comma) {
                return Ok(StatementForm::Abort(tasks));
            }
        }
    }

    /// Reads the head of a case statement (5.4).
    pub fn case_head(&mut self) -> Result<ExpressionId, Trouble>
        ensures { OnOk result (self.new < self.old) }
    {
        self.expect(Kind::Case)?;
        let selector = self.expression(DEEPEST)?;
        self.expect(Kind::Is)?;
        Ok(selector)
    }

    /// Reads choices up to their arrow (3.7.3, 11.2).
    pub fn choices(&mut self) -> Result<Vec<ExpressionId>, Trouble>
        ensures { OnOk result (self.new < self.old) }
    {
        let mut choices = Vec::new(self.alloc);
        'choices: loop {
            let choice = self.choice(DEEPEST)?;
            choices.push(choice)?;
            if !self.accept(Kind::Bar) {
                break;
            }
        }
        self.expect(Kind::Arrow)?;
        Ok(choices)
    }

    /// Reads the iteration scheme of a loop (5.5).
    pub fn iteration(&mut self) -> Result<Iteration, Trouble>
        ensures { OnOk result (self.new ≤ self.old) }
    {
        if self.accept(Kind::While) {
            return Ok(Iteration::While(self.expression(DEEPEST)?));
        }
        if !self.accept(Kind::For) {
            return Ok(Iteration::Endless);
        }
        let parameter = self.identifier()?;
        self.expect(Kind::In)?;
        let is_reverse = self.accept(Kind::Reverse);
        let range = self.discrete_range()?;
        Ok(Iteration::For {
            parameter,
            range,
            is_reverse,
        })
    }

    /// Takes `end`, the word of a statement, and a semicolon (5.3, 5.4, 9.7).
    pub fn compound_end(&mut self, kind: Kind) -> Result<(), Trouble>
        ensures { OnOk result (self.new < self.old) }
    {
        self.expect(Kind::End)?;
        self.expect(kind)?;
        self.semicolon()
    }

    /// Takes the name that a loop or a block must repeat at its end, if it has one, and a semicolon (5.5, 5.6).
    pub fn named_end(&mut self, name: Option<Identifier>) -> Result<(), Trouble>
        ensures { OnOk result (self.new < self.old) }
    {
        if let Some(name) = name {
            self.same_name(name)?;
        }
        self.semicolon()
    }

    /// Takes a name that must be this one.
    fn same_name(&mut self, name: Identifier) -> Result<(), Trouble>
        ensures { OnOk result (self.new ≤ self.old) }
    {
        let at = self.at();
        let found = self.identifier()?;
        if self
            .spelling(found)
            .eq_ignore_ascii_case(self.spelling(name))
        {
            Ok(())
        } else {
            Err(Trouble {
                at,
                cause: Cause::OtherName,
            })
        }
    }

    /// Takes this name, if a name stands there (6.3, 9.1, 9.5).
    pub fn optional_name(&mut self, name: Identifier) -> Result<(), Trouble>
        ensures { OnOk result (self.new ≤ self.old) }
    {
        if self.kind() == Kind::Identifier {
            return self.same_name(name);
        }
        Ok(())
    }
}
