//! Reading statements (chapter 5), and bodies with their declarations, which statements may contain.

ghost use Rattle.std.specs.Prelude.{◌<◌, ◌≤◌, OnOk};

use super::declarations::UnitHead;
use super::{DEEPEST, Parser, deeper};
use crate::fault::Trouble;
use crate::kind::Kind;
use crate::tree::declaration::DeclarationId;
use crate::tree::expression::Identifier;
use crate::tree::statement::{Alternative, Arm, Body, BodyId, StatementForm, StatementId};
use crate::tree::task::SelectAlternative;
use std::mem;

/// Whether statements end before such a word (5.1).
fn ends_statements(kind: Kind) -> bool {
    matches!(
        kind,
        Kind::End
            | Kind::Elsif
            | Kind::Else
            | Kind::When
            | Kind::Or
            | Kind::Exception
            | Kind::EndOfText
    )
}

impl<'a> Parser<'a> {
    /// Reads a sequence of statements (5.1), at least one.
    #[cycle(statement)]
    pub fn statements(&mut self, depth: u32) -> Result<Vec<StatementId>, Trouble>
        ensures { OnOk result (self.new < self.old) }
    {
        let below = deeper(depth, self.at())?;
        let mut statements = Vec::new(self.alloc);
        let first = self.statement(below)?;
        statements.push(first)?;
        'statements: while !ends_statements(self.kind()) {
            let next = self.statement(below)?;
            statements.push(next)?;
        }
        Ok(statements)
    }

    /// Reads a statement (5.1).
    #[cycle(statement)]
    fn statement(&mut self, depth: u32) -> Result<StatementId, Trouble>
        ensures { OnOk result (self.new < self.old) }
    {
        self.pragmas()?;
        let at = self.at();
        let name = self.statement_name()?;
        match self.kind() {
            Kind::If => self.if_statement(depth, at),
            Kind::Case => {
                let selector = self.case_head()?;
                let alternatives = self.alternatives(depth)?;
                self.case_node(at, selector, alternatives)
            }
            Kind::Loop | Kind::While | Kind::For => self.loop_statement(name, depth, at),
            Kind::Declare | Kind::Begin => {
                self.accept(Kind::Declare);
                let body = self.body(depth)?;
                self.block_node(at, name, body)
            }
            Kind::Accept => self.accept_statement(depth, at),
            Kind::Select => self.select_statement(depth, at),
            _ => self.simple_statement(at),
        }
    }

    /// Reads an if statement (5.3).
    #[cycle(statement)]
    fn if_statement(&mut self, depth: u32, at: u32) -> Result<StatementId, Trouble>
        ensures { OnOk result (self.new < self.old) }
    {
        let mut arms = Vec::new(self.alloc);
        let mut otherwise = Vec::new(self.alloc);
        self.expect(Kind::If)?;
        'arms: loop {
            let condition = self.expression(DEEPEST)?;
            self.expect(Kind::Then)?;
            let statements = self.statements(depth)?;
            arms.push(Arm {
                condition,
                statements,
            })?;
            if !self.accept(Kind::Elsif) {
                break;
            }
        }
        if self.accept(Kind::Else) {
            otherwise = self.statements(depth)?;
        }
        self.compound_end(Kind::If)?;
        self.statement_node(at, StatementForm::If { arms, otherwise })
    }

    /// Reads alternatives of a case statement (5.4), or exception handlers (11.2).
    #[cycle(statement)]
    fn alternatives(&mut self, depth: u32) -> Result<Vec<Alternative>, Trouble>
        ensures { OnOk result (self.new < self.old) }
    {
        let mut alternatives = Vec::new(self.alloc);
        self.expect(Kind::When)?;
        'alternatives: loop {
            let choices = self.choices()?;
            let statements = self.statements(depth)?;
            alternatives.push(Alternative {
                choices,
                statements,
            })?;
            if !self.accept(Kind::When) {
                return Ok(alternatives);
            }
        }
    }

    /// Reads a loop statement (5.5).
    #[cycle(statement)]
    fn loop_statement(
        &mut self,
        name: Option<Identifier>,
        depth: u32,
        at: u32,
    ) -> Result<StatementId, Trouble>
        ensures { OnOk result (self.new < self.old) }
    {
        let iteration = self.iteration()?;
        self.expect(Kind::Loop)?;
        let statements = self.statements(depth)?;
        self.expect(Kind::End)?;
        self.expect(Kind::Loop)?;
        self.named_end(name)?;
        self.statement_node(
            at,
            StatementForm::Loop {
                name,
                iteration,
                statements,
            },
        )
    }

    /// Reads an accept statement (9.5).
    #[cycle(statement)]
    fn accept_statement(&mut self, depth: u32, at: u32) -> Result<StatementId, Trouble>
        ensures { OnOk result (self.new < self.old) }
    {
        let mut accept = self.accept_head()?;
        if self.accept(Kind::Do) {
            let outside = mem::replace(&mut self.is_accepting, true);
            accept.statements = self.statements(depth)?;
            self.is_accepting = outside;
            self.expect(Kind::End)?;
            self.optional_name(accept.entry)?;
        }
        self.expect(Kind::Semicolon)?;
        self.statement_node(at, StatementForm::Accept(accept))
    }

    /// Reads a select statement (9.7).
    #[cycle(statement)]
    fn select_statement(&mut self, depth: u32, at: u32) -> Result<StatementId, Trouble>
        ensures { OnOk result (self.new < self.old) }
    {
        let below = deeper(depth, at)?;
        let mut alternatives = Vec::new(self.alloc);
        self.expect(Kind::Select)?;
        'alternatives: loop {
            let guard = self.guard()?;
            let start = self.at();
            let event = if self.kind() == Kind::Accept {
                self.accept_statement(below, start)?
            } else {
                self.event(start)?
            };
            let mut statements = Vec::new(self.alloc);
            if !ends_statements(self.kind()) {
                statements = self.statements(below)?;
            }
            alternatives.push(SelectAlternative {
                guard,
                event,
                statements,
            })?;
            if !self.accept(Kind::Or) {
                break;
            }
        }
        let mut otherwise = None;
        if self.accept(Kind::Else) {
            otherwise = Some(self.statements(below)?);
        }
        self.compound_end(Kind::Select)?;
        self.select_node(at, alternatives, otherwise)
    }

    /// Reads declarations, statements and handlers up to their `end`, and that (5.6, 6.3, 9.1).
    #[cycle(statement)]
    pub fn body(&mut self, depth: u32) -> Result<BodyId, Trouble>
        ensures { OnOk result (self.new < self.old) }
    {
        let declarations = self.declarative_part(depth)?;
        self.expect(Kind::Begin)?;
        let statements = self.statements(depth)?;
        let mut handlers = Vec::new(self.alloc);
        if self.accept(Kind::Exception) {
            handlers = self.alternatives(depth)?;
        }
        self.expect(Kind::End)?;
        self.body_node(Body {
            declarations,
            statements,
            handlers,
        })
    }

    /// Reads the declarations before `begin` (3.9).
    #[cycle(statement)]
    fn declarative_part(&mut self, depth: u32) -> Result<Vec<DeclarationId>, Trouble>
        ensures { OnOk result (self.new ≤ self.old) }
    {
        let mut declarations = Vec::new(self.alloc);
        let mut after_body = false;
        'declarations: while self.kind() != Kind::Begin {
            self.check_order(after_body)?;
            if let Some(head) = self.declaration(&mut declarations)? {
                let unit = self.unit(head, depth)?;
                declarations.push(unit)?;
                after_body = true;
            }
        }
        Ok(declarations)
    }

    /// Reads the body of a subprogram (6.3) or of a task (9.1), whose head was read.
    #[cycle(statement)]
    fn unit(&mut self, head: UnitHead, depth: u32) -> Result<DeclarationId, Trouble>
        ensures { OnOk result (self.new < self.old) }
    {
        let below = deeper(depth, self.at())?;
        let outside = mem::replace(&mut self.is_accepting, false);
        let body = self.body(below)?;
        self.is_accepting = outside;
        self.optional_name(head.name())?;
        self.expect(Kind::Semicolon)?;
        self.unit_node(head, body)
    }
}
