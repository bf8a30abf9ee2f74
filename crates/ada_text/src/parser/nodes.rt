//! Adding nodes to the tree.

ghost use Rattle.std.specs.Prelude.{◌≡◌, ◌<◌, IfOk, OnOk};

use super::Parser;
use super::declarations::UnitHead;
use crate::fault::{Cause, Trouble};
use crate::kind::Kind;
use crate::tree::MOST_NODES;
use crate::tree::declaration::{Declaration, DeclarationForm, DeclarationId};
use crate::tree::expression::{Expression, ExpressionForm, ExpressionId, Identifier};
use crate::tree::statement::{Alternative, Body, BodyId, Statement, StatementForm, StatementId};

/// The index of the next node, if there is room for it.
fn next_index(count: usize, at: u32) -> Result<u32, Trouble>
    ensures { IfOk result (λ index. index ≡ count) }
{
    if count >= MOST_NODES {
        return Err(Trouble {
            at,
            cause: Cause::TooMany,
        });
    }
    Ok(count as u32)
}

impl<'a> Parser<'a> {
    /// Adds an expression to the tree.
    pub fn expression_node(
        &mut self,
        at: u32,
        form: ExpressionForm,
    ) -> Result<ExpressionId, Trouble>
        ensures { self.new ≡ self.old }
    {
        let id = next_index(self.nodes.expressions.len(), at)?;
        self.nodes.expressions.push(Expression { at, form })?;
        Ok(ExpressionId(id))
    }

    /// Adds a statement to the tree.
    pub fn statement_node(&mut self, at: u32, form: StatementForm) -> Result<StatementId, Trouble>
        ensures { self.new ≡ self.old }
    {
        let id = next_index(self.nodes.statements.len(), at)?;
        self.nodes.statements.push(Statement { at, form })?;
        Ok(StatementId(id))
    }

    /// Adds a declaration to the tree.
    pub fn declaration_node(
        &mut self,
        name: Identifier,
        form: DeclarationForm,
    ) -> Result<DeclarationId, Trouble>
        ensures { self.new ≡ self.old }
    {
        let id = next_index(self.nodes.declarations.len(), name.at)?;
        self.nodes.declarations.push(Declaration { name, form })?;
        Ok(DeclarationId(id))
    }

    /// Adds a body to the tree.
    pub fn body_node(&mut self, body: Body) -> Result<BodyId, Trouble>
        ensures { self.new ≡ self.old }
    {
        let id = next_index(self.nodes.bodies.len(), self.at())?;
        self.nodes.bodies.push(body)?;
        Ok(BodyId(id))
    }

    /// Adds the declaration of a subprogram or a task with its body.
    pub fn unit_node(&mut self, head: UnitHead, body: BodyId) -> Result<DeclarationId, Trouble>
        ensures { self.new ≡ self.old }
    {
        match head {
            UnitHead::Task { name } => self.declaration_node(name, DeclarationForm::TaskBody(body)),
            UnitHead::Subprogram {
                name,
                parameters,
                result: outcome,
            } => self.declaration_node(
                name,
                DeclarationForm::Subprogram {
                    parameters,
                    result: outcome,
                    body: Some(body),
                },
            ),
        }
    }

    /// Reads the end of a case statement (5.4), and adds it.
    pub fn case_node(
        &mut self,
        at: u32,
        selector: ExpressionId,
        alternatives: Vec<Alternative>,
    ) -> Result<StatementId, Trouble>
        ensures { OnOk result (self.new < self.old) }
    {
        self.compound_end(Kind::Case)?;
        self.statement_node(
            at,
            StatementForm::Case {
                selector,
                alternatives,
            },
        )
    }

    /// Reads the end of a block statement (5.6), and adds it.
    pub fn block_node(
        &mut self,
        at: u32,
        name: Option<Identifier>,
        body: BodyId,
    ) -> Result<StatementId, Trouble>
        ensures { OnOk result (self.new < self.old) }
    {
        self.named_end(name)?;
        self.statement_node(at, StatementForm::Block { name, body })
    }
}
