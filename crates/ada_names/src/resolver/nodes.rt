//! The nodes of the tree, and what is noted of them.

use super::{Resolver, broken};
use crate::meaning::Meaning;
use ada_text::Trouble;
use ada_text::tree::{
    Body, BodyId, Declaration, DeclarationId, Expression, ExpressionId, Statement, StatementId,
};

impl<'a> Resolver<'a> {
    /// The expression of this index.
    pub fn expression_node(&self, id: ExpressionId) -> Result<&'a Expression, Trouble> {
        let tree = self.tree;
        tree.nodes.expressions.get(id.0 as usize).ok_or(broken())
    }

    /// The statement of this index.
    pub fn statement_node(&self, id: StatementId) -> Result<&'a Statement, Trouble> {
        let tree = self.tree;
        tree.nodes.statements.get(id.0 as usize).ok_or(broken())
    }

    /// The declaration of this index.
    pub fn declaration_node(&self, id: DeclarationId) -> Result<&'a Declaration, Trouble> {
        let tree = self.tree;
        tree.nodes.declarations.get(id.0 as usize).ok_or(broken())
    }

    /// The body of this index.
    pub fn body_node(&self, id: BodyId) -> Result<&'a Body, Trouble> {
        let tree = self.tree;
        tree.nodes.bodies.get(id.0 as usize).ok_or(broken())
    }

    /// What an expression denotes, as far as it was resolved.
    pub fn denoted(&self, id: ExpressionId) -> Option<Meaning> {
        match self.resolved.expressions.get(id.0 as usize) {
            Some(meaning) => *meaning,
            None => None,
        }
    }

    /// Notes what an expression denotes.
    pub fn note_expression(&mut self, id: ExpressionId, meaning: Option<Meaning>) {
        if let Some(place) = self.resolved.expressions.get_mut(id.0 as usize) {
            *place = meaning;
        }
    }

    /// Notes the entry of an accept statement, or the loop of an exit statement.
    pub fn note_statement(&mut self, id: StatementId, meaning: Meaning) {
        if let Some(place) = self.resolved.statements.get_mut(id.0 as usize) {
            *place = Some(meaning);
        }
    }

    /// The body of a task or a subprogram, if it came.
    pub fn body_of(&self, id: DeclarationId) -> Option<BodyId> {
        match self.resolved.bodies.get(id.0 as usize) {
            Some(body) => *body,
            None => None,
        }
    }

    /// Notes the body of a task or a subprogram.
    pub fn note_body(&mut self, id: DeclarationId, body: BodyId) {
        if let Some(place) = self.resolved.bodies.get_mut(id.0 as usize) {
            *place = Some(body);
        }
    }
}
