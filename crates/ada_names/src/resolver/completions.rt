//! Bodies of tasks and subprograms, and the declarations that they complete (3.9).

use super::{Resolver, trouble};
use crate::construct::Construct;
use crate::meaning::Meaning;
use crate::profile::{conform, results_conform};
use ada_text::tree::{BodyId, Declaration, DeclarationForm, DeclarationId, Identifier};
use ada_text::{Cause, Trouble};

impl<'a> Resolver<'a> {
    /// The task of this name that the innermost declarative region declares.
    fn task_here(&mut self, name: Identifier) -> Result<Option<DeclarationId>, Trouble> {
        let symbol = self.symbol(name)?;
        let Some(Meaning::Declaration(id)) = self.declared_here(symbol) else {
            return Ok(None);
        };
        match self.declaration_node(id)?.form {
            DeclarationForm::Task { .. } => Ok(Some(id)),
            _ => Ok(None),
        }
    }

    /// Asks for the body of a task (9.1).
    pub fn task_body(
        &mut self,
        id: DeclarationId,
        name: Identifier,
        body: BodyId,
    ) -> Result<(), Trouble> {
        let Some(task) = self.task_here(name)? else {
            return Err(trouble(name.at, Cause::BodyWithoutDeclaration));
        };
        if self.body_of(task).is_some() {
            return Err(trouble(name.at, Cause::SecondBody));
        }
        self.note_body(task, body);
        self.note_body(id, body);
        self.unit(Construct::Task(task), body)
    }

    /// The declaration of a subprogram in the innermost declarative region that has this name too.
    fn subprogram_here(
        &mut self,
        name: Identifier,
    ) -> Result<Option<(DeclarationId, &'a Declaration)>, Trouble> {
        let symbol = self.symbol(name)?;
        let Some(Meaning::Declaration(id)) = self.declared_here(symbol) else {
            return Ok(None);
        };
        let node = self.declaration_node(id)?;
        match node.form {
            DeclarationForm::Subprogram { .. } => Ok(Some((id, node))),
            _ => Ok(None),
        }
    }

    /// Whether two subprograms have the same parameters and result (6.3.1).
    fn is_same_specification(&self, one: &Declaration, other: &Declaration) -> bool {
        let nodes = &self.tree.nodes;
        match (&one.form, &other.form) {
            (
                DeclarationForm::Subprogram {
                    parameters: own,
                    result: own_result,
                    ..
                },
                DeclarationForm::Subprogram {
                    parameters: others,
                    result: other_result,
                    ..
                },
            ) => {
                conform(self.text, nodes, own, others)
                    && results_conform(self.text, nodes, *own_result, *other_result)
            }
            _ => false,
        }
    }

    /// Why a subprogram doesn't complete this earlier declaration of its name, if it doesn't.
    fn why_no_completion(
        &self,
        earlier: (DeclarationId, &Declaration),
        node: &Declaration,
        body: Option<BodyId>,
    ) -> Option<Cause> {
        let has_body = self.body_of(earlier.0).is_some();
        let is_same = self.is_same_specification(earlier.1, node);
        match body {
            Some(_) if !has_body && is_same => None,
            Some(_) if !has_body => Some(Cause::OtherSpecification),
            Some(_) if is_same => Some(Cause::SecondBody),
            None if is_same => Some(Cause::DeclaredTwice),
            _ => Some(Cause::Overloading),
        }
    }

    /// Declares a subprogram (6.1), unless it completes an earlier declaration, and asks for its body (6.3).
    pub fn subprogram(&mut self, id: DeclarationId, node: &'a Declaration) -> Result<(), Trouble> {
        let body = match node.form {
            DeclarationForm::Subprogram { body, .. } => body,
            _ => None,
        };
        let first = match self.subprogram_here(node.name)? {
            Some(earlier) => {
                if let Some(cause) = self.why_no_completion(earlier, node, body) {
                    return Err(trouble(node.name.at, cause));
                }
                earlier.0
            }
            None => {
                self.declare(node.name, Meaning::Declaration(id))?;
                id
            }
        };
        match body {
            Some(body) => self.subprogram_body(id, first, body),
            None => Ok(()),
        }
    }

    /// Asks for the body of a subprogram with this first declaration.
    fn subprogram_body(
        &mut self,
        id: DeclarationId,
        first: DeclarationId,
        body: BodyId,
    ) -> Result<(), Trouble> {
        self.note_body(first, body);
        self.note_body(id, body);
        self.unit(Construct::Subprogram(first), body)
    }

    /// Each task and each subprogram that a body declares has its body by now.
    pub fn check_completions(&self, id: BodyId) -> Result<(), Trouble> {
        for id in &self.body_node(id)?.declarations {
            self.check_completion(*id)?;
        }
        Ok(())
    }

    /// A task or a subprogram has its body.
    fn check_completion(&self, id: DeclarationId) -> Result<(), Trouble> {
        let node = self.declaration_node(id)?;
        match node.form {
            DeclarationForm::Task { .. } | DeclarationForm::Subprogram { .. }
                if self.body_of(id).is_none() => { Err(trouble(node.name.at, Cause::NoBody)) }
            _ => Ok(()),
        }
    }
}
