//! The nodes of the tree, and what is noted of them.

use super::{Checker, broken, trouble};
use crate::bounds::Bounds;
use crate::class::Class;
use crate::typed::Declared;
use crate::types::{Subtype, TypeForm, TypeId};
use ada_names::Meaning;
use ada_text::tree::{
    Body, BodyId, Declaration, DeclarationForm, DeclarationId, Entry, Expression, ExpressionId,
    Parameter, Statement, StatementId,
};
use ada_text::{Cause, Trouble};

impl<'a> Checker<'a> {
    /// The expression of this index.
    pub fn expression_node(&self, id: ExpressionId) -> Result<&'a Expression, Trouble> {
        let tree = self.tree;
        tree.nodes.expressions.get(id.0 as usize).ok_or(broken())
    }

    /// The statement of this index.
    pub fn statement_node(&self, id: StatementId) -> Result<&'a Statement, Trouble> {
        let tree = self.tree;
        tree.nodes.statements.get(id.0 as usize).ok_or(broken())
    }

    /// The declaration of this index.
    pub fn declaration_node(&self, id: DeclarationId) -> Result<&'a Declaration, Trouble> {
        let tree = self.tree;
        tree.nodes.declarations.get(id.0 as usize).ok_or(broken())
    }

    /// The body of this index.
    pub fn body_node(&self, id: BodyId) -> Result<&'a Body, Trouble> {
        let tree = self.tree;
        tree.nodes.bodies.get(id.0 as usize).ok_or(broken())
    }

    /// The task or the subprogram of a body, by its first declaration.
    pub fn owner_of(&self, id: BodyId) -> Result<DeclarationId, Trouble> {
        match self.owners.get(id.0 as usize) {
            Some(Some(owner)) => Ok(*owner),
            _ => Err(broken()),
        }
    }

    /// The parameters of a subprogram.
    pub fn parameters_of(&self, id: DeclarationId) -> Result<&'a [Parameter], Trouble> {
        match &self.declaration_node(id)?.form {
            DeclarationForm::Subprogram { parameters, .. } => Ok(parameters),
            _ => Err(broken()),
        }
    }

    /// The entries of a task.
    pub fn entries_of(&self, task: DeclarationId) -> Result<&'a [Entry], Trouble> {
        match &self.declaration_node(task)?.form {
            DeclarationForm::Task { entries, .. } => Ok(entries),
            _ => Err(broken()),
        }
    }

    /// An entry of a task.
    pub fn entry_of(&self, task: DeclarationId, position: usize) -> Result<&'a Entry, Trouble> {
        self.entries_of(task)?.get(position).ok_or(broken())
    }

    /// What is wrong where an expression stands.
    pub fn fault_in(&self, id: ExpressionId, cause: Cause) -> Trouble {
        match self.expression_node(id) {
            Ok(node) => trouble(node.at, cause),
            Err(fault) => fault,
        }
    }

    /// What the name that an expression is denotes, if no type decides that.
    pub fn meaning_of(&self, id: ExpressionId) -> Option<Meaning> {
        match self.resolved.expressions.get(id.0 as usize) {
            Some(meaning) => *meaning,
            None => None,
        }
    }

    /// What an expression is, as far as that is known.
    pub fn class(&self, id: ExpressionId) -> Option<Class> {
        self.typed.class(id)
    }

    /// Notes what an expression is.
    pub fn note(&mut self, id: ExpressionId, class: Class) {
        if let Some(place) = self.typed.expressions.get_mut(id.0 as usize) {
            *place = Some(class);
        }
    }

    /// The value of an expression, if it is static (4.9).
    pub fn static_value(&self, id: ExpressionId) -> Option<i64> {
        self.class(id).and_then(|class| class.static_value())
    }

    /// What a type is.
    pub fn form(&self, base: TypeId) -> Result<TypeForm, Trouble> {
        self.typed.form(base).ok_or(broken())
    }

    /// Adds a type.
    pub fn add_type(&mut self, form: TypeForm) -> Result<TypeId, Trouble> {
        let id = TypeId(self.typed.types.len());
        self.typed.types.push(form)?;
        Ok(id)
    }

    /// The range of a scalar base type.
    pub fn range_of(&self, base: TypeId) -> Option<Bounds> {
        self.typed.form(base).and_then(|form| form.range())
    }

    /// Whether a type is an integer type (3.5.4).
    pub fn is_integer(&self, base: TypeId) -> bool {
        match self.typed.form(base) {
            Some(form) => form.is_integer(),
            None => false,
        }
    }

    /// Whether a type is discrete (3.5).
    pub fn is_discrete(&self, base: TypeId) -> bool {
        match self.typed.form(base) {
            Some(form) => form.is_discrete(),
            None => false,
        }
    }

    /// The index and the component subtype of an array type (3.6).
    pub fn array_of(&self, base: TypeId) -> Option<(Subtype, Subtype)> {
        match self.typed.form(base) {
            Some(TypeForm::Array { index, component }) => Some((index, component)),
            _ => None,
        }
    }

    /// The declaration of the tasks of a task type (9.2).
    pub fn task_of(&self, base: TypeId) -> Option<DeclarationId> {
        match self.typed.form(base) {
            Some(TypeForm::Task(id)) => Some(id),
            _ => None,
        }
    }

    /// Whether a type is a task type, or that of arrays of tasks (9.2).
    pub fn has_tasks(&self, base: TypeId) -> bool {
        match self.array_of(base) {
            Some((_, component)) => self.task_of(component.base).is_some(),
            None => self.task_of(base).is_some(),
        }
    }

    /// What a declaration declares.
    pub fn declared_of(&self, id: DeclarationId) -> Result<Declared, Trouble> {
        self.typed.declared(id).ok_or(broken())
    }

    /// Notes the subtype of a declaration, and the value of a constant.
    pub fn note_declared(&mut self, id: DeclarationId, subtype: Subtype, value: Option<i64>) {
        if let Some(place) = self.typed.declarations.get_mut(id.0 as usize) {
            *place = Some(Declared { subtype, value });
        }
    }
}
