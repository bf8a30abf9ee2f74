//! Declarations (chapter 3), of subprograms (6.1), tasks (9.1) and exceptions (11.1) too.

use super::{Resolver, Step, broken, trouble};
use crate::meaning::{Literal, LiteralId, Meaning};
use crate::resolved::Home;
use ada_text::tree::{
    Body, BodyId, DeclarationForm, DeclarationId, Entry, ExpressionId, Identifier, Iteration,
    Parameter, StatementForm, StatementId, TypeDefinition,
};
use ada_text::{Cause, Trouble};
use indexmap::IndexSet;

impl<'a> Resolver<'a> {
    /// Asks for what a body has: its declarations, its statements, and its handlers.
    pub fn body(&mut self, id: BodyId) -> Result<(), Trouble> {
        let body = self.body_node(id)?;
        self.declarations(&body.declarations)?;
        self.ask(Step::Completions(id))?;
        self.body_labels(body)?;
        self.statements(&body.statements)?;
        self.handlers(&body.handlers)
    }

    /// Asks for the names of the loops and blocks of a body.
    fn body_labels(&mut self, body: &'a Body) -> Result<(), Trouble> {
        self.labels(&body.statements)?;
        self.alternative_labels(&body.handlers)
    }

    /// Asks for declarations.
    fn declarations(&mut self, ids: &'a [DeclarationId]) -> Result<(), Trouble> {
        for id in ids {
            self.ask(Step::Declaration(*id))?;
        }
        Ok(())
    }

    /// The body around the place, and how many enclose that.
    fn home(&self) -> Option<Home> {
        let count = self
            .enclosing
            .iter()
            .filter(|enclosing| enclosing.body.is_some())
            .count();
        let body = self
            .enclosing
            .iter()
            .rev()
            .find_map(|enclosing| enclosing.body)?;
        Some(Home {
            body,
            level: count.saturating_sub(1),
        })
    }

    /// Notes where a declaration stands.
    fn note_home(&mut self, id: DeclarationId) -> Result<(), Trouble> {
        let home = self.home().ok_or(broken())?;
        if let Some(place) = self.resolved.homes.get_mut(id.0 as usize) {
            *place = home;
        }
        Ok(())
    }

    /// Asks for the names in a declaration, and for what comes of it.
    pub fn declaration(&mut self, id: DeclarationId) -> Result<(), Trouble> {
        let node = self.declaration_node(id)?;
        self.note_home(id)?;
        if let DeclarationForm::TaskBody(body) = &node.form {
            return self.task_body(id, node.name, *body);
        }
        self.declaring = Some(self.symbol(node.name)?);
        match &node.form {
            DeclarationForm::Object {
                definition,
                value,
                ..
            } => {
                self.definition(definition)?;
                self.optional(*value)?;
            }
            DeclarationForm::Type(definition) => self.definition(definition)?,
            DeclarationForm::Subtype(mark) => self.ask(Step::Expression(*mark))?,
            DeclarationForm::Subprogram {
                parameters,
                result: outcome,
                ..
            } => {
                self.subtypes(parameters)?;
                self.optional(*outcome)?;
            }
            DeclarationForm::Task { entries, .. } => self.entries(entries)?,
            DeclarationForm::TaskBody(_) | DeclarationForm::Exception => {}
        }
        self.ask(Step::Visible(id))
    }

    /// Asks for an expression, if there is one.
    pub fn optional(&mut self, id: Option<ExpressionId>) -> Result<(), Trouble> {
        match id {
            Some(id) => self.ask(Step::Expression(id)),
            None => Ok(()),
        }
    }

    /// Asks for the names in the definition of a type.
    fn definition(&mut self, definition: &'a TypeDefinition) -> Result<(), Trouble> {
        match definition {
            TypeDefinition::Named(mark) => self.ask(Step::Expression(*mark)),
            TypeDefinition::Integer(range) => self.ask(Step::Expression(*range)),
            TypeDefinition::Array { index, component } => {
                self.ask(Step::Expression(*index))?;
                self.ask(Step::Expression(*component))
            }
            TypeDefinition::Enumeration(_) => Ok(()),
        }
    }

    /// Asks for the subtypes of parameters.
    pub fn subtypes(&mut self, parameters: &'a [Parameter]) -> Result<(), Trouble> {
        for parameter in parameters {
            self.ask(Step::Expression(parameter.subtype))?;
        }
        Ok(())
    }

    /// Asks for the names in the declarations of entries.
    fn entries(&mut self, entries: &'a [Entry]) -> Result<(), Trouble> {
        for entry in entries {
            self.check_distinct(&entry.parameters)?;
            self.optional(entry.range)?;
            self.subtypes(&entry.parameters)?;
        }
        Ok(())
    }

    /// The parameters of an entry have different names (8.3).
    fn check_distinct(&mut self, parameters: &'a [Parameter]) -> Result<(), Trouble> {
        let mut names = IndexSet::new(self.alloc);
        for parameter in parameters {
            let symbol = self.symbol(parameter.name)?;
            if !names.insert(symbol)? {
                return Err(trouble(parameter.name.at, Cause::DeclaredTwice));
            }
        }
        Ok(())
    }

    /// Makes the name of a declaration that is over visible, and those of its literals.
    pub fn make_visible(&mut self, id: DeclarationId) -> Result<(), Trouble> {
        let node = self.declaration_node(id)?;
        self.declaring = None;
        match &node.form {
            DeclarationForm::Subprogram { .. } => self.subprogram(id, node),
            DeclarationForm::Type(TypeDefinition::Enumeration(literals)) => {
                self.declare(node.name, Meaning::Declaration(id))?;
                self.declare_literals(id, literals)
            }
            _ => self.declare(node.name, Meaning::Declaration(id)),
        }
    }

    /// Declares the literals of an enumeration type (3.5.1).
    fn declare_literals(
        &mut self,
        owner: DeclarationId,
        literals: &'a [Identifier],
    ) -> Result<(), Trouble> {
        for (position, name) in literals.iter().enumerate() {
            self.declare_literal(owner, position, *name)?;
        }
        Ok(())
    }

    /// Declares a literal of an enumeration type, which may overload others.
    fn declare_literal(
        &mut self,
        owner: DeclarationId,
        position: usize,
        name: Identifier,
    ) -> Result<(), Trouble> {
        let symbol = self.symbol(name)?;
        let overloaded = match self.scopes.meaning(symbol) {
            Some(Meaning::Literal(other)) => Some(other),
            _ => None,
        };
        let id = LiteralId(self.resolved.literals.len());
        self.resolved.literals.push(Literal {
            owner: Some(owner),
            position,
            overloaded,
        })?;
        self.declare(name, Meaning::Literal(id))
    }

    /// Declares the parameters of a subprogram (6.1).
    pub fn declare_parameters(&mut self, id: DeclarationId) -> Result<(), Trouble> {
        let DeclarationForm::Subprogram { parameters, .. } = &self.declaration_node(id)?.form else {
            return Err(broken());
        };
        for (position, parameter) in parameters.iter().enumerate() {
            let meaning = Meaning::Parameter {
                subprogram: id,
                position,
            };
            self.declare(parameter.name, meaning)?;
        }
        Ok(())
    }

    /// Declares the entries of a task (9.5).
    pub fn declare_entries(&mut self, id: DeclarationId) -> Result<(), Trouble> {
        for (position, entry) in self.entries_of(id)?.iter().enumerate() {
            let meaning = Meaning::Entry { task: id, position };
            self.declare(entry.name, meaning)?;
        }
        Ok(())
    }

    /// The entries of a task.
    pub fn entries_of(&self, id: DeclarationId) -> Result<&'a [Entry], Trouble> {
        match &self.declaration_node(id)?.form {
            DeclarationForm::Task { entries, .. } => Ok(entries),
            _ => Err(broken()),
        }
    }

    /// Declares the parameter of a loop, if it has one (5.5).
    pub fn declare_loop_parameter(&mut self, id: StatementId) -> Result<(), Trouble> {
        if let StatementForm::Loop { iteration, .. } = &self.statement_node(id)?.form {
            if let Iteration::For { parameter, .. } = iteration {
                return self.declare(*parameter, Meaning::LoopParameter(id));
            }
        }
        Ok(())
    }

    /// Declares the parameters of an accept statement (9.5).
    pub fn declare_accept_parameters(&mut self, id: StatementId) -> Result<(), Trouble> {
        let StatementForm::Accept(accept) = &self.statement_node(id)?.form else {
            return Err(broken());
        };
        for (position, parameter) in accept.parameters.iter().enumerate() {
            let meaning = Meaning::AcceptParameter {
                accept: id,
                position,
            };
            self.declare(parameter.name, meaning)?;
        }
        Ok(())
    }
}
