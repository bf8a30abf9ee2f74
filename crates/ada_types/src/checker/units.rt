//! The units around a place, and what stands in them.

use super::{Checker, Step, broken, trouble};
use crate::unit::{Enclosing, Unit};
use ada_text::tree::{Alternative, BodyId, DeclarationId, ExpressionId, StatementId};
use ada_text::{Cause, Trouble};

impl<'a> Checker<'a> {
    /// Begins a unit.
    pub fn enter(&mut self, unit: Unit) -> Result<(), Trouble> {
        if let Unit::Function(id, _) = unit {
            self.call_graph.note_function(id);
        }
        self.units.push(Enclosing {
            unit,
            returns: false,
        })?;
        Ok(())
    }

    /// Ends the innermost unit: a function has a return statement (6.5).
    pub fn leave(&mut self) -> Result<(), Trouble> {
        match self.units.pop() {
            Some(
                Enclosing {
                    unit: Unit::Function(id, _),
                    returns,
                },
            ) if !returns => {
                let at = self.declaration_node(id)?.name.at;
                Err(trouble(at, Cause::NoReturn))
            }
            _ => Ok(()),
        }
    }

    /// The innermost unit.
    pub fn unit(&self) -> Result<Unit, Trouble> {
        match self.units.last() {
            Some(enclosing) => Ok(enclosing.unit),
            None => Err(broken()),
        }
    }

    /// The subprogram that is the innermost unit, if that is one.
    pub fn subprogram_around(&self) -> Option<DeclarationId> {
        self.units
            .last()
            .and_then(|enclosing| enclosing.unit.subprogram())
    }

    /// Notes that a return statement stands in the innermost unit.
    pub fn note_return(&mut self) {
        if let Some(enclosing) = self.units.last_mut() {
            enclosing.returns = true;
        }
    }

    /// Whether the place is in the body of a task (9.1).
    pub fn is_in_task(&self, task: DeclarationId) -> bool {
        self.units
            .iter()
            .any(|enclosing| enclosing.unit == Unit::Task(task))
    }

    /// Notes that the task may wait at a place, or aborts another one: not in a function.
    pub fn note_request(&mut self, at: u32) -> Result<(), Trouble> {
        match self.unit()? {
            Unit::Function(_, _) => Err(trouble(at, Cause::RequestInFunction)),
            Unit::Procedure(id) => {
                self.call_graph.note_request(id);
                Ok(())
            }
            Unit::Main | Unit::Task(_) => Ok(()),
        }
    }

    /// Notes a call of a subprogram (6.4).
    pub fn note_call(&mut self, callee: DeclarationId, at: u32) -> Result<(), Trouble> {
        match self.subprogram_around() {
            Some(caller) => self.call_graph.add(caller, callee, at),
            None => Ok(()),
        }
    }

    /// Asks for what a body has: its declarations, its statements, and its handlers.
    pub fn body(&mut self, id: BodyId) -> Result<(), Trouble> {
        let body = self.body_node(id)?;
        self.declarations(&body.declarations)?;
        self.statements(&body.statements)?;
        self.handlers(&body.handlers)
    }

    /// Asks for declarations.
    fn declarations(&mut self, ids: &'a [DeclarationId]) -> Result<(), Trouble> {
        for id in ids {
            self.ask(Step::Declaration(*id))?;
        }
        Ok(())
    }

    /// Asks for statements.
    pub fn statements(&mut self, ids: &'a [StatementId]) -> Result<(), Trouble> {
        for id in ids {
            self.ask(Step::Statement(*id))?;
        }
        Ok(())
    }

    /// Asks for expressions.
    pub fn expressions(&mut self, ids: &'a [ExpressionId]) -> Result<(), Trouble> {
        for id in ids {
            self.ask(Step::Expression(*id))?;
        }
        Ok(())
    }

    /// Asks for an expression, if there is one.
    pub fn optional(&mut self, id: Option<ExpressionId>) -> Result<(), Trouble> {
        match id {
            Some(id) => self.ask(Step::Expression(id)),
            None => Ok(()),
        }
    }

    /// Asks for exception handlers (11.2).
    fn handlers(&mut self, handlers: &'a [Alternative]) -> Result<(), Trouble> {
        for handler in handlers {
            self.expressions(&handler.choices)?;
            self.statements(&handler.statements)?;
        }
        Ok(())
    }
}
