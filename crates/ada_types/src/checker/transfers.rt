//! Statements whose expressions are typed: assignments (5.2), calls (6.4, 9.5), returns (5.8) and the like.

use super::operands::Operand;
use super::{Checker, broken, trouble};
use crate::class::Class;
use crate::types::TypeId;
use crate::unit::Unit;
use ada_names::{Meaning, Predefined};
use ada_text::tree::{ExpressionId, Iteration, StatementForm, StatementId};
use ada_text::{Cause, Trouble};

impl<'a> Checker<'a> {
    /// Checks a statement whose expressions are typed.
    pub fn stated(&mut self, id: StatementId) -> Result<(), Trouble> {
        let node = self.statement_node(id)?;
        match &node.form {
            StatementForm::Assignment { target, value } => self.assignment(*target, *value),
            StatementForm::Call(call) => self.call(*call),
            StatementForm::Case {
                selector,
                alternatives,
            } => self.case(node.at, *selector, alternatives),
            StatementForm::Loop { iteration, .. } => self.check_iteration(iteration),
            StatementForm::Return(value) => self.returned(node.at, *value),
            StatementForm::Accept(accept) => self.accepted(id, accept),
            StatementForm::Delay(span) => {
                self.note_request(node.at)?;
                self.settle(*span, TypeId::DURATION)
            }
            StatementForm::Abort(tasks) => {
                self.note_request(node.at)?;
                self.check_tasks(tasks)
            }
            _ => Err(broken()),
        }
    }

    /// A condition is of type BOOLEAN (5.3).
    pub fn condition(&mut self, id: ExpressionId) -> Result<(), Trouble> {
        match self.operand(id)? {
            Operand::Of(base) if base == TypeId::BOOLEAN => Ok(()),
            Operand::Literals => self.settle(id, TypeId::BOOLEAN),
            _ => Err(self.fault_in(id, Cause::NoCondition)),
        }
    }

    /// A variable that is no task is assigned a value of its type (5.2).
    fn assignment(&mut self, target: ExpressionId, value: ExpressionId) -> Result<(), Trouble> {
        if let Some(base) = self.class(target).and_then(|class| class.base()) {
            if self.has_tasks(base) {
                return Err(self.fault_in(target, Cause::TaskValues));
            }
        }
        let base = self.variable(target, false)?;
        self.check_others(value)?;
        self.settle(value, base)
    }

    /// A call is of a procedure, or of an entry (6.4, 9.5).
    fn call(&mut self, id: ExpressionId) -> Result<(), Trouble> {
        let at = self.expression_node(id)?.at;
        match self.class(id) {
            Some(Class::Procedure(procedure)) => {
                if !self.parameters_of(procedure)?.is_empty() {
                    return Err(trouble(at, Cause::ArgumentCount));
                }
                self.note_call(procedure, at)
            }
            Some(Class::ProcedureCall(procedure)) => self.note_call(procedure, at),
            Some(Class::Entry { task, position }) => {
                if !self.entry_of(task, position)?.parameters.is_empty() {
                    return Err(trouble(at, Cause::ArgumentCount));
                }
                self.note_request(at)
            }
            Some(Class::EntryCall { .. }) => self.note_request(at),
            Some(Class::Family { .. }) => Err(trouble(at, Cause::FamilyIndexOfCall)),
            Some(Class::Output(Predefined::NewLine) | Class::OutputCall(_)) => Ok(()),
            Some(Class::Output(_)) => Err(trouble(at, Cause::ArgumentCount)),
            Some(Class::Region) if self.meaning_of(id) == Some(Meaning::Main) => {
                Err(trouble(at, Cause::Recursion))
            }
            _ => Err(trouble(at, Cause::NoProcedure)),
        }
    }

    /// A conditional or timed entry call is one of an entry (9.7.2, 9.7.3).
    pub fn check_entry_call(&self, id: StatementId) -> Result<(), Trouble> {
        let StatementForm::Call(call) = self.statement_node(id)?.form else {
            return Ok(());
        };
        match self.class(call) {
            Some(Class::Entry { .. } | Class::EntryCall { .. }) => Ok(()),
            _ => Err(self.fault_in(call, Cause::NoEntryCall)),
        }
    }

    /// A for loop has a discrete range (5.5).
    fn check_iteration(&mut self, iteration: &'a Iteration) -> Result<(), Trouble> {
        if let Iteration::For { range, .. } = iteration {
            self.discrete_range(*range)?;
        }
        Ok(())
    }

    /// A function returns a value of its result's type, and a procedure none (5.8).
    fn returned(&mut self, at: u32, value: Option<ExpressionId>) -> Result<(), Trouble> {
        self.note_return();
        match (self.unit()?, value) {
            (Unit::Function(_, subtype), Some(value)) => self.settle(value, subtype.base),
            (Unit::Function(_, _), None) => Err(trouble(at, Cause::ReturnWithoutValue)),
            (_, Some(value)) => Err(self.fault_in(value, Cause::ReturnWithValue)),
            (_, None) => Ok(()),
        }
    }

    /// Expressions are tasks (9.10).
    fn check_tasks(&self, ids: &'a [ExpressionId]) -> Result<(), Trouble> {
        for id in ids {
            self.check_task(*id)?;
        }
        Ok(())
    }
}
