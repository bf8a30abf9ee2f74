//! Statements (chapter 5).

use super::{Checker, Step};
use ada_text::Trouble;
use ada_text::tree::{
    Accept, Arm, ExpressionId, Iteration, Select, SelectAlternative, StatementForm, StatementId,
};

impl<'a> Checker<'a> {
    /// Asks for what a statement has: its expressions, the statement itself, and its statements.
    pub fn statement(&mut self, id: StatementId) -> Result<(), Trouble> {
        match &self.statement_node(id)?.form {
            StatementForm::Null | StatementForm::Terminate => Ok(()),
            StatementForm::Assignment { target, value } => {
                self.ask(Step::Expression(*target))?;
                self.one(id, *value)
            }
            StatementForm::Call(call) => self.one(id, *call),
            StatementForm::Delay(span) => self.one(id, *span),
            StatementForm::Raise(name) => self.optional(*name),
            StatementForm::If { arms, otherwise } => {
                self.arms(arms)?;
                self.statements(otherwise)
            }
            StatementForm::Case {
                selector,
                alternatives,
            } => self.case_parts(id, *selector, alternatives),
            StatementForm::Loop {
                iteration,
                statements,
                ..
            } => {
                self.iteration(id, iteration)?;
                self.statements(statements)
            }
            StatementForm::Block { body, .. } => self.ask(Step::Body(*body)),
            StatementForm::Exit { condition, .. } => self.guard(*condition),
            StatementForm::Return(value) => self.result_value(id, *value),
            StatementForm::Accept(accept) => self.accept(id, accept),
            StatementForm::Select(select) => self.selection(select),
            StatementForm::Abort(tasks) => {
                self.expressions(tasks)?;
                self.ask(Step::Stated(id))
            }
        }
    }

    /// Asks for an expression of a statement, and for the statement itself.
    fn one(&mut self, id: StatementId, part: ExpressionId) -> Result<(), Trouble> {
        self.ask(Step::Expression(part))?;
        self.ask(Step::Stated(id))
    }

    /// Asks for a return statement (5.8).
    fn result_value(
        &mut self,
        id: StatementId,
        value: Option<ExpressionId>,
    ) -> Result<(), Trouble> {
        self.optional(value)?;
        self.ask(Step::Stated(id))
    }

    /// Asks for a condition, if there is one.
    fn guard(&mut self, condition: Option<ExpressionId>) -> Result<(), Trouble> {
        match condition {
            Some(condition) => {
                self.ask(Step::Expression(condition))?;
                self.ask(Step::Condition(condition))
            }
            None => Ok(()),
        }
    }

    /// Asks for conditions and their statements (5.3).
    fn arms(&mut self, arms: &'a [Arm]) -> Result<(), Trouble> {
        for arm in arms {
            self.guard(Some(arm.condition))?;
            self.statements(&arm.statements)?;
        }
        Ok(())
    }

    /// Asks for the condition or the range of a loop (5.5).
    fn iteration(&mut self, id: StatementId, iteration: &'a Iteration) -> Result<(), Trouble> {
        match iteration {
            Iteration::Endless => Ok(()),
            Iteration::While(condition) => self.guard(Some(*condition)),
            Iteration::For { range, .. } => self.one(id, *range),
        }
    }

    /// Asks for an accept statement (9.5).
    fn accept(&mut self, id: StatementId, accept: &'a Accept) -> Result<(), Trouble> {
        self.optional(accept.index)?;
        self.marks(&accept.parameters)?;
        self.ask(Step::Stated(id))?;
        self.statements(&accept.statements)
    }

    /// Asks for a select statement (9.7).
    fn selection(&mut self, select: &'a Select) -> Result<(), Trouble> {
        self.select_alternatives(&select.alternatives)?;
        match &select.otherwise {
            Some(statements) => self.statements(statements),
            None => Ok(()),
        }
    }

    /// Asks for the alternatives of a select statement.
    fn select_alternatives(
        &mut self,
        alternatives: &'a [SelectAlternative],
    ) -> Result<(), Trouble> {
        for alternative in alternatives {
            self.guard(alternative.guard)?;
            self.ask(Step::Statement(alternative.event))?;
            self.ask(Step::EntryCall(alternative.event))?;
            self.statements(&alternative.statements)?;
        }
        Ok(())
    }
}
