//! Names in statements (chapter 5).

use super::{Resolver, Step};
use crate::construct::Construct;
use ada_text::Trouble;
use ada_text::tree::{
    Alternative, Arm, Iteration, Select, SelectAlternative, StatementForm, StatementId,
};

impl<'a> Resolver<'a> {
    /// Asks for statements.
    pub fn statements(&mut self, ids: &'a [StatementId]) -> Result<(), Trouble> {
        for id in ids {
            self.ask(Step::Statement(*id))?;
        }
        Ok(())
    }

    /// Asks for the names in a statement.
    pub fn statement(&mut self, id: StatementId) -> Result<(), Trouble> {
        let node = self.statement_node(id)?;
        match &node.form {
            StatementForm::Null | StatementForm::Terminate => Ok(()),
            StatementForm::Assignment { target, value } => self.both(*target, *value),
            StatementForm::Call(call) => self.ask(Step::Expression(*call)),
            StatementForm::Delay(span) => self.ask(Step::Expression(*span)),
            StatementForm::If { arms, otherwise } => {
                self.arms(arms)?;
                self.statements(otherwise)
            }
            StatementForm::Case {
                selector,
                alternatives,
            } => {
                self.ask(Step::Expression(*selector))?;
                self.alternatives(alternatives)
            }
            StatementForm::Loop {
                iteration,
                statements,
                ..
            } => self.repetition(id, iteration, statements),
            StatementForm::Block { body, .. } => self.unit(Construct::Block(id), *body),
            StatementForm::Exit { name, condition } => {
                self.exit(id, node.at, *name)?;
                self.optional(*condition)
            }
            StatementForm::Return(value) => {
                self.check_return(node.at)?;
                self.optional(*value)
            }
            StatementForm::Accept(accept) => self.accept(id, accept),
            StatementForm::Select(select) => self.selection(select),
            StatementForm::Abort(tasks) => self.expressions(tasks),
            StatementForm::Raise(name) => self.raise(node.at, *name),
        }
    }

    /// Asks for conditions and their statements (5.3).
    fn arms(&mut self, arms: &'a [Arm]) -> Result<(), Trouble> {
        for arm in arms {
            self.ask(Step::Expression(arm.condition))?;
            self.statements(&arm.statements)?;
        }
        Ok(())
    }

    /// Asks for the alternatives of a case statement (5.4).
    fn alternatives(&mut self, alternatives: &'a [Alternative]) -> Result<(), Trouble> {
        for alternative in alternatives {
            self.expressions(&alternative.choices)?;
            self.statements(&alternative.statements)?;
        }
        Ok(())
    }

    /// Asks for a loop (5.5), in whose range its parameter isn't visible and hides others.
    fn repetition(
        &mut self,
        id: StatementId,
        iteration: &'a Iteration,
        statements: &'a [StatementId],
    ) -> Result<(), Trouble> {
        match iteration {
            Iteration::Endless => {}
            Iteration::While(condition) => self.ask(Step::Expression(*condition))?,
            Iteration::For {
                parameter,
                range,
                ..
            } => {
                self.declaring = Some(self.symbol(*parameter)?);
                self.ask(Step::Expression(*range))?;
            }
        }
        self.ask(Step::Open(Construct::Loop(id), None))?;
        self.statements(statements)?;
        self.ask(Step::Close)
    }

    /// Asks for a select statement (9.7).
    fn selection(&mut self, select: &'a Select) -> Result<(), Trouble> {
        self.select_alternatives(&select.alternatives)?;
        match &select.otherwise {
            Some(statements) => self.statements(statements),
            None => Ok(()),
        }
    }

    /// Asks for the alternatives of a select statement.
    fn select_alternatives(
        &mut self,
        alternatives: &'a [SelectAlternative],
    ) -> Result<(), Trouble> {
        for alternative in alternatives {
            self.optional(alternative.guard)?;
            self.ask(Step::Statement(alternative.event))?;
            self.statements(&alternative.statements)?;
        }
        Ok(())
    }
}
