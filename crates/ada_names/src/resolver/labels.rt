//! The names of loops and blocks, which the body around them declares at the end of its declarative part (5.1).

use super::{Resolver, Step};
use crate::meaning::Meaning;
use ada_text::Trouble;
use ada_text::tree::{
    Alternative, Arm, Identifier, Select, SelectAlternative, StatementForm, StatementId,
};

impl<'a> Resolver<'a> {
    /// Asks for the names in statements.
    pub fn labels(&mut self, ids: &'a [StatementId]) -> Result<(), Trouble> {
        for id in ids {
            self.ask(Step::Labels(*id))?;
        }
        Ok(())
    }

    /// Declares the name of a loop or a block, and asks for those in its statements. A block declares those in its own.
    pub fn label(&mut self, id: StatementId) -> Result<(), Trouble> {
        match &self.statement_node(id)?.form {
            StatementForm::Loop {
                name,
                statements,
                ..
            } => {
                self.declare_label(id, *name)?;
                self.labels(statements)
            }
            StatementForm::Block { name, .. } => self.declare_label(id, *name),
            StatementForm::If { arms, otherwise } => {
                self.arm_labels(arms)?;
                self.labels(otherwise)
            }
            StatementForm::Case { alternatives, .. } => self.alternative_labels(alternatives),
            StatementForm::Accept(accept) => self.labels(&accept.statements),
            StatementForm::Select(select) => self.select_labels(select),
            _ => Ok(()),
        }
    }

    /// Declares the name of a loop or a block, if it has one.
    fn declare_label(&mut self, id: StatementId, name: Option<Identifier>) -> Result<(), Trouble> {
        match name {
            Some(name) => self.declare(name, Meaning::Statement(id)),
            None => Ok(()),
        }
    }

    /// Asks for the names in the statements of an if statement.
    fn arm_labels(&mut self, arms: &'a [Arm]) -> Result<(), Trouble> {
        for arm in arms {
            self.labels(&arm.statements)?;
        }
        Ok(())
    }

    /// Asks for the names in the statements of a case statement, or of handlers.
    pub fn alternative_labels(&mut self, alternatives: &'a [Alternative]) -> Result<(), Trouble> {
        for alternative in alternatives {
            self.labels(&alternative.statements)?;
        }
        Ok(())
    }

    /// Asks for the names in a select statement.
    fn select_labels(&mut self, select: &'a Select) -> Result<(), Trouble> {
        self.select_alternative_labels(&select.alternatives)?;
        match &select.otherwise {
            Some(statements) => self.labels(statements),
            None => Ok(()),
        }
    }

    /// Asks for the names in the alternatives of a select statement.
    fn select_alternative_labels(
        &mut self,
        alternatives: &'a [SelectAlternative],
    ) -> Result<(), Trouble> {
        for alternative in alternatives {
            self.ask(Step::Labels(alternative.event))?;
            self.labels(&alternative.statements)?;
        }
        Ok(())
    }
}
