//! Subprograms (chapter 6): their parameters, their results and their bodies.

use super::{Checker, Step, trouble};
use crate::types::Subtype;
use crate::unit::Unit;
use ada_text::tree::{BodyId, DeclarationId, ExpressionId, Mode, Parameter};
use ada_text::{Cause, Trouble};

impl<'a> Checker<'a> {
    /// Asks for the subtypes of parameters.
    pub fn marks(&mut self, parameters: &'a [Parameter]) -> Result<(), Trouble> {
        for parameter in parameters {
            self.ask(Step::Expression(parameter.subtype))?;
        }
        Ok(())
    }

    /// The subtype of a parameter or of a result, which has no tasks.
    fn passed_subtype(&self, mark: ExpressionId) -> Result<Subtype, Trouble> {
        let subtype = self.subtype_of(mark)?;
        if self.has_tasks(subtype.base) {
            return Err(self.fault_in(mark, Cause::TaskParameters));
        }
        Ok(subtype)
    }

    /// Parameters are of subtypes without tasks.
    pub fn check_parameters(&self, parameters: &'a [Parameter]) -> Result<(), Trouble> {
        for parameter in parameters {
            self.passed_subtype(parameter.subtype)?;
        }
        Ok(())
    }

    /// The parameters of a function are of mode `in` (6.5).
    fn check_modes(&self, parameters: &'a [Parameter]) -> Result<(), Trouble> {
        match parameters
            .iter()
            .find(|parameter| parameter.mode != Mode::In)
        {
            Some(parameter) => Err(trouble(parameter.name.at, Cause::FunctionMode)),
            None => Ok(()),
        }
    }

    /// Checks the parameters of a subprogram (6.1), and notes the subtype of its result.
    pub fn subprogram(
        &mut self,
        id: DeclarationId,
        parameters: &'a [Parameter],
        outcome: Option<ExpressionId>,
    ) -> Result<(), Trouble> {
        self.check_parameters(parameters)?;
        if let Some(mark) = outcome {
            self.check_modes(parameters)?;
            let subtype = self.passed_subtype(mark)?;
            self.note_declared(id, subtype, None);
        }
        Ok(())
    }

    /// Asks for the body of a subprogram, if it stands here (6.3).
    pub fn subprogram_body(
        &mut self,
        body: Option<BodyId>,
        outcome: Option<ExpressionId>,
    ) -> Result<(), Trouble> {
        let Some(body) = body else {
            return Ok(());
        };
        let owner = self.owner_of(body)?;
        match outcome {
            Some(mark) => self.ask(Step::Function(owner, mark))?,
            None => self.ask(Step::Enter(Unit::Procedure(owner)))?,
        }
        self.ask(Step::Body(body))?;
        self.ask(Step::Leave)
    }

    /// Begins a function, the mark of whose result is typed.
    pub fn enter_function(&mut self, id: DeclarationId, mark: ExpressionId) -> Result<(), Trouble> {
        let subtype = self.passed_subtype(mark)?;
        self.enter(Unit::Function(id, subtype))
    }
}
