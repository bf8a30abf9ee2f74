//! Calls of subprograms (6.4), of entries (9.5) and of TEXT_IO (14.3).

use super::operands::Operand;
use super::{Checker, trouble};
use crate::class::Class;
use crate::spelling::is_same;
use crate::types::TypeId;
use ada_names::Predefined;
use ada_text::tree::{Association, DeclarationId, ExpressionForm, ExpressionId, Mode, Parameter};
use ada_text::{Cause, Trouble};

impl<'a> Checker<'a> {
    /// Notes a call of a function (6.4).
    pub fn function_call(
        &mut self,
        id: ExpressionId,
        function: DeclarationId,
        arguments: &'a [Association],
    ) -> Result<(), Trouble> {
        let parameters = self.parameters_of(function)?;
        self.pass_all(id, arguments, parameters)?;
        self.note_call(function, self.expression_node(id)?.at)?;
        let subtype = self.declared_of(function)?.subtype;
        self.note(id, Class::Call { function, subtype });
        Ok(())
    }

    /// Notes a call of a procedure with arguments (6.4).
    pub fn procedure_call(
        &mut self,
        id: ExpressionId,
        procedure: DeclarationId,
        arguments: &'a [Association],
    ) -> Result<(), Trouble> {
        let parameters = self.parameters_of(procedure)?;
        self.pass_all(id, arguments, parameters)?;
        self.note(id, Class::ProcedureCall(procedure));
        Ok(())
    }

    /// Notes a call of an entry with arguments (9.5). A single entry without parameters has no index either.
    pub fn entry_call(
        &mut self,
        id: ExpressionId,
        task: DeclarationId,
        position: usize,
        arguments: &'a [Association],
    ) -> Result<(), Trouble> {
        let entry = self.entry_of(task, position)?;
        if entry.parameters.is_empty() {
            return Err(self.fault_in(id, Cause::FamilyIndexOfCall));
        }
        self.pass_all(id, arguments, &entry.parameters)?;
        self.note(id, Class::EntryCall { task, position });
        Ok(())
    }

    /// Notes a call of a procedure of TEXT_IO with its argument (14.3): PUT writes characters too, and NEW_LINE takes a
    /// number.
    pub fn output_call(
        &mut self,
        id: ExpressionId,
        name: Predefined,
        arguments: &'a [Association],
    ) -> Result<(), Trouble> {
        let [argument] = arguments else {
            return Err(self.fault_in(id, Cause::ArgumentCount));
        };
        if let Some(choice) = argument.choices.first() {
            return Err(self.fault_in(*choice, Cause::NoSuchParameter));
        }
        let wanted = match (name, self.operand(argument.value)?) {
            (Predefined::NewLine, _) => TypeId::UNIVERSAL,
            (Predefined::Put, Operand::Of(base)) if base == TypeId::CHARACTER => base,
            (Predefined::Put, Operand::Literals) => TypeId::CHARACTER,
            _ => TypeId::TEXT,
        };
        self.settle(argument.value, wanted)?;
        self.note(id, Class::OutputCall(name));
        Ok(())
    }

    /// What has a name or a choice stands after all that goes by its position (4.3, 6.4).
    pub fn check_order(&self, parts: &'a [Association]) -> Result<(), Trouble> {
        let by_position = parts
            .iter()
            .skip_while(|part| part.choices.is_empty())
            .find(|part| part.choices.is_empty());
        match by_position {
            Some(part) => Err(self.fault_in(part.value, Cause::PositionAfterName)),
            None => Ok(()),
        }
    }

    /// Each parameter of a call has one argument, of its type (6.4.1).
    fn pass_all(
        &mut self,
        id: ExpressionId,
        arguments: &'a [Association],
        parameters: &'a [Parameter],
    ) -> Result<(), Trouble> {
        self.check_order(arguments)?;
        let mut passed = vec![in self.alloc; false; parameters.len()]?;
        for (index, argument) in arguments.iter().enumerate() {
            let position = match argument.choices.as_slice() {
                [] => index,
                choices => self.formal(choices, parameters)?,
            };
            self.pass(id, argument, parameters.get(position))?;
            self.mark_passed(argument, position, &mut passed)?;
        }
        if passed.iter().all(|passed| *passed) {
            Ok(())
        } else {
            Err(self.fault_in(id, Cause::ArgumentCount))
        }
    }

    /// The position of the parameter that the name before an arrow denotes (6.4.1).
    fn formal(
        &mut self,
        choices: &'a [ExpressionId],
        parameters: &'a [Parameter],
    ) -> Result<usize, Trouble> {
        let [choice] = choices else {
            return Err(self.unknown_formal(choices));
        };
        let ExpressionForm::Name(name) = self.expression_node(*choice)?.form else {
            return Err(self.unknown_formal(choices));
        };
        let position = parameters
            .iter()
            .position(|parameter| is_same(self.text, parameter.name, name));
        match position {
            Some(position) => {
                self.note(*choice, Class::Formal(position));
                Ok(position)
            }
            None => Err(trouble(name.at, Cause::NoSuchParameter)),
        }
    }

    /// What stands before an arrow is no parameter's name.
    fn unknown_formal(&self, choices: &'a [ExpressionId]) -> Trouble {
        match choices.first() {
            Some(choice) => self.fault_in(*choice, Cause::NoSuchParameter),
            None => trouble(0, Cause::BrokenTree),
        }
    }

    /// An argument is of the type of its parameter, and a variable if that is assigned to (6.4.1).
    fn pass(
        &mut self,
        id: ExpressionId,
        argument: &'a Association,
        parameter: Option<&'a Parameter>,
    ) -> Result<(), Trouble> {
        let Some(parameter) = parameter else {
            return Err(self.fault_in(id, Cause::ArgumentCount));
        };
        let base = self.subtype_of(parameter.subtype)?.base;
        if parameter.mode == Mode::In {
            return self.settle(argument.value, base);
        }
        let reads = parameter.mode == Mode::InOut;
        if self.variable(argument.value, reads)? != base {
            return Err(self.fault_in(argument.value, Cause::WrongType));
        }
        Ok(())
    }

    /// Notes that a parameter has its argument, and has no other (6.4.1).
    fn mark_passed(
        &self,
        argument: &'a Association,
        position: usize,
        passed: &mut Vec<bool>,
    ) -> Result<(), Trouble> {
        match passed.get_mut(position) {
            Some(passed) if !*passed => {
                *passed = true;
                Ok(())
            }
            _ => Err(self.fault_in(argument.value, Cause::ArgumentTwice)),
        }
    }
}
