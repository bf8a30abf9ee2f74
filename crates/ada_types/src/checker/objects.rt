//! What names are (4.1), by what they denote.

use super::{Checker, broken};
use crate::bounds::Bounds;
use crate::class::{Access, Class};
use crate::types::{CHARACTER_RANGE, DURATION_RANGE, INTEGER_RANGE, Subtype, TypeId};
use ada_names::{Meaning, Predefined};
use ada_text::tree::{
    DeclarationForm, DeclarationId, ExpressionId, Iteration, Mode, Parameter, StatementForm,
    StatementId,
};
use ada_text::{Cause, Trouble};

/// What may be done with a parameter of this mode (6.2).
fn access_of(mode: Mode) -> Access {
    match mode {
        Mode::In => Access::Constant,
        Mode::InOut => Access::Variable,
        Mode::Out => Access::Out,
    }
}

/// The integers from this one on (annex C).
fn integers_from(low: i64) -> Class {
    Class::Subtype(Subtype::scalar(
        TypeId::INTEGER,
        Bounds {
            low,
            high: INTEGER_RANGE.high,
        },
    ))
}

/// The first subtype of a scalar type.
fn scalar_type(base: TypeId, bounds: Bounds) -> Class {
    Class::Subtype(Subtype::scalar(base, bounds))
}

/// What a name of the language or of TEXT_IO is (annex C, 14.3).
fn predefined(name: Predefined) -> Class {
    match name {
        Predefined::Boolean => scalar_type(TypeId::BOOLEAN, Bounds { low: 0, high: 1 }),
        Predefined::Integer => integers_from(INTEGER_RANGE.low),
        Predefined::Natural => integers_from(0),
        Predefined::Positive => integers_from(1),
        Predefined::Character => scalar_type(TypeId::CHARACTER, CHARACTER_RANGE),
        Predefined::Duration => scalar_type(TypeId::DURATION, DURATION_RANGE),
        Predefined::Text => Class::Subtype(Subtype::composite(TypeId::TEXT)),
        Predefined::Put | Predefined::PutLine | Predefined::NewLine => Class::Output(name),
        Predefined::Standard | Predefined::TextIo => Class::Region,
        Predefined::ConstraintError
        | Predefined::NumericError
        | Predefined::ProgramError
        | Predefined::StorageError
        | Predefined::TaskingError => Class::Exception,
    }
}

impl<'a> Checker<'a> {
    /// Notes what the name is that an expression is.
    pub fn name(&mut self, id: ExpressionId, at: u32, meaning: Meaning) -> Result<(), Trouble> {
        let class = match meaning {
            Meaning::Literal(_) => return self.lone_literal(id),
            Meaning::Declaration(declaration) => self.declaration_class(declaration, at)?,
            Meaning::Parameter {
                subprogram,
                position,
            } => self.parameter_class(self.parameters_of(subprogram)?, position)?,
            Meaning::AcceptParameter { accept, position } => {
                self.accept_parameter_class(accept, position)?
            }
            Meaning::LoopParameter(statement) => self.loop_parameter_class(statement)?,
            Meaning::Entry { task, position } => self.entry_class(task, position)?,
            Meaning::Predefined(name) => predefined(name),
            Meaning::Statement(_) | Meaning::Main => Class::Region,
        };
        self.note(id, class);
        Ok(())
    }

    /// What a name is that denotes a declaration.
    fn declaration_class(&mut self, id: DeclarationId, at: u32) -> Result<Class, Trouble> {
        match &self.declaration_node(id)?.form {
            DeclarationForm::Object { is_constant, .. } => self.object_class(id, *is_constant),
            DeclarationForm::Type(_) | DeclarationForm::Subtype(_) => {
                Ok(Class::Subtype(self.declared_of(id)?.subtype))
            }
            DeclarationForm::Subprogram {
                parameters,
                result: outcome,
                ..
            } => self.subprogram_class(id, parameters, outcome.is_some(), at),
            DeclarationForm::Task { is_type, .. } => self.task_class(id, *is_type),
            DeclarationForm::Exception => Ok(Class::Exception),
            DeclarationForm::TaskBody(_) => Err(broken()),
        }
    }

    /// What the name of an object is (3.2.1). Tasks are constant (9.2).
    fn object_class(&self, id: DeclarationId, is_constant: bool) -> Result<Class, Trouble> {
        let declared = self.declared_of(id)?;
        let keeps = is_constant || self.has_tasks(declared.subtype.base);
        Ok(Class::Object {
            subtype: declared.subtype,
            access: if keeps {
                Access::Constant
            } else {
                Access::Variable
            },
            value: declared.value,
        })
    }

    /// What the name of a subprogram is: a call, if that is a function without parameters (6.4).
    fn subprogram_class(
        &mut self,
        id: DeclarationId,
        parameters: &'a [Parameter],
        is_function: bool,
        at: u32,
    ) -> Result<Class, Trouble> {
        if !is_function {
            return Ok(Class::Procedure(id));
        }
        if !parameters.is_empty() {
            return Ok(Class::Function(id));
        }
        self.note_call(id, at)?;
        Ok(Class::Call {
            function: id,
            subtype: self.declared_of(id)?.subtype,
        })
    }

    /// What the name of a task is; that of a task type is the task itself in its body (9.1).
    fn task_class(&self, id: DeclarationId, is_type: bool) -> Result<Class, Trouble> {
        let subtype = self.declared_of(id)?.subtype;
        if is_type && !self.is_in_task(id) {
            return Ok(Class::Subtype(subtype));
        }
        Ok(Class::Object {
            subtype,
            access: Access::Constant,
            value: None,
        })
    }

    /// What the name of a parameter is (6.2).
    fn parameter_class(
        &self,
        parameters: &'a [Parameter],
        position: usize,
    ) -> Result<Class, Trouble> {
        let parameter = parameters.get(position).ok_or(broken())?;
        Ok(Class::Object {
            subtype: self.subtype_of(parameter.subtype)?,
            access: access_of(parameter.mode),
            value: None,
        })
    }

    /// What the name of a parameter of an accept statement is (9.5).
    fn accept_parameter_class(&self, id: StatementId, position: usize) -> Result<Class, Trouble> {
        match &self.statement_node(id)?.form {
            StatementForm::Accept(accept) => self.parameter_class(&accept.parameters, position),
            _ => Err(broken()),
        }
    }

    /// What the name of the parameter of a loop is (5.5). One of a range that isn't static has its base type's range.
    fn loop_parameter_class(&mut self, id: StatementId) -> Result<Class, Trouble> {
        let StatementForm::Loop {
            iteration: Iteration::For { range, .. },
            ..
        } = &self.statement_node(id)?.form
        else {
            return Err(broken());
        };
        let (base, bounds) = self.discrete_range(*range)?;
        Ok(Class::Object {
            subtype: Subtype {
                base,
                bounds: bounds.or(self.range_of(base)),
            },
            access: Access::Constant,
            value: None,
        })
    }

    /// What the name of an entry is (9.5).
    pub fn entry_class(&self, task: DeclarationId, position: usize) -> Result<Class, Trouble> {
        Ok(match self.entry_of(task, position)?.range {
            Some(_) => Class::Family { task, position },
            None => Class::Entry { task, position },
        })
    }

    /// What is wrong with an expression that is no variable (5.2, 6.4.1); its type otherwise. A parameter of mode `out`
    /// is one where it isn't read.
    pub fn variable(&self, id: ExpressionId, reads: bool) -> Result<TypeId, Trouble> {
        match self.class(id) {
            Some(
                Class::Object {
                    subtype,
                    access: Access::Variable,
                    ..
                },
            ) => Ok(subtype.base),
            Some(
                Class::Object {
                    subtype,
                    access: Access::Out,
                    ..
                },
            ) => {
                if reads {
                    return Err(self.fault_in(id, Cause::OutParameterRead));
                }
                Ok(subtype.base)
            }
            _ => Err(self.fault_in(id, Cause::NoVariable)),
        }
    }
}
