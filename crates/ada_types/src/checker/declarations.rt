//! Declarations (chapter 3), and types.

use super::{Checker, Step, broken, trouble};
use crate::bounds::Bounds;
use crate::types::{INTEGER_RANGE, MOST_COMPONENTS, Subtype, TypeForm, TypeId};
use crate::unit::Unit;
use ada_text::tree::{BodyId, DeclarationForm, DeclarationId, ExpressionId, TypeDefinition};
use ada_text::{Cause, Trouble};

impl<'a> Checker<'a> {
    /// Asks for the expressions in a declaration, and for what comes of it.
    pub fn declaration(&mut self, id: DeclarationId) -> Result<(), Trouble> {
        match &self.declaration_node(id)?.form {
            DeclarationForm::Object {
                definition,
                value,
                ..
            } => {
                self.definition(definition)?;
                self.optional(*value)?;
            }
            DeclarationForm::Type(definition) => self.definition(definition)?,
            DeclarationForm::Subtype(mark) => self.ask(Step::Expression(*mark))?,
            DeclarationForm::Subprogram {
                parameters,
                result: outcome,
                body,
            } => {
                self.marks(parameters)?;
                self.optional(*outcome)?;
                self.ask(Step::Declared(id))?;
                return self.subprogram_body(*body, *outcome);
            }
            DeclarationForm::Task { entries, .. } => self.entry_marks(entries)?,
            DeclarationForm::TaskBody(body) => return self.task_body(*body),
            DeclarationForm::Exception => return Ok(()),
        }
        self.ask(Step::Declared(id))
    }

    /// Asks for the expressions in the definition of a type.
    fn definition(&mut self, definition: &'a TypeDefinition) -> Result<(), Trouble> {
        match definition {
            TypeDefinition::Named(mark) => self.ask(Step::Expression(*mark)),
            TypeDefinition::Integer(range) => self.ask(Step::Expression(*range)),
            TypeDefinition::Array { index, component } => {
                self.ask(Step::Expression(*index))?;
                self.ask(Step::Expression(*component))
            }
            TypeDefinition::Enumeration(_) => Ok(()),
        }
    }

    /// Asks for the body of a task (9.1).
    fn task_body(&mut self, body: BodyId) -> Result<(), Trouble> {
        let task = self.owner_of(body)?;
        self.ask(Step::Enter(Unit::Task(task)))?;
        self.ask(Step::Body(body))?;
        self.ask(Step::Leave)
    }

    /// Notes the subtype of a declaration whose expressions are typed.
    pub fn declared(&mut self, id: DeclarationId) -> Result<(), Trouble> {
        let node = self.declaration_node(id)?;
        match &node.form {
            DeclarationForm::Object {
                is_constant,
                definition,
                value,
            } => self.object(id, *is_constant, definition, *value),
            DeclarationForm::Type(definition) => {
                let subtype = self.type_declaration(id, definition)?;
                self.note_declared(id, subtype, None);
                Ok(())
            }
            DeclarationForm::Subtype(mark) => {
                let subtype = self.subtype_of(*mark)?;
                self.note_declared(id, subtype, None);
                Ok(())
            }
            DeclarationForm::Subprogram {
                parameters,
                result: outcome,
                ..
            } => self.subprogram(id, parameters, *outcome),
            DeclarationForm::Task { entries, .. } => self.task(id, entries),
            DeclarationForm::TaskBody(_) | DeclarationForm::Exception => Err(broken()),
        }
    }

    /// The first subtype of a type that is declared (3.3.1).
    fn type_declaration(
        &mut self,
        id: DeclarationId,
        definition: &'a TypeDefinition,
    ) -> Result<Subtype, Trouble> {
        match definition {
            TypeDefinition::Enumeration(literals) => self.enumeration_type(id, literals.len()),
            TypeDefinition::Integer(range) => self.integer_type(*range),
            TypeDefinition::Array { index, component } => self.array_type(*index, *component),
            TypeDefinition::Named(_) => Err(broken()),
        }
    }

    /// A new enumeration type (3.5.1).
    fn enumeration_type(
        &mut self,
        owner: DeclarationId,
        literals: usize,
    ) -> Result<Subtype, Trouble> {
        let Ok(count) = u32::try_from(literals) else {
            return Err(broken());
        };
        let base = self.add_type(TypeForm::Enumeration {
            owner: Some(owner),
            count,
        })?;
        Ok(Subtype::scalar(
            base,
            Bounds {
                low: 0,
                high: i64::from(count) - 1,
            },
        ))
    }

    /// A new integer type (3.5.4). Its base type has the range of INTEGER.
    fn integer_type(&mut self, range: ExpressionId) -> Result<Subtype, Trouble> {
        let (base, bounds) = self.static_bounds(range)?;
        if !self.is_integer(base) {
            return Err(self.fault_in(range, Cause::WrongType));
        }
        if !INTEGER_RANGE.includes(bounds) {
            return Err(self.fault_in(range, Cause::RangeOutside));
        }
        let id = self.add_type(TypeForm::Integer(bounds))?;
        Ok(Subtype::scalar(id, bounds))
    }

    /// A new array type (3.6).
    fn array_type(
        &mut self,
        index: ExpressionId,
        component: ExpressionId,
    ) -> Result<Subtype, Trouble> {
        let range = self.index_subtype(index)?;
        let part = self.subtype_of(component)?;
        if self.array_of(part.base).is_some() {
            return Err(self.fault_in(component, Cause::ArraysOfArrays));
        }
        match range.bounds {
            Some(bounds) if bounds.is_within(MOST_COMPONENTS) => {}
            _ => return Err(self.fault_in(index, Cause::ArrayTooLong)),
        }
        let base = self.add_type(TypeForm::Array {
            index: range,
            component: part,
        })?;
        Ok(Subtype::composite(base))
    }

    /// The subtype of an object (3.2.1). Objects that are declared together share an array type without a name.
    fn object_subtype(&mut self, definition: &'a TypeDefinition) -> Result<Subtype, Trouble> {
        match definition {
            TypeDefinition::Named(mark) => self.subtype_of(*mark),
            TypeDefinition::Array { index, component } => {
                if let Some((range, base)) = self.unnamed {
                    if range == *index {
                        return Ok(Subtype::composite(base));
                    }
                }
                let subtype = self.array_type(*index, *component)?;
                self.unnamed = Some((*index, subtype.base));
                Ok(subtype)
            }
            TypeDefinition::Enumeration(_) | TypeDefinition::Integer(_) => Err(broken()),
        }
    }

    /// Checks and notes an object (3.2.1).
    fn object(
        &mut self,
        id: DeclarationId,
        is_constant: bool,
        definition: &'a TypeDefinition,
        value: Option<ExpressionId>,
    ) -> Result<(), Trouble> {
        let subtype = self.object_subtype(definition)?;
        self.check_object(id, is_constant, subtype.base, value.is_some())?;
        let initial = match value {
            Some(value) => self.initial_value(value, subtype.base)?,
            None => None,
        };
        let kept = match (initial, subtype.bounds) {
            (Some(initial), Some(bounds)) if is_constant && bounds.contains(initial) => {
                Some(initial)
            }
            _ => None,
        };
        self.note_declared(id, subtype, kept);
        Ok(())
    }

    /// A constant has a value (3.2.1), and tasks have none (9.2), and aren't declared in subprograms.
    fn check_object(
        &self,
        id: DeclarationId,
        is_constant: bool,
        base: TypeId,
        has_value: bool,
    ) -> Result<(), Trouble> {
        let at = self.declaration_node(id)?.name.at;
        if self.has_tasks(base) {
            if is_constant || has_value {
                return Err(trouble(at, Cause::TaskValues));
            }
            return self.check_task_place(at);
        }
        if is_constant && !has_value {
            return Err(trouble(at, Cause::ConstantWithoutValue));
        }
        Ok(())
    }

    /// The initial value of an object of this type, if it is static.
    fn initial_value(&mut self, value: ExpressionId, base: TypeId) -> Result<Option<i64>, Trouble> {
        self.check_others(value)?;
        self.settle(value, base)?;
        Ok(self.static_value(value))
    }
}
