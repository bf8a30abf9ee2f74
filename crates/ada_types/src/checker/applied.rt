//! Names with something in parentheses: components (4.1.1), conversions (4.6), members of families (9.5), attributes
//! that are functions (3.5.5), and calls (6.4, 9.5).

use super::Checker;
use super::operands::Operand;
use crate::class::{Access, Class};
use crate::types::{Subtype, TypeId};
use ada_text::tree::{Association, Attribute, DeclarationId, ExpressionForm, ExpressionId};
use ada_text::{Cause, Trouble};

/// What stands in parentheses, if that is one value by its position.
fn lone_value(arguments: &[Association]) -> Option<ExpressionId> {
    match arguments {
        [only] if only.choices.is_empty() => Some(only.value),
        _ => None,
    }
}

impl<'a> Checker<'a> {
    /// Notes what a name with parentheses is whose parts are typed.
    pub fn applied(
        &mut self,
        id: ExpressionId,
        prefix: ExpressionId,
        arguments: &'a [Association],
    ) -> Result<(), Trouble> {
        match self.class(prefix) {
            Some(Class::Function(function)) => self.function_call(id, function, arguments),
            Some(Class::Procedure(procedure)) => self.procedure_call(id, procedure, arguments),
            Some(Class::Output(name)) => self.output_call(id, name, arguments),
            Some(Class::Entry { task, position }) => {
                self.entry_call(id, task, position, arguments)
            }
            Some(Class::Family { task, position }) => self.member(id, task, position, arguments),
            Some(Class::AttributeFunction(subtype)) => {
                self.attribute_value(id, prefix, subtype, arguments)
            }
            Some(Class::Subtype(subtype)) => self.conversion(id, subtype, arguments),
            Some(class) => self.component(id, class, arguments),
            None => Err(self.fault_in(id, Cause::NotCallable)),
        }
    }

    /// Notes a component of an array (4.1.1).
    fn component(
        &mut self,
        id: ExpressionId,
        prefix: Class,
        arguments: &'a [Association],
    ) -> Result<(), Trouble> {
        let Some((index, component)) = prefix.base().and_then(|base| self.array_of(base)) else {
            return Err(self.fault_in(id, Cause::NotCallable));
        };
        let Some(value) = lone_value(arguments) else {
            return Err(self.fault_in(id, Cause::WrongIndex));
        };
        self.settle(value, index.base)?;
        let access = match prefix {
            Class::Object { access, .. } => access,
            _ => Access::Constant,
        };
        self.note(
            id,
            Class::Object {
                subtype: component,
                access,
                value: None,
            },
        );
        Ok(())
    }

    /// Notes a member of a family of entries (9.5).
    fn member(
        &mut self,
        id: ExpressionId,
        task: DeclarationId,
        position: usize,
        arguments: &'a [Association],
    ) -> Result<(), Trouble> {
        let range = self.entry_of(task, position)?.range;
        let (Some(range), Some(index)) = (range, lone_value(arguments)) else {
            return Err(self.fault_in(id, Cause::FamilyIndexOfCall));
        };
        let subtype = self.index_subtype(range)?;
        self.settle(index, subtype.base)?;
        self.note(id, Class::Entry { task, position });
        Ok(())
    }

    /// Notes a conversion (4.6): between integer types, of integers to DURATION, or to the operand's own type.
    fn conversion(
        &mut self,
        id: ExpressionId,
        subtype: Subtype,
        arguments: &'a [Association],
    ) -> Result<(), Trouble> {
        let Some(operand) = lone_value(arguments) else {
            return Err(self.fault_in(id, Cause::NoConversion));
        };
        let found = self.own_type(operand)?;
        let is_numeric = self.is_integer(subtype.base) || subtype.base == TypeId::DURATION;
        if found == TypeId::UNIVERSAL && is_numeric {
            self.settle_number(operand, subtype.base)?;
        } else if found != subtype.base && !(self.is_integer(found) && is_numeric) {
            return Err(self.fault_in(id, Cause::NoConversion));
        }
        self.note(id, Class::Conversion(subtype));
        Ok(())
    }

    /// An integer literal that is converted is of the integer type that it is converted to, or of INTEGER.
    fn settle_number(&mut self, operand: ExpressionId, base: TypeId) -> Result<(), Trouble> {
        if base == TypeId::DURATION {
            self.settle(operand, TypeId::INTEGER)
        } else {
            self.settle(operand, base)
        }
    }

    /// Which attribute an expression has.
    fn attribute_in(&self, id: ExpressionId) -> Result<Attribute, Trouble> {
        match self.expression_node(id)?.form {
            ExpressionForm::Attribute { attribute, .. } => Ok(attribute),
            _ => Err(self.fault_in(id, Cause::WrongPrefix)),
        }
    }

    /// Notes the value of an attribute that is a function (3.5.5).
    fn attribute_value(
        &mut self,
        id: ExpressionId,
        prefix: ExpressionId,
        subtype: Subtype,
        arguments: &'a [Association],
    ) -> Result<(), Trouble> {
        let Some(operand) = lone_value(arguments) else {
            return Err(self.fault_in(id, Cause::ArgumentCount));
        };
        let attribute = self.attribute_in(prefix)?;
        let base = subtype.base;
        if attribute == Attribute::Val {
            self.check_integer(operand)?;
            return self.moved(id, operand, base, 0);
        }
        self.settle(operand, base)?;
        match attribute {
            Attribute::Succ => self.moved(id, operand, base, 1),
            Attribute::Pred => self.moved(id, operand, base, -1),
            Attribute::Pos => self.moved(id, operand, TypeId::UNIVERSAL, 0),
            _ => self.text_value(id),
        }
    }

    /// An operand is of any integer type (3.5.5).
    fn check_integer(&self, operand: ExpressionId) -> Result<(), Trouble> {
        match self.operand(operand)? {
            Operand::Of(base) if self.is_integer(base) => Ok(()),
            _ => Err(self.fault_in(operand, Cause::WrongType)),
        }
    }

    /// Notes a value of this type whose position is the operand's, or the one beside it; it is static where the
    /// operand is.
    fn moved(
        &mut self,
        id: ExpressionId,
        operand: ExpressionId,
        base: TypeId,
        by: i64,
    ) -> Result<(), Trouble> {
        match self.static_value(operand) {
            Some(value) => self.number(id, base, value.saturating_add(by)),
            None => self.value(id, base, None),
        }
    }
}
