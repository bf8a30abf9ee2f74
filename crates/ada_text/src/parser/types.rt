//! Reading types (3.3).

ghost use Rattle.std.specs.Prelude.{◌<◌, ◌≤◌, OnOk};

use super::declarations::ObjectDefinition;
use super::{DEEPEST, Parser};
use crate::fault::{Cause, Trouble, Wanted};
use crate::kind::Kind;
use crate::tree::declaration::{DeclarationForm, DeclarationId, TypeDefinition};
use crate::tree::expression::{ExpressionId, Identifier};

/// Why no type of the subset is defined by such a word.
fn no_type(kind: Kind) -> Cause {
    match kind {
        Kind::Access => Cause::AccessTypes,
        Kind::Record => Cause::Records,
        Kind::New => Cause::DerivedTypes,
        Kind::Digits | Kind::Delta => Cause::RealTypes,
        Kind::Limited | Kind::Private => Cause::PrivateTypes,
        found => Cause::Unexpected {
            wanted: Wanted::TypeDefinition,
            found,
        },
    }
}

impl<'a> Parser<'a> {
    /// Reads the declaration of a type (3.3.1).
    pub fn type_declaration(&mut self, declarations: &mut Vec<DeclarationId>) -> Result<(), Trouble>
        ensures { OnOk result (self.new < self.old) }
    {
        self.expect(Kind::Type)?;
        let name = self.identifier()?;
        self.expect(Kind::Is)?;
        let definition = self.type_definition()?;
        self.semicolon()?;
        let id = self.declaration_node(name, DeclarationForm::Type(definition))?;
        declarations.push(id)?;
        Ok(())
    }

    /// Reads the declaration of a subtype (3.3.2).
    pub fn subtype_declaration(
        &mut self,
        declarations: &mut Vec<DeclarationId>,
    ) -> Result<(), Trouble>
        ensures { OnOk result (self.new < self.old) }
    {
        self.expect(Kind::Subtype)?;
        let name = self.identifier()?;
        self.expect(Kind::Is)?;
        let subtype = self.subtype_indication()?;
        self.semicolon()?;
        let id = self.declaration_node(name, DeclarationForm::Subtype(subtype))?;
        declarations.push(id)?;
        Ok(())
    }

    /// Reads the name of a type, perhaps with a range (3.3.2).
    pub fn subtype_indication(&mut self) -> Result<ExpressionId, Trouble>
        ensures { OnOk result (self.new < self.old) }
    {
        let at = self.at();
        let mark = self.simple_name()?;
        match self.kind() {
            Kind::LeftParenthesis => Err(self.refused(Cause::UnconstrainedArrays)),
            Kind::Digits | Kind::Delta => Err(self.refused(Cause::RealTypes)),
            Kind::Range => {
                self.take();
                let range = self.range(DEEPEST)?;
                self.constrained(mark, range, at)
            }
            _ => Ok(mark),
        }
    }

    /// Reads what an object is declared to be (3.2.1).
    pub fn object_definition(&mut self) -> Result<ObjectDefinition, Trouble>
        ensures { OnOk result (self.new < self.old) }
    {
        if self.kind() == Kind::Array {
            let (index, component) = self.array_definition()?;
            return Ok(ObjectDefinition::Array { index, component });
        }
        Ok(ObjectDefinition::Named(self.subtype_indication()?))
    }

    /// Reads a constrained array definition (3.6): its index range and the subtype of its components.
    fn array_definition(&mut self) -> Result<(ExpressionId, ExpressionId), Trouble>
        ensures { OnOk result (self.new < self.old) }
    {
        self.expect(Kind::Array)?;
        self.expect(Kind::LeftParenthesis)?;
        if self.second_kind() == Kind::Range && self.third_kind() == Kind::Box {
            return Err(self.refused(Cause::UnconstrainedArrays));
        }
        let index = self.discrete_range()?;
        if self.kind() == Kind::Comma {
            return Err(self.refused(Cause::SeveralDimensions));
        }
        self.expect(Kind::RightParenthesis)?;
        self.expect(Kind::Of)?;
        Ok((index, self.subtype_indication()?))
    }

    /// Reads the definition of a type (3.3.1).
    fn type_definition(&mut self) -> Result<TypeDefinition, Trouble>
        ensures { OnOk result (self.new ≤ self.old) }
    {
        match self.kind() {
            Kind::LeftParenthesis => Ok(TypeDefinition::Enumeration(self.enumeration()?)),
            Kind::Range => self.integer_definition(),
            Kind::Array => {
                let (index, component) = self.array_definition()?;
                Ok(TypeDefinition::Array { index, component })
            }
            found => Err(self.refused(no_type(found))),
        }
    }

    /// Reads the definition of an integer type (3.5.4).
    fn integer_definition(&mut self) -> Result<TypeDefinition, Trouble>
        ensures { OnOk result (self.new ≤ self.old) }
    {
        self.expect(Kind::Range)?;
        let range = self.range(DEEPEST)?;
        self.check_range(range)?;
        Ok(TypeDefinition::Integer(range))
    }

    /// Reads the literals of an enumeration type (3.5.1).
    fn enumeration(&mut self) -> Result<Vec<Identifier>, Trouble>
        ensures { OnOk result (self.new < self.old) }
    {
        let mut literals = Vec::new(self.alloc);
        self.expect(Kind::LeftParenthesis)?;
        'literals: loop {
            let literal = self.enumeration_literal()?;
            literals.push(literal)?;
            if !self.accept(Kind::Comma) {
                break;
            }
        }
        self.expect(Kind::RightParenthesis)?;
        Ok(literals)
    }

    /// Reads a literal of an enumeration type (3.5.1): an identifier or a character literal.
    fn enumeration_literal(&mut self) -> Result<Identifier, Trouble>
        ensures { OnOk result (self.new < self.old) }
    {
        if self.kind() == Kind::Character {
            return Ok(self.expect(Kind::Character)?.bounds());
        }
        self.identifier()
    }
}
