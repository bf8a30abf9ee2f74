//! Reading declarations (3.1), and the heads of bodies.

ghost use Rattle.std.specs.Prelude.{◌<◌, ◌≤◌, OnOk};

use super::{DEEPEST, Parser};
use crate::fault::{Cause, Trouble, Wanted};
use crate::kind::Kind;
use crate::tree::declaration::{DeclarationForm, DeclarationId, Mode, Parameter, TypeDefinition};
use crate::tree::expression::{ExpressionId, Identifier};

/// The head of a body (6.3, 9.1).
#[derive(Drop)]
pub enum UnitHead {
    Task {
        name: Identifier,
    },
    Subprogram {
        name: Identifier,
        parameters: Vec<Parameter>,
        result: Option<ExpressionId>,
    },
}

impl UnitHead {
    /// The name of what the body belongs to.
    pub fn name(&self) -> Identifier {
        match self {
            UnitHead::Task { name } => *name,
            UnitHead::Subprogram { name, .. } => *name,
        }
    }
}

/// Why no declaration of the subset begins with such a word.
fn no_declaration(kind: Kind) -> Cause {
    match kind {
        Kind::Package => Cause::Packages,
        Kind::Generic => Cause::Generics,
        Kind::Use => Cause::UseClauses,
        Kind::For => Cause::RepresentationClauses,
        Kind::Separate => Cause::Separate,
        found => Cause::Unexpected {
            wanted: Wanted::Declaration,
            found,
        },
    }
}

/// Why a declaration of the subset doesn't go on with such a word.
fn no_continuation(kind: Kind, wanted: Kind) -> Cause {
    match kind {
        Kind::Renames => Cause::Renaming,
        Kind::Separate => Cause::Separate,
        Kind::New => Cause::Generics,
        found => Cause::Unexpected {
            wanted: Wanted::Word(wanted),
            found,
        },
    }
}

impl<'a> Parser<'a> {
    /// Reads a declaration (3.1), or the head of a body (3.9).
    pub fn declaration(
        &mut self,
        declarations: &mut Vec<DeclarationId>,
    ) -> Result<Option<UnitHead>, Trouble>
        ensures { OnOk result (self.new < self.old) }
    {
        match self.kind() {
            Kind::Identifier => self.object_declarations(declarations)?,
            Kind::Type => self.type_declaration(declarations)?,
            Kind::Subtype => self.subtype_declaration(declarations)?,
            Kind::Task => return self.task_declaration(declarations),
            Kind::Procedure | Kind::Function => return self.subprogram(declarations),
            Kind::Pragma => self.pragma()?,
            found => return Err(self.refused(no_declaration(found))),
        }
        Ok(None)
    }

    /// After a body stand declarations of subprograms and tasks, further bodies and pragmas alone (3.9).
    pub fn check_order(&self, after_body: bool) -> Result<(), Trouble> {
        match self.kind() {
            Kind::Identifier | Kind::Type | Kind::Subtype if after_body => {
                Err(self.refused(Cause::LateDeclaration))
            }
            _ => Ok(()),
        }
    }

    /// Reads names with commas between them (3.2).
    fn identifiers(&mut self) -> Result<Vec<Identifier>, Trouble>
        ensures { OnOk result (self.new < self.old) }
    {
        let mut names = Vec::new(self.alloc);
        'names: loop {
            let name = self.identifier()?;
            names.push(name)?;
            if !self.accept(Kind::Comma) {
                return Ok(names);
            }
        }
    }

    /// Reads declarations of objects (3.2.1) or of exceptions (11.1).
    fn object_declarations(&mut self, declarations: &mut Vec<DeclarationId>) -> Result<(), Trouble>
        ensures { OnOk result (self.new < self.old) }
    {
        let names = self.identifiers()?;
        self.expect(Kind::Colon)?;
        if self.accept(Kind::Exception) {
            self.check_continuation(Kind::Semicolon)?;
            return self.exceptions(&names, declarations);
        }
        let is_constant = self.accept(Kind::Constant);
        if is_constant && self.kind() == Kind::Assignment {
            return Err(self.refused(Cause::NumberDeclarations));
        }
        let first = self.object_definition()?;
        self.check_continuation(Kind::Semicolon)?;
        let value = self.initial_value()?;
        self.semicolon()?;
        self.objects(&names, is_constant, first, value, declarations)
    }

    /// Adds declarations of exceptions (11.1).
    fn exceptions(
        &mut self,
        names: &[Identifier],
        declarations: &mut Vec<DeclarationId>,
    ) -> Result<(), Trouble>
        ensures { OnOk result (self.new < self.old) }
    {
        for name in names {
            let id = self.declaration_node(*name, DeclarationForm::Exception)?;
            declarations.push(id)?;
        }
        self.semicolon()
    }

    /// Adds declarations of objects with the same definition (3.2).
    fn objects(
        &mut self,
        names: &[Identifier],
        is_constant: bool,
        definition: ObjectDefinition,
        value: Option<ExpressionId>,
        declarations: &mut Vec<DeclarationId>,
    ) -> Result<(), Trouble>
        ensures { OnOk result (self.new ≤ self.old) }
    {
        for name in names {
            let form = DeclarationForm::Object {
                is_constant,
                definition: definition.of_type(),
                value,
            };
            let id = self.declaration_node(*name, form)?;
            declarations.push(id)?;
        }
        Ok(())
    }

    /// Reads the initial value of an object, if it has one (3.2.1).
    fn initial_value(&mut self) -> Result<Option<ExpressionId>, Trouble>
        ensures { OnOk result (self.new ≤ self.old) }
    {
        if self.accept(Kind::Assignment) {
            return Ok(Some(self.expression(DEEPEST)?));
        }
        Ok(None)
    }

    /// The next word may stand here, or is no other form of the declaration, which is refused by its name.
    fn check_continuation(&mut self, wanted: Kind) -> Result<(), Trouble>
        ensures { OnOk result (self.new ≤ self.old) }
    {
        match self.kind() {
            Kind::Renames | Kind::Separate | Kind::New => {
                Err(self.refused(no_continuation(self.kind(), wanted)))
            }
            _ => Ok(()),
        }
    }

    /// Reads the declaration of a subprogram (6.1), or the head of its body (6.3).
    fn subprogram(
        &mut self,
        declarations: &mut Vec<DeclarationId>,
    ) -> Result<Option<UnitHead>, Trouble>
        ensures { OnOk result (self.new < self.old) }
    {
        let is_function = self.kind() == Kind::Function;
        let name = self.designator()?;
        let parameters = self.formal_part()?;
        let outcome = self.function_result(is_function)?;
        self.check_continuation(Kind::Is)?;
        if self.accept(Kind::Semicolon) {
            let form = DeclarationForm::Subprogram {
                parameters,
                result: outcome,
                body: None,
            };
            let id = self.declaration_node(name, form)?;
            declarations.push(id)?;
            return Ok(None);
        }
        self.expect(Kind::Is)?;
        self.check_continuation(Kind::Begin)?;
        Ok(Some(UnitHead::Subprogram {
            name,
            parameters,
            result: outcome,
        }))
    }

    /// Takes `procedure` or `function`, and the name after it (6.1).
    fn designator(&mut self) -> Result<Identifier, Trouble>
        ensures { OnOk result (self.new < self.old) }
    {
        self.take();
        if self.kind() == Kind::Text {
            return Err(self.refused(Cause::OperatorFunctions));
        }
        self.identifier()
    }

    /// Reads the subtype of a function's result (6.1).
    fn function_result(&mut self, is_function: bool) -> Result<Option<ExpressionId>, Trouble>
        ensures { OnOk result (self.new ≤ self.old) }
    {
        if !is_function {
            return Ok(None);
        }
        self.expect(Kind::Return)?;
        Ok(Some(self.simple_name()?))
    }

    /// Reads parameters in parentheses, if there are some (6.1).
    pub fn formal_part(&mut self) -> Result<Vec<Parameter>, Trouble>
        ensures { OnOk result (self.new ≤ self.old) }
    {
        let mut parameters = Vec::new(self.alloc);
        if !self.accept(Kind::LeftParenthesis) {
            return Ok(parameters);
        }
        'parameters: loop {
            self.parameter_specification(&mut parameters)?;
            if !self.accept(Kind::Semicolon) {
                break;
            }
        }
        self.expect(Kind::RightParenthesis)?;
        Ok(parameters)
    }

    /// Reads parameters with one mode and one subtype (6.1).
    fn parameter_specification(&mut self, parameters: &mut Vec<Parameter>) -> Result<(), Trouble>
        ensures { OnOk result (self.new < self.old) }
    {
        let names = self.identifiers()?;
        self.expect(Kind::Colon)?;
        let mode = self.mode();
        let subtype = self.simple_name()?;
        if self.kind() == Kind::Assignment {
            return Err(self.refused(Cause::DefaultValues));
        }
        for name in &names {
            parameters.push(Parameter {
                name: *name,
                mode,
                subtype,
            })?;
        }
        Ok(())
    }

    /// Reads the mode of a parameter (6.1), which is `in` if none stands there.
    fn mode(&mut self) -> Mode
        ensures { self.new ≤ self.old }
    {
        if self.accept(Kind::In) {
            if self.accept(Kind::Out) {
                return Mode::InOut;
            }
            return Mode::In;
        }
        if self.accept(Kind::Out) {
            return Mode::Out;
        }
        Mode::In
    }
}

/// What an object is declared to be (3.2.1): of a type that has a name, or of an array type that has none (3.6).
#[derive(Clone, Copy)]
pub enum ObjectDefinition {
    Named(ExpressionId),
    Array {
        index: ExpressionId,
        component: ExpressionId,
    },
}

impl ObjectDefinition {
    /// The type of such an object.
    pub fn of_type(self) -> TypeDefinition {
        match self {
            ObjectDefinition::Named(subtype) => TypeDefinition::Named(subtype),
            ObjectDefinition::Array { index, component } => {
                TypeDefinition::Array { index, component }
            }
        }
    }
}
