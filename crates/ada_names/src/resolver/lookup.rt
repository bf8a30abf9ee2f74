//! Which declaration a name refers to (8.3), and what declares names.

use super::{Resolver, trouble};
use crate::construct::{Construct, Enclosing};
use crate::meaning::Meaning;
use crate::predefined::{is_of_text_io, is_rest_of_text_io};
use crate::spelling::{is_same, spelling};
use crate::symbols::Symbol;
use ada_text::tree::{BodyId, DeclarationForm, DeclarationId, Identifier, TypeDefinition};
use ada_text::{Cause, Trouble};

impl<'a> Resolver<'a> {
    /// The bytes of a name.
    pub fn spelling(&self, name: Identifier) -> &'a [u8] {
        spelling(self.text, name)
    }

    /// The number of a name.
    pub fn symbol(&mut self, name: Identifier) -> Result<Symbol, Trouble> {
        let spelling = self.spelling(name);
        Ok(self.symbols.symbol(spelling)?)
    }

    /// What a name denotes by the declarations that are visible.
    pub fn lookup(&mut self, name: Identifier) -> Result<Meaning, Trouble> {
        let symbol = self.symbol(name)?;
        if self.declaring == Some(symbol) {
            return Err(trouble(name.at, Cause::UsedBeforeDeclaration));
        }
        match self.scopes.meaning(symbol) {
            Some(meaning) => Ok(meaning),
            None => Err(trouble(name.at, self.why_not_visible(name))),
        }
    }

    /// Why no declaration of a name is visible.
    fn why_not_visible(&self, name: Identifier) -> Cause {
        if self.is_declared_later(name) {
            return Cause::UsedBeforeDeclaration;
        }
        let spelling = self.spelling(name);
        if spelling.eq_ignore_ascii_case(b"FLOAT") {
            Cause::RealTypes
        } else if is_of_text_io(spelling) {
            Cause::TextIoNotNamed
        } else if self.tree.context.has_use && is_rest_of_text_io(spelling) {
            Cause::OfTextIo
        } else {
            Cause::NotDeclared
        }
    }

    /// Whether an enclosing body declares a name that isn't visible yet.
    fn is_declared_later(&self, name: Identifier) -> bool {
        self.enclosing
            .iter()
            .any(|enclosing| self.body_declares(enclosing.body, name))
    }

    /// Whether a body has the declaration of a name.
    fn body_declares(&self, body: Option<BodyId>, name: Identifier) -> bool {
        let Some(id) = body else {
            return false;
        };
        match self.body_node(id) {
            Ok(body) => body.declarations.iter().any(|id| self.declares(*id, name)),
            Err(_) => false,
        }
    }

    /// Whether a declaration declares a name, of a literal too.
    fn declares(&self, id: DeclarationId, name: Identifier) -> bool {
        match self.declaration_node(id) {
            Ok(node) => {
                is_same(self.text, node.name, name) || self.has_literal(&node.form, name)
            }
            Err(_) => false,
        }
    }

    /// Whether a declaration is of an enumeration type that has a literal of this name.
    fn has_literal(&self, form: &DeclarationForm, name: Identifier) -> bool {
        match form {
            DeclarationForm::Type(TypeDefinition::Enumeration(literals)) => literals
                .iter()
                .any(|literal| is_same(self.text, *literal, name)),
            _ => false,
        }
    }

    /// The index of the first name of the innermost construct.
    fn first_of_region(&self) -> usize {
        match self.enclosing.last() {
            Some(enclosing) => enclosing.first,
            None => 0,
        }
    }

    /// What the innermost declarative region declares under a name.
    pub fn declared_here(&self, symbol: Symbol) -> Option<Meaning> {
        self.scopes.meaning_from(symbol, self.first_of_region())
    }

    /// Declares a name in the innermost declarative region, which has no other that excludes it (8.3).
    pub fn declare(&mut self, name: Identifier, meaning: Meaning) -> Result<(), Trouble> {
        let symbol = self.symbol(name)?;
        if let Some(earlier) = self.declared_here(symbol) {
            if let Some(cause) = self.conflict(earlier, meaning) {
                return Err(trouble(name.at, cause));
            }
        }
        self.scopes.declare(symbol, meaning)?;
        Ok(())
    }

    /// Why two declarations of one name don't stand in one declarative region, if they don't. Literals of different
    /// types do (3.5.1).
    fn conflict(&self, earlier: Meaning, later: Meaning) -> Option<Cause> {
        if let (Meaning::Literal(one), Meaning::Literal(other)) = (earlier, later) {
            let literals = &self.resolved.literals;
            return match (literals.get(one.0), literals.get(other.0)) {
                (Some(one), Some(other)) if one.owner != other.owner => None,
                _ => Some(Cause::DeclaredTwice),
            };
        }
        if self.is_overloadable(earlier) && self.is_overloadable(later) {
            return Some(Cause::Overloading);
        }
        Some(Cause::DeclaredTwice)
    }

    /// Whether Ada lets declarations of this kind overload one another (8.3): literals, subprograms and entries.
    fn is_overloadable(&self, meaning: Meaning) -> bool {
        match meaning {
            Meaning::Literal(_) | Meaning::Entry { .. } => true,
            Meaning::Declaration(id) => match self.declaration_node(id) {
                Ok(node) => matches!(node.form, DeclarationForm::Subprogram { .. }),
                Err(_) => false,
            },
            _ => false,
        }
    }

    /// Begins a construct, and declares its parameters or entries.
    pub fn open(&mut self, construct: Construct, body: Option<BodyId>) -> Result<(), Trouble> {
        self.declaring = None;
        self.enclosing.push(Enclosing {
            construct,
            body,
            first: self.scopes.len(),
        })?;
        match construct {
            Construct::Subprogram(id) => self.declare_parameters(id),
            Construct::Task(id) => self.declare_entries(id),
            Construct::Loop(id) => self.declare_loop_parameter(id),
            Construct::Accept { statement, .. } => self.declare_accept_parameters(statement),
            Construct::Main | Construct::Block(_) | Construct::Handler => Ok(()),
        }
    }

    /// Ends the innermost construct, and forgets its names.
    pub fn close(&mut self) -> Result<(), Trouble> {
        if let Some(enclosing) = self.enclosing.pop() {
            self.scopes.close(enclosing.first);
        }
        Ok(())
    }

    /// The innermost unit around the place.
    pub fn unit_around(&self) -> Option<Construct> {
        self.enclosing
            .iter()
            .rev()
            .map(|enclosing| enclosing.construct)
            .find(|construct| construct.is_unit())
    }
}
