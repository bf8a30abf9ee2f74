//! What is known of the types of a tree.

ghost use Rattle.std.specs.Prelude.{◌≡◌};
ghost use Rattle.ada_types.specs.Types as types;

use crate::class::Class;
use crate::types::{Subtype, TypeForm, TypeId};
use crate::whole::{have_classes, have_declared, have_forms};
use ada_names::Resolved;
use ada_text::Tree;
use ada_text::tree::{DeclarationId, ExpressionId};

/// What a declaration declares: the subtype of an object, of a function's result, or the one that it names; and the
/// value of a constant, if that is static (4.9).
#[derive(Clone, Copy, Debug, PartialEq, Eq)]
pub struct Declared {
    pub subtype: Subtype,
    pub value: Option<i64>,
}

/// The types of a tree: of its declarations and of its expressions, among which are the subtypes of parameters and the
/// ranges of loops and families.
#[derive(Drop)]
pub struct Typed {
    /// The types, those of the language first.
    pub types: Vec<TypeForm>,
    /// Of each expression what it is, but for those of pragmas and for the choice `others`.
    pub expressions: Vec<Option<Class>>,
    /// Of each declaration its subtype, if it has one.
    pub declarations: Vec<Option<Declared>>,
}

impl Typed {
    /// What a type is.
    pub fn form(&self, id: TypeId) -> Option<TypeForm>
        ensures { result ≡ types.form self.now.types.items id }
    {
        self.types.get(id.0).copied()
    }

    /// What an expression is.
    pub fn class(&self, id: ExpressionId) -> Option<Class>
        ensures { result ≡ types.class self.now.expressions.items id }
    {
        match self.expressions.get(id.0 as usize) {
            Some(class) => *class,
            None => None,
        }
    }

    /// What a declaration declares.
    pub fn declared(&self, id: DeclarationId) -> Option<Declared>
        ensures { result ≡ types.declared self.now.declarations.items id }
    {
        match self.declarations.get(id.0 as usize) {
            Some(declared) => *declared,
            None => None,
        }
    }

    /// The subtype that an expression names, perhaps with a static range: that of an object, of a parameter, of a
    /// result, of an index or of a family, by the expression in its declaration; and that of the parameter of a loop,
    /// by its range, if that is static.
    pub fn subtype(&self, id: ExpressionId) -> Option<Subtype>
        ensures { result ≡ types.subtype self.now.expressions.items id }
    {
        match self.class(id) {
            Some(Class::Subtype(subtype)) => Some(subtype),
            Some(Class::Range { base, bounds }) => {
                bounds.map(|bounds| Subtype::scalar(base, bounds))
            }
            _ => None,
        }
    }

    /// Whether each node of a tree has its place, and whatever is noted there fits the tree and its names.
    pub fn is_whole(&self, tree: &Tree, resolved: &Resolved) -> bool
        ensures { result ≡ types.is_whole self.now tree.now resolved.now }
    {
        let nodes = &tree.nodes;
        self.expressions.len() == nodes.expressions.len()
            && self.declarations.len() == nodes.declarations.len()
            && have_forms(nodes, &self.types)
            && have_declared(&self.types, &self.declarations)
            && have_classes(nodes, &self.types, &resolved.literals, &self.expressions)
    }
}
