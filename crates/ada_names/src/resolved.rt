//! What was resolved of a tree.

ghost use Rattle.std.specs.Prelude.{◌≡◌};
ghost use Rattle.ada_names.specs.Names as names;

use crate::declared_names::declared_name;
use crate::meaning::{Literal, Meaning};
use crate::whole::{have_bodies, have_homes, have_literals, have_meanings};
use ada_text::Tree;
use ada_text::tree::{BodyId, Identifier};

/// Where a declaration stands.
#[derive(Clone, Copy, Debug, PartialEq, Eq)]
pub struct Home {
    /// The body that has it among its declarations.
    pub body: BodyId,
    /// How many bodies enclose that one: the main program has 0.
    pub level: usize,
}

/// What the names of a tree denote.
#[derive(Drop)]
pub struct Resolved {
    /// Of each expression what it denotes, if it is a name that no type decides.
    pub expressions: Vec<Option<Meaning>>,
    /// Of each accept statement its entry, and of each exit statement the loop that it leaves.
    pub statements: Vec<Option<Meaning>>,
    /// Of each declaration where it stands.
    pub homes: Vec<Home>,
    /// Of each declaration of a task or a subprogram its body.
    pub bodies: Vec<Option<BodyId>>,
    /// The enumeration literals, FALSE and TRUE first.
    pub literals: Vec<Literal>,
}

impl Resolved {
    /// The name that the text declares for what a name denotes, with its place; none for what is predefined.
    pub fn declared_name(&self, tree: &Tree, meaning: Meaning) -> Option<Identifier>
        ensures { result ≡ names.declared_name tree.now self.now.literals.items meaning }
    {
        declared_name(tree, &self.literals, meaning)
    }

    /// Whether each node of a tree has its place, and whatever is named there is in the tree or among the literals.
    pub fn is_whole(&self, tree: &Tree) -> bool
        ensures { result ≡ names.is_whole self.now tree.now }
    {
        let nodes = &tree.nodes;
        self.expressions.len() == nodes.expressions.len()
            && self.statements.len() == nodes.statements.len()
            && self.homes.len() == nodes.declarations.len()
            && self.bodies.len() == nodes.declarations.len()
            && have_meanings(tree, &self.literals, &self.expressions)
            && have_meanings(tree, &self.literals, &self.statements)
            && have_homes(nodes, &self.homes)
            && have_bodies(nodes, &self.bodies)
            && have_literals(nodes, self.literals.len(), &self.literals)
    }
}
