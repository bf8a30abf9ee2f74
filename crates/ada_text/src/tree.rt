//! Syntax trees: their nodes lie in four lists, and name one another by their index there.

ghost use Rattle.std.specs.Prelude.{◌≡◌};
ghost use Rattle.ada_text.specs.Trees as trees;

pub mod declaration;
pub mod expression;
pub mod reach;
pub mod statement;
pub mod task;

pub use declaration::{
    Declaration, DeclarationForm, DeclarationId, Mode, Parameter, TypeDefinition,
};
pub use expression::{
    Association, Attribute, BinaryOperator, Expression, ExpressionForm, ExpressionId, Identifier,
    UnaryOperator,
};
pub use reach::Reach;
pub use statement::{
    Alternative, Arm, Body, BodyId, Iteration, Statement, StatementForm, StatementId,
};
use std::alloc::Global;
pub use task::{Accept, Entry, Select, SelectAlternative};

/// The most nodes of one kind in a tree.
pub const MOST_NODES: usize = 65_536;

/// The nodes of a tree. A node names only nodes that were made before it.
#[derive(Drop)]
pub struct Nodes {
    pub expressions: Vec<Expression>,
    pub statements: Vec<Statement>,
    pub declarations: Vec<Declaration>,
    pub bodies: Vec<Body>,
    /// The names of the pragmas (2.8), which have no effect.
    pub pragmas: Vec<Identifier>,
}

impl Nodes {
    /// No nodes.
    pub fn new(alloc: Global) -> Self {
        Nodes {
            expressions: Vec::new(alloc),
            statements: Vec::new(alloc),
            declarations: Vec::new(alloc),
            bodies: Vec::new(alloc),
            pragmas: Vec::new(alloc),
        }
    }

    /// How many nodes of each kind there are, of a text of so many bytes.
    fn reach(&self, bytes: usize) -> Reach
        ensures { result ≡ trees.reach_of self.now bytes }
    {
        Reach {
            expressions: self.expressions.len(),
            statements: self.statements.len(),
            declarations: self.declarations.len(),
            bodies: self.bodies.len(),
            bytes,
        }
    }
}

/// Which context clauses stand before the main program (10.1.1): both are of TEXT_IO.
#[derive(Clone, Copy, PartialEq, Eq)]
pub struct ContextClause {
    pub has_with: bool,
    pub has_use: bool,
}

/// A text as a tree: its context clause, the name of its main program, its body, and all nodes.
#[derive(Drop)]
pub struct Tree {
    pub context: ContextClause,
    pub name: Identifier,
    pub body: BodyId,
    pub nodes: Nodes,
}

impl Tree {
    /// Whether whatever a node names is there, and stands in a text of so many bytes; and an expression names only
    /// earlier ones.
    pub fn is_whole(&self, bytes: usize) -> bool
        ensures { result ≡ trees.is_tree_whole self.now bytes }
    {
        let reach = self.nodes.reach(bytes);
        reach.has_identifier(self.name)
            && reach.has_body(self.body)
            && reach.are_in_order(&self.nodes.expressions)
            && reach.are_declarations_whole(&self.nodes.declarations)
            && reach.are_statements_whole(&self.nodes.statements)
            && reach.are_bodies_whole(&self.nodes.bodies)
            && reach.has_identifiers(&self.nodes.pragmas)
    }
}
