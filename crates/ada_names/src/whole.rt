//! Whether what names denote is there.

ghost use Rattle.std.specs.Prelude.{◌≡◌};
ghost use Rattle.std.specs.List.{list_all};
ghost use Rattle.ada_names.specs.Names as names;

use crate::declared_names::{declared_name, literal_in};
use crate::meaning::{Literal, LiteralId, Meaning};
use crate::resolved::Home;
use ada_text::Tree;
use ada_text::tree::{BodyId, DeclarationId, Nodes, StatementForm, StatementId};

/// Whether a statement is a loop or a block.
fn is_loop_or_block(form: &StatementForm) -> bool
    ensures { result ≡ names.is_loop_or_block form.now }
{
    matches!(
        form,
        StatementForm::Loop { .. } | StatementForm::Block { .. }
    )
}

/// Whether a statement of the tree is a loop or a block.
fn has_loop_or_block(nodes: &Nodes, id: StatementId) -> bool
    ensures { result ≡ names.has_loop_or_block nodes.now id }
{
    match nodes.statements.get(id.0 as usize) {
        Some(node) => is_loop_or_block(&node.form),
        None => false,
    }
}

/// Whether what a name denotes is in the tree, or among the literals.
fn has_meaning(tree: &Tree, literals: &[Literal], meaning: Meaning) -> bool
    ensures { result ≡ names.has_meaning tree.now literals.now meaning }
{
    match meaning {
        Meaning::Predefined(_) => true,
        Meaning::Literal(id) => id.0 < literals.len(),
        Meaning::Statement(id) => has_loop_or_block(&tree.nodes, id),
        _ => declared_name(tree, literals, meaning).is_some(),
    }
}

/// Whether that is so, if there is a meaning.
fn has_any_meaning(tree: &Tree, literals: &[Literal], meaning: Option<Meaning>) -> bool
    ensures { result ≡ names.has_any_meaning tree.now literals.now meaning }
{
    match meaning {
        Some(meaning) => has_meaning(tree, literals, meaning),
        None => true,
    }
}

/// Whether that is so of several.
pub fn have_meanings(tree: &Tree, literals: &[Literal], meanings: &[Option<Meaning>]) -> bool
    ensures { result ≡ list_all (names.has_any_meaning tree.now literals.now) meanings.now }
{
    meanings
        .iter()
        .all(|meaning| has_any_meaning(tree, literals, *meaning))
}

/// Whether a type has a literal at this position, if it isn't BOOLEAN.
fn is_owned(nodes: &Nodes, owner: Option<DeclarationId>, position: usize) -> bool
    ensures { result ≡ names.is_owned nodes.now owner position }
{
    match owner {
        Some(owner) => literal_in(nodes, owner, position).is_some(),
        None => true,
    }
}

/// Whether a literal that another one overloads is among so many.
fn is_among(id: Option<LiteralId>, count: usize) -> bool
    ensures { result ≡ names.is_among id count }
{
    match id {
        Some(id) => id.0 < count,
        None => true,
    }
}

/// Whether a literal is in its type, and overloads one of so many.
fn has_literal(nodes: &Nodes, count: usize, literal: &Literal) -> bool
    ensures { result ≡ names.has_literal nodes.now count literal.now }
{
    is_owned(nodes, literal.owner, literal.position) && is_among(literal.overloaded, count)
}

/// Whether that is so of several literals, of so many.
pub fn have_literals(nodes: &Nodes, count: usize, literals: &[Literal]) -> bool
    ensures { result ≡ list_all (names.has_literal nodes.now count) literals.now }
{
    literals
        .iter()
        .all(|literal| has_literal(nodes, count, literal))
}

/// Whether the body in which a declaration stands is in the tree.
fn has_home(nodes: &Nodes, home: Home) -> bool
    ensures { result ≡ names.has_home nodes.now home }
{
    (home.body.0 as usize) < nodes.bodies.len()
}

/// Whether that is so of several.
pub fn have_homes(nodes: &Nodes, homes: &[Home]) -> bool
    ensures { result ≡ list_all (names.has_home nodes.now) homes.now }
{
    homes.iter().all(|home| has_home(nodes, *home))
}

/// Whether a body is in the tree, if one is named.
fn has_any_body(nodes: &Nodes, body: Option<BodyId>) -> bool
    ensures { result ≡ names.has_any_body nodes.now body }
{
    match body {
        Some(id) => (id.0 as usize) < nodes.bodies.len(),
        None => true,
    }
}

/// Whether that is so of several.
pub fn have_bodies(nodes: &Nodes, bodies: &[Option<BodyId>]) -> bool
    ensures { result ≡ list_all (names.has_any_body nodes.now) bodies.now }
{
    bodies.iter().all(|body| has_any_body(nodes, *body))
}
