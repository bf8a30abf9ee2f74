//! Where a text declares what names denote.

ghost use Rattle.std.specs.Prelude.{◌≡◌};
ghost use Rattle.ada_names.specs.Names as names;

use crate::meaning::{Literal, Meaning};
use ada_text::Tree;
use ada_text::tree::{
    DeclarationForm, DeclarationId, Identifier, Iteration, Nodes, StatementForm, StatementId,
    TypeDefinition,
};

/// The name of a parameter of a subprogram.
fn parameter_name(position: usize, form: &DeclarationForm) -> Option<Identifier>
    ensures { result ≡ names.parameter_name position form.now }
{
    match form {
        DeclarationForm::Subprogram { parameters, .. } => {
            parameters.get(position).map(|parameter| parameter.name)
        }
        _ => None,
    }
}

/// The name of an entry of a task.
fn entry_name(position: usize, form: &DeclarationForm) -> Option<Identifier>
    ensures { result ≡ names.entry_name position form.now }
{
    match form {
        DeclarationForm::Task { entries, .. } => entries.get(position).map(|entry| entry.name),
        _ => None,
    }
}

/// The name of a literal of an enumeration type.
fn literal_name(position: usize, form: &DeclarationForm) -> Option<Identifier>
    ensures { result ≡ names.literal_name position form.now }
{
    match form {
        DeclarationForm::Type(TypeDefinition::Enumeration(literals)) => {
            literals.get(position).copied()
        }
        _ => None,
    }
}

/// The name of a parameter of an accept statement.
fn accept_parameter_name(position: usize, form: &StatementForm) -> Option<Identifier>
    ensures { result ≡ names.accept_parameter_name position form.now }
{
    match form {
        StatementForm::Accept(accept) => accept
            .parameters
            .get(position)
            .map(|parameter| parameter.name),
        _ => None,
    }
}

/// The name of the parameter of an iteration, if it has one.
fn iteration_name(iteration: &Iteration) -> Option<Identifier>
    ensures { result ≡ names.iteration_name iteration.now }
{
    match iteration {
        Iteration::For { parameter, .. } => Some(*parameter),
        Iteration::Endless | Iteration::While(_) => None,
    }
}

/// The name of the parameter of a loop, if it has one.
fn loop_parameter_name(form: &StatementForm) -> Option<Identifier>
    ensures { result ≡ names.loop_parameter_name form.now }
{
    match form {
        StatementForm::Loop { iteration, .. } => iteration_name(iteration),
        _ => None,
    }
}

/// The name of a loop or a block, if it has one.
fn label(form: &StatementForm) -> Option<Identifier>
    ensures { result ≡ names.label form.now }
{
    match form {
        StatementForm::Loop { name, .. } | StatementForm::Block { name, .. } => *name,
        _ => None,
    }
}

/// The name of what a declaration of the tree declares.
fn name_of(nodes: &Nodes, id: DeclarationId) -> Option<Identifier>
    ensures { result ≡ names.name_of nodes.now id }
{
    match nodes.declarations.get(id.0 as usize) {
        Some(node) => Some(node.name),
        None => None,
    }
}

/// The name of a parameter of a subprogram of the tree.
fn parameter_in(nodes: &Nodes, id: DeclarationId, position: usize) -> Option<Identifier>
    ensures { result ≡ names.name_in (names.parameter_name position) nodes.now id }
{
    match nodes.declarations.get(id.0 as usize) {
        Some(node) => parameter_name(position, &node.form),
        None => None,
    }
}

/// The name of an entry of a task of the tree.
fn entry_in(nodes: &Nodes, id: DeclarationId, position: usize) -> Option<Identifier>
    ensures { result ≡ names.name_in (names.entry_name position) nodes.now id }
{
    match nodes.declarations.get(id.0 as usize) {
        Some(node) => entry_name(position, &node.form),
        None => None,
    }
}

/// The name of a literal of an enumeration type of the tree.
pub fn literal_in(nodes: &Nodes, id: DeclarationId, position: usize) -> Option<Identifier>
    ensures { result ≡ names.name_in (names.literal_name position) nodes.now id }
{
    match nodes.declarations.get(id.0 as usize) {
        Some(node) => literal_name(position, &node.form),
        None => None,
    }
}

/// The name of a parameter of an accept statement of the tree.
fn accept_parameter_at(nodes: &Nodes, id: StatementId, position: usize) -> Option<Identifier>
    ensures { result ≡ names.name_at (names.accept_parameter_name position) nodes.now id }
{
    match nodes.statements.get(id.0 as usize) {
        Some(node) => accept_parameter_name(position, &node.form),
        None => None,
    }
}

/// The name of the parameter of a loop of the tree.
fn loop_parameter_at(nodes: &Nodes, id: StatementId) -> Option<Identifier>
    ensures { result ≡ names.name_at names.loop_parameter_name nodes.now id }
{
    match nodes.statements.get(id.0 as usize) {
        Some(node) => loop_parameter_name(&node.form),
        None => None,
    }
}

/// The name of a loop or a block of the tree.
fn label_at(nodes: &Nodes, id: StatementId) -> Option<Identifier>
    ensures { result ≡ names.name_at names.label nodes.now id }
{
    match nodes.statements.get(id.0 as usize) {
        Some(node) => label(&node.form),
        None => None,
    }
}

/// The name of a literal, if the text declares its type.
fn name_of_literal(nodes: &Nodes, literal: &Literal) -> Option<Identifier>
    ensures { result ≡ names.name_of_literal nodes.now literal.now }
{
    match literal.owner {
        Some(owner) => literal_in(nodes, owner, literal.position),
        None => None,
    }
}

/// The name of the literal with this index.
fn literal_at(nodes: &Nodes, literals: &[Literal], index: usize) -> Option<Identifier>
    ensures { result ≡ names.literal_at nodes.now literals.now index }
{
    match literals.get(index) {
        Some(literal) => name_of_literal(nodes, literal),
        None => None,
    }
}

/// The name that the text declares for what a name denotes, with the place of the declaration; none for what is
/// predefined.
pub fn declared_name(tree: &Tree, literals: &[Literal], meaning: Meaning) -> Option<Identifier>
    ensures { result ≡ names.declared_name tree.now literals.now meaning }
{
    let nodes = &tree.nodes;
    match meaning {
        Meaning::Declaration(id) => name_of(nodes, id),
        Meaning::Literal(id) => literal_at(nodes, literals, id.0),
        Meaning::Parameter {
            subprogram,
            position,
        } => parameter_in(nodes, subprogram, position),
        Meaning::Entry { task, position } => entry_in(nodes, task, position),
        Meaning::AcceptParameter { accept, position } => {
            accept_parameter_at(nodes, accept, position)
        }
        Meaning::LoopParameter(id) => loop_parameter_at(nodes, id),
        Meaning::Statement(id) => label_at(nodes, id),
        Meaning::Main => Some(tree.name),
        Meaning::Predefined(_) => None,
    }
}
