//! What the tests ask of names.

use ada_names::{Meaning, Resolved, resolve};
use ada_text::tree::{ExpressionForm, Nodes, StatementForm};
use ada_text::{Cause, Fault, Place, read};
use std::alloc::Global;
use std::process::Abort;

/// The names of a text.
pub fn names(alloc: Global, text: &[u8]) -> Result<Resolved, Fault> {
    let tree = read(alloc, text)?;
    resolve(alloc, text, &tree)
}

/// The names of a text are resolved.
pub fn assert_resolved<R: Abort + AllocGlobal>(rt: &R, text: &[u8]) {
    assert_eq!(rt; names(rt.alloc(), text).err(), None);
}

/// A name of the text is refused for this cause, at this line and column.
pub fn assert_unresolved<R: Abort + AllocGlobal>(
    rt: &R,
    text: &[u8],
    line: u32,
    column: u32,
    cause: Cause,
) {
    let fault = names(rt.alloc(), text).err();
    let place = Place { line, column };
    assert_eq!(rt; fault, Some(Fault { place, cause }));
}

/// Where a name first stands in a line, from 1.
pub fn index_in_line(text: &[u8], name: &[u8], line: usize) -> Option<u32> {
    let mut lines_left = line;
    for (index, byte) in text.iter().enumerate() {
        if lines_left == 1 && text[index..].starts_with(name) {
            return u32::try_from(index).ok();
        }
        if *byte == b'\n' {
            lines_left = lines_left.saturating_sub(1);
        }
    }
    None
}

/// What the name at an index denotes: a simple name, a selector, the entry of an accept statement, or the loop of an
/// exit statement.
fn meaning_at(nodes: &Nodes, resolved: &Resolved, at: u32) -> Option<Meaning> {
    let expressions = nodes.expressions.iter().zip(&resolved.expressions);
    for (node, meaning) in expressions {
        match &node.form {
            ExpressionForm::Name(name) if name.at == at => return *meaning,
            ExpressionForm::Selected { selector, .. } if selector.at == at => return *meaning,
            ExpressionForm::Character(_) if node.at == at => return *meaning,
            _ => {}
        }
    }
    meaning_in_statement(nodes, resolved, at)
}

/// What the entry of an accept statement, or the loop of an exit statement, at an index denotes.
fn meaning_in_statement(nodes: &Nodes, resolved: &Resolved, at: u32) -> Option<Meaning> {
    let statements = nodes.statements.iter().zip(&resolved.statements);
    for (node, meaning) in statements {
        match &node.form {
            StatementForm::Accept(accept) if accept.entry.at == at => return *meaning,
            StatementForm::Exit { name, .. } if name.map(|name| name.at) == Some(at) => {
                return *meaning;
            }
            _ => {}
        }
    }
    None
}

/// What a name in a line denotes.
pub fn meaning(alloc: Global, text: &[u8], name: &[u8], line: usize) -> Option<Meaning> {
    let tree = read(alloc, text).ok()?;
    let resolved = resolve(alloc, text, &tree).ok()?;
    meaning_at(&tree.nodes, &resolved, index_in_line(text, name, line)?)
}

/// Where what a name in a line denotes is declared.
fn declared_index(alloc: Global, text: &[u8], name: &[u8], line: usize) -> Option<u32> {
    let tree = read(alloc, text).ok()?;
    let resolved = resolve(alloc, text, &tree).ok()?;
    let meaning = meaning_at(&tree.nodes, &resolved, index_in_line(text, name, line)?)?;
    Some(resolved.declared_name(&tree, meaning)?.at)
}

/// The name that first stands in one line denotes what another line declares under it.
pub fn assert_denotes<R: Abort + AllocGlobal>(
    rt: &R,
    text: &[u8],
    name: &[u8],
    line: usize,
    declared_in: usize,
) {
    let found = declared_index(rt.alloc(), text, name, line);
    assert!(rt; found.is_some(), "line {line}");
    assert_eq!(rt;
        found,
        index_in_line(text, name, declared_in),
        "line {line}"
    );
}
