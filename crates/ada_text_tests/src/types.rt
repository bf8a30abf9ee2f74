//! What the tests ask of types.

use crate::common::with_declarations;
use crate::names::index_in_line;
use ada_names::resolve;
use ada_text::tree::{Expression, ExpressionForm};
use ada_text::{Cause, Fault, Place, read};
use ada_types::{Class, Typed, check};
use std::alloc::Global;
use std::process::Abort;
use std::test::Fail;

/// The types of a text.
pub fn types(alloc: Global, text: &[u8]) -> Result<Typed, Fault> {
    let tree = read(alloc, text)?;
    let resolved = resolve(alloc, text, &tree)?;
    check(alloc, text, &tree, &resolved)
}

/// A text keeps the rules of types.
pub fn assert_typed<R: Abort + AllocGlobal>(rt: &R, text: &[u8]) {
    assert_eq!(rt; types(rt.alloc(), text).err(), None);
}

/// A text is refused for this cause, at this line and column.
pub fn assert_mistyped<R: Abort + AllocGlobal>(
    rt: &R,
    text: &[u8],
    line: u32,
    column: u32,
    cause: Cause,
) {
    let fault = types(rt.alloc(), text).err();
    let place = Place { line, column };
    assert_eq!(rt; fault, Some(Fault { place, cause }));
}

/// What an expression of a text is that begins where a name first stands in a line, or whose parentheses do.
pub fn class(alloc: Global, text: &[u8], name: &[u8], line: usize) -> Option<Class> {
    let tree = read(alloc, text).ok()?;
    let typed = types(alloc, text).ok()?;
    let at = index_in_line(text, name, line)?;
    let found = tree
        .nodes
        .expressions
        .iter()
        .zip(&typed.expressions)
        .find(|(node, _)| begins_at(node, at));
    match found {
        Some((_, class)) => *class,
        None => None,
    }
}

/// Whether an expression begins at an index, its selector or its parentheses do.
fn begins_at(node: &Expression, at: u32) -> bool {
    match &node.form {
        ExpressionForm::Name(name) => name.at == at,
        ExpressionForm::Selected { selector, .. } => selector.at == at,
        ExpressionForm::Applied { .. } | ExpressionForm::Character(_) => node.at == at,
        _ => false,
    }
}

/// The static value of the first constant that a procedure declares by such a declaration.
pub fn constant<R: AllocGlobal>(rt: &R, declaration: &[u8]) -> Result<Option<i64>, Fail> {
    let text = with_declarations(rt, declaration)?;
    let typed = types(rt.alloc(), &text)?;
    match typed.declarations.first() {
        Some(Some(declared)) => Ok(declared.value),
        _ => Ok(None),
    }
}
