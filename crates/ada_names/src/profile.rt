//! Whether two specifications conform (6.3.1, 9.5).

use crate::spelling::is_same;
use ada_text::tree::{ExpressionForm, ExpressionId, Nodes, Parameter};

/// Whether two subtypes have the same name.
fn is_same_subtype(text: &[u8], nodes: &Nodes, left: ExpressionId, right: ExpressionId) -> bool {
    let expressions = &nodes.expressions;
    match (
        expressions.get(left.0 as usize),
        expressions.get(right.0 as usize),
    ) {
        (Some(left), Some(right)) => match (&left.form, &right.form) {
            (ExpressionForm::Name(left), ExpressionForm::Name(right)) => {
                is_same(text, *left, *right)
            }
            _ => false,
        },
        _ => false,
    }
}

/// Whether parameters have the same names, modes and subtypes in the same order.
pub fn conform(text: &[u8], nodes: &Nodes, left: &[Parameter], right: &[Parameter]) -> bool {
    left.len() == right.len()
        && left.iter().zip(right).all(|(one, other)| {
            is_same(text, one.name, other.name)
                && one.mode == other.mode
                && is_same_subtype(text, nodes, one.subtype, other.subtype)
        })
}

/// Whether the results of two functions have the same subtype, or neither subprogram is a function.
pub fn results_conform(
    text: &[u8],
    nodes: &Nodes,
    left: Option<ExpressionId>,
    right: Option<ExpressionId>,
) -> bool {
    match (left, right) {
        (Some(left), Some(right)) => is_same_subtype(text, nodes, left, right),
        (None, None) => true,
        _ => false,
    }
}
