//! What trees have of literals and statements, and whether they are whole.

use crate::common::of_statements;
use ada_text::tree::{
    BodyId, ExpressionForm, ExpressionId, Iteration, Nodes, StatementForm, StatementId,
};
use std::test::Fail;

/// The forms of numeric literals (2.4): what the text says, the value, and whether it is a real one in thousandths.
const NUMBERS: [(&[u8], i64, bool); 12] = [
    (b"X := 0;", 0, false),
    (b"X := 1_000;", 1000, false),
    (b"X := 12E2;", 1200, false),
    (b"X := 7e+1;", 70, false),
    (b"X := 2#1010_1010#;", 170, false),
    (b"X := 16#fF#;", 255, false),
    (b"X := 16#F#E1;", 240, false),
    (
        b"X := 9_223_372_036_854_775_807;",
        9_223_372_036_854_775_807,
        false,
    ),
    (b"X := 0.5;", 500, true),
    (b"X := 10.25;", 10_250, true),
    (b"X := 3.007;", 3007, true),
    (b"X := 1_0.0;", 10_000, true),
];

/// The value of the last literal of a tree, and whether it is a real one.
fn number(nodes: &Nodes) -> Option<(i64, bool)> {
    match nodes.expressions.last() {
        Some(node) => match node.form {
            ExpressionForm::Integer(value) => Some((value, false)),
            ExpressionForm::Real(value) => Some((value, true)),
            _ => None,
        },
        None => None,
    }
}

/// 2.4.
#[test]
fn reads_numbers(rt: HostRuntime) -> Result<(), Fail> {
    for (statement, value, is_real) in NUMBERS {
        let found = match of_statements(&rt, statement)? {
            Some(tree) => number(&tree.nodes),
            None => None,
        };
        assert_eq!(rt; found, Some((value, is_real)));
    }
    Ok(())
}

/// The form of the statement with this index in a tree.
fn form(nodes: &Nodes, index: usize) -> Option<&StatementForm> {
    match nodes.statements.get(index) {
        Some(node) => Some(&node.form),
        None => None,
    }
}

/// Whether these are the statements with indices from the first one on, so many.
fn are(statements: &[StatementId], first: u32, count: usize) -> bool {
    statements.len() == count && statements.first().map(|id| id.0) == Some(first)
}

/// Whether this is an if statement with the arms 0, and 1 and 2, and with 3 after `else`.
fn is_if_of_four(form: Option<&StatementForm>) -> bool {
    match form {
        Some(StatementForm::If { arms, otherwise }) => match arms.as_slice() {
            [first, second] => {
                are(&first.statements, 0, 1)
                    && are(&second.statements, 1, 2)
                    && are(otherwise, 3, 1)
            }
            _ => false,
        },
        _ => false,
    }
}

/// 5.3: statements come before what they stand in.
#[test]
fn keeps_the_arms_of_an_if_statement(rt: HostRuntime) -> Result<(), Fail> {
    let statements = b"if A then B; elsif C then D; E; else F; end if;";
    let kept = match of_statements(&rt, statements)? {
        Some(tree) => is_if_of_four(form(&tree.nodes, 4)),
        None => false,
    };
    assert!(rt; kept);
    Ok(())
}

/// Whether this is a loop over statement 0 for each value of a range from its end.
fn is_reverse_loop(form: Option<&StatementForm>) -> bool {
    match form {
        Some(
            StatementForm::Loop {
                name,
                iteration,
                statements,
            },
        ) => {
            let reversed = match iteration {
                Iteration::For { is_reverse, .. } => *is_reverse,
                _ => false,
            };
            reversed && name.is_some() && are(statements, 0, 1)
        }
        _ => false,
    }
}

/// 5.5.
#[test]
fn keeps_the_iteration_of_a_loop(rt: HostRuntime) -> Result<(), Fail> {
    let statements = b"L : for I in reverse A .. B loop C; end loop L;";
    let kept = match of_statements(&rt, statements)? {
        Some(tree) => is_reverse_loop(form(&tree.nodes, 1)),
        None => false,
    };
    assert!(rt; kept);
    Ok(())
}

/// Whether this is a select statement of an accept statement under a guard, 1, with 2 after it, and of a delay, 3,
/// without either.
fn is_guarded_wait(form: Option<&StatementForm>) -> bool {
    match form {
        Some(StatementForm::Select(select)) => match select.alternatives.as_slice() {
            [first, second] => {
                first.guard.is_some()
                    && first.event == StatementId(1)
                    && are(&first.statements, 2, 1)
                    && second.guard.is_none()
                    && second.event == StatementId(3)
                    && second.statements.is_empty()
                    && select.otherwise.is_none()
            }
            _ => false,
        },
        _ => false,
    }
}

/// 9.7.1.
#[test]
fn keeps_the_alternatives_of_a_selective_wait(rt: HostRuntime) -> Result<(), Fail> {
    let statements = b"select when A => accept E do B; end E; C; or delay D; end select;";
    let kept = match of_statements(&rt, statements)? {
        Some(tree) => is_guarded_wait(form(&tree.nodes, 4)),
        None => false,
    };
    assert!(rt; kept);
    Ok(())
}

/// A tree that names a node which isn't there isn't whole; nor is one of a shorter text.
#[test]
fn tells_trees_that_are_not_whole(rt: HostRuntime) -> Result<(), Fail> {
    if let Some(mut tree) = of_statements(&rt, b"X := 1;")? {
        let bytes = b"procedure P is begin\nX := 1;\nend P;\n".len();
        assert!(rt; tree.is_whole(bytes));
        assert!(rt; !tree.is_whole(20));
        tree.body = BodyId(1);
        assert!(rt; !tree.is_whole(bytes));
        tree.body = BodyId(0);
        for statement in &mut tree.nodes.statements {
            statement.form = StatementForm::Call(ExpressionId(2));
        }
        assert!(rt; !tree.is_whole(bytes));
    }
    Ok(())
}
