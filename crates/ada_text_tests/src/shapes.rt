//! The trees of expressions (4.4), written with each operator and its operands in parentheses.

use ada_text::read;
use ada_text::tree::{
    Association, Attribute, BinaryOperator, ExpressionForm, ExpressionId, Identifier, Nodes,
    StatementForm, UnaryOperator,
};
use std::test::Fail;

/// How deep the trees are nested at most.
const DEEPEST: u32 = 8;

/// An operator with two operands (4.5).
fn binary_sign(operator: BinaryOperator) -> &'static [u8] {
    match operator {
        BinaryOperator::And => b" and ",
        BinaryOperator::Or => b" or ",
        BinaryOperator::Xor => b" xor ",
        BinaryOperator::AndThen => b" and then ",
        BinaryOperator::OrElse => b" or else ",
        BinaryOperator::Equal => b" = ",
        BinaryOperator::NotEqual => b" /= ",
        BinaryOperator::Less => b" < ",
        BinaryOperator::LessEqual => b" <= ",
        BinaryOperator::Greater => b" > ",
        BinaryOperator::GreaterEqual => b" >= ",
        BinaryOperator::In => b" in ",
        BinaryOperator::NotIn => b" not in ",
        BinaryOperator::Add => b" + ",
        BinaryOperator::Subtract => b" - ",
        BinaryOperator::Concatenate => b" & ",
        BinaryOperator::Multiply => b" * ",
        BinaryOperator::Divide => b" / ",
        BinaryOperator::Mod => b" mod ",
        BinaryOperator::Rem => b" rem ",
        BinaryOperator::Power => b" ** ",
    }
}

/// An operator with one operand (4.5).
fn unary_sign(operator: UnaryOperator) -> &'static [u8] {
    match operator {
        UnaryOperator::Plus => b"+ ",
        UnaryOperator::Minus => b"- ",
        UnaryOperator::Not => b"not ",
        UnaryOperator::Abs => b"abs ",
    }
}

/// An attribute (annex A).
fn attribute_name(attribute: Attribute) -> &'static [u8] {
    match attribute {
        Attribute::First => b"FIRST",
        Attribute::Last => b"LAST",
        Attribute::Length => b"LENGTH",
        Attribute::Range => b"RANGE",
        Attribute::Image => b"IMAGE",
        Attribute::Succ => b"SUCC",
        Attribute::Pred => b"PRED",
        Attribute::Pos => b"POS",
        Attribute::Val => b"VAL",
        Attribute::Count => b"COUNT",
        Attribute::Callable => b"CALLABLE",
        Attribute::Terminated => b"TERMINATED",
    }
}

/// Writes an identifier as the text has it.
fn write_name(out: &mut Vec<u8>, text: &[u8], name: Identifier) -> Result<(), Fail> {
    if let Some(spelling) = text.get(name.at as usize..name.end as usize) {
        out.extend_from_slice(spelling)?;
    }
    Ok(())
}

/// Writes an expression, of so many levels at most.
#[cycle(expression)]
fn write_expression(
    out: &mut Vec<u8>,
    text: &[u8],
    nodes: &Nodes,
    id: ExpressionId,
    depth: u32,
) -> Result<(), Fail> {
    if depth == 0 {
        return Ok(());
    }
    let below = depth - 1;
    let Some(node) = nodes.expressions.get(id.0 as usize) else {
        return Ok(());
    };
    match &node.form {
        ExpressionForm::Name(name) => write_name(out, text, *name),
        ExpressionForm::Selected { prefix, selector } => {
            write_expression(out, text, nodes, *prefix, below)?;
            out.push(b'.')?;
            write_name(out, text, *selector)
        }
        ExpressionForm::Applied { prefix, arguments } => {
            write_expression(out, text, nodes, *prefix, below)?;
            write_associations(out, text, nodes, arguments, below)
        }
        ExpressionForm::Attribute { prefix, attribute } => {
            write_expression(out, text, nodes, *prefix, below)?;
            out.push(b'\'')?;
            out.extend_from_slice(attribute_name(*attribute))?;
            Ok(())
        }
        ExpressionForm::Qualified { mark, operand } => {
            write_pair(out, text, nodes, *mark, b"'", *operand, below)
        }
        ExpressionForm::Aggregate(components) => {
            write_associations(out, text, nodes, components, below)
        }
        ExpressionForm::Range { low, high } => {
            write_pair(out, text, nodes, *low, b" .. ", *high, below)
        }
        ExpressionForm::Constrained { mark, range } => {
            write_pair(out, text, nodes, *mark, b" range ", *range, below)
        }
        ExpressionForm::Unary { operator, operand } => {
            out.push(b'(')?;
            out.extend_from_slice(unary_sign(*operator))?;
            write_expression(out, text, nodes, *operand, below)?;
            out.push(b')')?;
            Ok(())
        }
        ExpressionForm::Binary {
            operator,
            left,
            right,
        } => write_pair(
            out,
            text,
            nodes,
            *left,
            binary_sign(*operator),
            *right,
            below,
        ),
        ExpressionForm::Others => {
            out.extend_from_slice(b"others")?;
            Ok(())
        }
        ExpressionForm::Integer(_)
        | ExpressionForm::Real(_)
        | ExpressionForm::Character(_)
        | ExpressionForm::Text(_) => {
            out.extend_from_slice(b"literal")?;
            Ok(())
        }
    }
}

/// Writes two expressions with a sign between them, in parentheses.
#[cycle(expression)]
fn write_pair(
    out: &mut Vec<u8>,
    text: &[u8],
    nodes: &Nodes,
    left: ExpressionId,
    sign: &[u8],
    right: ExpressionId,
    depth: u32,
) -> Result<(), Fail> {
    out.push(b'(')?;
    write_expression(out, text, nodes, left, depth)?;
    out.extend_from_slice(sign)?;
    write_expression(out, text, nodes, right, depth)?;
    out.push(b')')?;
    Ok(())
}

/// Writes associations in brackets, with a semicolon after each.
#[cycle(expression)]
fn write_associations(
    out: &mut Vec<u8>,
    text: &[u8],
    nodes: &Nodes,
    parts: &[Association],
    depth: u32,
) -> Result<(), Fail> {
    out.push(b'[')?;
    for part in parts {
        write_choices(out, text, nodes, &part.choices, depth)?;
        write_expression(out, text, nodes, part.value, depth)?;
        out.push(b';')?;
    }
    out.push(b']')?;
    Ok(())
}

/// Writes choices, with an arrow after each.
#[cycle(expression)]
fn write_choices(
    out: &mut Vec<u8>,
    text: &[u8],
    nodes: &Nodes,
    choices: &[ExpressionId],
    depth: u32,
) -> Result<(), Fail> {
    for choice in choices {
        write_expression(out, text, nodes, *choice, depth)?;
        out.extend_from_slice(b" => ")?;
    }
    Ok(())
}

/// The value that the first statement of the tree assigns.
fn assigned(nodes: &Nodes) -> Option<ExpressionId> {
    match nodes.statements.first() {
        Some(statement) => match statement.form {
            StatementForm::Assignment { value, .. } => Some(value),
            _ => None,
        },
        None => None,
    }
}

/// The tree of an expression.
fn shape<R: AllocGlobal>(rt: &R, expression: &[u8]) -> Result<Vec<u8>, Fail> {
    let mut out = Vec::new(rt.alloc());
    let mut text = Vec::new(rt.alloc());
    text.extend_from_slice(b"procedure P is begin X := ")?;
    text.extend_from_slice(expression)?;
    text.extend_from_slice(b"; end;")?;
    if let Ok(tree) = read(rt.alloc(), &text) {
        if let Some(value) = assigned(&tree.nodes) {
            write_expression(&mut out, &text, &tree.nodes, value, DEEPEST)?;
        }
    }
    Ok(out)
}

/// Precedence (4.5), and operators of one level from left to right.
#[test]
fn groups_by_precedence(rt: HostRuntime) -> Result<(), Fail> {
    for (expression, want) in [
        (b"A + B * C".as_slice(), b"(A + (B * C))".as_slice()),
        (b"A - B - C", b"((A - B) - C)"),
        (b"A / B * C mod D rem E", b"((((A / B) * C) mod D) rem E)"),
        (b"- A + B", b"((- A) + B)"),
        (b"+ A * B", b"(+ (A * B))"),
        (b"A ** B * C", b"((A ** B) * C)"),
        (b"abs A & B", b"((abs A) & B)"),
        (b"not A and B and C", b"(((not A) and B) and C)"),
        (b"A < B or C /= D", b"((A < B) or (C /= D))"),
        (b"A >= B xor C <= D", b"((A >= B) xor (C <= D))"),
        (b"A > B and then C = D", b"((A > B) and then (C = D))"),
        (b"A or else B or else C", b"((A or else B) or else C)"),
        (b"(A + B) * C", b"((A + B) * C)"),
        (b"A in B .. C + D", b"(A in (B .. (C + D)))"),
        (b"A not in T", b"(A not in T)"),
    ] {
        assert_eq!(rt; shape(&rt, expression)?.as_slice(), want);
    }
    Ok(())
}

/// Names (4.1), aggregates (4.3) and qualified expressions (4.7).
#[test]
fn follows_names(rt: HostRuntime) -> Result<(), Fail> {
    for (expression, want) in [
        (b"A (B) (C, D)".as_slice(), b"A[B;][C;D;]".as_slice()),
        (b"A (B).C'COUNT", b"A[B;].C'COUNT"),
        (b"A.B (C => D)", b"A.B[C => D;]"),
        (b"T'SUCC (T'FIRST)", b"T'SUCC[T'FIRST;]"),
        (b"T'(A)", b"(T'A)"),
        (b"T'(A, B)", b"(T'[A;B;])"),
        (b"(A | B => C, others => D)", b"[A => B => C;others => D;]"),
        (
            b"(A .. B => C, T range A .. B => D)",
            b"[(A .. B) => C;(T range (A .. B)) => D;]",
        ),
    ] {
        assert_eq!(rt; shape(&rt, expression)?.as_slice(), want);
    }
    Ok(())
}
