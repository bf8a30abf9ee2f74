//! The values of static expressions (4.9).

use ada_text::Cause;
use ada_text::tree::{BinaryOperator, UnaryOperator};

/// The position of a value of BOOLEAN.
fn position(holds: bool) -> i64 {
    i64::from(holds)
}

/// The value of an operator's result. Durations are in thousandths, and multiplied and divided by integers alone.
pub fn unary(operator: UnaryOperator, operand: i64) -> Result<i64, Cause> {
    let value = match operator {
        UnaryOperator::Plus => Some(operand),
        UnaryOperator::Minus => operand.checked_neg(),
        UnaryOperator::Abs => operand.checked_abs(),
        UnaryOperator::Not => Some(position(operand == 0)),
    };
    value.ok_or(Cause::ValueOutside)
}

/// The remainder with the sign of the divisor (4.5.5).
fn modulus(left: i64, right: i64) -> Option<i64> {
    let rest = left.checked_rem(right)?;
    if rest != 0 && (rest < 0) != (right < 0) {
        rest.checked_add(right)
    } else {
        Some(rest)
    }
}

/// The power with an exponent that isn't negative (4.5.6).
fn power(left: i64, right: i64) -> Option<i64> {
    match (left, u32::try_from(right)) {
        (_, Err(_)) => None,
        (1, Ok(_)) => Some(1),
        (0, Ok(exponent)) => Some(position(exponent == 0)),
        (-1, Ok(exponent)) => Some(1 - 2 * i64::from(exponent % 2)),
        (_, Ok(exponent)) if exponent < 64 => left.checked_pow(exponent),
        _ => None,
    }
}

/// The sum, difference, product, quotient, remainder or power, if there is one.
fn number(operator: BinaryOperator, left: i64, right: i64) -> Option<i64> {
    match operator {
        BinaryOperator::Add => left.checked_add(right),
        BinaryOperator::Subtract => left.checked_sub(right),
        BinaryOperator::Multiply => left.checked_mul(right),
        BinaryOperator::Divide => left.checked_div(right),
        BinaryOperator::Rem => left.checked_rem(right),
        BinaryOperator::Mod => modulus(left, right),
        BinaryOperator::Power => power(left, right),
        _ => None,
    }
}

/// Whether an operator divides (4.5.5).
pub fn divides(operator: BinaryOperator) -> bool {
    matches!(
        operator,
        BinaryOperator::Divide | BinaryOperator::Mod | BinaryOperator::Rem
    )
}

/// The value of an arithmetic operator's result (4.5.3, 4.5.5, 4.5.6).
pub fn arithmetic(operator: BinaryOperator, left: i64, right: i64) -> Result<i64, Cause> {
    if divides(operator) && right == 0 {
        return Err(Cause::DivisionByZero);
    }
    number(operator, left, right).ok_or(Cause::ValueOutside)
}

/// The position of the result of a relation between scalar values (4.5.2), or of a logical operator (4.5.1); of
/// short-circuit forms and membership tests none, since they aren't static.
pub fn truth(operator: BinaryOperator, left: i64, right: i64) -> Option<i64> {
    let holds = match operator {
        BinaryOperator::And => left != 0 && right != 0,
        BinaryOperator::Or => left != 0 || right != 0,
        BinaryOperator::Xor => left != right,
        BinaryOperator::Equal => left == right,
        BinaryOperator::NotEqual => left != right,
        BinaryOperator::Less => left < right,
        BinaryOperator::LessEqual => left <= right,
        BinaryOperator::Greater => left > right,
        BinaryOperator::GreaterEqual => left >= right,
        _ => return None,
    };
    Some(position(holds))
}
