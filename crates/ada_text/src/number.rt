//! The values of numeric literals (2.4).

ghost use Rattle.std.specs.Prelude.{◌≤◌, ◌<◌, ◌≤ℤ◌, pos, length, IfOk, IfSome};

use crate::fault::Cause;

/// The value of a digit, of which a letter has 10 to 15 (2.4.2).
fn digit_value(byte: u8) -> Option<u64>
    ensures { IfSome result (λ digit. digit < 16) }
{
    match byte {
        b'0'..=b'9' => Some(u64::from(byte - b'0')),
        b'A'..=b'F' => Some(u64::from(byte - b'A') + 10),
        b'a'..=b'f' => Some(u64::from(byte - b'a') + 10),
        _ => None,
    }
}

/// The number with one more digit at its end.
fn with_digit(number: u64, base: u64, byte: u8) -> Result<u64, Cause> {
    let digit = match digit_value(byte) {
        Some(digit) if digit < base => digit,
        _ => return Err(Cause::BadNumber),
    };
    number
        .checked_mul(base)
        .and_then(|shifted| shifted.checked_add(digit))
        .ok_or(Cause::NumberTooLarge)
}

/// The value of digits, between which single underscores may stand (2.4.1).
fn digits_value(digits: &[u8], base: u64) -> Result<u64, Cause> {
    let mut number: u64 = 0;
    let mut after_digit = false;
    for byte in digits {
        if *byte == b'_' {
            if !after_digit {
                return Err(Cause::BadNumber);
            }
            after_digit = false;
        } else {
            number = with_digit(number, base, *byte)?;
            after_digit = true;
        }
    }
    if after_digit {
        Ok(number)
    } else {
        Err(Cause::BadNumber)
    }
}

/// A number that is so often multiplied by this base.
fn raised(number: u64, base: u64, times: u64) -> Result<u64, Cause> {
    let mut product = number;
    if number == 0 {
        return Ok(0);
    }
    for _ in 0..times {
        product = product.checked_mul(base).ok_or(Cause::NumberTooLarge)?;
    }
    Ok(product)
}

/// The value of an exponent, with its letter and perhaps its sign (2.4.1), or 0 if there is none.
fn exponent_value(bytes: &[u8]) -> Result<u64, Cause> {
    match bytes {
        [] => Ok(0),
        [_, b'+', digits @ ..] => digits_value(digits, 10),
        [_, digits @ ..] => digits_value(digits, 10),
    }
}

/// Where the exponent of a decimal literal begins, or its end.
fn exponent_start(literal: &[u8]) -> usize
    ensures { result ≤ length literal.now }
{
    match literal
        .iter()
        .position(|byte| byte.to_ascii_uppercase() == b'E')
    {
        Some(at) => at,
        None => literal.len(),
    }
}

/// The value of a decimal literal without a point (2.4.1).
fn decimal_value(literal: &[u8]) -> Result<u64, Cause> {
    let end = exponent_start(literal);
    let number = digits_value(&literal[..end], 10)?;
    raised(number, 10, exponent_value(&literal[end..])?)
}

/// The value of a based literal, whose first number sign stands at this index (2.4.2).
fn based_value(literal: &[u8], sign: usize) -> Result<u64, Cause>
    requires { sign < length literal.now }
{
    let base = digits_value(&literal[..sign], 10)?;
    if base < 2 || 16 < base {
        return Err(Cause::BadNumber);
    }
    let rest = &literal[sign + 1..];
    match rest.iter().position(|byte| *byte == b'#') {
        Some(end) => {
            let number = digits_value(&rest[..end], base)?;
            raised(number, base, exponent_value(&rest[end + 1..])?)
        }
        None => Err(Cause::BadNumber),
    }
}

/// The value of an integer literal (2.4), which is below 2 ^ 63.
pub fn integer_value(literal: &[u8]) -> Result<i64, Cause>
    ensures { IfOk result (λ n. pos 0 ≤ℤ n) }
{
    let value = match literal.iter().position(|byte| *byte == b'#') {
        Some(sign) => based_value(literal, sign)?,
        None => decimal_value(literal)?,
    };
    i64::try_from(value).map_err(|_| Cause::NumberTooLarge)
}

/// The value of at most three digits after a point, in thousandths.
fn thousandths(digits: &[u8]) -> Result<u64, Cause> {
    let value = digits_value(digits, 10)?;
    match digits.len() {
        1 => raised(value, 10, 2),
        2 => raised(value, 10, 1),
        3 => Ok(value),
        _ => Err(Cause::BadNumber),
    }
}

/// The value of a real literal in thousandths: decimal, without an exponent, and with at most three digits after the
/// point.
pub fn real_value(literal: &[u8]) -> Result<i64, Cause> {
    let Some(point) = literal.iter().position(|byte| *byte == b'.') else {
        return Err(Cause::BadNumber);
    };
    let whole = raised(digits_value(&literal[..point], 10)?, 10, 3)?;
    let part = thousandths(&literal[point + 1..])?;
    let value = whole.checked_add(part).ok_or(Cause::NumberTooLarge)?;
    i64::try_from(value).map_err(|_| Cause::NumberTooLarge)
}
