//! How long the words of a text are.

ghost use Rattle.std.specs.Prelude.{◌≤◌, ◌<◌, length, IfOk};

use crate::fault::Cause;
use crate::kind::{Kind, RESERVED};

/// Whether a byte is a letter of an identifier (2.3).
pub fn is_letter(byte: u8) -> bool {
    matches!(byte, b'A'..=b'Z' | b'a'..=b'z')
}

/// Whether a byte is a digit.
pub fn is_digit(byte: u8) -> bool {
    matches!(byte, b'0'..=b'9')
}

/// Whether a byte may go on with an identifier (2.3) or with the digits of a based literal (2.4.2).
fn is_inner(byte: u8) -> bool {
    is_letter(byte) || is_digit(byte) || byte == b'_'
}

/// Whether a byte is a format effector or a space, which part words (2.2).
fn is_blank(byte: u8) -> bool {
    byte == b' ' || (9 <= byte && byte <= 13)
}

/// How many letters, digits and underscores the bytes begin with.
pub fn inner_length(bytes: &[u8]) -> usize
    ensures { result ≤ length bytes.now }
{
    match bytes.iter().position(|byte| !is_inner(*byte)) {
        Some(end) => end,
        None => bytes.len(),
    }
}

/// Whether each underscore of a name has a letter or a digit after it (2.3).
pub fn is_well_formed(name: &[u8]) -> bool {
    !matches!(name, [.., b'_']) && !name.windows(2).any(|pair| matches!(pair, [b'_', b'_']))
}

/// How many digits and underscores the bytes begin with.
pub fn digits_length(bytes: &[u8]) -> usize
    ensures { result ≤ length bytes.now }
{
    match bytes
        .iter()
        .position(|byte| !is_digit(*byte) && *byte != b'_')
    {
        Some(end) => end,
        None => bytes.len(),
    }
}

/// How many bytes stand before the end of the line.
fn line_length(bytes: &[u8]) -> usize
    ensures { result ≤ length bytes.now }
{
    match bytes.iter().position(|byte| *byte == b'\n') {
        Some(end) => end,
        None => bytes.len(),
    }
}

/// How many blanks, or bytes of a comment (2.7), the bytes begin with.
fn blank_length(bytes: &[u8]) -> usize
    ensures { result ≤ length bytes.now }
{
    if let [b'-', b'-', ..] = bytes {
        return line_length(bytes);
    }
    match bytes.iter().position(|byte| !is_blank(*byte)) {
        Some(end) => end,
        None => bytes.len(),
    }
}

/// How many bytes stand before the first word.
pub fn gap_length(bytes: &[u8]) -> usize
    ensures { result ≤ length bytes.now }
{
    let mut at = 0;
    loop {
        let length = blank_length(&bytes[at..]);
        if length == 0 {
            return at;
        }
        at += length;
    }
}

/// What an identifier is, which may be a reserved word (2.9).
pub fn kind_of_name(name: &[u8]) -> Kind {
    match RESERVED.iter().copied().find(|kind| name.eq_ignore_ascii_case(
        kind.spelling().as_bytes(),
    )) {
        Some(kind) => kind,
        None => Kind::Identifier,
    }
}

/// How many bytes an exponent takes (2.4.1), or 0.
fn exponent_length(bytes: &[u8]) -> usize
    ensures { result ≤ length bytes.now }
{
    match bytes {
        [b'e' | b'E', b'+' | b'-', digits @ ..] => 2 + digits_length(digits),
        [b'e' | b'E', digits @ ..] => 1 + digits_length(digits),
        _ => 0,
    }
}

/// How many bytes the digits between two number signs take, with these (2.4.2), or 0 if the second sign is missing.
fn based_length(bytes: &[u8]) -> usize
    ensures { result ≤ length bytes.now }
{
    match bytes {
        [b'#', digits @ ..] => {
            let length = inner_length(digits);
            if length < digits.len() && digits[length] == b'#' {
                length + 2
            } else {
                0
            }
        }
        _ => 0,
    }
}

/// What a numeric literal is (2.4), and how many bytes it takes.
pub fn numeral(bytes: &[u8]) -> (Kind, usize)
    ensures { result.1 ≤ length bytes.now }
{
    let whole = digits_length(bytes);
    let based = based_length(&bytes[whole..]);
    let after = whole + based;
    let fraction = if based == 0 {
        fraction_digits(&bytes[after..])
    } else {
        0
    };
    let exponent = exponent_length(&bytes[after + fraction..]);
    let kind = if fraction == 0 {
        Kind::Integer
    } else {
        Kind::Real
    };
    (kind, after + fraction + exponent)
}

/// How many bytes the point and the decimal digits after it take, or 0 if no digit follows a point.
fn fraction_digits(bytes: &[u8]) -> usize
    ensures { result ≤ length bytes.now }
{
    match bytes {
        [b'.', first, ..] if is_digit(*first) => 1 + digits_length(&bytes[1..]),
        _ => 0,
    }
}

/// How many bytes a string literal takes, which its first quotation mark begins (2.6). Two such marks within stand for
/// one.
pub fn text_length(bytes: &[u8]) -> Result<usize, Cause>
    requires { 1 ≤ length bytes.now }
    ensures { IfOk result (λ end. (0 < end) × (end ≤ length bytes.now)) }
{
    let mut at = 1;
    while at < bytes.len() && bytes[at] != b'\n' {
        if bytes[at] != b'"' {
            at += 1;
        } else if at + 1 < bytes.len() && bytes[at + 1] == b'"' {
            at += 2;
        } else {
            return Ok(at + 1);
        }
    }
    Err(Cause::OpenText)
}
