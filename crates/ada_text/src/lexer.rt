//! Cutting a text into words (2.2).

ghost use Rattle.std.specs.Prelude.{◌≤◌, ◌<◌, ◌^◌, length, All, IfOk, IfSome};
ghost use Rattle.ada_text.specs.internal.Words.{IsWordOf};

use crate::fault::{Cause, Trouble};
use crate::kind::Kind;
use crate::lexical::{
    gap_length, inner_length, is_digit, is_letter, is_well_formed, kind_of_name, numeral,
    text_length,
};
use crate::place::LONGEST_TEXT;
use crate::word::Word;
use std::alloc::Global;

/// A delimiter of two bytes (2.2), if these are one.
fn double_delimiter(first: u8, second: u8) -> Option<Kind> {
    match (first, second) {
        (b'=', b'>') => Some(Kind::Arrow),
        (b'.', b'.') => Some(Kind::DoubleDot),
        (b'*', b'*') => Some(Kind::DoubleStar),
        (b':', b'=') => Some(Kind::Assignment),
        (b'/', b'=') => Some(Kind::NotEqual),
        (b'>', b'=') => Some(Kind::GreaterEqual),
        (b'<', b'=') => Some(Kind::LessEqual),
        (b'<', b'<') => Some(Kind::LeftLabel),
        (b'>', b'>') => Some(Kind::RightLabel),
        (b'<', b'>') => Some(Kind::Box),
        _ => None,
    }
}

/// A delimiter of one byte (2.2), if this is one.
fn single_delimiter(byte: u8) -> Result<Kind, Cause> {
    match byte {
        b'&' => Ok(Kind::Ampersand),
        b'\'' => Ok(Kind::Tick),
        b'(' => Ok(Kind::LeftParenthesis),
        b')' => Ok(Kind::RightParenthesis),
        b'*' => Ok(Kind::Star),
        b'+' => Ok(Kind::Plus),
        b',' => Ok(Kind::Comma),
        b'-' => Ok(Kind::Minus),
        b'.' => Ok(Kind::Dot),
        b'/' => Ok(Kind::Slash),
        b':' => Ok(Kind::Colon),
        b';' => Ok(Kind::Semicolon),
        b'<' => Ok(Kind::Less),
        b'=' => Ok(Kind::Equal),
        b'>' => Ok(Kind::Greater),
        b'|' => Ok(Kind::Bar),
        128..=255 => Err(Cause::NotAscii),
        _ => Err(Cause::BadCharacter),
    }
}

/// The delimiter that the bytes begin with, and how many bytes it takes.
fn delimiter(bytes: &[u8]) -> Result<(Kind, usize), Cause>
    requires { 1 ≤ length bytes.now }
    ensures { IfOk result (λ word. (0 < word.1) × (word.1 ≤ length bytes.now)) }
{
    if let [first, second, ..] = bytes {
        if let Some(kind) = double_delimiter(*first, *second) {
            return Ok((kind, 2));
        }
    }
    Ok((single_delimiter(bytes[0])?, 1))
}

/// Whether an apostrophe after such a word belongs to an attribute or a qualified expression (4.1.4, 4.7).
fn is_prefix(kind: Kind) -> bool {
    matches!(kind, Kind::Identifier | Kind::RightParenthesis)
}

/// The identifier or reserved word that the bytes begin with (2.3, 2.9), and how many bytes it takes.
fn name_word(bytes: &[u8]) -> Result<(Kind, usize), Cause>
    requires { 1 ≤ length bytes.now }
    ensures { IfOk result (λ word. (0 < word.1) × (word.1 ≤ length bytes.now)) }
{
    let length = 1 + inner_length(&bytes[1..]);
    let name = &bytes[..length];
    if is_well_formed(name) {
        Ok((kind_of_name(name), length))
    } else {
        Err(Cause::BadName)
    }
}

/// The numeric literal that the bytes begin with (2.4), and how many bytes it takes. No letter follows it (2.2).
fn number_word(bytes: &[u8]) -> Result<(Kind, usize), Cause>
    requires { 1 ≤ length bytes.now }
    ensures { IfOk result (λ word. (0 < word.1) × (word.1 ≤ length bytes.now)) }
{
    let (kind, more) = numeral(&bytes[1..]);
    let length = 1 + more;
    if inner_length(&bytes[length..]) == 0 {
        Ok((kind, length))
    } else {
        Err(Cause::BadNumber)
    }
}

/// The word that the bytes begin with, after a word of this kind, and how many bytes it takes.
fn first_word(bytes: &[u8], before: Kind) -> Result<(Kind, usize), Cause>
    requires { 1 ≤ length bytes.now }
    ensures { IfOk result (λ word. (0 < word.1) × (word.1 ≤ length bytes.now)) }
{
    if is_letter(bytes[0]) {
        return name_word(bytes);
    }
    if is_digit(bytes[0]) {
        return number_word(bytes);
    }
    match bytes {
        [b'"', ..] => Ok((Kind::Text, text_length(bytes)?)),
        [b'\'', inner, b'\'', ..] if !is_prefix(before) => {
            if *inner < 32 || 126 < *inner {
                return Err(Cause::NotAscii);
            }
            Ok((Kind::Character, 3))
        }
        _ => delimiter(bytes),
    }
}

/// The first word from this index on, if there is one, after a word of this kind.
fn next_word(text: &[u8], from: usize, before: Kind) -> Result<Option<Word>, Trouble>
    requires within { from ≤ length text.now }
    requires short { length text.now ≤ 2 ^ 20 }
    ensures { IfOk result (λ found. IfSome found (λ word.
        (from < word.end) × IsWordOf text.now word)) }
{
    let at = from + gap_length(&text[from..]);
    if at == text.len() {
        return Ok(None);
    }
    let place = at as u32;
    let (kind, length) = first_word(&text[at..], before).map_err(|cause| Trouble {
        at: place,
        cause,
    })?;
    Ok(Some(Word {
        kind,
        at: place,
        end: (at + length) as u32,
    }))
}

/// The words of a text that isn't too long.
fn cut(alloc: Global, text: &[u8]) -> Result<Vec<Word>, Trouble>
    requires { length text.now ≤ 2 ^ 20 }
    ensures { IfOk result (λ words. All (IsWordOf text.now) words.items) }
{
    let mut words = Vec::new(alloc);
    let mut from = 0;
    let mut before = Kind::EndOfText;
    while let Some(word) = next_word(text, from, before)? {
        before = word.kind;
        from = word.end as usize;
        words.push(word)?;
    }
    Ok(words)
}

/// The words of a text.
pub fn words_of(alloc: Global, text: &[u8]) -> Result<Vec<Word>, Trouble>
    ensures { IfOk result (λ words. All (IsWordOf text.now) words.items) }
{
    if text.len() > LONGEST_TEXT {
        return Err(Trouble {
            at: LONGEST_TEXT as u32,
            cause: Cause::TextTooLong,
        });
    }
    cut(alloc, text)
}
