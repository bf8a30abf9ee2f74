//! Characters of comments in ASCII.

use crate::repair::{Instead, instead_of};
use arrayvec::ArrayVec;
use std::str;
use unicode_normalization::Form;
use unicode_normalization::char::{decomposition, is_combining_mark};

/// The character at the beginning of some bytes, and how many bytes it takes: in UTF-8, or else one byte of Latin-1.
pub fn character_at(bytes: &[u8]) -> (char, usize) {
    for length in 2..5usize {
        if let Some(character) = character_of(bytes.get(..length).unwrap_or(&[])) {
            return (character, length);
        }
    }
    match bytes {
        [first, ..] => (char::from(*first), 1),
        [] => (' ', 1),
    }
}

// The character that these bytes are in UTF-8, if they are one outside of ASCII.
fn character_of(bytes: &[u8]) -> Option<char> {
    let text = str::from_utf8(bytes).ok()?;
    text.chars().next().filter(|first| !first.is_ascii())
}

/// A character as it is written in so many bytes of ASCII at most, `?` if it isn't known how.
pub fn ascii_of(character: char, room: usize) -> Instead {
    let instead = match usual(character) {
        Some(text) => instead_of(text.as_bytes()),
        None => decomposed(character),
    };
    if instead.len() <= room {
        instead
    } else {
        instead_of(b"?")
    }
}

// How it is usually written, if Unicode doesn't decompose it so.
fn usual(character: char) -> Option<&'static str> {
    let text = match character {
        '\t' => " ",
        '\u{200B}'..='\u{200D}' | '\u{2060}' | '\u{FEFF}' => "",
        '‐'..='―' | '−' => "-",
        '‘'..='‛' | '′' => "'",
        '“'..='‟' | '″' | '«' | '»' => "\"",
        '•' | '·' => "*",
        '×' => "x",
        '→' => "->",
        '←' => "<-",
        '⇒' => "=>",
        '≤' => "<=",
        '≥' => ">=",
        '≠' => "/=",
        '€' => "EUR",
        _ => return letter(character),
    };
    Some(text)
}

fn letter(character: char) -> Option<&'static str> {
    let text = match character {
        'ß' => "ss",
        'Æ' => "AE",
        'æ' => "ae",
        'Œ' => "OE",
        'œ' => "oe",
        'Ø' => "O",
        'ø' => "o",
        'Ł' => "L",
        'ł' => "l",
        'Đ' | 'Ð' => "D",
        'đ' | 'ð' => "d",
        'Þ' => "Th",
        'þ' => "th",
        'ı' => "i",
        _ => return None,
    };
    Some(text)
}

// The ASCII that it has beside its accents, if it is ASCII but for these.
fn decomposed(character: char) -> Instead {
    let mut instead = ArrayVec::new();
    let mut room = [character; 3];
    for part in decomposition(character, Form::Nfkd, &mut room) {
        let byte = u8::try_from(u32::from(*part)).unwrap_or(0);
        if 32 <= byte && byte <= 126 {
            let _ = instead.try_push(byte);
        } else if !is_combining_mark(*part) {
            return instead_of(b"?");
        }
    }
    instead
}
