//! How names are written.

use ada_text::tree::Identifier;

/// The bytes of an identifier in its text.
pub fn spelling(text: &[u8], name: Identifier) -> &[u8] {
    let (at, end) = (name.at as usize, name.end as usize);
    if at <= end && end <= text.len() {
        &text[at..end]
    } else {
        &text[..0]
    }
}

/// Whether two names of a text are the same (2.3). Character literals are the same in the same case alone (2.5).
pub fn is_same(text: &[u8], left: Identifier, right: Identifier) -> bool {
    let (left, right) = (spelling(text, left), spelling(text, right));
    if is_character(left) {
        left == right
    } else {
        left.eq_ignore_ascii_case(right)
    }
}

/// Whether a name is a character literal (2.5).
pub fn is_character(spelling: &[u8]) -> bool {
    matches!(spelling, [b'\'', ..])
}
