//! How names are written.

use ada_text::tree::Identifier;

/// The bytes of an identifier in its text.
fn spelling(text: &[u8], name: Identifier) -> &[u8] {
    let (at, end) = (name.at as usize, name.end as usize);
    if at <= end && end <= text.len() {
        &text[at..end]
    } else {
        &text[..0]
    }
}

/// Whether two identifiers of a text are the same (2.3).
pub fn is_same(text: &[u8], left: Identifier, right: Identifier) -> bool {
    spelling(text, left).eq_ignore_ascii_case(spelling(text, right))
}
