//! Texts as JSON that may stand within HTML too.

use itoa::Buffer;
use std::alloc::AllocError;

// Whether a byte stands within quotation marks as it is.
fn is_plain_byte(byte: u8) -> bool {
    32 <= byte && byte <= 126 && byte != b'"' && byte != b'\\' && byte != b'<'
}

// Whether a text stands within quotation marks as it is. Each byte is looked at, with no way out before the last, so
// that many are looked at at once.
fn is_plain(text: &str) -> bool {
    let mut are_plain = true;
    for byte in text.as_bytes() {
        are_plain &= is_plain_byte(*byte);
    }
    are_plain
}

// Whether a byte stands in HTML as it is.
fn is_shown_byte(byte: u8) -> bool {
    byte != b'&' && byte != b'<' && byte != b'>' && byte != b'"'
}

// Whether a text stands in HTML as it is.
fn is_shown(text: &str) -> bool {
    let mut are_shown = true;
    for byte in text.as_bytes() {
        are_shown &= is_shown_byte(*byte);
    }
    are_shown
}

/// Appends a text in quotation marks. What isn't printable ASCII stands by its numbers in UTF-16, as `\u00e9`, and so
/// does `<`, with which an element of HTML could end.
pub fn put_quoted(out: &mut String, text: &str) -> Result<(), AllocError> {
    out.push('"')?;
    if is_plain(text) {
        out.push_str(text)?;
    } else {
        put_units(out, text)?;
    }
    out.push('"')
}

fn put_units(out: &mut String, text: &str) -> Result<(), AllocError> {
    for unit in text.encode_utf16() {
        match unit {
            0x22 => out.push_str("\\\"")?,
            0x5C => out.push_str("\\\\")?,
            0x3C => out.push_str("\\u003c")?,
            32..=126 => out.push((unit % 128) as u8 as char)?,
            _ => write!(out, "\\u{unit:04x}")?,
        }
    }
    Ok(())
}

/// Appends a number, after what stands before it.
pub fn put_number(out: &mut String, before: &str, number: u32) -> Result<(), AllocError> {
    out.push_str(before)?;
    let mut buffer = Buffer::new();
    out.push_str(buffer.format(number))
}

/// Appends a word in which nothing has to be escaped, after what stands before it, a quotation mark at its end.
pub fn put_word(out: &mut String, before: &str, word: &str) -> Result<(), AllocError> {
    out.push_str(before)?;
    out.push_str(word)?;
    out.push('"')
}

/// Appends a text in quotation marks, after what stands before it.
pub fn put_member(out: &mut String, before: &str, text: &str) -> Result<(), AllocError> {
    out.push_str(before)?;
    put_quoted(out, text)
}

/// Appends a text as HTML shows it.
pub fn put_html(out: &mut String, text: &str) -> Result<(), AllocError> {
    if is_shown(text) {
        return out.push_str(text);
    }
    for (i, line) in text.split('\n').enumerate() {
        if i > 0 {
            out.push('\n')?;
        }
        if is_shown(line) {
            out.push_str(line)?;
        } else {
            put_characters(out, line)?;
        }
    }
    Ok(())
}

fn put_characters(out: &mut String, text: &str) -> Result<(), AllocError> {
    for character in text.chars() {
        match character {
            '&' => out.push_str("&amp;")?,
            '<' => out.push_str("&lt;")?,
            '>' => out.push_str("&gt;")?,
            '"' => out.push_str("&quot;")?,
            _ => out.push(character)?,
        }
    }
    Ok(())
}
