//! A line as it is shown: what a terminal might obey, or show otherwise, stands escaped.

use std::alloc::AllocError;

/// Appends bytes of a line. A byte outside of printable ASCII is shown as `\t`, `\r`, or by its number, as `\x1b`.
pub fn write_shown(shown: &mut String, bytes: &[u8]) -> Result<(), AllocError> {
    for byte in bytes {
        match *byte {
            b'\t' => shown.push_str("\\t")?,
            b'\r' => shown.push_str("\\r")?,
            byte @ 32..=126 => shown.push(byte as char)?,
            byte => write!(shown, "\\x{byte:02x}")?,
        }
    }
    Ok(())
}

/// In how many columns bytes of a line are shown.
pub fn width_of(bytes: &[u8]) -> usize {
    let mut width = 0usize;
    for byte in bytes {
        width = width.saturating_add(match *byte {
            b'\t' | b'\r' => 2,
            32..=126 => 1,
            _ => 4,
        });
    }
    width
}
