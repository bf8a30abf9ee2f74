//! Text as it may stand in SVG.

use std::alloc::AllocError;

/// Appends text with the characters replaced that mean something in SVG.
pub fn write_escaped(out: &mut String, text: &str) -> Result<(), AllocError> {
    for character in text.chars() {
        match character {
            '&' => write!(out, "&amp;")?,
            '<' => write!(out, "&lt;")?,
            '>' => write!(out, "&gt;")?,
            '"' => write!(out, "&quot;")?,
            _ => out.push(character)?,
        }
    }
    Ok(())
}
