//! The ends of lines.

use crate::repair::{Repair, instead_of};
use std::alloc::{AllocError, Global};

/// The repairs by which each line of a text ends with a line feed: a carriage return before one is left out, and any
/// other becomes one.
pub fn end_repairs(alloc: Global, text: &[u8]) -> Result<Vec<Repair>, AllocError> {
    let mut repairs = Vec::new(alloc);
    let mut kept = 0usize;
    for (place, byte) in text.iter().enumerate() {
        if *byte != b'\r' {
            kept = kept.saturating_add(1);
            continue;
        }
        let behind = text.get(place.saturating_add(1)..).unwrap_or(&[]);
        let instead = match behind {
            [b'\n', ..] => instead_of(b""),
            _ => instead_of(b"\n"),
        };
        repairs.push(Repair {
            kept,
            length: 1,
            instead,
        })?;
        kept = 0;
    }
    Ok(repairs)
}
