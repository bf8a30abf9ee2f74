//! The words of a line, with their columns.

use std::alloc::{AllocError, Global};
use std::str;

/// A word of a line, and the place of its first byte in the line, from 0.
#[derive(Clone, Copy, Debug)]
pub struct Word<'a> {
    pub text: &'a str,
    pub place: usize,
}

/// The words of a line of printable ASCII, which spaces separate.
pub fn words_of(alloc: Global, line: &[u8]) -> Result<Vec<Word<'_>>, AllocError> {
    let mut words = Vec::new(alloc);
    let mut begin = 0usize;
    for (place, byte) in line.iter().enumerate() {
        if *byte == b' ' {
            push_word(&mut words, line, begin, place)?;
            begin = place + 1;
        }
    }
    push_word(&mut words, line, begin, line.len())?;
    Ok(words)
}

// Keeps what stands between two places, if it isn't empty.
fn push_word<'a>(
    words: &mut Vec<Word<'a>>,
    line: &'a [u8],
    begin: usize,
    end: usize,
) -> Result<(), AllocError> {
    match line.get(begin..end) {
        Some(bytes) if !bytes.is_empty() => {
            let text = str::from_utf8(bytes).unwrap_or("?");
            words.push(Word { text, place: begin })?;
            Ok(())
        }
        _ => Ok(()),
    }
}
