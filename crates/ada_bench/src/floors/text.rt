//! A text read and cut into words, each looked up or read as a number, and a text made and written, with
//! nothing that decides what they are.
use indexmap::IndexSet;
use std::alloc::{AllocError, Global};
use std::io::{ErrorKind, Write};
use std::{io, str};

/// How many bytes are read or written at a time.
const PIECE: usize = 65_536;

/// The text, read in pieces into memory of its own.
pub fn read_text(alloc: Global, text: &[u8]) -> Result<Vec<u8>, AllocError> {
    let mut copy = Vec::new(alloc);
    for piece in text.chunks(PIECE) {
        copy.extend_from_slice(piece)?;
    }
    Ok(copy)
}

/// What the words of a text are, without what its lines say.
#[derive(Drop)]
pub struct Tokens<'a> {
    /// The words that begin with a letter, each once.
    names: IndexSet<&'a [u8]>,
    /// The sum of the words that are numbers, so that reading them isn't left out.
    sum: i64,
}

impl<'a> Tokens<'a> {
    /// The words of a text. Comments have none.
    pub fn read(alloc: Global, text: &'a [u8]) -> Result<Self, AllocError> {
        let mut tokens = Tokens {
            names: IndexSet::new(alloc),
            sum: 0,
        };
        for line in text.split(|byte| *byte == b'\n') {
            if is_printable(line) && line.first() != Some(&b'#') {
                tokens.add_line(line)?;
            }
        }
        Ok(tokens)
    }

    fn add_line(&mut self, line: &'a [u8]) -> Result<(), AllocError> {
        for word in line.split(|byte| *byte == b' ') {
            self.add_word(word)?;
        }
        Ok(())
    }

    /// Looks a word up that begins with a letter, and keeps it where it is new; reads another as a number.
    fn add_word(&mut self, word: &'a [u8]) -> Result<(), AllocError> {
        if word.first().is_some_and(u8::is_ascii_alphabetic) {
            self.names.insert(word)?;
        } else {
            self.sum = self.sum.wrapping_add(number_of(word).unwrap_or(0));
        }
        Ok(())
    }

    /// A number that all words go into.
    pub fn digest(&self) -> i64 {
        self.sum.wrapping_add(self.names.len() as i64)
    }
}

fn number_of(word: &[u8]) -> Option<i64> {
    str::from_utf8(word).ok()?.parse().ok()
}

fn is_printable(line: &[u8]) -> bool {
    line.iter().all(|byte| (32..=126).contains(byte))
}

/// The text, made line by line and written in pieces.
pub fn write_text<W: Write>(alloc: Global, text: &[u8], writer: &mut W) -> io::Result<()> {
    let mut out = Vec::new(alloc);
    for line in text.split(|byte| *byte == b'\n') {
        put_line(&mut out, line).map_err(|_| io::Error::from(ErrorKind::OutOfMemory))?;
        if out.len() >= PIECE {
            writer.write_all(&out)?;
            out.clear();
        }
    }
    writer.write_all(&out)
}

fn put_line(out: &mut Vec<u8>, line: &[u8]) -> Result<(), AllocError> {
    out.extend_from_slice(line)?;
    out.push(b'\n')?;
    Ok(())
}
