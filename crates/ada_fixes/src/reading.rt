//! Where a text may be repaired.

use crate::ascii::{ascii_of, character_at};
use crate::making::is_long_name;
use crate::repair::{Repair, instead_of};
use crate::short_names::ShortNames;
use ada_script::{Name, is_name};
use std::alloc::{AllocError, Global};
use std::collections::HashSet;
use std::str;

/// What may be repaired.
#[derive(Clone, Copy, Debug, PartialEq, Eq)]
enum Slip<'a> {
    /// A tab or a no-break space, which means a space.
    Blank,
    /// A byte order mark before the first word of a line.
    Mark,
    /// The dashes at the beginning of a comment.
    Dashes,
    /// A character of a comment that isn't printable ASCII.
    Foreign(char),
    /// A name that is too long.
    LongName(&'a str),
}

/// A slip: how many bytes stand between the one before it and this one, and how many are its own.
#[derive(Clone, Copy, Debug)]
struct Found<'a> {
    kept: usize,
    length: usize,
    slip: Slip<'a>,
}

/// In what part of a line a reader is.
#[derive(Clone, Copy, Debug, PartialEq, Eq)]
enum Place {
    /// Before its first word.
    Head,
    Statement,
    Comment,
}

/// Who reads a text from slip to slip.
#[derive(Drop)]
struct Reader<'a> {
    found: Vec<Found<'a>>,
    /// The names that aren't too long.
    names: HashSet<Name>,
    /// How many bytes were kept since the last slip.
    kept: usize,
    place: Place,
    /// Whether a word begins with what follows.
    begins_word: bool,
}

impl<'a> Reader<'a> {
    fn new(alloc: Global) -> Self {
        Reader {
            found: Vec::new(alloc),
            names: HashSet::new(alloc),
            kept: 0,
            place: Place::Head,
            begins_word: true,
        }
    }

    fn keep(&mut self, count: usize) {
        self.kept = self.kept.saturating_add(count);
    }

    fn find(&mut self, slip: Slip<'a>, length: usize) -> Result<(), AllocError> {
        let kept = self.kept;
        self.found.push(Found { kept, length, slip })?;
        self.kept = 0;
        Ok(())
    }

    // Reads what a text begins with that isn't empty, and says how many bytes that takes.
    fn read(&mut self, text: &'a [u8]) -> Result<usize, AllocError> {
        match text {
            [b'\n', ..] => {
                self.place = Place::Head;
                self.begins_word = true;
                self.keep(1);
                Ok(1)
            }
            [b' ', ..] => {
                self.begins_word = true;
                self.keep(1);
                Ok(1)
            }
            [b'\t', ..] => self.read_blank(1),
            [0xC2, 0xA0, ..] => self.read_blank(2),
            [0xEF, 0xBB, 0xBF, ..] if self.place == Place::Head => {
                self.find(Slip::Mark, 3)?;
                Ok(3)
            }
            [33..=126, ..] => self.read_word(text),
            _ => self.read_character(text),
        }
    }

    fn read_blank(&mut self, length: usize) -> Result<usize, AllocError> {
        self.begins_word = true;
        self.find(Slip::Blank, length)?;
        Ok(length)
    }

    fn read_character(&mut self, text: &[u8]) -> Result<usize, AllocError> {
        let (character, length) = character_at(text);
        self.begins_word = false;
        if self.place == Place::Comment {
            self.find(Slip::Foreign(character), length)?;
        } else {
            self.place = Place::Statement;
            self.keep(length);
        }
        Ok(length)
    }

    fn read_word(&mut self, text: &'a [u8]) -> Result<usize, AllocError> {
        let length = word_length(text);
        let word = text.get(..length).unwrap_or(text);
        let is_whole = self.begins_word && is_end(text.get(length..).unwrap_or(&[]));
        self.begins_word = false;
        match (self.place, word) {
            (Place::Comment, _) => self.keep(length),
            (Place::Head, [b'#', ..]) => {
                self.place = Place::Comment;
                self.keep(length);
            }
            (Place::Head, [b'-', b'-', ..]) => {
                self.place = Place::Comment;
                self.find(Slip::Dashes, 2)?;
                self.keep(length.saturating_sub(2));
            }
            (Place::Head, [speaker @ .., b':']) if is_whole => {
                self.place = Place::Statement;
                self.read_name(speaker)?;
                self.keep(1);
            }
            _ if is_whole => {
                self.place = Place::Statement;
                self.read_name(word)?;
            }
            _ => {
                self.place = Place::Statement;
                self.keep(length);
            }
        }
        Ok(length)
    }

    // Reads a word that is a name perhaps.
    fn read_name(&mut self, word: &'a [u8]) -> Result<(), AllocError> {
        if is_long_name(word) {
            let name = str::from_utf8(word).unwrap_or("?");
            return self.find(Slip::LongName(name), word.len());
        }
        if is_name(word) {
            self.names.insert(Name::from_bytes(word))?;
        }
        self.keep(word.len());
        Ok(())
    }
}

// How many bytes a word has that a text begins with.
fn word_length(text: &[u8]) -> usize {
    let end = text.iter().position(|byte| *byte < 33 || *byte > 126);
    end.unwrap_or(text.len())
}

// Whether a word ends before these bytes.
fn is_end(behind: &[u8]) -> bool {
    matches!(behind, [] | [b' ' | b'\t' | b'\n', ..] | [0xC2, 0xA0, ..])
}

fn read_whole(alloc: Global, text: &[u8]) -> Result<Reader<'_>, AllocError> {
    let mut reader = Reader::new(alloc);
    let mut rest = text;
    while !rest.is_empty() {
        let length = reader.read(rest)?;
        rest = &rest[length.max(1).min(rest.len())..];
    }
    Ok(reader)
}

/// The repairs that are certain of a text whose lines end with line feeds, in the order of their places.
pub fn repairs_of(alloc: Global, text: &[u8]) -> Result<Vec<Repair>, AllocError> {
    let reader = read_whole(alloc, text)?;
    let mut names = ShortNames::beside(alloc, reader.names);
    let mut repairs = Vec::new(alloc);
    let mut left = 0usize;
    for found in &reader.found {
        let kept = found.kept.saturating_add(left);
        let length = found.length;
        let instead = match found.slip {
            Slip::Blank => instead_of(b" "),
            Slip::Mark => instead_of(b""),
            Slip::Dashes => instead_of(b"#"),
            Slip::Foreign(character) => ascii_of(character, length),
            Slip::LongName(name) => match names.short(alloc, name)? {
                Some(short) => instead_of(short.as_bytes()),
                None => {
                    left = kept.saturating_add(length);
                    continue;
                }
            },
        };
        left = 0;
        repairs.push(Repair {
            kept,
            length,
            instead,
        })?;
    }
    Ok(repairs)
}
