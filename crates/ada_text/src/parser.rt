//! Reading words to a tree, by recursive descent: a function for each rule of the manual's grammar.

ghost use Rattle.std.specs.Prelude.{◌<◌, ◌≤◌, IfOk, OnOk, OnSome, IsTrue};

mod declarations;
mod expressions;
mod nodes;
mod operators;
mod program;
mod ranges;
mod selects;
mod simple;
mod statements;
mod tasks;
mod types;

use crate::fault::{Cause, Trouble, Wanted};
use crate::kind::Kind;
use crate::place::LONGEST_TEXT;
use crate::tree::Nodes;
use crate::tree::expression::Identifier;
use crate::word::Word;
use std::alloc::Global;
use std::marker::Model;

/// How many levels of statements, declarations and parentheses may be nested.
pub const DEEPEST: u32 = 64;

/// The words of a text that are left, and the nodes that were read. Contracts see it as how many words are left.
#[derive(Drop)]
pub struct Parser<'a> {
    alloc: Global,
    text: &'a [u8],
    words: &'a [Word],
    /// How many bytes the text has.
    end: u32,
    nodes: Nodes,
    /// Whether the statements stand in an accept statement of the same body.
    is_accepting: bool,
}

impl<'a> Model for Parser<'a> {
    ghost use Rattle.std.specs.Prelude.{ℕ, length};

    ghost Value = { ℕ };

    ghost view = { λ p. length p.words.now };
}

/// One level deeper, if there is room.
fn deeper(depth: u32, at: u32) -> Result<u32, Trouble>
    ensures { IfOk result (λ below. below < depth) }
{
    if depth == 0 {
        return Err(Trouble {
            at,
            cause: Cause::NestedTooDeep,
        });
    }
    Ok(depth - 1)
}

impl<'a> Parser<'a> {
    /// A parser of these words of a text.
    pub fn new(alloc: Global, text: &'a [u8], words: &'a [Word]) -> Self {
        Parser {
            alloc,
            text,
            words,
            end: text.len().min(LONGEST_TEXT) as u32,
            nodes: Nodes::new(alloc),
            is_accepting: false,
        }
    }

    /// What the next word is.
    fn kind(&self) -> Kind {
        match self.words {
            [first, ..] => first.kind,
            [] => Kind::EndOfText,
        }
    }

    /// What the word after the next one is.
    fn second_kind(&self) -> Kind {
        match self.words {
            [_, second, ..] => second.kind,
            _ => Kind::EndOfText,
        }
    }

    /// The index of the next word's first byte, or the length of the text.
    fn at(&self) -> u32 {
        match self.words {
            [first, ..] => first.at,
            [] => self.end,
        }
    }

    /// Why the next word isn't what is wanted.
    fn unexpected(&self, wanted: Wanted) -> Trouble {
        self.refused(Cause::Unexpected {
            wanted,
            found: self.kind(),
        })
    }

    /// What is wrong at the next word.
    fn refused(&self, cause: Cause) -> Trouble {
        Trouble {
            at: self.at(),
            cause,
        }
    }

    /// What the third word from here on is.
    fn third_kind(&self) -> Kind {
        match self.words {
            [_, _, third, ..] => third.kind,
            _ => Kind::EndOfText,
        }
    }

    /// Takes the next word.
    fn take(&mut self) -> Option<Word>
        ensures fewer { OnSome result (self.new < self.old) }
        ensures left { self.new ≤ self.old }
    {
        match self.words {
            [first, rest @ ..] => {
                self.words = rest;
                Some(*first)
            }
            [] => None,
        }
    }

    /// Takes the next word if it is of this kind, and says whether it is.
    fn accept(&mut self, kind: Kind) -> bool
        ensures fewer { IsTrue result → self.new < self.old }
        ensures left { self.new ≤ self.old }
    {
        match self.words {
            [first, rest @ ..] if first.kind == kind => {
                self.words = rest;
                true
            }
            _ => false,
        }
    }

    /// Takes the next word, which is wanted to be of this kind.
    fn expect(&mut self, kind: Kind) -> Result<Word, Trouble>
        ensures { OnOk result (self.new < self.old) }
    {
        match self.words {
            [first, rest @ ..] if first.kind == kind => {
                self.words = rest;
                Ok(*first)
            }
            _ => Err(self.unexpected(Wanted::Word(kind))),
        }
    }

    /// Takes an identifier (2.3).
    fn identifier(&mut self) -> Result<Identifier, Trouble>
        ensures { OnOk result (self.new < self.old) }
    {
        let word = self.expect(Kind::Identifier)?;
        Ok(Identifier {
            at: word.at,
            end: word.end,
        })
    }

    /// Takes a semicolon.
    fn semicolon(&mut self) -> Result<(), Trouble>
        ensures { OnOk result (self.new < self.old) }
    {
        self.expect(Kind::Semicolon)?;
        Ok(())
    }

    /// The bytes of a word.
    fn spelling(&self, word: Identifier) -> &'a [u8] {
        let (at, end) = (word.at as usize, word.end as usize);
        if at <= end && end <= self.text.len() {
            &self.text[at..end]
        } else {
            &self.text[..0]
        }
    }
}
