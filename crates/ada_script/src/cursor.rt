//! Going over the lines of a text and the words of a line, with no memory.

ghost use Rattle.std.specs.Prelude.{◌≡◌, ◌<◌, ◌≤◌, List, ◌∷◌, [], length, get_or, MatchOption, IfNone, false, ℕ};
ghost use Rattle.std.specs.List.{list_all};
ghost use Rattle.ada_statements.specs.Text.{lines_of, parts_of, space, words_in};
ghost use Rattle.ada_script.specs.internal.Spaces.{begins_with_space, is_space};

use memchr::memchr;
use std::marker::Model;

/// How many bytes are seen to be spaces at once.
const BLOCK: usize = 16;

/// Whether each byte is a space.
// Each is looked at, with no way out before the last, so that many are looked at at once.
fn are_spaces(bytes: &[u8]) -> bool
    ensures { result ≡ list_all is_space bytes.now }
{
    let mut are = true;
    for byte in bytes {
        are &= *byte == b' ';
    }
    are
}

/// The bytes after the blocks of spaces that they begin with.
fn after_blocks(bytes: &[u8]) -> &[u8]
    ensures { words_in result.now ≡ words_in bytes.now }
{
    let mut rest = bytes;
    while rest.len() >= BLOCK && are_spaces(&rest[..BLOCK]) {
        rest = &rest[BLOCK..];
    }
    rest
}

/// The bytes from the first on that is no space.
fn after_spaces(bytes: &[u8]) -> &[u8]
    ensures words { words_in result.now ≡ words_in bytes.now }
    ensures first { begins_with_space result.now ≡ false }
{
    let rest = after_blocks(bytes);
    for (i, byte) in rest.iter().enumerate() {
        if *byte != b' ' {
            return &rest[i..];
        }
    }
    &rest[rest.len()..]
}

/// How many bytes stand before the first space.
fn word_length(bytes: &[u8]) -> usize
    ensures fits { result ≤ length bytes.now }
    ensures word { (k : ℕ) → k < result → get_or bytes.now k 0 ≡ space → ⊥ }
    ensures end { result < length bytes.now → get_or bytes.now result 0 ≡ space }
{
    for (i, byte) in bytes.iter().enumerate() {
        if *byte == b' ' {
            return i;
        }
    }
    bytes.len()
}

/// The bytes before the first space, and those after it. There are none where no bytes are left.
#[inline(always)]
fn cut(bytes: &[u8]) -> Option<(&[u8], &[u8])>
    ensures { MatchOption result (parts_of space bytes.now ≡ [])
        (λ p. parts_of space bytes.now ≡ p.0.now ∷ parts_of space p.1.now) }
{
    if bytes.is_empty() {
        return None;
    }
    let end = word_length(bytes);
    if end < bytes.len() {
        Some((&bytes[..end], &bytes[end + 1..]))
    } else {
        Some((bytes, &bytes[bytes.len()..]))
    }
}

/// Whether the first byte is a space.
fn is_space_next(bytes: &[u8]) -> bool
    ensures { result ≡ begins_with_space bytes.now }
{
    match bytes {
        [] => false,
        [first, ..] => *first == b' ',
    }
}

/// The bytes from the first word on.
#[inline(always)]
fn from_word(bytes: &[u8]) -> &[u8]
    ensures words { words_in result.now ≡ words_in bytes.now }
    ensures first { begins_with_space result.now ≡ false }
{
    if is_space_next(bytes) {
        after_spaces(bytes)
    } else {
        bytes
    }
}

/// The word that the bytes begin with, if there are bytes, and what stands after it.
#[inline(always)]
fn cut_word(bytes: &[u8]) -> Option<(&[u8], &[u8])>
    requires { begins_with_space bytes.now ≡ false }
    ensures { MatchOption result (words_in bytes.now ≡ [])
        (λ p. words_in bytes.now ≡ p.0.now ∷ words_in p.1.now) }
{
    cut(bytes)
}

/// The first line of a text and what stands after it, if there is one.
fn cut_line(text: &[u8]) -> Option<(&[u8], &[u8])>
    ensures { MatchOption result (lines_of text.now ≡ [])
        (λ p. lines_of text.now ≡ p.0.now ∷ lines_of p.1.now) }
{
    if text.is_empty() {
        return None;
    }
    match memchr(b'\n', text) {
        Some(at) => Some((&text[..at], &text[at + 1..])),
        None => Some((text, &text[text.len()..])),
    }
}

/// The lines of a text that are left. Contracts see them as the list of the lines.
#[derive(Drop)]
pub struct Lines<'a> {
    rest: &'a [u8],
}

impl<'a> Model for Lines<'a> {
    ghost use Rattle.std.specs.Prelude.{List, ℕ};
    ghost use Rattle.ada_statements.specs.Text.{lines_of};

    ghost Value = { List (List ℕ) };

    ghost view = { λ l. lines_of l.rest.now };
}

impl<'a> Lines<'a> {
    ghost use Rattle.ada_statements.specs.Text.{lines_of};

    /// The lines of the text.
    pub fn new(text: &'a [u8]) -> Self
        ensures { result ≡ lines_of text.now }
    {
        Lines { rest: text }
    }

    /// Takes the next line.
    pub fn next(&mut self) -> Option<&'a [u8]>
        ensures { MatchOption result (self.old ≡ []) (λ line. self.old ≡ line.now ∷ self.new) }
    {
        let (line, rest) = cut_line(self.rest)?;
        self.rest = rest;
        Some(line)
    }
}

/// The words of a line that are left. Contracts see them as the list of the words.
#[derive(Drop)]
pub struct Words<'a> {
    /// What is left of the line, from a word on.
    rest: &'a [u8],
}

impl<'a> Model for Words<'a> {
    ghost use Rattle.std.specs.Prelude.{List, ℕ};
    ghost use Rattle.ada_statements.specs.Text.{words_in};

    ghost Value = { List (List ℕ) };

    ghost view = { λ w. words_in w.rest.now };

    ghost use Rattle.std.specs.Prelude.{◌≡◌, false};
    ghost use Rattle.ada_script.specs.internal.Spaces.{begins_with_space};

    ghost invariant = { λ w. begins_with_space w.rest.now ≡ false };
}

impl<'a> Words<'a> {
    ghost use Rattle.ada_statements.specs.Text.{words_in};
    ghost use Rattle.ada_script.specs.Cursor.{is_over};

    /// The words of the line.
    pub fn new(line: &'a [u8]) -> Self
        ensures { result ≡ words_in line.now }
    {
        Words {
            rest: from_word(line),
        }
    }

    /// Takes the next word.
    pub fn next(&mut self) -> Option<&'a [u8]>
        ensures word { MatchOption result (self.old ≡ []) (λ word. self.old ≡ word.now ∷ self.new) }
        ensures none { IfNone result (self.new ≡ []) }
    {
        let (word, rest) = cut_word(self.rest)?;
        self.rest = from_word(rest);
        Some(word)
    }

    /// The next word, which is left where it is.
    pub fn peek(&self) -> Option<&'a [u8]>
        ensures { MatchOption result (self.now ≡ []) (λ word. (rest : List (List ℕ))
            × (self.now ≡ word.now ∷ rest)) }
    {
        let (word, _) = cut_word(self.rest)?;
        Some(word)
    }

    /// The first byte of the next word, which is left where it is.
    pub fn first(&self) -> Option<u8>
        ensures { MatchOption result (self.now ≡ []) (λ first. (bytes : List ℕ)
            × (rest : List (List ℕ)) × (self.now ≡ (first ∷ bytes) ∷ rest)) }
    {
        match self.rest {
            [] => None,
            [first, ..] => Some(*first),
        }
    }

    /// Whether no word is left.
    pub fn is_over(&self) -> bool
        ensures { result ≡ is_over self.now }
    {
        self.rest.is_empty()
    }
}
