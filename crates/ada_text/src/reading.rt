//! Reading a text to a tree.

ghost use Rattle.std.specs.Prelude.{IfOk, IfErr, IsTrue, length};
ghost use Rattle.ada_text.specs.Places.{IsPlaceIn};
ghost use Rattle.ada_text.specs.Trees.{is_tree_whole};

use crate::fault::{Cause, Fault, Trouble};
use crate::lexer::words_of;
use crate::parser::Parser;
use crate::place::{LONGEST_TEXT, place_of};
use crate::tree::Tree;
use std::alloc::Global;

/// The fault of which this is said, at the place of its byte.
pub fn fault_at(text: &[u8], trouble: Trouble) -> Fault
    ensures { IsPlaceIn text.now result.place }
{
    let at = (trouble.at as usize).min(text.len()).min(LONGEST_TEXT);
    Fault {
        place: place_of(text, at),
        cause: trouble.cause,
    }
}

/// The tree of a text, or what is wrong at the byte with an index.
fn tree_of(alloc: Global, text: &[u8]) -> Result<Tree, Trouble>
    ensures { IfOk result (λ tree. IsTrue (is_tree_whole tree (length text.now))) }
{
    let words = words_of(alloc, text)?;
    let tree = Parser::new(alloc, text, &words).program()?;
    if tree.is_whole(text.len()) {
        Ok(tree)
    } else {
        Err(Trouble {
            at: 0,
            cause: Cause::BrokenTree,
        })
    }
}

/// Reads a text to its tree. It is one main procedure (10.1) of the subset, of at most 1 MiB; else the fault says what
/// is wrong and where, or that memory is wanting.
pub fn read(alloc: Global, text: &[u8]) -> Result<Tree, Fault>
    ensures whole { IfOk result (λ tree. IsTrue (is_tree_whole tree (length text.now))) }
    ensures place { IfErr result (λ fault. IsPlaceIn text.now fault.place) }
{
    tree_of(alloc, text).map_err(|trouble| fault_at(text, trouble))
}
