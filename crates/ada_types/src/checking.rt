//! Checking the types of a text.

ghost use Rattle.std.specs.Prelude.{IfOk, IfErr, IsTrue};
ghost use Rattle.ada_text.specs.Places.{IsPlaceIn};
ghost use Rattle.ada_types.specs.Types.{is_whole};

use crate::checker::Checker;
use crate::typed::Typed;
use ada_names::Resolved;
use ada_text::{Cause, Fault, Tree, Trouble, fault_at};
use std::alloc::Global;

/// The types of a tree, or what is wrong at the byte with an index.
fn typed(alloc: Global, text: &[u8], tree: &Tree, resolved: &Resolved) -> Result<Typed, Trouble>
    ensures { IfOk result (λ typed. IsTrue (is_whole typed tree.now resolved.now)) }
{
    let typed = Checker::new(alloc, text, tree, resolved)?.check()?;
    if typed.is_whole(tree, resolved) {
        Ok(typed)
    } else {
        Err(Trouble {
            at: 0,
            cause: Cause::BrokenTree,
        })
    }
}

/// Says of what types the expressions of a text's tree are, whose names were resolved; or which one breaks the rules of
/// types, and where; or that memory is wanting.
pub fn check(alloc: Global, text: &[u8], tree: &Tree, resolved: &Resolved) -> Result<Typed, Fault>
    ensures whole { IfOk result (λ typed. IsTrue (is_whole typed tree.now resolved.now)) }
    ensures place { IfErr result (λ fault. IsPlaceIn text.now fault.place) }
{
    typed(alloc, text, tree, resolved).map_err(|trouble| fault_at(text, trouble))
}
