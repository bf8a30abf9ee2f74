//! Resolving the names of a text.

ghost use Rattle.std.specs.Prelude.{IfOk, IfErr, IsTrue};
ghost use Rattle.ada_text.specs.Places.{IsPlaceIn};
ghost use Rattle.ada_names.specs.Names.{is_whole};

use crate::resolved::Resolved;
use crate::resolver::Resolver;
use ada_text::{Cause, Fault, Tree, Trouble, fault_at};
use std::alloc::Global;

/// What the names of a tree denote, or what is wrong at the byte with an index.
fn resolved(alloc: Global, text: &[u8], tree: &Tree) -> Result<Resolved, Trouble>
    ensures { IfOk result (λ names. IsTrue (is_whole names tree.now)) }
{
    let names = Resolver::new(alloc, text, tree)?.resolve()?;
    if names.is_whole(tree) {
        Ok(names)
    } else {
        Err(Trouble {
            at: 0,
            cause: Cause::BrokenTree,
        })
    }
}

/// Resolves the names of a text's tree by the visibility rules (8.3), or says which one breaks them, and where; or that
/// memory is wanting.
pub fn resolve(alloc: Global, text: &[u8], tree: &Tree) -> Result<Resolved, Fault>
    ensures whole { IfOk result (λ names. IsTrue (is_whole names tree.now)) }
    ensures place { IfErr result (λ fault. IsPlaceIn text.now fault.place) }
{
    resolved(alloc, text, tree).map_err(|trouble| fault_at(text, trouble))
}
