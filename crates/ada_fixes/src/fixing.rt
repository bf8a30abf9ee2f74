//! A text with the repairs that are certain.

ghost use Rattle.std.specs.Prelude.{◌≡◌, ◌⊎◌, IfOk, List, MatchOption};
ghost use Rattle.ada_script.specs.Script.{IsScript, IsFirstFault};
ghost use Rattle.ada_script.specs.declared.script.Line.{Line};
ghost use Rattle.ada_fixes.specs.Fixes.{IsFixed};

use crate::ends::end_repairs;
use crate::making::repaired;
use crate::places::Places;
use crate::reading::repairs_of;
use ada_lint::{Review, review_of};
use ada_script::Cause;
use ada_script::laws::no_reading;
use std::alloc::Global;

/// A text with its repairs.
#[derive(Drop)]
pub struct Fixed {
    pub text: Vec<u8>,
    /// The text as it was given, with line feeds.
    pub given: Vec<u8>,
    /// What is found in the repaired text, each at its place in the one that was given.
    pub left: Review,
}

/// Repairs a text where it is certain how; a script stays as it is. An `Err` is `OutOfMemory`.
pub fn fix(alloc: Global, text: &[u8]) -> Result<Fixed, Cause>
    ensures script { IfOk result (λ fixed. (lines : List Line) → IsScript text.now lines
        → fixed.text.items ≡ text.now) }
    ensures fixed { IfOk result (λ fixed. (fixed.text.items ≡ text.now)
        ⊎ (IsFixed text.now fixed.given.items × IsFixed fixed.given.items fixed.text.items)) }
    ensures left { IfOk result (λ fixed. MatchOption fixed.left.fault
        ((lines : List Line) × IsScript fixed.text.items lines)
        (IsFirstFault fixed.text.items)) }
{
    let review = review_of(alloc, text)?;
    match review.fault {
        None => unchanged(alloc, text, review),
        Some(_) => {
            no_reading();
            changed(alloc, text)
        }
    }
}

// A text that is a script, with what is found in it.
fn unchanged(alloc: Global, text: &[u8], review: Review) -> Result<Fixed, Cause>
    ensures text { IfOk result (λ fixed. fixed.text.items ≡ text.now) }
    ensures left { IfOk result (λ fixed. fixed.left.fault ≡ review.fault) }
{
    Ok(Fixed {
        text: text.to_vec(alloc)?,
        given: text.to_vec(alloc)?,
        left: review,
    })
}

// A text that is no script, repaired.
fn changed(alloc: Global, text: &[u8]) -> Result<Fixed, Cause>
    ensures fixed { IfOk result (λ fixed. IsFixed text.now fixed.given.items
        × IsFixed fixed.given.items fixed.text.items) }
    ensures left { IfOk result (λ fixed. MatchOption fixed.left.fault
        ((lines : List Line) × IsScript fixed.text.items lines)
        (IsFirstFault fixed.text.items)) }
{
    let ends = end_repairs(alloc, text)?;
    let given = repaired(alloc, text, &ends)?;
    let repairs = repairs_of(alloc, &given)?;
    let text = repaired(alloc, &given, &repairs)?;
    let mut left = review_of(alloc, &text)?;
    Places::of(alloc, &given, &repairs)?.move_back(&mut left.findings);
    Ok(Fixed { text, given, left })
}
