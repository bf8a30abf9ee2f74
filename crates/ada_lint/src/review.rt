//! What is found in a text.
ghost use Rattle.std.specs.Prelude.{IfOk, List, MatchOption};
ghost use Rattle.ada_script.specs.declared.script.Line.{Line};
ghost use Rattle.ada_script.specs.Script.{IsScript, IsFirstFault};

use crate::checking::faults_of;
use crate::finding::Finding;
use crate::warnings::warnings_of;
use ada_script::{Cause, ScriptFault, read};
use std::alloc::Global;

/// The first fault of a text, none if it is a script, and what was found: each faulty line, the first of which is that
/// of the fault, or, in a script, what it surely doesn't mean.
#[derive(Drop)]
pub struct Review {
    pub fault: Option<ScriptFault>,
    pub findings: Vec<Finding>,
}

/// Checks a text. An `Err` is `OutOfMemory`.
pub fn review_of(alloc: Global, text: &[u8]) -> Result<Review, Cause>
    ensures ok { IfOk result (λ review. MatchOption review.fault
        ((lines : List Line) × IsScript text.now lines) (IsFirstFault text.now)) }
{
    match read(alloc, text) {
        Ok(script) => Ok(Review {
            fault: None,
            findings: warnings_of(alloc, text, script.lines())?,
        }),
        Err(
            ScriptFault {
                cause: Cause::OutOfMemory,
                ..
            },
        ) => Err(Cause::OutOfMemory),
        Err(fault) => Ok(Review {
            fault: Some(fault),
            findings: faults_of(alloc, text)?,
        }),
    }
}
