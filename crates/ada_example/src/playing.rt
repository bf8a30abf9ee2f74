//! A script is played in memory.
ghost use Rattle.std.specs.Prelude.{Some, [], IfOk};
ghost use Rattle.ada_replay.specs.Replay.{Replays};

use ada_replay::{Ending, RunFault, replay};
use std::alloc::Global;

/// What the lines of a script print: its journal, its refusals and the attributes that it shows; and whether the main
/// program is terminated at its end.
pub fn journal_of(alloc: Global, script: &[u8]) -> Result<(Vec<u8>, Ending), RunFault>
    ensures { IfOk result (λ played.
        Replays played.1 (Some script.now) (Some []) (Some played.0.items)) }
{
    let mut reader = script;
    let mut journal = Vec::new(alloc);
    let ending = replay(alloc, &mut reader, &mut journal)?;
    Ok((journal, ending))
}
