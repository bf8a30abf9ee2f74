//! Replaying a script: from the bytes that are read to the bytes that are written.
ghost use Rattle.std.specs.Prelude.{◌≡◌, ◌<◌, ◌-◌, ◌^◌, IfOk, IfErr};
ghost use Rattle.ada_script.specs.Script.{IsScript, IsScriptWithin, scope_of};
ghost use Rattle.ada_replay.specs.Input.{most_bytes, TakesAtMost};
ghost use Rattle.ada_replay.specs.Play.{Plays};
ghost use Rattle.ada_replay.specs.Ends.{IsShortage, IsCutShort};
ghost use Rattle.ada_replay.specs.Replay.{beginning, Tells, IsScriptReplayed, IsReplayed};
ghost use Rattle.ada_replay.specs.Replay.{IsReadingFault, IsReadingFaultWithin, BreaksText, Replays, Breaks};

use crate::input::read_input;
use crate::play::play;
use crate::{Ending, RunFault};
use ada_kernel::Kernel;
use ada_script::{Cause, Line, MOST_LINES, Names, Script, ScriptFault, read_within};
use std::alloc::Global;
use std::io::{Read, Write};

/// Reads an input whole, at most 823,297 bytes, and then plays it as a script on a kernel of its own,
/// line by line, and writes what the lines print, in pieces of 65,536 bytes or more.
///
/// The answer is whether the main program is terminated at the end. A fault of the script, or of the
/// reader, comes before anything is written; where the writer or memory fails, a beginning of the play
/// was written.
pub fn replay<R: Read, W: Write>(
    alloc: Global,
    reader: &mut R,
    writer: &mut W,
) -> Result<Ending, RunFault>
    ensures ok { IfOk result (λ ending.
        Replays ending (R.remaining reader.old) (W.contents writer.old) (W.contents writer.new)) }
    ensures err { IfErr result (λ fault.
        Breaks fault (R.remaining reader.old) (W.contents writer.old) (W.contents writer.new)) }
    ensures taken { TakesAtMost most_bytes (R.remaining reader.old) (R.remaining reader.new) }
{
    match read_input(alloc, reader) {
        Ok(text) => replay_text(alloc, &text, writer),
        Err(fault) => Err(fault),
    }
}

/// Reads a text of so many lines at most as a script. Want of memory isn't a fault of the script.
pub fn read_script_within(alloc: Global, text: &[u8], most: u32) -> Result<Script, RunFault>
    requires { most < 2 ^ 32 - 1 }
    ensures ok { IfOk result (λ script. IsScriptWithin most text.now script) }
    ensures err { IfErr result (IsReadingFaultWithin most text.now) }
{
    match read_within(alloc, text, most) {
        Ok(script) => Ok(script),
        Err(
            ScriptFault {
                cause: Cause::OutOfMemory,
                ..
            },
        ) => Err(RunFault::Memory),
        Err(fault) => Err(RunFault::Script(fault)),
    }
}

/// Reads a text as a script, which has at most 4,096 lines: see [`read_script_within`].
pub fn read_script(alloc: Global, text: &[u8]) -> Result<Script, RunFault>
    ensures ok { IfOk result (λ script. IsScript text.now script) }
    ensures err { IfErr result (IsReadingFault text.now) }
{
    read_script_within(alloc, text, MOST_LINES)
}

/// Whether the main program of a kernel is terminated.
pub fn ending_of(kernel: &Kernel) -> Ending
    ensures { Tells result kernel.now }
{
    if kernel.finished() {
        Ending::Finished
    } else {
        Ending::Unfinished
    }
}

// Plays a text, if it is a script.
fn replay_text<W: Write>(alloc: Global, text: &[u8], writer: &mut W) -> Result<Ending, RunFault>
    ensures ok { IfOk result (λ ending.
        IsReplayed ending text.now (W.contents writer.old) (W.contents writer.new)) }
    ensures err { IfErr result (λ fault.
        BreaksText fault text.now (W.contents writer.old) (W.contents writer.new)) }
{
    match read_script(alloc, text) {
        Ok(script) => replay_script(alloc, script, writer),
        Err(fault) => Err(fault),
    }
}

// Plays a script on a kernel of its own.
fn replay_script<W: Write>(
    alloc: Global,
    script: Script,
    writer: &mut W,
) -> Result<Ending, RunFault>
    ensures ok { IfOk result (λ ending.
        IsScriptReplayed ending script (W.contents writer.old) (W.contents writer.new)) }
    ensures err { IfErr result (λ fault. IsShortage fault
        × IsCutShort (Plays script (beginning script)) (W.contents writer.old)
        (W.contents writer.new)) }
{
    let Ok((lines, mut names)) = script.into_parts() else {
        return Err(RunFault::Memory);
    };
    replay_lines(alloc, &lines, &mut names, writer)
}

// Plays the lines of a script on a kernel of their own.
fn replay_lines<W: Write>(
    alloc: Global,
    lines: &[Line],
    names: &mut Names,
    writer: &mut W,
) -> Result<Ending, RunFault>
    requires { names.old ≡ scope_of lines.now }
    ensures ok { IfOk result (λ ending.
        IsScriptReplayed ending lines.now (W.contents writer.old) (W.contents writer.new)) }
    ensures err { IfErr result (λ fault. IsShortage fault
        × IsCutShort (Plays lines.now (beginning lines.now)) (W.contents writer.old)
        (W.contents writer.new)) }
{
    let Ok(mut kernel) = Kernel::new(alloc) else {
        return Err(RunFault::Memory);
    };
    match play(alloc, &mut kernel, names, lines, writer) {
        Ok(()) => Ok(ending_of(&kernel)),
        Err(fault) => Err(fault),
    }
}
