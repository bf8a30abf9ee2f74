//! Running a script: one thread for each of its tasks, from the bytes that are read to those that are written.
ghost use Rattle.std.specs.Prelude.{◌≡◌, ◌⊎◌, ◌<◌, ◌≤◌, IfOk, IfErr, OnOk, false, length};
ghost use Rattle.ada_replay.specs.Input.{most_bytes, TakesAtMost};
ghost use Rattle.ada_hall.specs.Speakers.{created};
ghost use Rattle.ada_run.specs.Opening.{IsOpeningFault};
ghost use Rattle.ada_run.specs.Running.{IsScriptRun, BreaksRun, IsTextRun, IsTextBroken, IsUnread, Runs, RunBreaks};
ghost use Rattle.ada_run.specs.internal.Running.{AreWhole};

use crate::{Gate, Shared, open_hall, play};
use ada_board::History;
use ada_hall::printing::{are_joined, write_answers};
use ada_hall::speakers::creations;
use ada_hall::{Hall, Session};
use ada_replay::input::read_input;
use ada_replay::replaying::read_script;
use ada_replay::{Ending, RunFault};
use ada_script::Script;
use std::alloc::Global;
use std::io::{Read, Write};
use std::marker::Brand;
use std::sync::Wait;
use std::sync::ledger::Blank;
use std::thread::Threads;

/// The most tasks that a script may create for a run, each of which takes a thread beside that of the main
/// program.
pub const MOST_CREATIONS: usize = 255;

// Looks whether the hall wasn't stopped, each line has its answer, and no event lies between the answers. Where
// memory is refused the hall is stopped: then a line has no answer, or the board of the last one isn't shown.
fn look_through<J: Session>(hall: &Hall<'_, J>) -> Result<(), RunFault>
    ensures ok { OnOk result
        (AreWhole J.script hall.now.answers (length hall.now.showing.journal)) }
    ensures going { OnOk result (hall.now.turns.stopped ≡ false) }
    ensures err { IfErr result IsOpeningFault }
{
    if hall.turns().is_stopped() || !hall.is_answered() {
        return Err(RunFault::Memory);
    }
    if !are_joined(hall.answers(), hall.journal().len()) {
        return Err(RunFault::Threads);
    }
    Ok(())
}

// Writes what the answers of a hall print, if it wasn't stopped, each line has its answer, and no event lies between
// the answers.
fn tell<J: Session, W: Write>(
    alloc: Global,
    script: &Script,
    hall: &Hall<'_, J>,
    writer: &mut W,
) -> Result<Ending, RunFault>
    requires script { script.now ≡ J.script }
    requires few { length (created J.script) ≤ 255 }
    ensures ok { IfOk result (λ ending.
        IsScriptRun ending J.script (W.contents writer.old) (W.contents writer.new)) }
    ensures going { OnOk result (hall.now.turns.stopped ≡ false) }
    ensures err { IfErr result (λ fault.
        BreaksRun fault J.script (W.contents writer.old) (W.contents writer.new)) }
{
    look_through(hall)?;
    write_answers(alloc, script, hall, writer)?;
    Ok(hall.ending())
}

// Runs a script with so many speakers.
fn run_with<J, R, G, W>(
    rt: &R,
    history: History,
    blank: Blank,
    script: &Script,
    speakers: u32,
    gate: &G,
    writer: &mut W,
) -> Result<Ending, RunFault>
where
    J: Session + Send + Sync,
    R: Threads + Wait + Sync + AllocGlobal,
    G: Gate + Sync,
    W: Write,
    requires named { history ≡ J.book }
    requires script { script.now ≡ J.script }
    requires ledger { (blank.name ≡ J.name) × (blank.parts ≡ J.parts) }
    requires speakers { (0 < speakers) × (speakers ≤ 256) × (blank.parts ≡ speakers) }
    requires few { length (created J.script) ≤ 255 }
    ensures ok { IfOk result (λ ending.
        IsScriptRun ending J.script (W.contents writer.old) (W.contents writer.new)) }
    ensures err { IfErr result (λ fault.
        BreaksRun fault J.script (W.contents writer.old) (W.contents writer.new)) }
{
    let (hall, seats) = match open_hall::<J, R>(rt, history, blank, script, speakers) {
        Ok(opened) => opened,
        Err(fault) => return Err(fault),
    };
    let shared = Shared::new(hall);
    let started = play(rt, &shared, script, seats, gate);
    let hall = shared.into_hall();
    let outcome = if started {
        tell(rt.alloc(), script, &hall, writer)
    } else {
        Err(RunFault::Threads)
    };
    hall.close(rt);
    outcome
}

/// Plays a script with one thread for the main program and one for each task that a line creates. The gate says
/// when a thread may play its next line. Once all threads have ended, what the answers print is written, in the
/// order in which they were given, in pieces of 65,536 bytes or more.
///
/// The answer is whether the main program is terminated at the end. More than 255 lines that create tasks are
/// `TooManyTasks`, before any thread starts. Where a thread is refused, no further line is played and nothing is
/// written; where memory or the writer fails, nothing or a beginning.
pub fn run<R, G, W>(rt: &R, script: &Script, gate: &G, writer: &mut W) -> Result<Ending, RunFault>
where
    R: Threads + Wait + Sync + AllocGlobal,
    G: Gate + Sync,
    W: Write,
    ensures ok { IfOk result (λ ending.
        IsScriptRun ending script.now (W.contents writer.old) (W.contents writer.new)) }
    ensures err { IfErr result (λ fault.
        BreaksRun fault script.now (W.contents writer.old) (W.contents writer.new)) }
{
    let creations = creations(script.lines());
    if creations > MOST_CREATIONS {
        return Err(RunFault::TooManyTasks);
    }
    let speakers = creations as u32 + 1;
    let blank = Blank::new(u64::from(speakers));
    run_with::<Brand, R, G, W>(rt, History::new(), blank, script, speakers, gate, writer)
}

// Runs a text, if it is a script.
fn run_text<R, G, W>(rt: &R, text: &[u8], gate: &G, writer: &mut W) -> Result<Ending, RunFault>
where
    R: Threads + Wait + Sync + AllocGlobal,
    G: Gate + Sync,
    W: Write,
    ensures ok { IfOk result (λ ending.
        IsTextRun ending text.now (W.contents writer.old) (W.contents writer.new)) }
    ensures err { IfErr result (λ fault.
        IsUnread fault text.now (W.contents writer.old) (W.contents writer.new)
        ⊎ IsTextBroken fault text.now (W.contents writer.old) (W.contents writer.new)) }
{
    match read_script(rt.alloc(), text) {
        Ok(script) => run(rt, &script, gate, writer),
        Err(fault) => Err(fault),
    }
}

/// Reads an input whole, at most 823,297 bytes, and then runs it as a script ([`run`]).
///
/// A fault of the script, or of the reader, comes before anything is written.
pub fn read_and_run<R, G, I, W>(
    rt: &R,
    reader: &mut I,
    gate: &G,
    writer: &mut W,
) -> Result<Ending, RunFault>
where
    R: Threads + Wait + Sync + AllocGlobal,
    G: Gate + Sync,
    I: Read,
    W: Write,
    ensures ok { IfOk result (λ ending. Runs ending (I.remaining reader.old)
        (W.contents writer.old) (W.contents writer.new)) }
    ensures err { IfErr result (λ fault. RunBreaks fault (I.remaining reader.old)
        (W.contents writer.old) (W.contents writer.new)) }
    ensures taken { TakesAtMost most_bytes (I.remaining reader.old) (I.remaining reader.new) }
{
    match read_input(rt.alloc(), reader) {
        Ok(text) => run_text(rt, &text, gate, writer),
        Err(fault) => Err(fault),
    }
}
