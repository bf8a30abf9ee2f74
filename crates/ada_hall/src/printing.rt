//! The texts of the answers that a hall gave.
ghost use Rattle.std.specs.Prelude.{◌≡◌, ◌<◌, ◌^◌, ℕ, Some, List, IsFalse, IsTrue, IfErr, OnOk, length, reverse, slice_get};
ghost use Rattle.ada_script.specs.Script.{scope_of};
ghost use Rattle.ada_replay.specs.Play.{PlayState};
ghost use Rattle.ada_replay.specs.Ends.{IsShortage, IsWritten, IsCutShort};
ghost use Rattle.ada_hall.specs.Answers.{AreJoined};
ghost use Rattle.ada_hall.specs.Printing.{ArePrinted};
ghost use Rattle.ada_hall.specs.internal.Printing.{EndsWithin, PrintsOne};

use crate::answer::KeptAnswer;
use crate::hall::Hall;
use crate::session::Session;
use ada_events::{Event, TaskNo};
use ada_replay::output::{write_output, write_piece};
use ada_replay::play::{print_events, print_refusal, print_value};
use ada_replay::{Answer, RunFault};
use ada_script::{Line, Names, Script};
use std::alloc::Global;
use std::io::Write;

// Appends what the line of an answer prints, and binds its name; or appends nothing. The events, in the order
// in which they came, are those of a journal that went on from the one that the answer left.
fn print_answer(
    line: &Line,
    events: &[Event],
    kept: &KeptAnswer,
    names: &mut Names,
    text: &mut Vec<u8>,
) -> Result<(), RunFault>
    requires within { EndsWithin kept.now.answer kept.now.events (length events.now) }
    requires fits { length events.now < 2 ^ 32 }
    ensures ok { OnOk result (PrintsOne line.now events.now kept.now names.old names.new
        text.old.items text.new.items) }
    ensures err { IfErr result (λ fault.
        (fault ≡ RunFault.Memory) × (text.new.items ≡ text.old.items)) }
{
    match kept.answer {
        Answer::Group { first, last } => {
            names.bind(&line.statement, first, TaskNo(kept.tasks));
            print_events(&events[..last as usize], names, kept.events, text)
        }
        Answer::Refused(cause) => print_refusal(line.line, cause, text),
        Answer::Shown(value) => print_value(line.line, value, text),
    }
}

// The line at a place.
fn line_at(lines: &[Line], place: u32) -> &Line
    requires { place < length lines.now }
    ensures { slice_get lines.now place ≡ Some result.now }
{
    &lines[place as usize]
}

// Writes what the answers to the lines of a script print, one after another, in pieces. The events are those of
// the journal, in the order in which they came, and the names those that the script begins with.
fn write_texts<W: Write>(
    alloc: Global,
    lines: &[Line],
    events: &[Event],
    answers: &[KeptAnswer],
    names: &mut Names,
    writer: &mut W,
) -> Result<(), RunFault>
    requires names { names.old ≡ scope_of lines.now }
    requires given { (text : List ℕ) × (last : PlayState)
        × ArePrinted lines.now answers.now (reverse events.now) text last }
    requires fits { length events.now < 2 ^ 32 }
    ensures ok { OnOk result ((last : PlayState)
        × IsWritten (ArePrinted lines.now answers.now (reverse events.now))
        (W.contents writer.old) (W.contents writer.new) last) }
    ensures err { IfErr result (λ fault. IsShortage fault
        × IsCutShort (ArePrinted lines.now answers.now (reverse events.now))
        (W.contents writer.old) (W.contents writer.new)) }
{
    let mut text = Vec::new(alloc);
    for kept in answers {
        let line = line_at(lines, kept.place);
        if let Err(fault) = print_answer(line, events, kept, names, &mut text) {
            // what was printed isn't lost, and the first fault is the answer
            let _ = write_output(writer, &text);
            return Err(fault);
        }
        write_piece(writer, &mut text)?;
    }
    write_output(writer, &text)
}

/// Writes what the answers of a hall print, in the order in which they were given, in pieces. Where memory or
/// the output is refused, a beginning of it was written.
pub fn write_answers<J: Session, W: Write>(
    alloc: Global,
    script: &Script,
    hall: &Hall<'_, J>,
    writer: &mut W,
) -> Result<(), RunFault>
    requires { script.now ≡ J.script }
    ensures ok { OnOk result ((last : PlayState)
        × IsWritten (ArePrinted J.script hall.now.answers hall.now.showing.journal)
        (W.contents writer.old) (W.contents writer.new) last) }
    ensures err { IfErr result (λ fault. IsShortage fault
        × IsCutShort (ArePrinted J.script hall.now.answers hall.now.showing.journal)
        (W.contents writer.old) (W.contents writer.new)) }
{
    let events = hall.journal().as_slice();
    let answers = hall.answers();
    let Ok(mut names) = script.names() else {
        return Err(RunFault::Memory);
    };
    write_texts(alloc, script.lines(), events, answers, &mut names, writer)
}

/// Whether each answer was given where the one before it ended, the first at the beginning, and the last ended
/// at so many events: then no event lies between them.
pub fn are_joined(answers: &[KeptAnswer], events: u32) -> bool
    ensures joined { IsTrue result → AreJoined answers.now 0 events }
    ensures apart { IsFalse result → AreJoined answers.now 0 events → ⊥ }
{
    let mut end = 0;
    for kept in answers {
        if kept.events != end {
            return false;
        }
        if let Answer::Group { last, .. } = kept.answer {
            end = last;
        }
    }
    end == events
}
