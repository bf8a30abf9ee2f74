//! Playing the lines of a script on a kernel.
ghost use Rattle.std.specs.Prelude.{◌≡◌, ℕ, ◌<◌, ◌≤◌, ◌^◌, ◌++◌, List, length, reverse, true, false, IfOk, IfErr, OnOk};
ghost use Rattle.ada_events.specs.Lawful.{IsLawful, IsSettled};
ghost use Rattle.ada_replay.specs.Play.{group_text, shown as shown_of, SaysLine, Plays};
ghost use Rattle.ada_replay.specs.Answers.{answer_to, shown_or_refused};
ghost use Rattle.ada_replay.specs.Ends.{state, IsShortage, IsWritten, IsCutShort};
ghost use Rattle.ada_printing.specs.Texts.{refusal_text, shown_text};
ghost use Rattle.ada_events.specs.Tasks.{task_count};
ghost use Rattle.ada_statements.specs.Binding.{is_show};

use crate::kernel_sink::send_to_kernel;
use crate::output::{PIECE, write_output, write_piece};
use crate::shows::shown;
use crate::{Answer, RunFault};
use ada_events::{Event, Refusal, TaskNo};
use ada_kernel::Kernel;
use ada_script::{Line, Names, Value, write_event, write_refusal, write_shown};
use std::alloc::Global;
use std::io::Write;

/// Room for the text that is gathered: a piece, and what the line prints that makes it one, mostly.
const ROOM: usize = PIECE + PIECE / 4;

/// Appends the lines of all events behind the first `from`, in the order in which they came, or nothing.
#[tactic(auto, using(crate::proofs::Groups::group_grows, crate::proofs::Groups::group_begins))]
pub fn print_events(
    events: &[Event],
    names: &Names,
    from: u32,
    text: &mut Vec<u8>,
) -> Result<(), RunFault>
    requires behind { from ≤ length events.now }
    requires fits { length events.now < 2 ^ 32 }
    ensures ok { OnOk result
        (text.new.items ≡ text.old.items ++ group_text names.now from (reverse events.now)) }
    ensures err { IfErr result (λ fault. (fault ≡ RunFault.Memory)
        × (text.new.items ≡ text.old.items)) }
{
    let before = text.len();
    for at in from as usize..events.len() {
        if write_event(at as u32 + 1, &events[at], names, text).is_err() {
            text.truncate(before);
            return Err(RunFault::Memory);
        }
    }
    Ok(())
}

/// Appends the line that a refused line of a script prints, or nothing.
pub fn print_refusal(line: u32, cause: Refusal, text: &mut Vec<u8>) -> Result<(), RunFault>
    ensures ok { OnOk result (text.new.items ≡ text.old.items ++ refusal_text line cause) }
    ensures err { IfErr result (λ fault. (fault ≡ RunFault.Memory)
        × (text.new.items ≡ text.old.items)) }
{
    write_refusal(line, cause, text).map_err(|_| RunFault::Memory)
}

/// Appends the line that a line of a script prints which shows an attribute, or nothing.
pub fn print_value(line: u32, value: Value, text: &mut Vec<u8>) -> Result<(), RunFault>
    ensures ok { OnOk result (text.new.items ≡ text.old.items ++ shown_text line value) }
    ensures err { IfErr result (λ fault. (fault ≡ RunFault.Memory)
        × (text.new.items ≡ text.old.items)) }
{
    write_shown(line, value, text).map_err(|_| RunFault::Memory)
}

/// The number of the task that the kernel makes next.
pub fn next_task(kernel: &Kernel) -> TaskNo
    ensures { result.0 ≡ task_count kernel.now }
{
    TaskNo(kernel.tasks())
}

// Makes a request of the kernel, and appends what the line prints.
fn say_request(
    kernel: &mut Kernel,
    names: &mut Names,
    line: &Line,
    text: &mut Vec<u8>,
) -> Result<Answer, RunFault>
    requires { is_show line.now.statement ≡ false }
    ensures ok { OnOk result ((said : List ℕ) × (text.new.items ≡ text.old.items ++ said)
        × SaysLine line.now (state kernel.old names.old) said (state kernel.new names.new)) }
    ensures answer { IfOk result (λ answer. answer
        ≡ answer_to (state kernel.old names.old) line.now.statement (length kernel.new)) }
    ensures err { IfErr result (λ fault. (fault ≡ RunFault.Memory)
        × (text.new.items ≡ text.old.items)) }
{
    let from = kernel.journal().len();
    let made = next_task(kernel);
    match send_to_kernel(kernel, &line.statement, names) {
        Ok(at) => {
            names.bind(&line.statement, at, made);
            print_events(kernel.journal().as_slice(), names, from, text)?;
            let last = kernel.journal().len();
            Ok(Answer::Group { first: at, last })
        }
        Err(Refusal::OutOfMemory) => Err(RunFault::Memory),
        Err(cause) => {
            print_refusal(line.line, cause, text)?;
            Ok(Answer::Refused(cause))
        }
    }
}

// Appends what a line prints that shows an attribute.
fn say_shown(
    kernel: &Kernel,
    names: &Names,
    line: &Line,
    text: &mut Vec<u8>,
) -> Result<Answer, RunFault>
    requires { is_show line.now.statement ≡ true }
    ensures ok { OnOk result ((said : List ℕ) × (text.new.items ≡ text.old.items ++ said)
        × SaysLine line.now (state kernel.now names.now) said (state kernel.now names.now)) }
    ensures answer { IfOk result (λ answer. answer
        ≡ shown_or_refused (shown_of names.now kernel.now line.now.statement)) }
    ensures err { IfErr result (λ fault. (fault ≡ RunFault.Memory)
        × (text.new.items ≡ text.old.items)) }
{
    match shown(kernel, names, &line.statement) {
        Ok(value) => {
            print_value(line.line, value, text)?;
            Ok(Answer::Shown(value))
        }
        Err(cause) => {
            print_refusal(line.line, cause, text)?;
            Ok(Answer::Refused(cause))
        }
    }
}

/// Answers a line, and appends what it prints: what its request leads to, or the attribute that it shows.
pub fn say(
    kernel: &mut Kernel,
    names: &mut Names,
    line: &Line,
    text: &mut Vec<u8>,
) -> Result<Answer, RunFault>
    ensures ok { OnOk result ((said : List ℕ) × (text.new.items ≡ text.old.items ++ said)
        × SaysLine line.now (state kernel.old names.old) said (state kernel.new names.new)) }
    ensures answer { IfOk result (λ answer. answer
        ≡ answer_to (state kernel.old names.old) line.now.statement (length kernel.new)) }
    ensures err { IfErr result (λ fault. (fault ≡ RunFault.Memory)
        × (text.new.items ≡ text.old.items)) }
    ensures at_rest { IsLawful kernel.old × IsSettled kernel.old }
{
    let _journal = kernel.journal();
    if line.statement.is_show() {
        say_shown(kernel, names, line, text)
    } else {
        say_request(kernel, names, line, text)
    }
}

/// Plays some lines, one after another, and writes what they print, in pieces. Where memory or the output
/// is refused, a beginning of what they print was written.
pub fn play<W: Write>(
    alloc: Global,
    kernel: &mut Kernel,
    names: &mut Names,
    lines: &[Line],
    writer: &mut W,
) -> Result<(), RunFault>
    ensures ok { OnOk result (IsWritten (Plays lines.now (state kernel.old names.old))
        (W.contents writer.old) (W.contents writer.new) (state kernel.new names.new)) }
    ensures err { IfErr result (λ fault. IsShortage fault
        × IsCutShort (Plays lines.now (state kernel.old names.old)) (W.contents writer.old)
        (W.contents writer.new)) }
{
    let mut text = Vec::new(alloc);
    // Where that is refused, the text takes room as it grows.
    let _ = text.reserve(ROOM);
    for line in lines {
        if let Err(fault) = say(kernel, names, line, &mut text) {
            // what was played isn't lost, and the first fault is the answer
            let _ = write_output(writer, &text);
            return Err(fault);
        }
        write_piece(writer, &mut text)?;
    }
    write_output(writer, &text)
}
