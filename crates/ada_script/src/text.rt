//! Reading a text as a script.

ghost use Rattle.std.specs.Prelude.{◌≡◌, ◌↔◌, ◌≤◌, ◌<◌, ◌-◌, ◌^◌, ◌++◌, ◌⊎◌, List, [], IsTrue, OnOk, IfOk, IfErr, IsOkUnless};
ghost use Rattle.ada_script.specs.Script.{IsPrintable, IsPlain, IsPlainAt, IsUnplain, IsUnplainAt};
ghost use Rattle.ada_script.specs.Script.{is_skipped as skipped, scope_of, AddsLine, IsScript, IsScriptWithin};
ghost use Rattle.ada_script.specs.Script.{IsFault, IsFirstFault, IsFirstFaultWithin};
ghost use Rattle.ada_script.specs.internal.Printable.{printable};
ghost use Rattle.ada_script.specs.declared.script.Line.{Line};

use crate::cursor::{Lines, Words};
use crate::statements::read_statement;
use crate::{Cause, Line, Names, Script, ScriptFault, Statement};
use std::alloc::Global;

/// Whether a byte is in 32 to 126.
fn is_printable_byte(byte: u8) -> bool
    ensures { result ≡ printable byte }
{
    32 <= byte && byte <= 126
}

/// Whether each byte is in 32 to 126.
// Each is looked at, with no way out before the last, so that many are looked at at once.
fn is_printable(line: &[u8]) -> bool
    ensures { IsTrue result ↔ IsPrintable line.now }
{
    let mut are = true;
    for byte in line {
        are &= is_printable_byte(*byte);
    }
    are
}

/// Checks the length of a line and its bytes, in this order.
pub fn check_plain(line: &[u8]) -> Result<(), Cause>
    ensures ok { OnOk result (IsPlain line.now) }
    ensures err { IfErr result (IsUnplain line.now) }
{
    if line.len() > 200 {
        return Err(Cause::LineTooLong);
    }
    if !is_printable(line) {
        return Err(Cause::NotAscii);
    }
    Ok(())
}

/// Checks the number of a line, where so many are allowed, its length and its bytes, in this order.
pub fn check_line(most: u32, number: u32, line: &[u8]) -> Result<(), Cause>
    ensures ok { OnOk result (IsPlainAt most number line.now) }
    ensures err { IfErr result (IsUnplainAt most number line.now) }
{
    if number > most {
        return Err(Cause::TooManyLines);
    }
    check_plain(line)
}

/// Whether there is no word, or the first one begins with a number sign.
pub fn is_skipped(words: &Words) -> bool
    ensures { result ≡ skipped words.now }
{
    match words.first() {
        None => true,
        Some(first) => first == b'#',
    }
}

/// Reads a line behind others, and keeps what it says and the name that it declares.
fn read_line(
    alloc: Global,
    lines: &mut Vec<Line>,
    names: &mut Names,
    most: u32,
    number: u32,
    line: &[u8],
) -> Result<(), Cause>
    requires { names.old ≡ scope_of lines.old.items }
    ensures number { OnOk result (number ≤ most) }
    ensures names { OnOk result (names.new ≡ scope_of lines.new.items) }
    ensures lines { OnOk result ((added : List Line)
        × AddsLine most lines.old.items number line.now added
        × (lines.new.items ≡ lines.old.items ++ added)) }
    ensures err { IfErr result (λ cause. (cause ≡ Cause.OutOfMemory)
        ⊎ IsFault most lines.old.items number line.now cause) }
{
    check_line(most, number, line)?;
    let mut words = Words::new(line);
    if is_skipped(&words) {
        return Ok(());
    }
    // Filled where it lies, so that it is moved once.
    let mut added = Line {
        line: number,
        statement: Statement::Tick { now: 0 },
    };
    read_statement(alloc, names, &mut words, &mut added.statement)?;
    names.declare(&added.statement)?;
    lines.reserve(1)?;
    lines.push_reserved(added);
    Ok(())
}

/// The least that a line with a statement takes, with its end.
const LEAST_BYTES: usize = 6;

/// No lines, with room for as many statements as the text may have, so that they aren't moved as more are read.
fn room_for_lines(alloc: Global, text: &[u8], most: u32) -> Result<Vec<Line>, Cause>
    ensures none { IfOk result (λ lines. lines.items ≡ []) }
    ensures memory { IsOkUnless result Cause.OutOfMemory }
{
    let count = text.len() / LEAST_BYTES + 1;
    Ok(Vec::with_capacity(alloc, count.min(most as usize))?)
}

/// The most lines that a script has.
pub const MOST_LINES: u32 = 4096;

/// Reads a text of so many lines at most as a script. It is one where each line is blank, a comment or a statement
/// whose names are declared by the lines before it; else the fault names the first line that isn't. Its cause is
/// `OutOfMemory` where a growth was refused before such a line was met.
pub fn read_within(alloc: Global, text: &[u8], most: u32) -> Result<Script, ScriptFault>
    requires { most < 2 ^ 32 - 1 }
    ensures ok { IfOk result (λ script. IsScriptWithin most text.now script) }
    ensures err { IfErr result (λ fault. (fault.cause ≡ Cause.OutOfMemory)
        ⊎ IsFirstFaultWithin most text.now fault) }
{
    let mut number = 1;
    let mut lines = room_for_lines(alloc, text, most).map_err(|cause| ScriptFault {
        line: number,
        cause,
    })?;
    let mut names = Names::new(alloc).map_err(|cause| ScriptFault {
        line: number,
        cause,
    })?;
    let mut rest = Lines::new(text);
    while let Some(line) = rest.next() {
        if let Err(cause) = read_line(alloc, &mut lines, &mut names, most, number, line) {
            return Err(ScriptFault {
                line: number,
                cause,
            });
        }
        number += 1;
    }
    Ok(Script::new(lines, names))
}

/// Reads a text as a script, which has at most [`MOST_LINES`] lines: see [`read_within`].
pub fn read(alloc: Global, text: &[u8]) -> Result<Script, ScriptFault>
    ensures ok { IfOk result (λ script. IsScript text.now script) }
    ensures err { IfErr result (λ fault. (fault.cause ≡ Cause.OutOfMemory)
        ⊎ IsFirstFault text.now fault) }
{
    read_within(alloc, text, MOST_LINES)
}
