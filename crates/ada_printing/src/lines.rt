//! The lines that a replay prints.

ghost use Rattle.std.specs.Prelude.{◌≡◌, ◌++◌, take, IsOk, OnOk, OnErr, IsOkUnless};
ghost use Rattle.ada_printing.specs.internal.Appending.{KeepsStarts};
ghost use Rattle.ada_printing.specs.Texts.{event_line, refusal_text, shown_text, value_text};

use crate::Value;
use crate::events::put_event;
use crate::parts::{put, put_byte, put_number};
use ada_events::{Event, Refusal};
use ada_statements::{Cause, Names};
use std::alloc::AllocError;

/// Appends the line of the event at a position of the journal. An `Err`, which is `OutOfMemory`,
/// leaves what was written as it was.
pub fn write_event(at: u32, event: &Event, names: &Names, out: &mut Vec<u8>) -> Result<(), Cause>
    ensures ok { OnOk result (out.new.items ≡ out.old.items ++ event_line names.now at event.now) }
    ensures err { OnErr result (out.new.items ≡ out.old.items) }
    ensures memory { IsOkUnless result Cause.OutOfMemory }
{
    let length = out.len();
    let written = put_event_line(out, at, event, names);
    or_cut(written, length, out)
}

/// Cuts what was written to this length where appending to it failed.
fn or_cut(written: Result<(), AllocError>, length: usize, out: &mut Vec<u8>) -> Result<(), Cause>
    ensures ok { OnOk result (IsOk written × (out.new.items ≡ out.old.items)) }
    ensures err { OnErr result (out.new.items ≡ take length out.old.items) }
    ensures memory { IsOkUnless result Cause.OutOfMemory }
{
    if written.is_err() {
        out.truncate(length);
        return Err(Cause::OutOfMemory);
    }
    Ok(())
}

fn put_event_line(
    out: &mut Vec<u8>,
    at: u32,
    event: &Event,
    names: &Names,
) -> Result<(), AllocError>
    ensures text { OnOk result (out.new.items ≡ out.old.items
        ++ event_line names.now at event.now) }
    ensures starts { KeepsStarts out.old.items out.new.items }
{
    put_number(out, at)?;
    put_byte(out, b' ')?;
    put_event(out, at, event, names)?;
    put_byte(out, b'\n')
}

/// Appends the line that a refused line of a script prints. An `Err`, which is `OutOfMemory`, leaves
/// what was written as it was.
pub fn write_refusal(line: u32, refusal: Refusal, out: &mut Vec<u8>) -> Result<(), Cause>
    ensures ok { OnOk result (out.new.items ≡ out.old.items ++ refusal_text line refusal) }
    ensures err { OnErr result (out.new.items ≡ out.old.items) }
    ensures memory { IsOkUnless result Cause.OutOfMemory }
{
    let length = out.len();
    let written = put_refusal(out, line, refusal);
    or_cut(written, length, out)
}

fn put_refusal(out: &mut Vec<u8>, line: u32, refusal: Refusal) -> Result<(), AllocError>
    ensures text { OnOk result (out.new.items ≡ out.old.items ++ refusal_text line refusal) }
    ensures starts { KeepsStarts out.old.items out.new.items }
{
    put(out, b"refused line ")?;
    put_number(out, line)?;
    put(out, b": ")?;
    put(out, refusal.name().as_bytes())?;
    put_byte(out, b'\n')
}

/// Appends the line that a line of a script prints which shows an attribute. An `Err`, which is
/// `OutOfMemory`, leaves what was written as it was.
pub fn write_shown(line: u32, value: Value, out: &mut Vec<u8>) -> Result<(), Cause>
    ensures ok { OnOk result (out.new.items ≡ out.old.items ++ shown_text line value) }
    ensures err { OnErr result (out.new.items ≡ out.old.items) }
    ensures memory { IsOkUnless result Cause.OutOfMemory }
{
    let length = out.len();
    let written = put_shown(out, line, value);
    or_cut(written, length, out)
}

fn put_shown(out: &mut Vec<u8>, line: u32, value: Value) -> Result<(), AllocError>
    ensures text { OnOk result (out.new.items ≡ out.old.items ++ shown_text line value) }
    ensures starts { KeepsStarts out.old.items out.new.items }
{
    put(out, b"shown line ")?;
    put_number(out, line)?;
    put(out, b": ")?;
    put_value(out, value)?;
    put_byte(out, b'\n')
}

fn put_value(out: &mut Vec<u8>, value: Value) -> Result<(), AllocError>
    ensures text { OnOk result (out.new.items ≡ out.old.items ++ value_text value) }
    ensures starts { KeepsStarts out.old.items out.new.items }
{
    match value {
        Value::Truth(true) => put(out, b"true"),
        Value::Truth(false) => put(out, b"false"),
        Value::Number(number) => put_number(out, u32::from(number)),
    }
}
