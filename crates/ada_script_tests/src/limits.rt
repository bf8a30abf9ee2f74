//! Texts at the limits of a script, and each byte.

use crate::common::{assert_found, with_script};
use ada_script::{Cause, Script, ScriptFault, read};
use std::process::Abort;
use std::test::Fail;

/// Why a text is no script, which is found in this line.
fn cause_of(rt: &impl Abort, answer: Result<Script, ScriptFault>, line: u32) -> Option<Cause> {
    let fault = answer.err()?;
    assert_found(rt, &fault.line, &line);
    Some(fault.cause)
}

/// A text is no script for this cause, which is found in this line; `None` where it is one.
fn assert_cause<R: Abort + AllocGlobal>(rt: &R, text: &[u8], line: u32, cause: Option<Cause>) {
    assert_found(rt, &cause_of(rt, read(rt.alloc(), text), line), &cause);
}

/// A line of 201 bytes is too long, and one of 200 isn't.
fn line_keeps_to_the_limit<R: Abort + AllocGlobal>(rt: &R) -> Result<(), Fail> {
    let mut comment = vec![in rt.alloc(); b'x'; 200]?;
    comment.insert(0, b'#')?;
    assert_cause(rt, &comment, 1, Some(Cause::LineTooLong));
    comment.pop();
    assert_cause(rt, &comment, 1, None);
    Ok(())
}

#[test]
fn keeps_to_the_limits(rt: HostRuntime) -> Result<(), Fail> {
    line_keeps_to_the_limit(&rt)?;
    let mut lines = vec![in rt.alloc(); b'\n'; 4096]?;
    assert_cause(&rt, &lines, 1, None);
    lines.push(b'\n')?;
    assert_cause(&rt, &lines, 4097, Some(Cause::TooManyLines));
    Ok(())
}

/// Why one byte is no script: it isn't printable, or a word that no statement begins with.
fn cause_alone(byte: u8) -> Option<Cause> {
    match byte {
        b'\n' | b' ' | b'#' => None,
        33..=126 => Some(Cause::BadStatement),
        _ => Some(Cause::NotAscii),
    }
}

/// There are no lines.
fn assert_empty<R: Abort>(rt: &R, script: &Script) -> Result<(), Cause> {
    assert!(rt; script.lines().is_empty());
    Ok(())
}

/// Whether a byte alone is a script, which has no lines then, and if not, why.
fn assert_alone<R: Abort + AllocGlobal>(rt: &R, byte: u8) -> Result<(), Fail> {
    let found = cause_of(rt, read(rt.alloc(), &[byte]), 1);
    assert_eq!(rt; found, cause_alone(byte), "byte {byte}");
    match found {
        None => with_script(rt, &[byte], assert_empty),
        Some(_) => Ok(()),
    }
}

// No text at all is a script without lines too.
#[test]
fn each_byte_alone(rt: HostRuntime) -> Result<(), Fail> {
    for byte in 0..=255u8 {
        assert_alone(&rt, byte)?;
    }
    with_script(&rt, b"", assert_empty)
}
