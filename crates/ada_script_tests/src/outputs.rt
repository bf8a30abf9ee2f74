//! The output of long plays, which is written in pieces.

use crate::streams::Writes;
use ada_replay::{RunFault, replay, status_of};
use std::alloc::{AllocError, Global};
use std::process::Abort;
use std::test::Fail;

/// How many lines the long play has. The main program isn't activating, so each is refused, and prints 29
/// bytes and the digits of its number.
const LINES: usize = 4_000;

/// The bytes of all that is printed: 30 · 9 + 31 · 90 + 32 · 900 + 33 · 3,001.
const WHOLE: usize = 130_893;

/// The bytes of the first 2,020 lines, the fewest that have 65,536: 30 · 9 + 31 · 90 + 32 · 900 + 33 · 1,021.
const FIRST: usize = 65_553;

fn long_script(alloc: Global) -> Result<String, AllocError> {
    let mut script = String::new(alloc);
    for _ in 0..LINES {
        script.push_str("main: up\n")?;
    }
    Ok(script)
}

fn printed(alloc: Global) -> Result<String, AllocError> {
    let mut text = String::new(alloc);
    for line in 1..=LINES {
        let refused = format!(in alloc; "refused line {line}: NotActivating\n")?;
        text.push_str(&refused)?;
    }
    Ok(text)
}

/// A writer has taken so many bytes of the long play, and would take so many writes more.
fn took<R: Abort + AllocGlobal>(
    rt: &R,
    writer: &Writes,
    taken: usize,
    left: usize,
) -> Result<(), Fail> {
    let wanted = printed(rt.alloc())?;
    assert_eq!(rt; wanted.len(), WHOLE);
    assert_eq!(rt;
        Some(writer.taken.as_slice()),
        wanted.as_bytes().get(..taken)
    );
    assert_eq!(rt; writer.writes_left, left);
    Ok(())
}

/// A writer that takes so many writes and then fails has taken so many bytes of the long play, and would take
/// so many writes more; the status is this.
fn writes<R: Abort + AllocGlobal>(
    rt: &R,
    writes_left: usize,
    taken: usize,
    left: usize,
    status: u8,
) -> Result<(), Fail> {
    let script = long_script(rt.alloc())?;
    let mut input = script.as_bytes();
    let mut writer = Writes {
        taken: Vec::new(rt.alloc()),
        writes_left,
    };
    let outcome = replay(rt.alloc(), &mut input, &mut writer);
    assert_eq!(rt; status_of(&outcome), status);
    assert_eq!(rt; matches!(outcome, Err(RunFault::Write)), status == 4);
    took(rt, &writer, taken, left)
}

// Two writes for all lines. The main program isn't terminated at the end.
#[test]
fn few_writes(rt: HostRuntime) -> Result<(), Fail> {
    writes(&rt, 16, WHOLE, 14, 3)
}

// An output that fails at its first write, and at its second.
#[test]
fn a_write_that_fails(rt: HostRuntime) -> Result<(), Fail> {
    writes(&rt, 0, 0, 0, 4)?;
    writes(&rt, 1, FIRST, 0, 4)
}
