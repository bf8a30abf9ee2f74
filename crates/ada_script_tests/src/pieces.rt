//! Replays over readers in pieces, and over readers and writers that fail.

use crate::rendezvous::{PRINTED, SCRIPT};
use crate::streams::{Bytes, End, Pieces};
use ada_replay::{RunFault, replay, status_of};
use std::process::Abort;
use std::test::Fail;

/// Read in pieces of so many bytes, the script prints what it prints.
fn reads_in_pieces<R: Abort + AllocGlobal>(rt: &R, size: usize) -> Result<(), Fail> {
    let mut reader = Pieces {
        text: SCRIPT,
        size,
        reads_left: usize::MAX,
    };
    let mut output = Vec::new(rt.alloc());
    let outcome = replay(rt.alloc(), &mut reader, &mut output);
    assert_eq!(rt; status_of(&outcome), 0);
    assert_eq!(rt; output.as_slice(), PRINTED);
    Ok(())
}

#[test]
fn pieces_of_1_2_and_7_bytes(rt: HostRuntime) -> Result<(), Fail> {
    reads_in_pieces(&rt, 1)?;
    reads_in_pieces(&rt, 2)?;
    reads_in_pieces(&rt, 7)
}

// A reader that fails at its k-th read, for each k: the status is 4, and nothing is written.
#[test]
fn reads_that_fail(rt: HostRuntime) -> Result<(), Fail> {
    let reads = SCRIPT.len() / 7 + 2;
    for reads_left in 0..reads {
        let mut reader = Pieces {
            text: SCRIPT,
            size: 7,
            reads_left,
        };
        let mut output = Vec::new(rt.alloc());
        let outcome = replay(rt.alloc(), &mut reader, &mut output);
        assert!(rt; matches!(outcome, Err(RunFault::Read)) && status_of(&outcome) == 4);
        assert!(rt; output.is_empty());
    }
    Ok(())
}

/// An input that is longer than a script may be, and so many reads of as many bytes as are asked for: the
/// status is this, and so many bytes of the input are left.
fn reads_a_long_input<R: Abort + AllocGlobal>(
    rt: &R,
    reads_left: usize,
    status: u8,
    left: usize,
) -> Result<(), Fail> {
    let text = vec![in rt.alloc(); b' '; 900_000]?;
    let mut reader = Pieces {
        text: &text,
        size: usize::MAX,
        reads_left,
    };
    let mut output = Vec::new(rt.alloc());
    let outcome = replay(rt.alloc(), &mut reader, &mut output);
    assert_eq!(rt; status_of(&outcome), status);
    assert_eq!(rt; matches!(outcome, Err(RunFault::Read)), status == 4);
    assert_eq!(rt; reader.text.len(), left);
    assert!(rt; output.is_empty());
    Ok(())
}

// 12 reads of 65,536 bytes and one of 36,865 are 823,297, with which it is no script; no more is read.
#[test]
fn few_reads(rt: HostRuntime) -> Result<(), Fail> {
    reads_a_long_input(&rt, 12, 4, 113_568)?;
    reads_a_long_input(&rt, 13, 1, 76_703)?;
    reads_a_long_input(&rt, 14, 1, 76_703)
}

/// A writer that comes to its end after so many bytes: exactly these are written, and the status is 4.
fn writes_until<R: Abort + AllocGlobal>(rt: &R, room: usize, end: End) -> Result<(), Fail> {
    let mut writer = Bytes {
        taken: Vec::new(rt.alloc()),
        room,
        end,
    };
    let mut input = SCRIPT;
    let outcome = replay(rt.alloc(), &mut input, &mut writer);
    assert!(rt; matches!(outcome, Err(RunFault::Write)) && status_of(&outcome) == 4);
    assert_eq!(rt; Some(writer.taken.as_slice()), PRINTED.get(..room));
    Ok(())
}

#[test]
fn writes_that_fail(rt: HostRuntime) -> Result<(), Fail> {
    for room in 0..PRINTED.len() {
        writes_until(&rt, room, End::Fails)?;
        writes_until(&rt, room, End::TakesNothing)?;
    }
    Ok(())
}

#[test]
fn a_byte_at_each_write(rt: HostRuntime) -> Result<(), Fail> {
    let mut writer = Bytes {
        taken: Vec::new(rt.alloc()),
        room: usize::MAX,
        end: End::Fails,
    };
    let mut input = SCRIPT;
    let outcome = replay(rt.alloc(), &mut input, &mut writer);
    assert_eq!(rt; status_of(&outcome), 0);
    assert_eq!(rt; writer.taken.as_slice(), PRINTED);
    Ok(())
}
