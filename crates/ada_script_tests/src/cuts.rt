//! A script cut after each of its bytes.

use crate::rendezvous::SCRIPT;
use ada_replay::{RunFault, replay};
use std::process::Abort;
use std::test::Fail;

/// The number of the line that a text ends in, from 1.
fn last_line(text: &[u8]) -> usize {
    text.split(|byte| *byte == b'\n').count()
}

/// A text is played, and its output begins with that of an earlier text; or it is no script, and the
/// fault is in its last line.
fn goes_on<R: Abort + AllocGlobal>(rt: &R, before: &[u8], text: &[u8]) -> Result<(), Fail> {
    let mut earlier = before;
    let mut wanted = Vec::new(rt.alloc());
    assert!(rt; replay(rt.alloc(), &mut earlier, &mut wanted).is_ok());
    let mut input = text;
    let mut output = Vec::new(rt.alloc());
    match replay(rt.alloc(), &mut input, &mut output) {
        Ok(_) => assert!(rt; output.starts_with(wanted.as_slice())),
        Err(RunFault::Script(fault)) => {
            assert!(rt; output.is_empty());
            assert_eq!(rt; fault.line as usize, last_line(before));
        }
        Err(_) => assert!(rt; false),
    }
    Ok(())
}

// Each cut is a script, or its fault is in its last line.
#[test]
fn each_cut(rt: HostRuntime) -> Result<(), Fail> {
    let mut before: &[u8] = &[];
    for at in 0..SCRIPT.len() {
        let text = &SCRIPT[..=at];
        goes_on(&rt, before, text)?;
        if text.ends_with(b"\n") {
            before = text;
        }
    }
    Ok(())
}
