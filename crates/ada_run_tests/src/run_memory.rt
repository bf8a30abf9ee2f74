//! Replays and runs where there is memory, and each read and write succeeds.

use ada_run::{Ending, Free, InTurn, read_and_run, replay};
use ada_script_tests::rendezvous::{PRINTED, SCRIPT};
use std::process::Abort;
use std::sync::Wait;
use std::test::Fail;
use std::thread::Threads;

/// A replay comes to the end of the script.
fn replays<R: Abort + AllocGlobal>(rt: &R) -> Result<(), Fail> {
    let mut reader = SCRIPT;
    let mut output = Vec::new(rt.alloc());
    let outcome = replay(rt.alloc(), &mut reader, &mut output);
    assert!(rt; matches!(outcome, Ok(Ending::Finished)));
    assert_eq!(rt; output.as_slice(), PRINTED);
    Ok(())
}

/// So does a run in turn.
fn runs_in_turn<R: Threads + Wait + Sync + Abort + AllocGlobal>(rt: &R) -> Result<(), Fail> {
    let mut reader = SCRIPT;
    let mut output = Vec::new(rt.alloc());
    let outcome = read_and_run(rt, &mut reader, &InTurn, &mut output);
    assert!(rt; matches!(outcome, Ok(Ending::Finished)));
    assert_eq!(rt; output.as_slice(), PRINTED);
    Ok(())
}

/// A free run may print its lines in another order.
fn runs_free<R: Threads + Wait + Sync + Abort + AllocGlobal>(rt: &R) -> Result<(), Fail> {
    let mut reader = SCRIPT;
    let mut output = Vec::new(rt.alloc());
    let outcome = read_and_run(rt, &mut reader, &Free, &mut output);
    assert!(rt; outcome.is_ok());
    assert!(rt; !output.is_empty());
    Ok(())
}

#[test]
fn always_out_of_memory(rt: HostRuntime) -> Result<(), Fail> {
    replays(&rt)?;
    runs_in_turn(&rt)?;
    runs_free(&rt)
}
