//! Replays and runs over readers of which a read is interrupted. They end there: no read is tried again.

use ada_run::{Ending, InTurn, RunFault, read_and_run, replay, status_of};
use ada_script_tests::rendezvous::{PRINTED, SCRIPT};
use ada_script_tests::streams::{Interrupted, Pieces};
use std::process::Abort;
use std::test::Fail;

/// The bytes that each read gives.
const SIZE: usize = 7;

/// The reads of the whole script, the one at its end counted.
const READS: usize = SCRIPT.len() / SIZE + 2;

/// A reader of the script, of which the read behind so many others is interrupted.
fn interrupted(reads_before: Option<usize>) -> Interrupted<'static> {
    Interrupted {
        pieces: Pieces {
            text: SCRIPT,
            size: SIZE,
            reads_left: usize::MAX,
        },
        reads_before,
    }
}

/// How many bytes of the script are left behind so many reads.
fn left_behind(reads_before: usize) -> usize {
    SCRIPT
        .len()
        .saturating_sub(reads_before.saturating_mul(SIZE))
}

/// The input failed at the read behind so many others: nothing was written, and nothing more was read.
fn failed_there<R: Abort>(
    rt: &R,
    reads_before: usize,
    outcome: &Result<Ending, RunFault>,
    reader: &Interrupted<'_>,
    output: &[u8],
) {
    let failed = matches!(outcome, Err(RunFault::Read)) && status_of(outcome) == 4;
    let stays = output.is_empty() && reader.pieces.text.len() == left_behind(reads_before);
    assert!(rt; failed && stays, "behind {reads_before} reads");
}

#[test]
fn a_replay_is_interrupted(rt: HostRuntime) -> Result<(), Fail> {
    for reads_before in 0..READS {
        let mut reader = interrupted(Some(reads_before));
        let mut output = Vec::new(rt.alloc());
        let outcome = replay(rt.alloc(), &mut reader, &mut output);
        failed_there(&rt, reads_before, &outcome, &reader, &output);
    }
    Ok(())
}

#[test]
fn a_run_is_interrupted(rt: HostRuntime) -> Result<(), Fail> {
    for reads_before in 0..READS {
        let mut reader = interrupted(Some(reads_before));
        let mut output = Vec::new(rt.alloc());
        let outcome = read_and_run(&rt, &mut reader, &InTurn, &mut output);
        failed_there(&rt, reads_before, &outcome, &reader, &output);
    }
    Ok(())
}

// Without the interruption the same reader gives the whole script.
#[test]
fn nothing_is_interrupted(rt: HostRuntime) -> Result<(), Fail> {
    let mut reader = interrupted(None);
    let mut output = Vec::new(rt.alloc());
    let outcome = replay(rt.alloc(), &mut reader, &mut output);
    assert_eq!(rt; status_of(&outcome), 0);
    assert_eq!(rt; output.as_slice(), PRINTED);
    Ok(())
}
