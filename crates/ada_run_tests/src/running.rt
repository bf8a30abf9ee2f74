//! Runs of scripts by threads: what they print, in turn and free, and how they end.

use crate::all_at_once::{AllAtOnce, LOOKS};
use crate::scripts::{ARRIVALS, MISSING, OWN_CALL, THREE};
use ada_run::{Ending, Free, Gate, InTurn, RunFault, read_and_run, replay, status_of};
use ada_script_tests::rendezvous::SCRIPT;
use ada_script_tests::streams::Writes;
use std::alloc::{AllocError, Global};
use std::process::Abort;
use std::sync::Wait;
use std::test::Fail;
use std::thread::Threads;

fn same<R: Threads + Wait + Sync + Abort + AllocGlobal>(rt: &R, script: &[u8]) -> Result<(), Fail> {
    let mut wanted = Vec::new(rt.alloc());
    let mut reader = script;
    let replayed = replay(rt.alloc(), &mut reader, &mut wanted);
    let mut printed = Vec::new(rt.alloc());
    let mut reader = script;
    let outcome = read_and_run(rt, &mut reader, &InTurn, &mut printed);
    assert_eq!(rt; status_of(&outcome), status_of(&replayed));
    assert_eq!(rt; printed.as_slice(), wanted.as_slice());
    Ok(())
}

// The lines of one rendezvous to the end, those of a queue, and those that show attributes.
#[test]
fn runs_in_turn_print_what_replays_print(rt: HostRuntime) -> Result<(), Fail> {
    same(&rt, SCRIPT)?;
    same(&rt, ARRIVALS)?;
    same(&rt, MISSING)
}

/// The status of a run of three tasks behind a gate.
fn status_behind<R: Threads + Wait + Sync + AllocGlobal, G: Gate + Sync>(rt: &R, gate: &G) -> u8 {
    let mut output = Vec::new(rt.alloc());
    let mut reader = THREE;
    status_of(&read_and_run(rt, &mut reader, gate, &mut output))
}

#[test]
fn one_thread_for_all(rt: HostRuntime) -> Result<(), Fail> {
    let gate = AllAtOnce::new(LOOKS);
    assert_eq!(rt; status_behind(&rt, &gate), 3);
    assert!(rt; gate.is_full() && !gate.is_late());
    Ok(())
}

/// How many lines of a text begin so.
fn lines_with(text: &[u8], beginning: &[u8]) -> usize {
    text.split(|byte| *byte == b'\n')
        .filter(|line| line.starts_with(beginning))
        .count()
}

// The task waits for itself, so nobody is left who could go on: its last line is refused.
#[test]
fn free_runs_end_where_all_wait(rt: HostRuntime) -> Result<(), Fail> {
    let mut output = Vec::new(rt.alloc());
    let mut reader = OWN_CALL;
    let outcome = read_and_run(&rt, &mut reader, &Free, &mut output);
    assert_eq!(rt; status_of(&outcome), 3);
    assert_eq!(rt; lines_with(&output, b"refused"), 1);
    assert_eq!(rt; lines_with(&output, b"refused line 5: NotRunning"), 1);
    Ok(())
}

/// A script that creates so many tasks, and a last line.
fn many(alloc: Global, tasks: u32, last: &str) -> Result<String, AllocError> {
    let mut script = String::new(alloc);
    for task in 0..tasks {
        let line = format!(in alloc; "main: create T{task} under main\n")?;
        script.push_str(&line)?;
    }
    script.push_str(last)?;
    Ok(script)
}

/// A run ended so.
fn ended<R: Abort + AllocGlobal>(
    rt: &R,
    outcome: &Result<Ending, RunFault>,
    text: &str,
) -> Result<(), Fail> {
    let said = match outcome {
        Ok(Ending::Finished) => format!(in rt.alloc(); "finished")?,
        Ok(Ending::Unfinished) => format!(in rt.alloc(); "unfinished")?,
        Err(fault) => format!(in rt.alloc(); "{fault}")?,
    };
    assert_eq!(rt; said.as_str(), text);
    Ok(())
}

/// A run of so many tasks ends so, and prints the creation of the 255th so often.
fn ends<R: Threads + Wait + Sync + Abort + AllocGlobal>(
    rt: &R,
    tasks: u32,
    last: &str,
    text: &str,
    times: usize,
) -> Result<(), Fail> {
    let script = many(rt.alloc(), tasks, last)?;
    let mut reader = script.as_bytes();
    let mut output = Vec::new(rt.alloc());
    let outcome = read_and_run(rt, &mut reader, &InTurn, &mut output);
    ended(rt, &outcome, text)?;
    assert_eq!(rt; lines_with(&output, b"255 main created T254"), times);
    Ok(())
}

// 256 threads are as many as there may be. A fault of the script comes first.
#[test]
fn too_many_tasks_are_not_run(rt: HostRuntime) -> Result<(), Fail> {
    ends(&rt, 255, "", "unfinished", 1)?;
    ends(&rt, 256, "", "too many tasks", 0)?;
    ends(&rt, 256, "main: jump\n", "line 257: BadStatement", 0)
}

#[test]
fn a_run_whose_output_fails(rt: HostRuntime) -> Result<(), Fail> {
    let mut writer = Writes {
        taken: Vec::new(rt.alloc()),
        writes_left: 0,
    };
    let mut reader = SCRIPT;
    let outcome = read_and_run(&rt, &mut reader, &InTurn, &mut writer);
    assert_eq!(rt; status_of(&outcome), 4);
    assert!(rt; matches!(outcome, Err(RunFault::Write)));
    assert!(rt; writer.taken.is_empty());
    Ok(())
}
