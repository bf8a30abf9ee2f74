//! Lines as the threads come.

use crate::together::{Played, play};
use ada_run::Free;
use std::alloc::{AllocError, Global};
use std::fs;
use std::fs::Files;
use std::process::Abort;
use std::sync::Wait;
use std::test::Fail;
use std::thread::{Threads, yield_now};

/// A server and seven clients. Whatever the order, all requests are accepted.
const EIGHT: &[u8] = b"main: create S under main E
main: create A under main
main: create B under main
main: create C under main
main: create D under main
main: create F under main
main: create G under main
main: create H under main
main: activate S A B C D F G H
S: up
A: up
B: up
C: up
D: up
F: up
G: up
H: up
A: call S E
B: call S E
C: call S E
D: call S E
F: call S E
G: call S E
H: call S E
S: accept E
S: end
S: accept E
S: end
S: show count E
S: accept E
S: end
S: accept E
S: end
S: accept E
S: end
S: accept E
S: end
S: accept E
S: end
S: complete
A: complete
B: complete
C: complete
D: complete
F: show callable S
F: complete
G: show terminated A
G: complete
H: complete
main: complete
";

/// How many requests its lines make: all but the three that show an attribute.
const REQUESTS: u32 = 47;

/// How often a process looks whether it has one thread.
const LOOKS: u32 = 1_000;

/// The answers are one legal order, the shares add up to so many requests, and none was refused.
fn assert_accepted<R: Abort>(rt: &R, played: &Played, requests: u32) {
    assert!(rt; played.is_whole());
    assert_eq!(rt; played.total, requests);
    assert!(rt; played.counts.iter().all(|counts| counts.1 == 0));
}

/// Plays `EIGHT` once. The answers are one legal order, and the shares add up.
fn play_eight<R: Threads + Wait + Sync + AllocGlobal + Abort>(rt: &R) -> Result<(), Fail> {
    let played = play(rt, EIGHT, &Free)?;
    assert_accepted(rt, &played, REQUESTS);
    Ok(())
}

/// Whether this process has no thread but this one. A thread that was joined may be on its way out still.
fn is_alone<R: Files + Alloc>(rt: &R) -> Result<bool, Fail> {
    for _ in 0..LOOKS {
        let status = fs::read_to_string(rt, "/proc/self/status")?;
        if status.contains("Threads:\t1\n") {
            return Ok(true);
        }
        yield_now();
    }
    Ok(false)
}

// No play waits for good, and none leaves a thread behind.
#[test]
fn eight_tasks_free(rt: HostRuntime) -> Result<(), Fail> {
    for _ in 0..1_000 {
        play_eight(&rt)?;
    }
    assert!(rt; is_alone(&rt)?);
    Ok(())
}

/// How many tasks are created beside the main program, at most 255.
const CROWD: u32 = 255;

/// Appends a line for each task, with its name between two texts.
fn push_for_each(
    alloc: Global,
    script: &mut String,
    before: &str,
    behind: &str,
) -> Result<(), AllocError> {
    for task in 0..CROWD {
        script.push_str(&format!(in alloc; "{before}t{task}{behind}\n")?)?;
    }
    Ok(())
}

/// Appends lines that activate the tasks, 17 by each.
fn push_activations(alloc: Global, script: &mut String) -> Result<(), AllocError> {
    for task in 0..CROWD {
        let begins = if task % 17 == 0 { "main: activate" } else { "" };
        let ends = if task % 17 == 16 { "\n" } else { "" };
        script.push_str(&format!(in alloc; "{begins} t{task}{ends}")?)?;
    }
    Ok(())
}

/// A script of many tasks, each of which is activated.
fn crowd(alloc: Global) -> Result<String, AllocError> {
    let mut script = String::new(alloc);
    push_for_each(alloc, &mut script, "main: create ", " under main")?;
    push_activations(alloc, &mut script)?;
    push_for_each(alloc, &mut script, "", ": up")?;
    script.push_str("main: complete\n")?;
    Ok(script)
}

/// There are 256 speakers, of which all but the first made one request.
fn assert_each_came_up<R: Abort>(rt: &R, counts: &[(u32, u32)]) {
    assert_eq!(rt; counts.len(), 256);
    assert!(rt; counts.iter().skip(1).all(|counts| *counts == (1, 0)));
}

// 255 creations, 15 activations, 255 ends of one, and the end of the main program.
#[test]
fn full_house_free(rt: HostRuntime) -> Result<(), Fail> {
    let script = crowd(rt.alloc())?;
    let played = play(&rt, script.as_bytes(), &Free)?;
    assert_accepted(&rt, &played, 526);
    assert_each_came_up(&rt, &played.counts);
    assert!(rt; is_alone(&rt)?);
    Ok(())
}
