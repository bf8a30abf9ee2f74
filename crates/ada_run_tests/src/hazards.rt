//! Scripts as the threads come whose requests may be accepted or refused, by who comes first.

use crate::scripts::RENDEZVOUS;
use crate::together::play;
use ada_hall::Session;
use ada_run::{Free, Gate, Shared};
use std::process::Abort;
use std::sync::Wait;
use std::test::Fail;
use std::thread::Threads;

/// A server is aborted while its clients call it, one of them for a time.
const ABORTED: &[u8] = b"main: create S under main E
main: create A under main
main: create B under main
main: create C under main
main: activate S A B C
S: up
A: up
B: up
C: up
A: call S E
B: call S E
C: call S E within 100
S: accept E
main: abort S
A: call S E
A: show callable S
A: complete
B: complete
C: complete
main: complete
";

/// Timed calls of a task that hangs, which is then aborted, while the time passes.
const WATCHED: &[u8] = b"main: create W under main P
main: create D under main
main: activate W D
W: up
D: up
W: accept P
D: call W P within 100
W: end
W: delay 100000
D: call W P within 100
tick 100
D: abort W
D: show terminated W
D: call W P within 100
D: complete
main: complete
";

/// Two servers that terminate with the block in which they were made.
const QUITTING: &[u8] = b"main: open B
main: create X under B E
main: create Y under B E
main: activate X Y
X: up
Y: up
X: select 0 accept E or terminate
Y: select 0 accept E or terminate
main: close
main: complete
";

/// Lets each line go at once.
#[derive(Drop)]
struct Hasty;

impl Gate for Hasty {
    fn before<J: Session, R: Wait>(
        &self,
        _rt: &R,
        _shared: &Shared<'_, J>,
        _speaker: u32,
        _place: u32,
    ) {}

    fn after<J: Session, R: Wait>(
        &self,
        _rt: &R,
        _shared: &Shared<'_, J>,
        _speaker: u32,
        _place: u32,
    ) {}
}

/// Plays a script again and again. Each time the answers are one legal order of its lines, and what the threads
/// report as accepted is the total.
fn play_often<R: Threads + Wait + Sync + AllocGlobal + Abort, G: Gate + Sync>(
    rt: &R,
    script: &[u8],
    gate: &G,
) -> Result<(), Fail> {
    for _ in 0..200 {
        assert!(rt; play(rt, script, gate)?.is_whole());
    }
    Ok(())
}

#[test]
fn abort_free(rt: HostRuntime) -> Result<(), Fail> {
    play_often(&rt, ABORTED, &Free)
}

#[test]
fn ticks_free(rt: HostRuntime) -> Result<(), Fail> {
    play_often(&rt, WATCHED, &Free)
}

#[test]
fn terminate_free(rt: HostRuntime) -> Result<(), Fail> {
    play_often(&rt, QUITTING, &Free)
}

// Whatever a gate does, the answers are one legal order.
#[test]
fn gate_that_never_waits(rt: HostRuntime) -> Result<(), Fail> {
    play_often(&rt, RENDEZVOUS, &Hasty)
}
