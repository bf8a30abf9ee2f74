//! Threads of their own, one for each speaker of a script.

use ada_hall::Session;
use ada_run::playing::start;
use ada_run::{Gate, Report, Seat, Shared};
use ada_script::Script;
use std::sync::Wait;
use std::thread;
use std::thread::{JoinHandle, Scope, Threads};

/// Starts a thread for each seat. None where one is refused, or there is no memory.
fn try_start_all<
    'h: 's,
    's,
    E,
    J: Session + Send + Sync + 's,
    R: Wait + Sync + AllocGlobal + 's,
    G: Gate + Sync + 's,
>(
    scope: &Scope<'s, E>,
    rt: &'s R,
    shared: &'s Shared<'h, J>,
    script: &'s Script,
    seats: Vec<Seat<J>>,
    gate: &'s G,
) -> Option<Vec<JoinHandle<Report<J>>>> {
    let mut handles = Vec::with_capacity(rt.alloc(), seats.len()).ok()?;
    for seat in seats {
        let handle = start(scope, rt, shared, script, seat, gate)?;
        handles.push(handle).ok()?;
    }
    Some(handles)
}

/// What the threads report. None where there is no memory.
fn join_all<J: Session, R: Threads + AllocGlobal>(
    rt: &R,
    handles: Vec<JoinHandle<Report<J>>>,
) -> Option<Vec<Report<J>>> {
    let mut reports = Vec::with_capacity(rt.alloc(), handles.len()).ok()?;
    for handle in handles {
        reports.push(handle.join(rt)).ok()?;
    }
    Some(reports)
}

/// Plays a script, the lines of each seat's speaker by a thread of its own, and joins them all: what they report. None
/// where a thread is refused, or there is no memory; the hall is stopped then.
pub fn work_all<J: Session + Send + Sync, R: Threads + Wait + Sync + AllocGlobal, G: Gate + Sync>(
    rt: &R,
    shared: &Shared<'_, J>,
    script: &Script,
    seats: Vec<Seat<J>>,
    gate: &G,
) -> Option<Vec<Report<J>>> {
    thread::scope(thread::scope_env(), rt, |scope| {
        let started = try_start_all(scope, rt, shared, script, seats, gate);
        if started.is_none() {
            shared.stop(rt);
        }
        join_all(rt, started?)
    })
}
