//! All lines of a script, by threads.
use crate::{Gate, Report, Seat, Shared, work};
use ada_hall::Session;
use ada_script::Script;
use std::sync::Wait;
use std::thread;
use std::thread::{JoinHandle, Scope, Threads};

/// Starts the work of the speaker of a seat in a thread of its own. None where the thread is refused.
pub fn start<
    'h: 's,
    's,
    E,
    J: Session + Send + Sync + 's,
    R: Wait + Sync + 's,
    G: Gate + Sync + 's,
>(
    scope: &Scope<'s, E>,
    rt: &'s R,
    shared: &'s Shared<'h, J>,
    script: &'s Script,
    seat: Seat<J>,
    gate: &'s G,
) -> Option<JoinHandle<Report<J>>> {
    let Seat {
        speaker,
        reader,
        share,
    } = seat;
    scope
        .spawn(move || work(rt, shared, script, speaker, reader, share, gate))
        .ok()
}

// Starts a thread for each seat: whether each could be started. Where one is refused, the hall is stopped.
fn start_all<
    'h: 's,
    's,
    E,
    J: Session + Send + Sync + 's,
    R: Wait + Sync + 's,
    G: Gate + Sync + 's,
>(
    scope: &Scope<'s, E>,
    rt: &'s R,
    shared: &'s Shared<'h, J>,
    script: &'s Script,
    seats: Vec<Seat<J>>,
    gate: &'s G,
) -> bool {
    for seat in seats {
        if start(scope, rt, shared, script, seat, gate).is_none() {
            shared.stop(rt);
            return false;
        }
    }
    true
}

/// Plays the lines of a script, those of each seat's speaker in a thread of its own: whether each thread could
/// be started. Where one is refused, the hall is stopped. At the return all threads have ended.
pub fn play<J, R, G>(
    rt: &R,
    shared: &Shared<'_, J>,
    script: &Script,
    seats: Vec<Seat<J>>,
    gate: &G,
) -> bool
where
    J: Session + Send + Sync,
    R: Threads + Wait + Sync,
    G: Gate + Sync,
{
    thread::scope(thread::scope_env(), rt, |scope| {
        start_all(scope, rt, shared, script, seats, gate)
    })
}
