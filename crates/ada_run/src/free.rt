//! Lines as the threads come.

use crate::{Gate, Shared};
use ada_hall::{Hall, Session};
use std::sync::Wait;

/// Lets each thread go as soon as its task runs or has completed. Where all threads that aren't done wait, and
/// none of their tasks is so, nobody waits any more, and the kernel refuses what can't be.
#[derive(Clone, Copy, Debug, Drop)]
pub struct Free;

/// What a thread does by what it saw of the turns.
#[derive(Clone, Copy)]
enum Seen {
    /// It plays the line, or finds that none is to be played any more.
    Goes,
    /// It waits until something changes.
    Waits,
    /// It was the last to wait, so it wakes all, and then goes.
    WakesAll,
}

// Looks whether the line at a place may be played. Where it may not, one more thread waits, unless this one has
// waited already for that change of the turns.
fn look_at<J: Session>(hall: &mut Hall<'_, J>, place: u32, change: &mut Option<u64>) -> Seen {
    let turns = hall.turns();
    if turns.is_stopped() || turns.is_stuck() || hall.may_go(place) {
        return Seen::Goes;
    }
    *change = Some(hall.wait(*change));
    if hall.turns().is_stuck() {
        Seen::WakesAll
    } else {
        Seen::Waits
    }
}

impl Gate for Free {
    fn before<J: Session, R: Wait>(
        &self,
        rt: &R,
        shared: &Shared<'_, J>,
        _speaker: u32,
        place: u32,
    ) {
        let mut change = None;
        let mut guard = shared.hall.lock(rt);
        for _ in rt.forever() {
            match look_at(&mut guard, place, &mut change) {
                Seen::Goes => return,
                Seen::Waits => guard = shared.wake.wait(rt, guard),
                Seen::WakesAll => {
                    shared.wake.notify_all();
                    return;
                }
            }
        }
    }
}
