//! Lines in the order of their script.

use crate::{Gate, Shared};
use ada_hall::{Hall, Session};
use std::sync::Wait;

/// Lets the lines go in the order of the script, whoever speaks them.
#[derive(Clone, Copy, Debug, Drop)]
pub struct InTurn;

impl Gate for InTurn {
    fn before<J: Session, R: Wait>(
        &self,
        rt: &R,
        shared: &Shared<'_, J>,
        _speaker: u32,
        place: u32,
    ) {
        let mut guard = shared.hall.lock(rt);
        for _ in rt.forever() {
            let hall: &Hall<'_, J> = &guard;
            let turns = hall.turns();
            if turns.is_stopped() || turns.is_turn_of(place) {
                return;
            }
            guard = shared.wake.wait(rt, guard);
        }
    }
}
