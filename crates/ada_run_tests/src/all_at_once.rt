//! A gate that holds the first lines until all speakers have come.

use ada_hall::Session;
use ada_run::{Gate, InTurn, Shared};
use std::sync::Wait;
use std::sync::atomic::{AtomicBool, AtomicU64, Ordering};
use std::thread::yield_now;

/// A thread that has looked so often gives up.
pub const LOOKS: u32 = 100_000_000;

/// Holds the first line of each of four speakers until all four have come, and then lets the lines go in turn.
#[derive(Drop)]
pub struct AllAtOnce {
    /// How often a thread looks for the others.
    looks: u32,
    /// Which speakers have come.
    came: [AtomicBool; 4],
    /// How many gave up.
    late: AtomicU64,
}

impl AllAtOnce {
    /// A gate at which a thread looks so often.
    pub fn new(looks: u32) -> AllAtOnce {
        AllAtOnce {
            looks,
            came: [
                AtomicBool::new(false),
                AtomicBool::new(false),
                AtomicBool::new(false),
                AtomicBool::new(false),
            ],
            late: AtomicU64::new(0),
        }
    }

    /// Whether all four have come.
    pub fn is_full(&self) -> bool {
        self.came.iter().all(|came| came.load(Ordering::SeqCst))
    }

    /// Looks until all four have come.
    fn hold(&self) {
        for _ in 0..self.looks {
            if self.is_full() {
                return;
            }
            yield_now();
        }
        self.late.fetch_add(1, Ordering::SeqCst);
    }

    /// Whether a thread gave up.
    pub fn is_late(&self) -> bool {
        self.late.load(Ordering::SeqCst) > 0
    }
}

impl Gate for AllAtOnce {
    fn before<J: Session, R: Wait>(
        &self,
        rt: &R,
        shared: &Shared<'_, J>,
        speaker: u32,
        place: u32,
    ) {
        if let Some(came) = self.came.get(speaker as usize) {
            if !came.swap(true, Ordering::SeqCst) {
                self.hold();
            }
        }
        InTurn.before(rt, shared, speaker, place);
    }
}
