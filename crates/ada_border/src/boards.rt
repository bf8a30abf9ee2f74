//! Boards in plain numbers.
ghost use Rattle.std.specs.Prelude.{◌≡◌};
ghost use Rattle.ada_border.specs.Boards as spec;

use ada_events::Board;
use ada_events::limits::{MOST_SLOTS, MOST_TASKS};

/// CALLABLE and TERMINATED of each task by its number, and COUNT of each entry by its slot (9.9). Unused places are 0.
#[repr(C)]
#[derive(Clone, Copy, Debug, PartialEq, Eq)]
pub struct PlainBoard {
    /// How many events there are.
    pub events: u64,
    /// How many tasks there are, 1 to 256, the main program counted.
    pub tasks: u32,
    /// How many entries there are, at most 1,024.
    pub slots: u32,
    /// CALLABLE of each task.
    pub callable: [bool; MOST_TASKS],
    /// TERMINATED of each task.
    pub terminated: [bool; MOST_TASKS],
    /// COUNT of each entry, at most 256.
    pub counts: [u16; MOST_SLOTS],
}

/// The board in plain numbers.
pub fn plain_board(board: Board) -> PlainBoard
    ensures { result ≡ spec.plain_board board }
{
    let callable = board.callable;
    let terminated = board.terminated;
    let counts = board.counts;
    PlainBoard {
        events: u64::from(board.events),
        tasks: u32::from(board.tasks),
        slots: u32::from(board.slots),
        callable,
        terminated,
        counts,
    }
}
