//! What one board answers (9.9).
ghost use Rattle.std.specs.Prelude.{◌≡◌, []};
ghost use Rattle.ada_events.specs.Boards.{board_of};
ghost use Rattle.ada_board.specs.Answers.{callable_on, terminated_on, count_on};

use ada_events::limits::{MOST_SLOTS, MOST_TASKS};
use ada_events::{Board, TaskNo};

/// The board of the empty journal: the main program alone, callable and not terminated.
pub fn opening_board() -> Board
    ensures { result ≡ board_of [] }
{
    let mut callable = [false; MOST_TASKS];
    callable[0] = true;
    Board {
        tasks: 1,
        slots: 0,
        events: 0,
        callable,
        terminated: [false; MOST_TASKS],
        counts: [0; MOST_SLOTS],
    }
}

/// CALLABLE of a task; none where the board has no such task.
pub fn callable_on(board: &Board, task: TaskNo) -> Option<bool>
    ensures { result ≡ callable_on board.now task.0 }
{
    if task.0 >= board.tasks {
        return None;
    }
    Some(
        board
            .callable
            .get(usize::from(task.0))
            .copied()
            .unwrap_or(false),
    )
}

/// TERMINATED of a task; none where the board has no such task.
pub fn terminated_on(board: &Board, task: TaskNo) -> Option<bool>
    ensures { result ≡ terminated_on board.now task.0 }
{
    if task.0 >= board.tasks {
        return None;
    }
    Some(
        board
            .terminated
            .get(usize::from(task.0))
            .copied()
            .unwrap_or(false),
    )
}

/// COUNT of the entry at a slot; none where the board has no such slot.
pub fn count_on(board: &Board, slot: u16) -> Option<u16>
    ensures { result ≡ count_on board.now slot }
{
    if slot >= board.slots {
        return None;
    }
    Some(board.counts.get(usize::from(slot)).copied().unwrap_or(0))
}
