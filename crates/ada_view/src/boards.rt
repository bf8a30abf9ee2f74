//! The board of a journal: the attributes of all tasks and entries at one time (9.9).

ghost use Rattle.std.specs.Prelude.{◌≡◌};
ghost use Rattle.ada_events.specs.Boards as boards;
ghost use Rattle.ada_events.specs.declared.limits.TheConstants.{MOST_SLOTS, MOST_TASKS};

use crate::slots::slot_count;
use crate::{View, queries};
use ada_events::limits::{MOST_SLOTS, MOST_TASKS};
use ada_events::{Board, TaskNo};

#[tactic(auto, unfolding(ada_events::specs::Boards::shows_callable), using(crate::proofs::Knowing::shown))]
fn shows_callable(view: &View<'_>, task: u16) -> bool
    ensures { result ≡ boards.shows_callable view.now task }
{
    queries::callable(view, TaskNo(task)).unwrap_or(false)
}

#[tactic(auto, unfolding(ada_events::specs::Boards::shows_terminated), using(crate::proofs::Knowing::shown))]
fn shows_terminated(view: &View<'_>, task: u16) -> bool
    ensures { result ≡ boards.shows_terminated view.now task }
{
    queries::terminated(view, TaskNo(task)).unwrap_or(false)
}

fn shows_count(view: &View<'_>, slot: u16) -> u16
    ensures { result ≡ boards.shows_count view.now slot }
{
    let tables = view.tables();
    if slot < tables.slots() {
        tables.queue_len_at(slot)
    } else {
        0
    }
}

// CALLABLE of each task.
fn callable(view: &View<'_>) -> [bool; MOST_TASKS]
    ensures { result ≡ boards.listed MOST_TASKS (boards.shows_callable view.now) }
{
    let mut shown = [false; MOST_TASKS];
    for task in 0..MOST_TASKS as u16 {
        shown[usize::from(task)] = shows_callable(view, task);
    }
    shown
}

// TERMINATED of each task.
fn terminated(view: &View<'_>) -> [bool; MOST_TASKS]
    ensures { result ≡ boards.listed MOST_TASKS (boards.shows_terminated view.now) }
{
    let mut shown = [false; MOST_TASKS];
    for task in 0..MOST_TASKS as u16 {
        shown[usize::from(task)] = shows_terminated(view, task);
    }
    shown
}

// COUNT of each entry.
fn counts(view: &View<'_>) -> [u16; MOST_SLOTS]
    ensures { result ≡ boards.listed MOST_SLOTS (boards.shows_count view.now) }
{
    let mut shown = [0u16; MOST_SLOTS];
    for slot in 0..MOST_SLOTS as u16 {
        shown[usize::from(slot)] = shows_count(view, slot);
    }
    shown
}

/// The board of the journal: how many tasks, entries and events there are, CALLABLE and TERMINATED of each task, and
/// COUNT of each entry (9.9). Behind the last task it shows `false`, and behind the last entry 0.
#[tactic(auto, unfolding(ada_events::specs::Boards::board_of))]
pub fn board(view: &View<'_>) -> Board
    ensures { result ≡ boards.board_of view.now }
{
    Board {
        tasks: queries::tasks(view),
        slots: slot_count(view),
        events: view.len(),
        callable: callable(view),
        terminated: terminated(view),
        counts: counts(view),
    }
}
