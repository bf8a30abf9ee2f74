//! The board of a journal: the attributes of all tasks and entries at one time (9.9).
ghost use Rattle.std.specs.Prelude.{◌≡◌, ◌<◌, ◌^◌, ◌&&◌, nat_lt, if◌then◌else◌, length, reverse};
ghost use Rattle.ada_events.specs.Tasks.{task_count as count_of_tasks};
ghost use Rattle.ada_events.specs.Phases as phases;
ghost use Rattle.ada_events.specs.Limits.{slot_count as count_of_slots};
ghost use Rattle.ada_events.specs.Attributes as attributes;
ghost use Rattle.ada_events.specs.Slots as places;
ghost use Rattle.ada_events.specs.Boards as boards;
ghost use Rattle.ada_events.specs.Lawful.{IsLawful};
ghost use Rattle.ada_events.specs.declared.limits.TheConstants.{MOST_SLOTS, MOST_TASKS};

use crate::attributes::is_callable;
use crate::limits::slot_count;
use crate::phases::is_terminated;
use crate::slots::count_at;
use crate::tasks::task_count;
use ada_events::limits::{MOST_SLOTS, MOST_TASKS};
use ada_events::{Board, Event, TaskNo};

/// How many tasks a lawful journal has, at most 256.
#[tactic(auto, using(crate::proofs::Few::few_tasks))]
pub fn tasks_in(events: &[Event]) -> u16
    requires short { length events.now < 2 ^ 32 }
    requires lawful { IsLawful (reverse events.now) }
    ensures { result ≡ count_of_tasks (reverse events.now) }
{
    task_count(events) as u16
}

/// How many entries a lawful journal has, at most 1,024.
#[tactic(auto, using(crate::proofs::Few::few_slots))]
pub fn entries_of(events: &[Event]) -> u16
    requires { IsLawful (reverse events.now) }
    ensures { result ≡ count_of_slots (reverse events.now) }
{
    slot_count(events) as u16
}

fn shows_callable(events: &[Event], task: u16, tasks: u16) -> bool
    requires { length events.now < 2 ^ 32 }
    ensures { result ≡ (nat_lt task tasks && attributes.is_callable (reverse events.now) task) }
{
    task < tasks && is_callable(events, TaskNo(task))
}

fn shows_terminated(events: &[Event], task: u16, tasks: u16) -> bool
    requires { length events.now < 2 ^ 32 }
    ensures { result ≡ (nat_lt task tasks && phases.is_terminated (reverse events.now) task) }
{
    task < tasks && is_terminated(events, TaskNo(task))
}

fn shows_count(events: &[Event], slot: u16, slots: u16) -> u16
    requires short { length events.now < 2 ^ 32 }
    requires lawful { IsLawful (reverse events.now) }
    ensures { result ≡ (if nat_lt slot slots then places.count_at (reverse events.now) slot
        else 0) }
{
    if slot < slots {
        count_at(events, slot)
    } else {
        0
    }
}

// CALLABLE of each task.
#[tactic(auto, unfolding(ada_events::specs::Boards::shows_callable))]
fn callable(events: &[Event]) -> [bool; MOST_TASKS]
    requires short { length events.now < 2 ^ 32 }
    requires lawful { IsLawful (reverse events.now) }
    ensures { result ≡ boards.listed MOST_TASKS (boards.shows_callable (reverse events.now)) }
{
    let tasks = tasks_in(events);
    let mut shown = [false; MOST_TASKS];
    for task in 0..MOST_TASKS as u16 {
        shown[usize::from(task)] = shows_callable(events, task, tasks);
    }
    shown
}

// TERMINATED of each task.
#[tactic(auto, unfolding(ada_events::specs::Boards::shows_terminated))]
fn terminated(events: &[Event]) -> [bool; MOST_TASKS]
    requires short { length events.now < 2 ^ 32 }
    requires lawful { IsLawful (reverse events.now) }
    ensures { result ≡ boards.listed MOST_TASKS (boards.shows_terminated (reverse events.now)) }
{
    let tasks = tasks_in(events);
    let mut shown = [false; MOST_TASKS];
    for task in 0..MOST_TASKS as u16 {
        shown[usize::from(task)] = shows_terminated(events, task, tasks);
    }
    shown
}

// COUNT of each entry.
#[tactic(auto, unfolding(ada_events::specs::Boards::shows_count))]
fn counts(events: &[Event]) -> [u16; MOST_SLOTS]
    requires short { length events.now < 2 ^ 32 }
    requires lawful { IsLawful (reverse events.now) }
    ensures { result ≡ boards.listed MOST_SLOTS (boards.shows_count (reverse events.now)) }
{
    let slots = entries_of(events);
    let mut shown = [0u16; MOST_SLOTS];
    for slot in 0..MOST_SLOTS as u16 {
        shown[usize::from(slot)] = shows_count(events, slot, slots);
    }
    shown
}

/// The board of a lawful journal.
#[tactic(auto, unfolding(ada_events::specs::Boards::board_of), using(crate::proofs::Loops::length_reversed))]
pub fn board(events: &[Event]) -> Board
    requires short { length events.now < 2 ^ 32 }
    requires lawful { IsLawful (reverse events.now) }
    ensures { result ≡ boards.board_of (reverse events.now) }
{
    Board {
        tasks: tasks_in(events),
        slots: entries_of(events),
        events: events.len() as u32,
        callable: callable(events),
        terminated: terminated(events),
        counts: counts(events),
    }
}
