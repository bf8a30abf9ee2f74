//! Which tasks run that didn't before the last request.
ghost use Rattle.std.specs.Prelude.{◌≡◌, ◌≤◌, ◌&&◌, nat_le, length, option_map, reverse};
ghost use Rattle.std.specs.Bool.{then_some};
ghost use Rattle.std.specs.List.{list_any};
ghost use Rattle.std.specs.Option.{option_and_then};
ghost use Rattle.ada_events.specs.declared.names.TaskNo.{TaskNo as Task};
ghost use Rattle.ada_events.specs.Phases as phases;
ghost use Rattle.ada_events.specs.Says as says;
ghost use Rattle.ada_events.specs.Search.{event_at};
ghost use Rattle.ada_waiting.specs.Runnable as runnable;
ghost use Rattle.ada_waiting.specs.internal.Going as going;

use crate::says::{held_in, is_task, released_in, started_in};
use ada_events::journal::event_in;
use ada_events::{Event, TaskNo};
use ada_kernel::Kernel;

#[tactic(auto, unfolding(crate::specs::Runnable::is_step))]
fn is_step(event: &Event) -> bool
    ensures { result ≡ runnable.is_step event.now }
{
    match event {
        Event::Halted { .. }
        | Event::Failed { .. }
        | Event::Met { .. }
        | Event::Cancelled { .. }
        | Event::Passed { .. }
        | Event::Woken { .. }
        | Event::Activated { .. }
        | Event::Gone { .. }
        | Event::Quit { .. }
        | Event::Left { .. } => true,
        _ => false,
    }
}

// How many events there were before the last request, of a journal in the order of arrival.
#[tactic(auto, using(crate::proofs::Groups::before_last_less, crate::proofs::Groups::before_last_at))]
fn count_before(events: &[Event]) -> usize
    ensures many { result ≡ length (runnable.before_last (reverse events.now)) }
    ensures within { result ≤ length events.now }
{
    let mut left = events.len();
    while left > 0 && is_step(&events[left - 1]) {
        left -= 1;
    }
    left.saturating_sub(1)
}

// The task whose call, wait, delay, start or close stands at a position.
fn holder(older: &[Event], at: u32) -> Option<TaskNo>
    ensures { option_map (λ (t : Task). t.0) result
        ≡ option_and_then says.held_in (event_at (reverse older.now) at) }
{
    held_in(event_in(older, at)?)
}

// Whether an event lets a task go on that was held up or not started in an older journal.
fn lets_go(older: &[Event], task: TaskNo, event: &Event) -> bool
    ensures { result ≡ going.lets_go (reverse older.now) task.0 event.now }
{
    let freed = match released_in(event) {
        Some(at) => is_task(task, holder(older, at)),
        None => false,
    };
    task.is_listed(started_in(event)) || freed
}

fn is_let_go(older: &[Event], since: &[Event], task: TaskNo) -> bool
    ensures { result ≡ list_any (going.lets_go (reverse older.now) task.0) (reverse since.now) }
{
    since.iter().rev().any(|event| lets_go(older, task, event))
}

fn was_let_go(events: &[Event], task: TaskNo) -> bool
    ensures { result ≡ list_any
        (going.lets_go (runnable.before_last (reverse events.now)) task.0)
        (going.last_group (reverse events.now)) }
{
    let count = count_before(events);
    is_let_go(&events[..count], &events[count..], task)
}

fn is_running(kernel: &Kernel, task: TaskNo) -> bool
    ensures { result ≡ phases.is_running kernel.now task.0 }
{
    let _journal = kernel.journal();
    match kernel.running(task) {
        Some(runs) => runs,
        None => false,
    }
}

/// Whether a task runs that didn't before the last request: an event since then started it, or released its call,
/// wait, delay, start or close (9.3 to 9.7).
pub fn began_to_run(kernel: &Kernel, task: TaskNo) -> bool
    ensures { result ≡ runnable.began_to_run kernel.now task.0 }
{
    let events = kernel.journal().as_slice();
    is_running(kernel, task) && was_let_go(events, task)
}

fn runnable_from(kernel: &Kernel, from: TaskNo, task: TaskNo) -> Option<TaskNo>
    ensures { option_map (λ (t : Task). t.0) result ≡ then_some (nat_le from.0 task.0
        && runnable.began_to_run kernel.now task.0) task.0 }
{
    if task.0 >= from.0 && began_to_run(kernel, task) {
        Some(task)
    } else {
        None
    }
}

/// The first task of a number or more that runs and didn't before the last request; none if there is no such task.
#[tactic(auto, unfolding(crate::specs::Runnable::first_runnable, ada_events::specs::Search::first_below), using(crate::proofs::Numbers::first_below_more))]
pub fn first_runnable(kernel: &Kernel, from: TaskNo) -> Option<TaskNo>
    ensures { option_map (λ (t : Task). t.0) result
        ≡ runnable.first_runnable kernel.now from.0 }
{
    let mut first = None;
    for number in 0..kernel.tasks() {
        if first.is_none() {
            first = runnable_from(kernel, from, TaskNo(number));
        }
    }
    first
}
