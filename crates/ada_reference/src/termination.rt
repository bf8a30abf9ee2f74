//! Completion and termination (9.3, 9.4): which masters are complete, which tasks are abandoned, which
//! are ready to quit.
ghost use Rattle.std.specs.Prelude.{◌≡◌, ◌<◌, ◌≤◌, ◌^◌, ◌&&◌, ◌||◌, ◌==◌, not, false, length, reverse};
ghost use Rattle.std.specs.List.{list_any};
ghost use Rattle.ada_events.specs.declared.event.Event.{Event as EventValue};
ghost use Rattle.ada_events.specs.Search.{is_some_and, any_event, all_below};
ghost use Rattle.ada_events.specs.Says as said;
ghost use Rattle.ada_events.specs.Phases as phases;
ghost use Rattle.ada_events.specs.Masters as masters;
ghost use Rattle.ada_events.specs.Calls as calls;
ghost use Rattle.ada_events.specs.Termination as ending;
ghost use Rattle.ada_events.specs.Forced as forced;
ghost use Rattle.ada_events.specs.Tasks.{task_count as count_of_tasks, creation_of};
ghost use Rattle.ada_events.specs.declared.limits.TheConstants.{MOST_TASKS};

use crate::calls::is_queued_at;
use crate::masters::depends_on;
use crate::phases::{has_ended, has_start, is_completed, is_released, is_terminated};
use crate::says::{is_call_to, is_close_of};
use crate::tasks::{making_of, task_count};
use ada_events::journal::event_in;
use ada_events::{Event, EventTail, Master, TaskNo};

fn is_terminated_if_dependent(events: &[Event], task: TaskNo, master: Master) -> bool
    requires { length events.now < 2 ^ 32 }
    ensures { result ≡ (not (masters.depends_on (reverse events.now) task.0 master)
        || phases.is_terminated (reverse events.now) task.0) }
{
    !depends_on(events, task, master) || is_terminated(events, task)
}

/// Every dependent of the master is terminated.
#[tactic(auto, unfolding(ada_events::specs::Termination::all_terminated, ada_events::specs::Search::all_below), using(ada_waiting::proofs::Numbers::all_below_more))]
pub fn all_terminated(events: &[Event], master: Master) -> bool
    requires short { length events.now < 2 ^ 32 }
    requires few { count_of_tasks (reverse events.now) ≤ MOST_TASKS }
    ensures { result ≡ ending.all_terminated (reverse events.now) master }
{
    let mut all = true;
    for task in 0..task_count(events) as u16 {
        all = all && is_terminated_if_dependent(events, TaskNo(task), master);
    }
    all
}

// A close of the block is in the journal.
fn has_close(events: &[Event], block: u32) -> bool
    ensures { result ≡ list_any (λ (e : EventValue).
        is_some_and (said.closing_in e) (λ (c : said.Closing). c.block == block))
        (reverse events.now) }
{
    events.iter().rev().any(|event| is_close_of(block, event))
}

#[tactic(auto, unfolding(ada_events::specs::Says::opening_in))]
fn is_by_ended(events: &[Event], event: &Event) -> bool
    requires { length events.now < 2 ^ 32 }
    ensures { result ≡ is_some_and (said.opening_in event.now)
        (λ (o : said.Opening). phases.has_ended (reverse events.now) o.by) }
{
    match event {
        Event::Opened { by, .. } => has_ended(events, *by),
        _ => false,
    }
}

// The task of the block has ended.
fn has_ended_task(events: &[Event], block: u32) -> bool
    requires { length events.now < 2 ^ 32 }
    ensures { result ≡ is_some_and (said.opening_at (reverse events.now) block)
        (λ (o : said.Opening). phases.has_ended (reverse events.now) o.by) }
{
    match event_in(events, block) {
        Some(event) => is_by_ended(events, event),
        None => false,
    }
}

/// The block has its close, or its task has ended.
#[tactic(auto, unfolding(ada_events::specs::Termination::is_complete_block))]
pub fn is_complete_block(events: &[Event], block: u32) -> bool
    requires { length events.now < 2 ^ 32 }
    ensures { result ≡ ending.is_complete_block (reverse events.now) block }
{
    has_close(events, block) || has_ended_task(events, block)
}

/// The master is complete (9.4).
#[tactic(auto, unfolding(ada_events::specs::Termination::is_complete))]
pub fn is_complete(events: &[Event], master: Master) -> bool
    requires { length events.now < 2 ^ 32 }
    ensures { result ≡ ending.is_complete (reverse events.now) master }
{
    match master {
        Master::Body(task) => is_completed(events, task),
        Master::Block(block) => is_complete_block(events, block),
    }
}

fn is_made_in_vain(events: &[Event], under: Master, by: TaskNo) -> bool
    requires { length events.now < 2 ^ 32 }
    ensures { result ≡ (ending.is_complete (reverse events.now) under
        || phases.is_terminated (reverse events.now) by.0) }
{
    is_complete(events, under) || is_terminated(events, by)
}

// What the task was made within is complete, or its maker is terminated.
fn has_lost_its_maker(events: &[Event], task: TaskNo) -> bool
    requires { length events.now < 2 ^ 32 }
    ensures { result ≡ is_some_and (creation_of (reverse events.now) task.0)
        (λ (c : said.Creation). ending.is_complete (reverse events.now) c.under
        || phases.is_terminated (reverse events.now) c.by) }
{
    match making_of(events, task) {
        Some(making) => is_made_in_vain(events, making.under, making.by),
        None => false,
    }
}

/// The task will never be activated (9.3, 9.4).
#[tactic(auto, unfolding(ada_events::specs::Termination::is_abandoned))]
pub fn is_abandoned(events: &[Event], task: TaskNo) -> bool
    requires { length events.now < 2 ^ 32 }
    ensures { result ≡ ending.is_abandoned (reverse events.now) task.0 }
{
    has_lost_its_maker(events, task) && !has_start(events, task)
}

fn is_queued_call_to(events: &[Event], task: TaskNo, position: u32, event: &Event) -> bool
    requires { length events.now < 2 ^ 32 }
    ensures { result ≡ (is_some_and (said.call_in event.now) (λ (c : said.Call). c.callee == task.0)
        && calls.is_queued_at (reverse events.now) position event.now) }
{
    is_call_to(task, event) && is_queued_at(events, position, event)
}

// A call is queued at an entry of the task.
#[tactic(auto, unfolding(ada_events::specs::Search::any_event), using(crate::proofs::Loops::any_event_more))]
fn has_queued_call(events: &[Event], task: TaskNo) -> bool
    requires { length events.now < 2 ^ 32 }
    ensures { result ≡ any_event (λ p e.
        is_some_and (said.call_in e) (λ (c : said.Call). c.callee == task.0)
        && calls.is_queued_at (reverse events.now) p e) (reverse events.now) }
{
    let mut found = false;
    for (i, event) in events.iter().enumerate() {
        found = is_queued_call_to(events, task, i as u32 + 1, event) || found;
    }
    found
}

fn is_open_terminate(tail: &EventTail) -> bool
    ensures { result ≡ ending.is_open_terminate tail.now }
{
    match tail {
        EventTail::Terminate(guard) => *guard,
        _ => false,
    }
}

fn is_quittable_by(task: TaskNo, by: TaskNo, tail: &EventTail) -> bool
    ensures { result ≡ ((by.0 == task.0) && ending.is_open_terminate tail.now) }
{
    by.0 == task.0 && is_open_terminate(tail)
}

#[tactic(auto, unfolding(ada_events::specs::Says::wait_in))]
fn is_quittable_wait(task: TaskNo, event: &Event) -> bool
    ensures { result ≡ is_some_and (said.wait_in event.now) (λ (w : said.Wait). (w.by == task.0)
        && ending.is_open_terminate w.tail) }
{
    match event {
        Event::Waiting { by, tail, .. } => is_quittable_by(task, *by, tail),
        _ => false,
    }
}

fn is_held_at_terminate(events: &[Event], task: TaskNo, position: u32, event: &Event) -> bool
    ensures { result ≡ (is_some_and (said.wait_in event.now) (λ (w : said.Wait). (w.by == task.0)
        && ending.is_open_terminate w.tail)
        && not (phases.is_released (reverse events.now) position)) }
{
    is_quittable_wait(task, event) && !is_released(events, position)
}

// A wait of the task with an open terminate alternative isn't released.
#[tactic(auto, unfolding(ada_events::specs::Search::any_event), using(crate::proofs::Loops::any_event_more))]
fn is_at_terminate(events: &[Event], task: TaskNo) -> bool
    requires { length events.now < 2 ^ 32 }
    ensures { result ≡ any_event (λ p e.
        is_some_and (said.wait_in e) (λ (w : said.Wait). (w.by == task.0)
        && ending.is_open_terminate w.tail)
        && not (phases.is_released (reverse events.now) p)) (reverse events.now) }
{
    let mut found = false;
    for (i, event) in events.iter().enumerate() {
        found = is_held_at_terminate(events, task, i as u32 + 1, event) || found;
    }
    found
}

/// The task is suspended at an open terminate alternative, with no call queued at an entry of its own
/// (9.4, 9.7.1).
#[tactic(auto, unfolding(ada_events::specs::Termination::is_ready_to_quit, ada_events::specs::Termination::has_empty_queues))]
pub fn is_ready_to_quit(events: &[Event], task: TaskNo) -> bool
    requires { length events.now < 2 ^ 32 }
    ensures { result ≡ ending.is_ready_to_quit (reverse events.now) task.0 }
{
    is_at_terminate(events, task) && !has_ended(events, task) && !has_queued_call(events, task)
}

fn is_ready_if_dependent(events: &[Event], task: TaskNo, master: Master) -> bool
    requires { length events.now < 2 ^ 32 }
    ensures { result ≡ (not (masters.depends_on (reverse events.now) task.0 master)
        || phases.is_terminated (reverse events.now) task.0
        || ending.is_ready_to_quit (reverse events.now) task.0) }
{
    !depends_on(events, task, master)
        || is_terminated(events, task)
        || is_ready_to_quit(events, task)
}

// Each dependent of the master is terminated or ready to quit.
#[tactic(auto, unfolding(ada_events::specs::Search::all_below), using(ada_waiting::proofs::Numbers::all_below_more))]
fn all_ready(events: &[Event], master: Master) -> bool
    requires short { length events.now < 2 ^ 32 }
    requires few { count_of_tasks (reverse events.now) ≤ MOST_TASKS }
    ensures { result ≡ all_below (λ u.
        not (masters.depends_on (reverse events.now) u master)
        || phases.is_terminated (reverse events.now) u
        || ending.is_ready_to_quit (reverse events.now) u) (count_of_tasks (reverse events.now)) }
{
    let mut all = true;
    for task in 0..task_count(events) as u16 {
        all = all && is_ready_if_dependent(events, TaskNo(task), master);
    }
    all
}

/// All that depend on the master are to terminate together (9.4).
#[tactic(auto, unfolding(ada_events::specs::Forced::is_to_quit))]
pub fn is_to_quit(events: &[Event], master: Master) -> bool
    requires short { length events.now < 2 ^ 32 }
    requires few { count_of_tasks (reverse events.now) ≤ MOST_TASKS }
    ensures { result ≡ forced.is_to_quit (reverse events.now) master }
{
    is_complete(events, master) && !all_terminated(events, master) && all_ready(events, master)
}
