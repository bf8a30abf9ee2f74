//! The forced steps that end an activation, a task or a block: one function for each row.
ghost use Rattle.std.specs.Prelude.{◌≡◌, ◌<◌, ◌≤◌, ◌^◌, ◌&&◌, ◌||◌, length, reverse};
ghost use Rattle.std.specs.List.{list_any, list_all};
ghost use Rattle.std.specs.Option.{option_or, option_and_then};
ghost use Rattle.std.specs.Bool.{then_some};
ghost use Rattle.ada_events.specs.declared.event.Event.TheVariants as event_of;
ghost use Rattle.ada_events.specs.declared.names.TaskNo.{TaskNo as Task};
ghost use Rattle.ada_events.specs.declared.names.Master.TheVariants.{Body, Block};
ghost use Rattle.ada_events.specs.Says as said;
ghost use Rattle.ada_events.specs.Phases as phases;
ghost use Rattle.ada_events.specs.Calls as calls;
ghost use Rattle.ada_events.specs.Termination as ending;
ghost use Rattle.ada_events.specs.Forced as forced;
ghost use Rattle.ada_events.specs.Tasks.{task_count as count_of_tasks};
ghost use Rattle.ada_events.specs.declared.limits.TheConstants.{MOST_TASKS};

use crate::calls::is_pending;
use crate::phases::{has_ended, has_failed, is_completed, is_elaborated, is_terminated};
use crate::tasks::task_count;
use crate::termination::{all_terminated, is_abandoned, is_to_quit};
use ada_events::{Event, Master, TaskNo};

#[tactic(auto, unfolding(ada_events::specs::Forced::is_done_activating))]
fn is_done_activating(events: &[Event], task: TaskNo) -> bool
    requires { length events.now < 2 ^ 32 }
    ensures { result ≡ forced.is_done_activating (reverse events.now) task }
{
    is_elaborated(events, task) || has_ended(events, task)
}

fn all_done_activating(events: &[Event], tasks: &[TaskNo]) -> bool
    requires { length events.now < 2 ^ 32 }
    ensures { result ≡ list_all (forced.is_done_activating (reverse events.now)) tasks.now }
{
    tasks.iter().all(|task| is_done_activating(events, *task))
}

fn has_failed_one(events: &[Event], tasks: &[TaskNo]) -> bool
    ensures { result ≡ list_any (λ (t : Task).
        phases.has_failed (reverse events.now) t.0) tasks.now }
{
    tasks.iter().any(|task| has_failed(events, *task))
}

fn is_to_end_activation(events: &[Event], position: u32, by: TaskNo, tasks: &[TaskNo]) -> bool
    requires { length events.now < 2 ^ 32 }
    ensures { result ≡ (calls.is_pending (reverse events.now) position by.0
        && list_all (forced.is_done_activating (reverse events.now)) tasks.now) }
{
    is_pending(events, position, by) && all_done_activating(events, tasks)
}

#[tactic(auto, unfolding(ada_events::specs::Forced::activated_at, ada_events::specs::Says::start_in))]
fn activated_at(events: &[Event], position: u32, event: &Event) -> Option<Event>
    requires { length events.now < 2 ^ 32 }
    ensures { result ≡ option_and_then (forced.activated_at (reverse events.now) position)
        (said.start_in event.now) }
{
    match event {
        Event::Started { by, tasks } => if is_to_end_activation(
            events,
            position,
            *by,
            tasks.as_slice(),
        ) {
            Some(Event::Activated {
                start: position,
                ok: !has_failed_one(events, tasks.as_slice()),
            })
        } else {
            None
        },
        _ => None,
    }
}

/// The first activation that ends (9.3).
#[tactic(auto, unfolding(ada_events::specs::Forced::activated, ada_events::specs::Search::first_given), using(crate::proofs::Loops::first_given_more))]
pub fn activated(events: &[Event]) -> Option<Event>
    requires { length events.now < 2 ^ 32 }
    ensures { result ≡ forced.activated (reverse events.now) }
{
    let mut found = None;
    for (i, event) in events.iter().enumerate() {
        if found.is_none() {
            found = activated_at(events, i as u32 + 1, event);
        }
    }
    found
}

fn is_complete_body(events: &[Event], task: TaskNo) -> bool
    requires short { length events.now < 2 ^ 32 }
    requires few { count_of_tasks (reverse events.now) ≤ MOST_TASKS }
    ensures { result ≡ (phases.is_completed (reverse events.now) task.0
        && ending.all_terminated (reverse events.now) (Body task)) }
{
    is_completed(events, task) && all_terminated(events, Master::Body(task))
}

fn is_at_its_end(events: &[Event], task: TaskNo) -> bool
    requires short { length events.now < 2 ^ 32 }
    requires few { count_of_tasks (reverse events.now) ≤ MOST_TASKS }
    ensures { result ≡ (phases.is_completed (reverse events.now) task.0
        && ending.all_terminated (reverse events.now) (Body task)
        || ending.is_abandoned (reverse events.now) task.0) }
{
    is_complete_body(events, task) || is_abandoned(events, task)
}

/// The task is to terminate by itself (9.3, 9.4).
#[tactic(auto, unfolding(ada_events::specs::Forced::is_to_go))]
pub fn is_to_go(events: &[Event], task: TaskNo) -> bool
    requires short { length events.now < 2 ^ 32 }
    requires few { count_of_tasks (reverse events.now) ≤ MOST_TASKS }
    ensures { result ≡ forced.is_to_go (reverse events.now) task.0 }
{
    !is_terminated(events, task) && is_at_its_end(events, task)
}

fn gone_task(events: &[Event], task: TaskNo) -> Option<Event>
    requires short { length events.now < 2 ^ 32 }
    requires few { count_of_tasks (reverse events.now) ≤ MOST_TASKS }
    ensures { result ≡ then_some (forced.is_to_go (reverse events.now) task.0)
        (event_of.Gone task) }
{
    if is_to_go(events, task) {
        Some(Event::Gone { task })
    } else {
        None
    }
}

/// The least task that is to terminate by itself (9.3, 9.4).
#[tactic(auto, unfolding(ada_events::specs::Forced::gone, ada_events::specs::Search::first_below), using(ada_waiting::proofs::Numbers::first_below_more))]
pub fn gone(events: &[Event]) -> Option<Event>
    requires short { length events.now < 2 ^ 32 }
    requires few { count_of_tasks (reverse events.now) ≤ MOST_TASKS }
    ensures { result ≡ forced.gone (reverse events.now) }
{
    let mut found = None;
    for task in 0..task_count(events) as u16 {
        if found.is_none() {
            found = gone_task(events, TaskNo(task));
        }
    }
    found
}

fn quit_of(events: &[Event], master: Master) -> Option<Event>
    requires short { length events.now < 2 ^ 32 }
    requires few { count_of_tasks (reverse events.now) ≤ MOST_TASKS }
    ensures { result ≡ then_some (forced.is_to_quit (reverse events.now) master)
        (event_of.Quit master) }
{
    if is_to_quit(events, master) {
        Some(Event::Quit { master })
    } else {
        None
    }
}

/// The least task's body whose dependents are to terminate together (9.4).
#[tactic(auto, unfolding(ada_events::specs::Forced::quit_body, ada_events::specs::Search::first_below), using(ada_waiting::proofs::Numbers::first_below_more))]
pub fn quit_body(events: &[Event]) -> Option<Event>
    requires short { length events.now < 2 ^ 32 }
    requires few { count_of_tasks (reverse events.now) ≤ MOST_TASKS }
    ensures { result ≡ forced.quit_body (reverse events.now) }
{
    let mut found = None;
    for task in 0..task_count(events) as u16 {
        if found.is_none() {
            found = quit_of(events, Master::Body(TaskNo(task)));
        }
    }
    found
}

#[tactic(auto, unfolding(ada_events::specs::Says::opening_in))]
fn quit_at(events: &[Event], position: u32, event: &Event) -> Option<Event>
    requires short { length events.now < 2 ^ 32 }
    requires few { count_of_tasks (reverse events.now) ≤ MOST_TASKS }
    ensures { result ≡ option_and_then (λ (_ : said.Opening). then_some
        (forced.is_to_quit (reverse events.now) (Block position)) (event_of.Quit (Block position)))
        (said.opening_in event.now) }
{
    match event {
        Event::Opened { .. } => quit_of(events, Master::Block(position)),
        _ => None,
    }
}

/// The first block whose dependents are to terminate together (9.4).
#[tactic(auto, unfolding(ada_events::specs::Forced::quit_block, ada_events::specs::Search::first_given), using(crate::proofs::Loops::first_given_more))]
pub fn quit_block(events: &[Event]) -> Option<Event>
    requires short { length events.now < 2 ^ 32 }
    requires few { count_of_tasks (reverse events.now) ≤ MOST_TASKS }
    ensures { result ≡ forced.quit_block (reverse events.now) }
{
    let mut found = None;
    for (i, event) in events.iter().enumerate() {
        if found.is_none() {
            found = quit_at(events, i as u32 + 1, event);
        }
    }
    found
}

fn is_to_leave(events: &[Event], position: u32, by: TaskNo, block: u32) -> bool
    requires short { length events.now < 2 ^ 32 }
    requires few { count_of_tasks (reverse events.now) ≤ MOST_TASKS }
    ensures { result ≡ (calls.is_pending (reverse events.now) position by.0
        && ending.all_terminated (reverse events.now) (Block block)) }
{
    is_pending(events, position, by) && all_terminated(events, Master::Block(block))
}

#[tactic(auto, unfolding(ada_events::specs::Forced::is_to_leave, ada_events::specs::Says::closing_in))]
fn left_at(events: &[Event], position: u32, event: &Event) -> Option<Event>
    requires short { length events.now < 2 ^ 32 }
    requires few { count_of_tasks (reverse events.now) ≤ MOST_TASKS }
    ensures { result ≡ option_and_then (λ (c : said.Closing). then_some
        (forced.is_to_leave (reverse events.now) position c) (event_of.Left position))
        (said.closing_in event.now) }
{
    match event {
        Event::Closed { by, block } => if is_to_leave(events, position, *by, *block) {
            Some(Event::Left { close: position })
        } else {
            None
        },
        _ => None,
    }
}

/// The first closed block that its task leaves (9.4).
#[tactic(auto, unfolding(ada_events::specs::Forced::left, ada_events::specs::Search::first_given), using(crate::proofs::Loops::first_given_more))]
pub fn left(events: &[Event]) -> Option<Event>
    requires short { length events.now < 2 ^ 32 }
    requires few { count_of_tasks (reverse events.now) ≤ MOST_TASKS }
    ensures { result ≡ forced.left (reverse events.now) }
{
    let mut found = None;
    for (i, event) in events.iter().enumerate() {
        if found.is_none() {
            found = left_at(events, i as u32 + 1, event);
        }
    }
    found
}

/// The steps that end an activation, a task or a block.
pub fn ending(events: &[Event]) -> Option<Event>
    requires short { length events.now < 2 ^ 32 }
    requires few { count_of_tasks (reverse events.now) ≤ MOST_TASKS }
    ensures { result ≡ option_or (forced.activated (reverse events.now))
        (option_or (forced.gone (reverse events.now))
        (option_or (forced.quit_body (reverse events.now))
        (option_or (forced.quit_block (reverse events.now)) (forced.left (reverse events.now))))) }
{
    if let Some(step) = activated(events) {
        return Some(step);
    }
    if let Some(step) = gone(events) {
        return Some(step);
    }
    if let Some(step) = quit_body(events) {
        return Some(step);
    }
    if let Some(step) = quit_block(events) {
        return Some(step);
    }
    left(events)
}
