//! Masters and dependents (9.4).
ghost use Rattle.std.specs.Prelude.{◌≡◌, ◌<◌, ◌^◌, ◌&&◌, ◌==◌, if◌then◌else◌, false, length, reverse};
ghost use Rattle.std.specs.Option.{option_map_or};
ghost use Rattle.ada_events.specs.Masters as masters;
ghost use Rattle.ada_events.specs.Says as says;

use crate::tasks::{made_in, task_count};
use ada_events::{Event, Master, TaskNo};

/// Whether two masters are one.
pub fn same_master(a: Master, b: Master) -> bool
    ensures { result ≡ masters.same_master a b }
{
    match (a, b) {
        (Master::Body(t), Master::Body(u)) => t.0 == u.0,
        (Master::Block(p), Master::Block(q)) => p == q,
        _ => false,
    }
}

// The parent of a body where the event made it as the task of that number, else the body.
#[tactic(auto, unfolding(ada_events::specs::Says::creation_in))]
fn body_parent(event: &Event, task: TaskNo, count: u64) -> Master
    ensures { result ≡ option_map_or (λ (c : says.Creation). if task.0 == count then c.master
        else Master.Body task) (says.creation_in event.now) (Master.Body task) }
{
    match event {
        Event::Created { master, .. } => if u64::from(task.0) == count {
            *master
        } else {
            Master::Body(task)
        },
        _ => Master::Body(task),
    }
}

// The parent of a block where the event at that position opened it, else the block.
#[tactic(auto, unfolding(ada_events::specs::Says::opening_in))]
fn block_parent(event: &Event, block: u32, position: u64) -> Master
    ensures { result ≡ option_map_or (λ (o : says.Opening). if block == position then o.under
        else Master.Block block) (says.opening_in event.now) (Master.Block block) }
{
    match event {
        Event::Opened { under, .. } => if u64::from(block) == position {
            *under
        } else {
            Master::Block(block)
        },
        _ => Master::Block(block),
    }
}

// The parent of a master where the event after these made it, else the master.
#[tactic(auto, unfolding(ada_events::specs::Masters::parent_in), using(crate::proofs::Loops::length_reversed))]
fn parent_in(before: &[Event], event: &Event, master: Master) -> Master
    requires { length before.now < 2 ^ 32 }
    ensures { result ≡ masters.parent_in (reverse before.now) event.now master }
{
    match master {
        Master::Body(task) => body_parent(event, task, task_count(before)),
        Master::Block(block) => block_parent(event, block, before.len() as u64 + 1),
    }
}

/// Whether the second master is the first, or is reached from it by parents.
#[tactic(auto, unfolding(ada_events::specs::Masters::reaches), using(crate::proofs::Loops::reaches_less))]
pub fn reaches(events: &[Event], from: Master, to: Master) -> bool
    requires { length events.now < 2 ^ 32 }
    ensures { result ≡ masters.reaches (reverse events.now) from to }
{
    let mut at = from;
    let mut left = events.len();
    let mut found = false;
    while left > 0 {
        left -= 1;
        found = same_master(at, to) || found;
        at = parent_in(&events[..left], &events[left], at);
    }
    same_master(at, to) || found
}

// The event makes the task, as the one of that number, under a master from which this one is reached.
#[tactic(auto, unfolding(ada_events::specs::Says::creation_in))]
fn makes_dependent(
    before: &[Event],
    event: &Event,
    task: TaskNo,
    count: u64,
    master: Master,
) -> bool
    requires { length before.now < 2 ^ 32 }
    ensures { result ≡ option_map_or (λ (c : says.Creation). (task.0 == count)
        && masters.reaches (reverse before.now) c.master master)
        (says.creation_in event.now) false }
{
    match event {
        Event::Created { master: own, .. } => is_made_under(before, *own, task, count, master),
        _ => false,
    }
}

fn is_made_under(before: &[Event], own: Master, task: TaskNo, count: u64, master: Master) -> bool
    requires { length before.now < 2 ^ 32 }
    ensures { result ≡ ((task.0 == count) && masters.reaches (reverse before.now) own master) }
{
    u64::from(task.0) == count && reaches(before, own, master)
}

/// Whether a task depends on a master (9.4).
#[tactic(auto, unfolding(ada_events::specs::Masters::depends_on, ada_events::specs::Tasks::task_count), using(crate::proofs::Loops::task_count_more, crate::proofs::Loops::depends_on_more))]
pub fn depends_on(events: &[Event], task: TaskNo, master: Master) -> bool
    requires { length events.now < 2 ^ 32 }
    ensures { result ≡ masters.depends_on (reverse events.now) task.0 master }
{
    let mut count = 1u64;
    let mut depends = false;
    for (i, event) in events.iter().enumerate() {
        depends = makes_dependent(&events[..i], event, task, count, master) || depends;
        count = made_in(event) + count;
    }
    depends
}
