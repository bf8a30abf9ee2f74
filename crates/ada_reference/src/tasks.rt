//! Tasks and the moment.
ghost use Rattle.std.specs.Prelude.{◌≡◌, ◌<◌, ◌≤◌, ◌+◌, ◌^◌, ◌==◌, if◌then◌else◌, length, reverse, Option, None};
ghost use Rattle.std.specs.Option.{option_map, option_len};
ghost use Rattle.ada_events.specs.Tasks as tasks;
ghost use Rattle.ada_events.specs.Says.{creation_in};
ghost use Rattle.ada_reference.specs.Makings.{creation_seen};

use crate::says;
use ada_events::{Event, Family, Master, TaskNo};

/// The creation of a task (9.1): by whom, within what, depending on what, with which entries.
#[derive(Clone, Copy)]
pub struct Making<'a> {
    pub by: TaskNo,
    pub under: Master,
    pub master: Master,
    pub families: &'a [Family],
}

/// The creation that an event is.
#[tactic(auto, unfolding(ada_events::specs::Says::creation_in))]
pub fn making_in(event: &Event) -> Option<Making<'_>>
    ensures { option_map creation_seen result ≡ creation_in event.now }
{
    match event {
        Event::Created {
            by,
            under,
            master,
            families,
        } => Some(Making {
            by: *by,
            under: *under,
            master: *master,
            families: families.as_slice(),
        }),
        _ => None,
    }
}

/// How many tasks an event makes: one or none.
#[tactic(auto, unfolding(ada_events::specs::Says::creation_in))]
pub fn made_in(event: &Event) -> u64
    ensures value { result ≡ option_len (creation_in event.now) }
    ensures few { result ≤ 1 }
{
    match event {
        Event::Created { .. } => 1,
        _ => 0,
    }
}

/// How many tasks there are, the main program counted.
#[tactic(auto, unfolding(ada_events::specs::Tasks::task_count), using(crate::proofs::Loops::task_count_more))]
pub fn task_count(events: &[Event]) -> u64
    requires { length events.now < 2 ^ 32 }
    ensures value { result ≡ tasks.task_count (reverse events.now) }
    ensures bound { result ≤ 1 + length events.now }
{
    let mut count = 1u64;
    for event in events {
        count = made_in(event) + count;
    }
    count
}

/// There is a task of that number.
pub fn has_task(events: &[Event], task: TaskNo) -> bool
    requires { length events.now < 2 ^ 32 }
    ensures { result ≡ tasks.has_task (reverse events.now) task.0 }
{
    u64::from(task.0) < task_count(events)
}

/// The creation of the task of that number, if the event is its creation.
fn making_at(event: &Event, task: TaskNo, count: u64) -> Option<Making<'_>>
    ensures { option_map creation_seen result
        ≡ (if task.0 == count then creation_in event.now else None) }
{
    if u64::from(task.0) == count {
        making_in(event)
    } else {
        None
    }
}

/// The creation of a task; the main program has none.
#[tactic(auto, unfolding(ada_events::specs::Tasks::creation_of, ada_events::specs::Tasks::task_count), using(crate::proofs::Loops::task_count_more, crate::proofs::Loops::creation_of_more))]
pub fn making_of(events: &[Event], task: TaskNo) -> Option<Making<'_>>
    requires { length events.now < 2 ^ 32 }
    ensures { option_map creation_seen result ≡ tasks.creation_of (reverse events.now) task.0 }
{
    let mut count = 1u64;
    let mut found = None;
    for event in events {
        found = making_at(event, task, count).or(found);
        count = made_in(event) + count;
    }
    found
}

/// The families of entries that a task declares (9.5); the main program has none.
#[tactic(auto, unfolding(ada_events::specs::Tasks::families_of))]
pub fn families(events: &[Event], task: TaskNo) -> &[Family]
    requires { length events.now < 2 ^ 32 }
    ensures { result.now ≡ tasks.families_of (reverse events.now) task.0 }
{
    match making_of(events, task) {
        Some(making) => making.families,
        None => &[],
    }
}

/// The moment, in milliseconds.
#[tactic(auto, unfolding(ada_events::specs::Tasks::moment), using(crate::proofs::Loops::moment_more))]
pub fn moment(events: &[Event]) -> i64
    ensures { result ≡ tasks.moment (reverse events.now) }
{
    let mut now = 0i64;
    for event in events {
        now = says::moment_in(event).unwrap_or(now);
    }
    now
}
