//! What has become of a task: elaborated (9.3), completed, terminated (9.4), abnormal (9.10), started,
//! suspended, running.
ghost use Rattle.std.specs.Prelude.{◌≡◌, ◌<◌, ◌^◌, ◌&&◌, ◌||◌, ◌==◌, not, false, nat_lt, length, reverse};
ghost use Rattle.std.specs.List.{list_any};
ghost use Rattle.std.specs.Option.{option_map_or};
ghost use Rattle.ada_events.specs.declared.event.Event.{Event as EventValue};
ghost use Rattle.ada_events.specs.declared.names.TaskNo.{TaskNo as Task};
ghost use Rattle.ada_events.specs.declared.names.Master.TheVariants.{Body};
ghost use Rattle.ada_events.specs.Phases as phases;
ghost use Rattle.ada_events.specs.Masters as masters;
ghost use Rattle.ada_events.specs.Tasks.{task_count as count_of_tasks};
ghost use Rattle.ada_events.specs.Search.{is_number, any_event};
ghost use Rattle.ada_events.specs.Says as said;

use crate::masters::depends_on;
use crate::says;
use crate::says::{is_position, is_task};
use crate::tasks::task_count;
use ada_events::{Event, Master, TaskNo};

/// A start names the task (9.3).
#[tactic(auto, unfolding(ada_events::specs::Phases::has_start))]
pub fn has_start(events: &[Event], task: TaskNo) -> bool
    ensures { result ≡ phases.has_start (reverse events.now) task.0 }
{
    events
        .iter()
        .rev()
        .any(|event| task.is_listed(says::started_in(event)))
}

/// The task has ended its activation, or is the main program (9.3).
#[tactic(auto, unfolding(ada_events::specs::Phases::is_elaborated))]
pub fn is_elaborated(events: &[Event], task: TaskNo) -> bool
    ensures { result ≡ phases.is_elaborated (reverse events.now) task.0 }
{
    task.0 == 0 || has_elaborated(events, task)
}

fn has_elaborated(events: &[Event], task: TaskNo) -> bool
    ensures { result ≡ list_any (λ (e : EventValue).
        is_number task.0 (said.elaborated_in e)) (reverse events.now) }
{
    events
        .iter()
        .rev()
        .any(|event| is_task(task, says::elaborated_in(event)))
}

/// The task's activation ended by an exception (9.3).
#[tactic(auto, unfolding(ada_events::specs::Phases::has_failed))]
pub fn has_failed(events: &[Event], task: TaskNo) -> bool
    ensures { result ≡ phases.has_failed (reverse events.now) task.0 }
{
    events
        .iter()
        .rev()
        .any(|event| is_task(task, says::failed_in(event)))
}

/// The task's body is completed (9.4).
#[tactic(auto, unfolding(ada_events::specs::Phases::is_completed))]
pub fn is_completed(events: &[Event], task: TaskNo) -> bool
    ensures { result ≡ phases.is_completed (reverse events.now) task.0 }
{
    events
        .iter()
        .rev()
        .any(|event| is_task(task, says::completed_in(event)))
}

// The event terminates all that depend on a master, and the task is one of them.
fn quits(before: &[Event], event: &Event, task: TaskNo) -> bool
    requires { length before.now < 2 ^ 32 }
    ensures { result ≡ option_map_or (masters.depends_on (reverse before.now) task.0)
        (said.quit_in event.now) false }
{
    match says::quit_in(event) {
        Some(master) => depends_on(before, task, master),
        None => false,
    }
}

fn terminates(before: &[Event], event: &Event, task: TaskNo) -> bool
    requires { length before.now < 2 ^ 32 }
    ensures { result ≡ (is_number task.0 (said.gone_in event.now)
        || option_map_or (masters.depends_on (reverse before.now) task.0)
        (said.quit_in event.now) false) }
{
    is_task(task, says::gone_in(event)) || quits(before, event, task)
}

/// The task is terminated (9.4).
#[tactic(auto, unfolding(ada_events::specs::Phases::is_terminated), using(crate::proofs::Loops::is_terminated_more))]
pub fn is_terminated(events: &[Event], task: TaskNo) -> bool
    requires { length events.now < 2 ^ 32 }
    ensures { result ≡ phases.is_terminated (reverse events.now) task.0 }
{
    let mut terminated = false;
    for (i, event) in events.iter().enumerate() {
        terminated = terminates(&events[..i], event, task) || terminated;
    }
    terminated
}

/// The task is completed or terminated.
#[tactic(auto, unfolding(ada_events::specs::Phases::has_ended))]
pub fn has_ended(events: &[Event], task: TaskNo) -> bool
    requires { length events.now < 2 ^ 32 }
    ensures { result ≡ phases.has_ended (reverse events.now) task.0 }
{
    is_completed(events, task) || is_terminated(events, task)
}

fn is_reached_by(events: &[Event], named: TaskNo, task: TaskNo) -> bool
    requires { length events.now < 2 ^ 32 }
    ensures { result ≡ (named.0 == task.0
        || masters.depends_on (reverse events.now) task.0 (Body named)) }
{
    named.0 == task.0 || depends_on(events, task, Master::Body(named))
}

// The abort of some tasks reaches the task.
fn is_reached(events: &[Event], named: &[TaskNo], task: TaskNo) -> bool
    requires { length events.now < 2 ^ 32 }
    ensures { result ≡ list_any (λ (t : Task).
        t.0 == task.0 || masters.depends_on (reverse events.now) task.0 (Body t)) named.now }
{
    named
        .iter()
        .any(|other| is_reached_by(events, *other, task))
}

fn makes_abnormal(before: &[Event], event: &Event, task: TaskNo) -> bool
    requires { length before.now < 2 ^ 32 }
    ensures { result ≡ (list_any (λ (t : Task).
        t.0 == task.0 || masters.depends_on (reverse before.now) task.0 (Body t))
        (said.aborted_in event.now)
        && nat_lt task.0 (count_of_tasks (reverse before.now))
        && not (phases.is_terminated (reverse before.now) task.0)) }
{
    is_reached(before, says::aborted_in(event), task)
        && u64::from(task.0) < task_count(before)
        && !is_terminated(before, task)
}

/// The task is abnormal (9.10).
#[tactic(auto, unfolding(ada_events::specs::Phases::is_abnormal), using(crate::proofs::Loops::is_abnormal_more))]
pub fn is_abnormal(events: &[Event], task: TaskNo) -> bool
    requires { length events.now < 2 ^ 32 }
    ensures { result ≡ phases.is_abnormal (reverse events.now) task.0 }
{
    let mut abnormal = false;
    for (i, event) in events.iter().enumerate() {
        abnormal = makes_abnormal(&events[..i], event, task) || abnormal;
    }
    abnormal
}

/// The call, wait, delay, start or close at a position is released.
#[tactic(auto, unfolding(ada_events::specs::Phases::is_released))]
pub fn is_released(events: &[Event], position: u32) -> bool
    ensures { result ≡ phases.is_released (reverse events.now) position }
{
    events
        .iter()
        .rev()
        .any(|event| is_position(position, says::released_in(event)))
}

fn holds_up(events: &[Event], task: TaskNo, position: u32, event: &Event) -> bool
    ensures { result ≡ (is_number task.0 (said.held_in event.now)
        && not (phases.is_released (reverse events.now) position)) }
{
    is_task(task, says::held_in(event)) && !is_released(events, position)
}

// A call, wait, delay, start or close by the task isn't released.
#[tactic(auto, unfolding(ada_events::specs::Search::any_event), using(crate::proofs::Loops::any_event_more))]
fn is_held(events: &[Event], task: TaskNo) -> bool
    requires { length events.now < 2 ^ 32 }
    ensures { result ≡ any_event (λ p e.
        is_number task.0 (said.held_in e)
        && not (phases.is_released (reverse events.now) p)) (reverse events.now) }
{
    let mut held = false;
    for (i, event) in events.iter().enumerate() {
        held = holds_up(events, task, i as u32 + 1, event) || held;
    }
    held
}

/// The task is held up, and hasn't ended.
#[tactic(auto, unfolding(ada_events::specs::Phases::is_suspended))]
pub fn is_suspended(events: &[Event], task: TaskNo) -> bool
    requires { length events.now < 2 ^ 32 }
    ensures { result ≡ phases.is_suspended (reverse events.now) task.0 }
{
    is_held(events, task) && !has_ended(events, task)
}

fn starts(before: &[Event], event: &Event, task: TaskNo) -> bool
    requires { length before.now < 2 ^ 32 }
    ensures { result ≡ (phases.lists_task task.0 (said.started_in event.now)
        && not (phases.has_ended (reverse before.now) task.0)) }
{
    task.is_listed(says::started_in(event)) && !has_ended(before, task)
}

/// The task's activation was started when it hadn't ended, or it is the main program (9.3).
#[tactic(auto, unfolding(ada_events::specs::Phases::is_started), using(crate::proofs::Loops::is_started_more))]
pub fn is_started(events: &[Event], task: TaskNo) -> bool
    requires { length events.now < 2 ^ 32 }
    ensures { result ≡ phases.is_started (reverse events.now) task.0 }
{
    let mut started = task.0 == 0;
    for (i, event) in events.iter().enumerate() {
        started = starts(&events[..i], event, task) || started;
    }
    started
}

/// The task is started, hasn't ended and isn't suspended.
#[tactic(auto, unfolding(ada_events::specs::Phases::is_running))]
pub fn is_running(events: &[Event], task: TaskNo) -> bool
    requires { length events.now < 2 ^ 32 }
    ensures { result ≡ phases.is_running (reverse events.now) task.0 }
{
    is_started(events, task) && !has_ended(events, task) && !is_suspended(events, task)
}
