//! Which tasks a task waits for, by what a kernel keeps.
ghost use Rattle.std.specs.Prelude.{◌≡◌, ◌<◌, ◌&&◌, false, not, nat_le, option_map};
ghost use Rattle.std.specs.Bool.{then_some};
ghost use Rattle.ada_events.specs.declared.names.TaskNo.{TaskNo as Task};
ghost use Rattle.ada_events.specs.Masters as masters;
ghost use Rattle.ada_events.specs.Phases.{has_ended, is_elaborated, is_terminated};
ghost use Rattle.ada_events.specs.Tasks.{task_count};
ghost use Rattle.ada_waiting.specs.Awaited as awaited;

use crate::reasons::{Reason, reason_in};
use ada_events::{Event, Master, TaskNo};
use ada_kernel::Kernel;
use ada_view::View;
use ada_view::queries::known;

#[tactic(auto, unfolding(ada_events::specs::Says::creation_in))]
fn has_made(view: &View<'_>, other: TaskNo, task: TaskNo) -> bool
    ensures { result ≡ awaited.has_made view.now other.0 task.0 }
{
    match view.creation(task) {
        Some(Event::Created { by, .. }) => by.0 == other.0,
        _ => false,
    }
}

#[tactic(auto, unfolding(ada_events::specs::Says::start_in))]
fn is_started_at(view: &View<'_>, start: u32, other: TaskNo) -> bool
    ensures { result ≡ awaited.is_started_at view.now start other.0 }
{
    match view.event(start) {
        Some(Event::Started { tasks, .. }) => other.is_listed(tasks.as_slice()),
        _ => false,
    }
}

// Whether a task hasn't ended its activation (9.3).
fn is_coming_up(view: &View<'_>, task: TaskNo) -> bool
    ensures { result ≡ (not (is_elaborated view.now task.0) && not (has_ended view.now task.0)) }
{
    let kept = view.record(task);
    !kept.stage.elaborated && !kept.has_ended()
}

fn is_activating(view: &View<'_>, start: u32, other: TaskNo) -> bool
    ensures { result ≡ awaited.is_activating view.now start other.0 }
{
    is_started_at(view, start, other) && is_coming_up(view, other)
}

#[tactic(auto, unfolding(ada_events::specs::Says::call_in))]
fn is_called(view: &View<'_>, call: u32, other: TaskNo) -> bool
    ensures { result ≡ awaited.is_called view.now call other.0 }
{
    match view.event(call) {
        Some(Event::Called { callee, .. }) => callee.0 == other.0,
        _ => false,
    }
}

// Whether a task that isn't terminated depends on a master (9.4).
fn depends_on(view: &View<'_>, task: TaskNo, master: Master) -> bool
    requires known { task.0 < task_count view.now }
    requires live { is_terminated view.now task.0 ≡ false }
    ensures { result ≡ masters.depends_on view.now task.0 master }
{
    view.tables().depends_on(task, master)
}

fn is_live_dependent(view: &View<'_>, master: Master, other: TaskNo) -> bool
    ensures { result ≡ awaited.is_live_dependent view.now master other.0 }
{
    match known(view, other) {
        Some(kept) if kept.stage.terminated => false,
        Some(_) => depends_on(view, other, master),
        None => false,
    }
}

#[tactic(auto, unfolding(ada_events::specs::Says::closing_in))]
fn is_left_behind(view: &View<'_>, close: u32, other: TaskNo) -> bool
    ensures { result ≡ awaited.is_left_behind view.now close other.0 }
{
    match view.event(close) {
        Some(Event::Closed { block, .. }) => is_live_dependent(view, Master::Block(*block), other),
        _ => false,
    }
}

/// Whether a task that doesn't go on for a reason waits for another one: for its maker if it wasn't started (9.3), for
/// those that it activates (9.3), for the task that it called (9.5), for what depends on the block that it leaves or on
/// its own body (9.4). Nothing is searched.
#[tactic(auto, unfolding(crate::specs::Awaited::awaits))]
pub fn awaits(view: &View<'_>, task: TaskNo, other: TaskNo, reason: Reason) -> bool
    ensures { result ≡ awaited.awaits view.now task.0 other.0 reason }
{
    match reason {
        Reason::NotStarted => has_made(view, other, task),
        Reason::Activating { start } => is_activating(view, start, other),
        Reason::Queued { call } | Reason::InRendezvous { call } => is_called(view, call, other),
        Reason::Waiting { .. } | Reason::Delayed { .. } => false,
        Reason::Leaving { close } => is_left_behind(view, close, other),
        Reason::Completed => is_live_dependent(view, Master::Body(task), other),
    }
}

fn waits_in(kernel: &Kernel, task: TaskNo, other: TaskNo) -> bool
    ensures { result ≡ awaited.waits_for kernel.now task.0 other.0 }
{
    match reason_in(kernel, task) {
        Some(reason) => awaits(&kernel.view(), task, other, reason),
        None => false,
    }
}

fn awaited_from(kernel: &Kernel, task: TaskNo, from: TaskNo, other: TaskNo) -> Option<TaskNo>
    ensures { option_map (λ (t : Task). t.0) result ≡ then_some (nat_le from.0 other.0
        && awaited.waits_for kernel.now task.0 other.0) other.0 }
{
    if other.0 >= from.0 && waits_in(kernel, task, other) {
        Some(other)
    } else {
        None
    }
}

/// The first task of a number or more for which a task of a kernel waits; none if there is no such task. Nothing
/// is searched.
#[tactic(auto, unfolding(crate::specs::Awaited::first_awaited, ada_events::specs::Search::first_below), using(crate::proofs::Numbers::first_below_more))]
pub fn first_awaited(kernel: &Kernel, task: TaskNo, from: TaskNo) -> Option<TaskNo>
    ensures { option_map (λ (t : Task). t.0) result
        ≡ awaited.first_awaited kernel.now task.0 from.0 }
{
    let mut first = None;
    for number in 0..kernel.tasks() {
        if first.is_none() {
            first = awaited_from(kernel, task, from, TaskNo(number));
        }
    }
    first
}
