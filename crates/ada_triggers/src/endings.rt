//! What the end of a task adds to an agenda: a completion, a halt, a termination.

ghost use Rattle.std.specs.Prelude.{◌≡◌, ◌<◌, true, false};
ghost use Rattle.std.specs.Option.{option_map};
ghost use Rattle.ada_events.specs.Forced.{is_to_quit};
ghost use Rattle.ada_events.specs.Says.{Creation, creation_in};
ghost use Rattle.ada_events.specs.Tasks.{creation_of, task_count};
ghost use Rattle.ada_events.specs.declared.names.TaskNo.{TaskNo as Number};
ghost use Rattle.ada_events.specs.declared.event.Event.TheVariants.{Completed as CompletedEvent, Elaborated as ElaboratedEvent, Halted as HaltedEvent};
ghost use Rattle.ada_events.specs.declared.event.Event.TheVariants.{Gone as GoneEvent, Quit as QuitEvent};
ghost use Rattle.ada_agenda.specs.Keeping.{KeepsUp, Puts};
ghost use Rattle.ada_triggers.specs.Bounds.{IsStartBound};
ghost use Rattle.ada_triggers.specs.internal.Keys.{AsActivation, AsCompletion};

use crate::calls::put_callee;
use crate::masters::{put_blocks, put_dependent, put_master};
use crate::sweeps::{put_held, put_uncallable_calls};
use crate::unstarted::{FirstUnstarted, put_all_unstarted};
use ada_agenda::Agenda;
use ada_agenda::keeping::{put, put_if};
use ada_events::{Event, Master, TaskNo};
use ada_step_laws::Row;
use ada_view::View;

// The task that made another, by the other's creation.
#[tactic(auto, unfolding(ada_events::specs::Says::creation_in))]
fn maker_in(event: &Event) -> Option<TaskNo>
    ensures { option_map (λ (t : Number). t.0) result
        ≡ option_map (λ (c : Creation). c.by) (creation_in event.now) }
{
    match event {
        Event::Created { by, .. } => Some(*by),
        _ => None,
    }
}

// The task that made another; none for the main program and for no task.
fn maker(view: &View, task: TaskNo) -> Option<TaskNo>
    ensures { option_map (λ (t : Number). t.0) result
        ≡ option_map (λ (c : Creation). c.by) (creation_of view.now task.0) }
{
    match view.creation(task) {
        Some(event) => maker_in(event),
        None => None,
    }
}

// Puts the start that names a task, at which its maker is suspended, into the row of activations that end.
#[inline(never)]
fn put_start(agenda: &mut Agenda, view: &View, task: TaskNo)
    ensures { Puts agenda.old agenda.new (AsActivation view.now task) }
{
    match maker(view, task) {
        Some(by) => put_held(agenda, view, Row::Activating, by),
        None => (),
    }
}

// The same, unless the start no longer waits for the task.
#[inline(always)]
fn put_activation(agenda: &mut Agenda, view: &View, task: TaskNo)
    ensures { Puts agenda.old agenda.new (AsActivation view.now task) }
{
    if !view.is_done_activating(task) {
        put_start(agenda, view, task);
    }
}

// Puts all that the completion of a task may force. That dependents of its body quit may be only where some of them
// live.
fn put_completion(agenda: &mut Agenda, first: &mut FirstUnstarted, view: &View, task: TaskNo)
    requires known { task.0 < task_count view.now }
    requires bound { IsStartBound view.now first.old }
    ensures put { Puts agenda.old agenda.new (AsCompletion view.now task) }
    ensures bound { IsStartBound view.now first.new }
{
    put(agenda, Row::Terminating, task.0 as usize);
    let lives = view.has_live_dependents(Master::Body(task));
    put_if(agenda, Row::QuittingBody, task.0 as usize, lives);
    put_uncallable_calls(agenda, view, task);
    put_activation(agenda, view, task);
    put_all_unstarted(agenda, first, view);
}

/// Notes that a task completes (9.4): that it goes, that dependents of its body quit, that calls to it fail, that the
/// activation ends that names it, and that tasks go that were never started, may be forced.
#[tactic(auto, using(crate::proofs::Ends::completion_noted))]
pub fn after_completion(agenda: &mut Agenda, first: &mut FirstUnstarted, view: &View, task: TaskNo)
    requires known { task.0 < task_count view.now }
    requires bound { IsStartBound view.now first.old }
    ensures keeps_up { KeepsUp view.now (CompletedEvent task) agenda.old agenda.new }
    ensures bound { IsStartBound view.now first.new }
{
    put_completion(agenda, first, view, task);
}

// Notes that a task's activation ends by an exception (9.3), which completes it: what a completion may force may be
// forced.
#[tactic(auto, using(crate::proofs::Ends::failure_noted))]
fn after_failed_activation(
    agenda: &mut Agenda,
    first: &mut FirstUnstarted,
    view: &View,
    task: TaskNo,
)
    requires known { task.0 < task_count view.now }
    requires bound { IsStartBound view.now first.old }
    ensures keeps_up { KeepsUp view.now (ElaboratedEvent task false) agenda.old agenda.new }
    ensures bound { IsStartBound view.now first.new }
{
    put_completion(agenda, first, view, task);
}

/// Notes that an abnormal task is halted (9.10): what a completion may force, that dependents of blocks quit that the
/// task is within, and what the masters may force on which the callee of its call depends, may be forced.
pub fn after_halt(agenda: &mut Agenda, first: &mut FirstUnstarted, view: &View, task: TaskNo)
    requires known { task.0 < task_count view.now }
    requires bound { IsStartBound view.now first.old }
    ensures keeps_up { KeepsUp view.now (HaltedEvent task) agenda.old agenda.new }
    ensures bound { IsStartBound view.now first.new }
{
    put_completion(agenda, first, view, task);
    put_blocks(agenda, view, task);
    put_callee(agenda, view, view.record(task).suspension.at);
}

/// Notes that a task terminates by itself (9.4): that calls to it fail, that the activation ends that names it, and
/// what the masters may force on which it depends, may be forced.
pub fn after_termination(agenda: &mut Agenda, view: &View, task: TaskNo)
    ensures { KeepsUp view.now (GoneEvent task) agenda.old agenda.new }
{
    put_uncallable_calls(agenda, view, task);
    put_activation(agenda, view, task);
    put_dependent(agenda, view, task);
}

/// Notes that all that depend on a master terminate together (9.4): what the master may force, and what those may on
/// which its task depends, and that tasks go that were never started, may be forced.
pub fn after_quit(agenda: &mut Agenda, first: &mut FirstUnstarted, view: &View, master: Master)
    requires quits { is_to_quit view.now master ≡ true }
    requires bound { IsStartBound view.now first.old }
    ensures keeps_up { KeepsUp view.now (QuitEvent master) agenda.old agenda.new }
    ensures bound { IsStartBound view.now first.new }
{
    put_all_unstarted(agenda, first, view);
    put_master(agenda, view, master);
}

// Notes that a task ends its activation without an exception (9.3): that the activation ends that names it may be
// forced.
#[tactic(auto, using(crate::proofs::Ends::up_noted))]
fn after_elaborated(agenda: &mut Agenda, view: &View, task: TaskNo)
    ensures { KeepsUp view.now (ElaboratedEvent task true) agenda.old agenda.new }
{
    put_activation(agenda, view, task);
}

/// Notes that a task ends its own activation (9.3), by an exception where `ok` is false.
pub fn after_elaboration(
    agenda: &mut Agenda,
    first: &mut FirstUnstarted,
    view: &View,
    task: TaskNo,
    ok: bool,
)
    requires known { task.0 < task_count view.now }
    requires bound { IsStartBound view.now first.old }
    ensures keeps_up { KeepsUp view.now (ElaboratedEvent task ok) agenda.old agenda.new }
    ensures bound { IsStartBound view.now first.new }
{
    if ok {
        after_elaborated(agenda, view, task);
    } else {
        after_failed_activation(agenda, first, view, task);
    }
}
