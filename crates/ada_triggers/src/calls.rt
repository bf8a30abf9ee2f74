//! What calls and waits add to an agenda.

ghost use Rattle.std.specs.Prelude.{◌≡◌, ℕ, Bool, true, [], ◌∷◌};
ghost use Rattle.std.specs.Option.{is_some, option_map};
ghost use Rattle.ada_events.specs.Says.{Call, call_at};
ghost use Rattle.ada_events.specs.declared.event.Event.TheVariants.{Cancelled as CancelledEvent, Ended as EndedEvent, Failed as FailedEvent};
ghost use Rattle.ada_events.specs.declared.event.Event.TheVariants.{Waiting as WaitingEvent};
ghost use Rattle.ada_events.specs.declared.event.EventTail.TheVariants.{Nothing};
ghost use Rattle.ada_events.specs.declared.names.Entry.{Entry as EntryName};
ghost use Rattle.ada_events.specs.declared.names.TaskNo.{TaskNo as Number};
ghost use Rattle.ada_agenda.specs.Keeping.{KeepsUp, Puts, When};
ghost use Rattle.ada_events.specs.Tasks.{moment};
ghost use Rattle.ada_events.specs.Waits as waits;
ghost use Rattle.ada_step_laws.specs.CalledTasks.{IsCallOf};
ghost use Rattle.ada_triggers.specs.internal.Keys.{AsDependent, AsCalleeAt, AsCallerAt};

use crate::masters::put_dependent;
use ada_agenda::Agenda;
use ada_agenda::keeping::{self, put, put_if};
use ada_events::{Choice, Event, EventTail, TaskNo, way_of};
use ada_records::records::is_open_terminate;
use ada_step_laws::Row;
use ada_view::View;

// The task that the call at a position calls.
#[tactic(auto, unfolding(ada_events::specs::Says::call_in))]
fn callee_at(view: &View, at: u32) -> Option<TaskNo>
    ensures { option_map (λ (t : Number). t.0) result
        ≡ option_map (λ (c : Call). c.callee) (call_at view.now at) }
{
    match view.event(at) {
        Some(Event::Called { callee, .. }) => Some(*callee),
        _ => None,
    }
}

/// Puts what the masters may force on which the callee of the call at a position depends.
pub(crate) fn put_callee(agenda: &mut Agenda, view: &View, at: u32)
    ensures { Puts agenda.old agenda.new (AsCalleeAt view.now at) }
{
    match callee_at(view, at) {
        Some(callee) => put_dependent(agenda, view, callee),
        None => (),
    }
}

/// Notes that a call is cancelled (9.7.2, 9.7.3): what the masters may force on which its callee depends may be forced.
#[tactic(auto, using(crate::proofs::Callees::cancellation_noted))]
pub fn after_cancellation(agenda: &mut Agenda, view: &View, call: u32)
    ensures { KeepsUp view.now (CancelledEvent call) agenda.old agenda.new }
{
    put_callee(agenda, view, call);
}

// The task that made the call at a position.
#[tactic(auto, unfolding(ada_events::specs::Says::call_in))]
fn caller_at(view: &View, at: u32) -> Option<TaskNo>
    ensures { option_map (λ (t : Number). t.0) result
        ≡ option_map (λ (c : Call). c.by) (call_at view.now at) }
{
    match view.event(at) {
        Some(Event::Called { by, .. }) => Some(*by),
        _ => None,
    }
}

// Puts who made the call at a position, where that is abnormal, into the row of tasks that are halted.
fn put_caller(agenda: &mut Agenda, view: &View, at: u32)
    ensures { Puts agenda.old agenda.new (AsCallerAt view.now at) }
{
    match caller_at(view, at) {
        Some(by) => put_if(agenda, Row::Halting, by.0 as usize, view.is_abnormal(by)),
        None => (),
    }
}

/// Notes that a rendezvous ends (9.5): that its caller is halted may be forced (9.10).
#[tactic(auto, using(crate::proofs::Callers::end_noted))]
pub fn after_end(agenda: &mut Agenda, view: &View, call: u32)
    ensures { (by : Number) (raised : Bool)
        → KeepsUp view.now (EndedEvent by call raised) agenda.old agenda.new }
{
    put_caller(agenda, view, call);
}

/// Notes that a call fails (9.5): that its caller is halted may be forced (9.10).
#[tactic(auto, using(crate::proofs::Callers::failure_noted))]
pub fn after_failure(agenda: &mut Agenda, view: &View, failed: u32)
    ensures { KeepsUp view.now (FailedEvent failed) agenda.old agenda.new }
{
    put_caller(agenda, view, failed);
}

// Puts what the masters may force on which a task depends, where that is so.
#[tactic(auto, using(ada_agenda::proofs::Noting::so_put, ada_agenda::proofs::Noting::not_put))]
fn put_dependent_if(agenda: &mut Agenda, view: &View, task: TaskNo, so: bool)
    ensures { Puts agenda.old agenda.new (When so (AsDependent view.now task.0)) }
{
    if so {
        put_dependent(agenda, view, task);
    }
}

// Whether a wait that comes next ends otherwise than by a call, where it takes none (9.7.1).
fn is_to_pass(view: &View, pick: u32, choices: &[Choice], tail: &EventTail) -> bool
    ensures { result ≡ is_some (waits.way_of (moment view.now) choices.now pick tail.now) }
{
    way_of(view.moment(), choices, pick, tail).is_some()
}

/// Notes that a task waits selectively (9.7.1): that it takes a call, that it passes, where there is a way, and with an
/// open terminate alternative what the masters may force on which the task depends, may be forced.
pub fn after_wait(
    agenda: &mut Agenda,
    view: &View,
    by: TaskNo,
    pick: u32,
    choices: &[Choice],
    tail: &EventTail,
)
    ensures { KeepsUp view.now (WaitingEvent by pick choices.now tail.now)
        agenda.old agenda.new }
{
    let own = view.next_position() as usize;
    put(agenda, Row::Meeting, own);
    let passes = is_to_pass(view, pick, choices, tail);
    put_if(agenda, Row::Passing, own, passes);
    put_dependent_if(agenda, view, by, is_open_terminate(tail));
}

/// Notes that a task waits at an accept statement alone (9.5): that it takes a call may be forced.
pub fn after_accept(agenda: &mut Agenda, view: &View)
    ensures { (by : Number) (pick : ℕ) (entry : EntryName)
        → KeepsUp view.now
        (WaitingEvent by pick (record { guard = true; entry = entry } ∷ []) Nothing)
        agenda.old agenda.new }
{
    put(agenda, Row::Meeting, view.next_position() as usize);
}

/// Notes that an entry of a task is called (9.5): that the call fails, where the task has ended or is abnormal, that it
/// is cancelled, where it is given up, and that the wait takes it at which the task is suspended, may be forced.
#[inline(always)]
pub fn after_call(agenda: &mut Agenda, view: &View, event: &Event, callee: TaskNo)
    requires { IsCallOf event.now callee.0 }
    ensures { KeepsUp view.now event.now agenda.old agenda.new }
{
    let wait = view.record(callee).suspension.at;
    let lost = view.is_uncallable(callee);
    let immediate = view.is_immediate_call(event);
    keeping::put_call_keys(agenda, view.next_position(), wait, lost, immediate);
}
