//! Passes over all tasks that put keys into an agenda.

ghost use Rattle.std.specs.Prelude.{◌≡◌, ◌&&◌, ℕ, true};
ghost use Rattle.ada_events.specs.Search.{is_some_and, event_at};
ghost use Rattle.ada_events.specs.Lawful.{IsLawful};
ghost use Rattle.ada_events.specs.Tasks.{task_count};
ghost use Rattle.ada_agenda.specs.Keeping.{Puts};
ghost use Rattle.ada_step_laws.specs.Kinds.{IsOpenCallTo};
ghost use Rattle.ada_triggers.specs.internal.Keys as keys;
ghost use Rattle.ada_triggers.specs.internal.Keys.{OfFirst, AsHaltable, AsHeld, AsCaller, AsHit, AsUncallable, calls};
ghost use Rattle.ada_triggers.specs.internal.Keys.{is_flagged, is_that};

use ada_agenda::Agenda;
use ada_agenda::keeping::put_if;
use ada_events::{Event, TaskNo};
use ada_step_laws::Row;
use ada_view::{View, flag_of};

// Whether the task hasn't ended, and isn't the caller in a rendezvous: no other is halted (9.10).
#[tactic(auto, using(crate::proofs::Halting::may_halt_told))]
fn may_halt(view: &View, task: TaskNo) -> bool
    ensures { result ≡ keys.may_halt view.now task.0 }
{
    let kept = view.record(task);
    let meets = kept.suspension.at != 0 && kept.suspension.joined;
    !kept.has_ended() && !meets
}

// Puts a flagged task that may be halted into the row of those that are halted.
fn put_haltable(agenda: &mut Agenda, view: &View, flags: &[bool], task: TaskNo)
    ensures { Puts agenda.old agenda.new (AsHaltable view.now flags.now task.0) }
{
    let halts = flag_of(flags, task) && may_halt(view, task);
    put_if(agenda, Row::Halting, task.0 as usize, halts);
}

// Whether a call to a flagged task stands at the position.
#[tactic(auto, unfolding(ada_events::specs::Says::call_in))]
fn calls_flagged(view: &View, at: u32, flags: &[bool]) -> bool
    ensures { result ≡ is_some_and (event_at view.now at) (calls (is_flagged flags.now)) }
{
    match view.event(at) {
        Some(Event::Called { callee, .. }) => flag_of(flags, *callee),
        _ => false,
    }
}

// Puts the call to a flagged task at which a task is suspended, if it is, into the row of those that fail.
fn put_flagged_call(agenda: &mut Agenda, view: &View, flags: &[bool], task: TaskNo)
    ensures { Puts agenda.old agenda.new (AsCaller view.now (is_flagged flags.now) task.0) }
{
    let at = view.record(task).suspension.at;
    let fails = calls_flagged(view, at, flags);
    put_if(agenda, Row::Failing, at as usize, fails);
}

// Puts what an abort may force of a task. The flags say whom it hits.
fn put_hit(agenda: &mut Agenda, view: &View, flags: &[bool], task: TaskNo)
    ensures { Puts agenda.old agenda.new (AsHit view.now flags.now task.0) }
{
    put_haltable(agenda, view, flags, task);
    put_flagged_call(agenda, view, flags, task);
}

/// Puts what an abort may force: the tasks that it hits and that may be halted, into the row of those that are halted,
/// and the calls to tasks that it hits into the row of those that fail. The flags say whom it hits.
pub(crate) fn put_all_hit(agenda: &mut Agenda, view: &View, flags: &[bool])
    ensures { Puts agenda.old agenda.new
        (OfFirst (AsHit view.now flags.now) (task_count view.now)) }
{
    for number in 0..view.tables().tasks() {
        put_hit(agenda, view, flags, TaskNo(number));
    }
}

// Whether the event is of the kind of which the row gives a step.
#[tactic(auto, unfolding(ada_events::specs::Says::start_in, ada_events::specs::Says::closing_in))]
fn is_of_row(row: Row, event: &Event) -> bool
    ensures { result ≡ keys.is_of_row row event.now }
{
    match row {
        Row::Activating => matches!(event, Event::Started { .. }),
        Row::Leaving => matches!(event, Event::Closed { .. }),
        _ => true,
    }
}

// Whether an event of that kind stands at the position.
fn is_of_row_at(view: &View, row: Row, at: u32) -> bool
    ensures { result ≡ is_some_and (event_at view.now at) (keys.is_of_row row) }
{
    match view.event(at) {
        Some(event) => is_of_row(row, event),
        None => false,
    }
}

// Puts the position at which a task is suspended, if it is, into a row, where the event there is of its kind.
pub(crate) fn put_held(agenda: &mut Agenda, view: &View, row: Row, task: TaskNo)
    ensures { Puts agenda.old agenda.new (AsHeld view.now row task.0) }
{
    let at = view.record(task).suspension.at;
    let fits = is_of_row_at(view, row, at);
    put_if(agenda, row, at as usize, fits);
}

// Whether the event is a call to the task.
#[tactic(auto, unfolding(ada_events::specs::Says::call_in))]
fn is_call_to(event: &Event, callee: TaskNo) -> bool
    ensures { result ≡ calls (is_that callee.0) event.now }
{
    match event {
        Event::Called { callee: called, .. } => called.0 == callee.0,
        _ => false,
    }
}

// Whether a call to the task stands at the position.
fn calls_at(view: &View, at: u32, callee: TaskNo) -> bool
    ensures { result ≡ is_some_and (event_at view.now at) (calls (is_that callee.0)) }
{
    match view.event(at) {
        Some(event) => is_call_to(event, callee),
        None => false,
    }
}

// Puts the call to the callee at which a task is suspended, if it is, into the row of those that fail.
fn put_caller(agenda: &mut Agenda, view: &View, callee: TaskNo, task: TaskNo)
    ensures { Puts agenda.old agenda.new (AsCaller view.now (is_that callee.0) task.0) }
{
    let at = view.record(task).suspension.at;
    let calls = calls_at(view, at, callee);
    put_if(agenda, Row::Failing, at as usize, calls);
}

// Puts the calls to a task at which tasks are suspended into the row of those that fail.
#[inline(never)]
fn put_all_callers(agenda: &mut Agenda, view: &View, callee: TaskNo)
    ensures { Puts agenda.old agenda.new
        (OfFirst (AsCaller view.now (is_that callee.0)) (task_count view.now)) }
{
    for number in 0..view.tables().tasks() {
        put_caller(agenda, view, callee, TaskNo(number));
    }
}

// Whether a call to the task may be open: only where one waits at an entry of it, or the task is in something.
fn may_be_called(view: &View, callee: TaskNo) -> bool
    ensures open { (p : ℕ) → IsOpenCallTo view.now callee.0 p → result ≡ true }
    ensures lawful { IsLawful view.now }
{
    let tables = view.tables();
    callee.0 < tables.tasks() && !(tables.nest(callee).is_empty() && tables.has_no_calls(callee))
}

/// Puts the calls to a task into the row of those that fail, unless they failed already, since the task has ended or is
/// abnormal.
#[inline(always)]
pub(crate) fn put_uncallable_calls(agenda: &mut Agenda, view: &View, callee: TaskNo)
    ensures { Puts agenda.old agenda.new (AsUncallable view.now callee.0) }
{
    if !view.is_uncallable(callee) && may_be_called(view, callee) {
        put_all_callers(agenda, view, callee);
    }
}
