//! What a tick adds to an agenda: what is due by it, where it reaches the next due moment.

ghost use Rattle.std.specs.Prelude.{◌≡◌, ◌∷◌};
ghost use Rattle.ada_events.specs.Lawful.{IsLawful};
ghost use Rattle.ada_events.specs.Tasks.{task_count};
ghost use Rattle.ada_events.specs.declared.event.Event.TheVariants.{Ticked as TickedEvent};
ghost use Rattle.ada_agenda.specs.Keeping.{KeepsUp, Puts};
ghost use Rattle.ada_step_laws.specs.Kinds as kinds;
ghost use Rattle.ada_triggers.specs.Bounds.{IsDueBound};
ghost use Rattle.ada_triggers.specs.internal.Bounds.{IsBoundOfFirst, IsDueAfter};
ghost use Rattle.ada_triggers.specs.internal.Keys.{OfFirst, AsDue};

use crate::next_due::NextDue;
use ada_agenda::Agenda;
use ada_agenda::keeping::put_if;
use ada_events::waits::{is_due, tail_due};
use ada_events::{Event, TaskNo};
use ada_step_laws::Row;
use ada_view::View;

// The moment that is waited for at an event.
fn due_in(event: &Event) -> Option<i64>
    ensures { result ≡ kinds.due_in event.now }
{
    match event {
        Event::Called { due, .. } => *due,
        Event::Paused { due, .. } => Some(*due),
        Event::Waiting { tail, .. } => tail_due(tail),
        _ => None,
    }
}

// The row of what happens at an event when that moment comes.
fn due_row(event: &Event) -> Row
    ensures { result ≡ kinds.due_row event.now }
{
    match event {
        Event::Called { .. } => Row::Cancelling,
        Event::Paused { .. } => Row::Waking,
        _ => Row::Passing,
    }
}

// Puts the position at which a task is suspended, if it is, into the row of what happens there where its moment comes.
// Gives the moment where it comes later.
fn put_due(agenda: &mut Agenda, view: &View, tick: &Event, now: i64, task: TaskNo) -> Option<i64>
    requires { tick.now ≡ TickedEvent now }
    ensures put { Puts agenda.old agenda.new (AsDue view.now tick.now task.0) }
    ensures later { IsDueAfter view.now now task.0 result }
{
    let at = view.record(task).suspension.at;
    let Some(event) = view.event(at) else {
        return None;
    };
    let due = due_in(event);
    let comes = is_due(now, due);
    put_if(agenda, due_row(event), at as usize, comes);
    if comes { None } else { due }
}

// Puts all that is due, and gives the least moment after `now` for which a task is suspended.
fn put_all_due(agenda: &mut Agenda, view: &View, tick: &Event, now: i64) -> NextDue
    requires { tick.now ≡ TickedEvent now }
    ensures put { Puts agenda.old agenda.new
        (OfFirst (AsDue view.now tick.now) (task_count view.now)) }
    ensures next { IsBoundOfFirst view.now now (task_count view.now) result }
{
    let mut next = NextDue::new();
    for number in 0..view.tables().tasks() {
        let later = put_due(agenda, view, tick, now, TaskNo(number));
        next = next.with(later);
    }
    next
}

/// Notes that the moment moves, in milliseconds (9.6): that timed calls are cancelled, that waits pass and that delays
/// end may be forced. Gives the next moment for which a task is suspended then. A tick that doesn't reach the next due
/// moment adds nothing, and looks at no task.
pub fn after_tick(
    agenda: &mut Agenda,
    next: NextDue,
    view: &View,
    event: &Event,
    now: i64,
) -> NextDue
    requires bound { IsDueBound view.now next }
    requires ticks { event.now ≡ TickedEvent now }
    ensures keeps_up { KeepsUp view.now event.now agenda.old agenda.new }
    ensures next { IsLawful (event.now ∷ view.now) → IsDueBound (event.now ∷ view.now) result }
{
    if next.is_reached_by(now) {
        put_all_due(agenda, view, event, now)
    } else {
        next
    }
}
