//! The lists of events.
ghost use Rattle.std.specs.Prelude.{◌≡◌};
ghost use Rattle.ada_border.specs.Events as spec;

use crate::events::flag;
use crate::parts::{PlainChoice, PlainFamily};
use ada_events::{Choice, Event, EventTail, Family, TaskNo};

/// How many items the lists of an event have: the tasks that an activation or an abort named, the families that a task
/// declared, and the accept and delay alternatives of a wait.
#[repr(C)]
#[derive(Clone, Copy, Debug, PartialEq, Eq)]
pub struct PlainLengths {
    pub tasks: u64,
    pub families: u64,
    pub choices: u64,
    pub delays: u64,
}

/// A delay alternative of a wait: the moment at which it is due, in milliseconds, and whether it is open, 0 or 1. A
/// closed one has the moment 0.
#[repr(C)]
#[derive(Clone, Copy, Debug, PartialEq, Eq)]
pub struct PlainDue {
    pub moment: i64,
    pub is_open: u32,
}

/// The tasks that an activation or an abort named.
pub fn tasks_of(event: &Event) -> &[TaskNo]
    ensures { result.now ≡ spec.tasks_of event.now }
{
    match event {
        Event::Started { tasks, .. } | Event::Aborted { tasks, .. } => tasks.as_slice(),
        _ => &[],
    }
}

/// The families that a task declared.
pub fn families_of(event: &Event) -> &[Family]
    ensures { result.now ≡ spec.families_of event.now }
{
    match event {
        Event::Created { families, .. } => families.as_slice(),
        _ => &[],
    }
}

/// The accept alternatives of a wait.
pub fn choices_of(event: &Event) -> &[Choice]
    ensures { result.now ≡ spec.choices_of event.now }
{
    match event {
        Event::Waiting { choices, .. } => choices.as_slice(),
        _ => &[],
    }
}

/// The moments of the delay alternatives of a wait; a closed one has none.
pub fn dues_of(event: &Event) -> &[Option<i64>]
    ensures { result.now ≡ spec.dues_of event.now }
{
    match event {
        Event::Waiting {
            tail: EventTail::Delays(dues),
            ..
        } => dues.get().as_slice(),
        _ => &[],
    }
}

/// How many items the lists of an event have.
pub fn lengths_of(event: &Event) -> PlainLengths
    ensures { result ≡ spec.lengths_of event.now }
{
    PlainLengths {
        tasks: tasks_of(event).len() as u64,
        families: families_of(event).len() as u64,
        choices: choices_of(event).len() as u64,
        delays: dues_of(event).len() as u64,
    }
}

/// A family in plain numbers.
pub fn plain_family(family: Family) -> PlainFamily
    ensures { result ≡ spec.plain_family family }
{
    PlainFamily {
        low: family.low,
        high: family.high,
    }
}

/// An accept alternative in plain numbers.
pub fn plain_choice(choice: Choice) -> PlainChoice
    ensures { result ≡ spec.plain_choice choice }
{
    PlainChoice {
        family: u32::from(choice.entry.family),
        index: choice.entry.index,
        is_open: flag(choice.guard),
    }
}

/// A delay alternative in plain numbers.
pub fn plain_due(due: Option<i64>) -> PlainDue
    ensures { result ≡ spec.plain_due due }
{
    PlainDue {
        moment: due.unwrap_or(0),
        is_open: flag(due.is_some()),
    }
}
