//! The event that a request becomes when it is accepted.
ghost use Rattle.std.specs.Prelude.{◌≡◌, ◌<◌, ◌^◌, false, length, reverse, IfOk, IfErr};
ghost use Rattle.ada_events.specs.Asks as asks;
ghost use Rattle.ada_events.specs.Limits as limits;

use crate::nests::{frame, innermost};
use crate::tasks::moment;
use ada_events::{
    ChoiceList, Event, FamilyList, Refusal, Request, TaskList, asked_tail, call_due, due_after,
    member_position,
};
use std::alloc::Global;

/// The event that a request becomes when it is accepted: the same, with each duration replaced by the
/// moment at which it is over.
#[tactic(auto, unfolding(ada_events::specs::Asks::asked_event))]
pub fn asked_event(alloc: Global, events: &[Event], request: &Request) -> Result<Event, Refusal>
    requires short { length events.now < 2 ^ 32 }
    requires in_time { limits.is_too_late (reverse events.now) request.now ≡ false }
    ensures ok { IfOk result (λ event. event ≡ asks.asked_event (reverse events.now) request.now) }
    ensures err { IfErr result (λ cause. cause ≡ Refusal.OutOfMemory) }
{
    match request {
        Request::Open { by } => Ok(Event::Opened {
            by: *by,
            under: frame(events, *by),
        }),
        Request::Create {
            by,
            master,
            families,
        } => Ok(Event::Created {
            by: *by,
            under: frame(events, *by),
            master: *master,
            families: FamilyList::from_slice(alloc, families.as_slice())?,
        }),
        Request::Activate { by, tasks } => Ok(Event::Started {
            by: *by,
            tasks: TaskList::from_slice(alloc, tasks.as_slice())?,
        }),
        Request::Elaborated { by, ok } => Ok(Event::Elaborated { by: *by, ok: *ok }),
        Request::Call {
            by,
            callee,
            entry,
            patience,
        } => Ok(Event::Called {
            by: *by,
            callee: *callee,
            entry: *entry,
            patience: *patience,
            due: call_due(moment(events), *patience),
        }),
        Request::Wait {
            by,
            choices,
            tail,
            pick,
        } => Ok(Event::Waiting {
            by: *by,
            choices: ChoiceList::from_slice(alloc, choices.as_slice())?,
            tail: asked_tail(alloc, moment(events), tail)?,
            pick: *pick,
        }),
        Request::Delay { by, duration } => Ok(Event::Paused {
            by: *by,
            due: due_after(moment(events), *duration),
        }),
        Request::End { by, raised } => Ok(Event::Ended {
            by: *by,
            call: member_position(innermost(events, *by)),
            raised: *raised,
        }),
        Request::Close { by } => Ok(Event::Closed {
            by: *by,
            block: member_position(innermost(events, *by)),
        }),
        Request::Complete { by } => Ok(Event::Completed { by: *by }),
        Request::Abort { by, tasks } => Ok(Event::Aborted {
            by: *by,
            tasks: TaskList::from_slice(alloc, tasks.as_slice())?,
        }),
        Request::Tick { now } => Ok(Event::Ticked { now: *now }),
    }
}
