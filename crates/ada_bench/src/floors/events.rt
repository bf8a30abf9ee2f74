//! Events made and kept in a journal, with nothing that decides what they are.
ghost use Rattle.std.specs.Prelude.{◌<◌};

use ada_events::limits::MOST_EVENTS;
use ada_events::{
    ChoiceList, DueList, Dues, Event, EventTail, FamilyList, Journal, Refusal, TaskList,
};
use std::alloc::{AllocError, Global};

/// A journal of the same events, of which there are at most 65,536.
pub fn push_events(alloc: Global, events: &[Event]) -> Result<Journal, Refusal> {
    let mut journal = Journal::new(alloc);
    for event in events {
        if journal.len() as usize >= MOST_EVENTS {
            return Err(Refusal::JournalFull);
        }
        journal.reserve(1)?;
        push_asked(alloc, &mut journal, event)?;
    }
    Ok(journal)
}

/// Appends another event of the same content.
fn push_asked(alloc: Global, journal: &mut Journal, event: &Event) -> Result<(), AllocError>
    requires { 0 < journal.old.spare }
{
    match event {
        Event::Opened { by, under } => journal.push_reserved(Event::Opened {
            by: *by,
            under: *under,
        }),
        Event::Created {
            by,
            under,
            master,
            families,
        } => journal.push_reserved(Event::Created {
            by: *by,
            under: *under,
            master: *master,
            families: FamilyList::from_slice(alloc, families.as_slice())?,
        }),
        Event::Started { by, tasks } => journal.push_reserved(Event::Started {
            by: *by,
            tasks: TaskList::from_slice(alloc, tasks.as_slice())?,
        }),
        Event::Elaborated { by, ok } => {
            journal.push_reserved(Event::Elaborated { by: *by, ok: *ok });
        }
        Event::Waiting {
            by,
            pick,
            choices,
            tail,
        } => journal.push_reserved(Event::Waiting {
            by: *by,
            pick: *pick,
            choices: ChoiceList::from_slice(alloc, choices.as_slice())?,
            tail: copy_of(alloc, tail)?,
        }),
        Event::Aborted { by, tasks } => journal.push_reserved(Event::Aborted {
            by: *by,
            tasks: TaskList::from_slice(alloc, tasks.as_slice())?,
        }),
        other => push_plain(journal, other),
    }
    Ok(())
}

/// Another tail of the same content.
fn copy_of(alloc: Global, tail: &EventTail) -> Result<EventTail, AllocError> {
    match tail {
        EventTail::Nothing => Ok(EventTail::Nothing),
        EventTail::Otherwise => Ok(EventTail::Otherwise),
        EventTail::Delays(dues) => Ok(EventTail::Delays(DueList::new(
            alloc,
            Dues::from_slice(dues.get().as_slice()),
        )?)),
        EventTail::Terminate(guard) => Ok(EventTail::Terminate(*guard)),
    }
}

/// Appends another event of the same content, of a kind that tasks ask for and that has no list.
fn push_plain(journal: &mut Journal, event: &Event)
    requires { 0 < journal.old.spare }
{
    match event {
        Event::Called {
            by,
            callee,
            entry,
            patience,
            due,
        } => journal.push_reserved(Event::Called {
            by: *by,
            callee: *callee,
            entry: *entry,
            patience: *patience,
            due: *due,
        }),
        Event::Paused { by, due } => journal.push_reserved(Event::Paused { by: *by, due: *due }),
        Event::Ended { by, call, raised } => journal.push_reserved(Event::Ended {
            by: *by,
            call: *call,
            raised: *raised,
        }),
        Event::Closed { by, block } => journal.push_reserved(Event::Closed {
            by: *by,
            block: *block,
        }),
        Event::Completed { by } => journal.push_reserved(Event::Completed { by: *by }),
        Event::Ticked { now } => journal.push_reserved(Event::Ticked { now: *now }),
        other => push_forced(journal, other),
    }
}

/// Appends another event of the same content, of a kind that is forced.
fn push_forced(journal: &mut Journal, event: &Event)
    requires { 0 < journal.old.spare }
{
    match event {
        Event::Halted { task } => journal.push_reserved(Event::Halted { task: *task }),
        Event::Failed { call } => journal.push_reserved(Event::Failed { call: *call }),
        Event::Met { call, wait } => journal.push_reserved(Event::Met {
            call: *call,
            wait: *wait,
        }),
        Event::Cancelled { call } => journal.push_reserved(Event::Cancelled { call: *call }),
        Event::Passed { wait, way } => journal.push_reserved(Event::Passed {
            wait: *wait,
            way: *way,
        }),
        Event::Woken { pause } => journal.push_reserved(Event::Woken { pause: *pause }),
        Event::Activated { start, ok } => journal.push_reserved(Event::Activated {
            start: *start,
            ok: *ok,
        }),
        Event::Gone { task } => journal.push_reserved(Event::Gone { task: *task }),
        Event::Quit { master } => journal.push_reserved(Event::Quit { master: *master }),
        Event::Left { close } => journal.push_reserved(Event::Left { close: *close }),
        _ => {}
    }
}
