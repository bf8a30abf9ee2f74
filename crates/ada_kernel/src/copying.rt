//! Copies of what a kernel is made of.

ghost use Rattle.std.specs.Prelude.{◌≡◌, List, IfOk, IfErr};
ghost use Rattle.ada_events.specs.declared.event.Event.{Event as EventValue};
ghost use Rattle.ada_kernel.specs.internal.Indexes.{IsIndexOf};

use crate::index::{Index, Kept};
use ada_events::{
    ChoiceList, DueList, Dues, Event, EventTail, FamilyList, Journal, Refusal, TaskList,
};
use std::alloc::{AllocError, Global};

/// For so many events there is room in a copied journal: for all that one request appends, and a few requests more.
const ROOM: u32 = 1_024 + 64;

impl Kept {
    // A copy, in memory of `alloc`.
    fn copy(&self, alloc: Global) -> Result<Self, Refusal>
        ensures records { IfOk result (λ copy. copy.records.items ≡ self.now.records.items) }
        ensures tables { IfOk result (λ copy.
            copy.tables ≡ record self.now.tables { spare = copy.tables.spare }) }
        ensures moment { IfOk result (λ copy. copy.moment ≡ self.now.moment) }
        ensures err { IfErr result (λ cause. cause ≡ Refusal.OutOfMemory) }
    {
        let records = Vec::from_slice(alloc, &self.records)?;
        let tables = self.tables.copy(alloc)?;
        Ok(Kept {
            records,
            tables,
            moment: self.moment,
        })
    }
}

impl Index {
    // A copy, in memory of `alloc`. Fails with `OutOfMemory` alone.
    pub(crate) fn copy(&self, alloc: Global) -> Result<Self, Refusal>
        ensures ok { IfOk result (λ copy. (journal : List EventValue)
            → IsIndexOf self.now journal → IsIndexOf copy journal) }
        ensures err { IfErr result (λ cause. cause ≡ Refusal.OutOfMemory) }
    {
        let kept = self.kept.copy(alloc)?;
        let agenda = self.agenda.copy(alloc)?;
        Ok(Index {
            kept,
            agenda,
            next_due: self.next_due,
            unstarted: self.unstarted,
        })
    }
}

/// A copy of a journal, in memory of `alloc`, with room for what a few requests append. Fails with `OutOfMemory` alone.
pub(crate) fn copy_journal(alloc: Global, journal: &Journal) -> Result<Journal, Refusal>
    ensures ok { IfOk result (λ copy. copy.events ≡ journal.now.events) }
    ensures err { IfErr result (λ cause. cause ≡ Refusal.OutOfMemory) }
{
    let events = journal.as_slice();
    let mut copy = Journal::new(alloc);
    copy.reserve(journal.len().saturating_add(ROOM))?;
    for event in events {
        copy.push_reserved(copy_event(alloc, event)?);
    }
    Ok(copy)
}

// A copy of the last part of a wait.
fn copy_tail(alloc: Global, tail: &EventTail) -> Result<EventTail, AllocError>
    ensures { IfOk result (λ copy. copy ≡ tail.now) }
{
    Ok(match tail {
        EventTail::Nothing => EventTail::Nothing,
        EventTail::Otherwise => EventTail::Otherwise,
        EventTail::Delays(dues) => {
            let dues = Dues::from_slice(dues.get().as_slice());
            EventTail::Delays(DueList::new(alloc, dues)?)
        }
        EventTail::Terminate(guard) => EventTail::Terminate(*guard),
    })
}

// A copy of an event.
fn copy_event(alloc: Global, event: &Event) -> Result<Event, AllocError>
    ensures { IfOk result (λ copy. copy ≡ event.now) }
{
    Ok(match event {
        Event::Opened { by, under } => Event::Opened {
            by: *by,
            under: *under,
        },
        Event::Created {
            by,
            under,
            master,
            families,
        } => Event::Created {
            by: *by,
            under: *under,
            master: *master,
            families: FamilyList::from_slice(alloc, families.as_slice())?,
        },
        Event::Started { by, tasks } => Event::Started {
            by: *by,
            tasks: TaskList::from_slice(alloc, tasks.as_slice())?,
        },
        Event::Elaborated { by, ok } => Event::Elaborated { by: *by, ok: *ok },
        Event::Called {
            by,
            callee,
            entry,
            patience,
            due,
        } => Event::Called {
            by: *by,
            callee: *callee,
            entry: *entry,
            patience: *patience,
            due: *due,
        },
        Event::Waiting {
            by,
            pick,
            choices,
            tail,
        } => Event::Waiting {
            by: *by,
            pick: *pick,
            choices: ChoiceList::from_slice(alloc, choices.as_slice())?,
            tail: copy_tail(alloc, tail)?,
        },
        Event::Paused { by, due } => Event::Paused { by: *by, due: *due },
        Event::Ended { by, call, raised } => Event::Ended {
            by: *by,
            call: *call,
            raised: *raised,
        },
        Event::Closed { by, block } => Event::Closed {
            by: *by,
            block: *block,
        },
        Event::Completed { by } => Event::Completed { by: *by },
        Event::Aborted { by, tasks } => Event::Aborted {
            by: *by,
            tasks: TaskList::from_slice(alloc, tasks.as_slice())?,
        },
        Event::Ticked { now } => Event::Ticked { now: *now },
        Event::Halted { task } => Event::Halted { task: *task },
        Event::Failed { call } => Event::Failed { call: *call },
        Event::Met { call, wait } => Event::Met {
            call: *call,
            wait: *wait,
        },
        Event::Cancelled { call } => Event::Cancelled { call: *call },
        Event::Passed { wait, way } => Event::Passed {
            wait: *wait,
            way: *way,
        },
        Event::Woken { pause } => Event::Woken { pause: *pause },
        Event::Activated { start, ok } => Event::Activated {
            start: *start,
            ok: *ok,
        },
        Event::Gone { task } => Event::Gone { task: *task },
        Event::Quit { master } => Event::Quit { master: *master },
        Event::Left { close } => Event::Left { close: *close },
    })
}
