//! Selective waits (9.7.1), and how they end without a call.

ghost use Rattle.std.specs.Prelude.{◌∷◌, IfErr, OnOk};
ghost use Rattle.ada_events.specs.Steps.{IsRefused};
ghost use Rattle.ada_events.specs.declared.event.Event.TheVariants.{Waiting as WaitingEvent, Passed as PassedEvent};
ghost use Rattle.ada_events.specs.declared.request.Request.TheVariants as asked;
ghost use Rattle.ada_step_laws.specs.declared.row.Row.TheVariants as row;
ghost use Rattle.ada_kernel.specs.internal.Indexes.{IsIndexOf};
ghost use Rattle.ada_kernel.specs.internal.Stepping.{MayBegin, MayNote, MayTake, Takes};
ghost use Rattle.ada_steps.specs.Beginning.{HasBegun};

use crate::index::Index;
use ada_admission::waits::refusal_of_wait;
use ada_events::waits::tail_due;
use ada_events::{
    ChoiceList, Choices, Event, EventTail, Journal, Refusal, Tail, TaskNo, Way, asked_tail,
};
use ada_records::records::{holder_at, is_open_terminate, record_hold, record_release, took};
use ada_records::suspension::{follow_hold, follow_release};
use ada_steps::make_room;
use ada_triggers::calls::after_wait;

impl Index {
    // Notes a selective wait.
    fn note_wait(
        &mut self,
        journal: &Journal,
        by: TaskNo,
        pick: u32,
        choices: &ChoiceList,
        tail: &EventTail,
    )
        requires { MayNote self.old journal.now.events (WaitingEvent by pick choices.now tail.now) }
        ensures { IsIndexOf self.new
            (WaitingEvent by pick choices.now tail.now ∷ journal.now.events) }
    {
        let kept = &mut self.kept;
        let view = kept.view(journal);
        after_wait(&mut self.agenda, &view, by, pick, choices.as_slice(), tail);
        self.next_due = self.next_due.with(tail_due(tail));
        let records = kept.records.as_mut_slice();
        record_hold(records, by, journal.len() + 1, is_open_terminate(tail));
        follow_hold(&mut kept.tables, records, by);
    }

    // Begins a selective wait.
    #[inline(never)]
    pub(crate) fn begin_wait(
        &mut self,
        journal: &mut Journal,
        by: TaskNo,
        choices: &Choices,
        tail: &Tail,
        pick: u32,
    ) -> Result<(), Refusal>
        requires { MayBegin self.old journal.old.events }
        ensures ok { OnOk result
            (HasBegun journal.old (asked.Wait by choices.now tail.now pick) journal.new) }
        ensures err { IfErr result (λ cause. IsRefused journal.old.events
            (asked.Wait by choices.now tail.now pick) cause journal.new.events) }
        ensures stands { IsIndexOf self.new journal.new.events }
    {
        let listed = choices.as_slice();
        if let Some(cause) = refusal_of_wait(&self.view(journal), by, listed, tail) {
            return Err(cause);
        }
        make_room(journal)?;
        let choices = ChoiceList::from_slice(journal.allocator(), listed)?;
        let tail = asked_tail(journal.allocator(), self.view(journal).moment(), tail)?;
        self.note_wait(journal, by, pick, &choices, &tail);
        journal.push_reserved(Event::Waiting {
            by,
            pick,
            choices,
            tail,
        });
        Ok(())
    }

    // Notes that a wait ends without a call.
    fn note_passing(&mut self, journal: &Journal, wait: u32, way: Way)
        requires { MayNote self.old journal.now.events (PassedEvent wait way) }
        ensures { IsIndexOf self.new (PassedEvent wait way ∷ journal.now.events) }
    {
        let task = holder_at(journal, wait);
        let kept = &mut self.kept;
        let records = kept.records.as_mut_slice();
        record_release(records, task, took(way));
        follow_release(&mut kept.tables, records, task);
    }

    // Lets the wait at a position end without a call (9.7.1), where there is a way.
    #[inline(never)]
    pub(crate) fn pass(&mut self, journal: &mut Journal, wait: u32) -> bool
        requires { MayTake self.old journal.old row.Passing wait }
        ensures { Takes self.old journal.old row.Passing wait result self.new journal.new }
    {
        let Some(way) = self.view(journal).passes(wait) else {
            return false;
        };
        self.note_passing(journal, wait, way);
        journal.push_reserved(Event::Passed { wait, way });
        true
    }
}
