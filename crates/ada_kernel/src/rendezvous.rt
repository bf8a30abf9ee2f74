//! The rendezvous (9.5, 9.7.2, 9.7.3): calls, accept statements and their ends, and what becomes of a call. Most events
//! are of these kinds, and what they change is handed in, so that nothing is asked of the event again.

ghost use Rattle.std.specs.Prelude.{◌≡◌, ◌<◌, ℕ, [], ◌∷◌, true, IfErr, OnOk};
ghost use Rattle.ada_events.specs.Steps.{IsRefused};
ghost use Rattle.ada_events.specs.Tasks.{task_count};
ghost use Rattle.ada_events.specs.declared.event.Event.TheVariants.{Ended as EndedEvent, Failed as FailedEvent};
ghost use Rattle.ada_events.specs.declared.event.Event.TheVariants.{Met as MetEvent, Waiting as WaitingEvent, Cancelled as CancelledEvent};
ghost use Rattle.ada_events.specs.declared.names.Entry.{Entry as EntryName};
ghost use Rattle.ada_events.specs.declared.request.Request.TheVariants as asked;
ghost use Rattle.ada_step_laws.specs.declared.row.Row.TheVariants as row;
ghost use Rattle.ada_kernel.specs.internal.Indexes.{IsIndexOf};
ghost use Rattle.ada_kernel.specs.internal.Stepping.{MayBegin, MayNote, HasNoted, MayTake, Takes};
ghost use Rattle.ada_steps.specs.Beginning.{HasBegun};
ghost use Rattle.ada_step_laws.specs.Kinds.{due_in};
ghost use Rattle.ada_records.specs.TableEvents.{MakesCall};
ghost use Rattle.ada_events.specs.declared.event.EventTail.TheVariants.{Nothing as NoTail};
ghost use Rattle.ada_events.specs.declared.request.Tail.TheVariants.{Nothing};

use crate::index::Index;
use ada_admission::rendezvous::{refusal_of_accept, refusal_of_call, refusal_of_end};
use ada_events::{
    Choice, ChoiceList, Entry, Event, EventTail, Journal, Outcome, Patience, Refusal, TaskNo,
    call_due, member_position,
};
use ada_records::records::{holder_at, record_end, record_hold, record_meeting, record_release};
use ada_records::rendezvous::{
    callee_at, follow_call, follow_cancellation, follow_end, follow_failure, follow_meeting,
};
use ada_records::suspension::follow_hold;
use ada_step_laws::Row;
use ada_steps::make_room;
use ada_triggers::calls;

impl Index {
    // Notes a call, for which there is room.
    #[inline(always)]
    fn note_call(
        &mut self,
        journal: &Journal,
        event: &Event,
        by: TaskNo,
        callee: TaskNo,
        entry: Entry,
        due: Option<i64>,
    )
        requires may { MayNote self.old journal.now.events event.now }
        requires calls { MakesCall event.now by callee entry }
        requires due { due ≡ due_in event.now }
        requires room { 0 < self.old.kept.tables.spare }
        ensures { IsIndexOf self.new (event.now ∷ journal.now.events) }
    {
        let kept = &mut self.kept;
        let view = kept.view(journal);
        calls::after_call(&mut self.agenda, &view, event, callee);
        self.next_due = self.next_due.with(due);
        let records = kept.records.as_mut_slice();
        let at = journal.len() + 1;
        record_hold(records, by, at, false);
        follow_call(&mut kept.tables, records, by, callee, entry, at);
    }

    // Answers a call (9.5).
    #[inline(never)]
    pub(crate) fn begin_call(
        &mut self,
        journal: &mut Journal,
        by: TaskNo,
        callee: TaskNo,
        entry: Entry,
        patience: Patience,
    ) -> Result<(), Refusal>
        requires { MayBegin self.old journal.old.events }
        ensures ok { OnOk result
            (HasBegun journal.old (asked.Call by callee entry patience) journal.new) }
        ensures err { IfErr result (λ cause. IsRefused journal.old.events
            (asked.Call by callee entry patience) cause journal.new.events) }
        ensures stands { IsIndexOf self.new journal.new.events }
    {
        if let Some(cause) = refusal_of_call(&self.view(journal), by, callee, entry, patience) {
            return Err(cause);
        }
        make_room(journal)?;
        self.kept.tables.reserve_call()?;
        let due = call_due(self.view(journal).moment(), patience);
        let event = Event::Called {
            by,
            callee,
            entry,
            patience,
            due,
        };
        self.note_call(journal, &event, by, callee, entry, due);
        journal.push_reserved(event);
        Ok(())
    }

    // Notes an accept statement: a wait with one open choice and nothing else.
    #[inline(always)]
    fn note_accept(&mut self, journal: &Journal, by: TaskNo)
        requires stands { IsIndexOf self.old journal.now.events }
        requires known { by.0 < task_count journal.now.events }
        ensures { (pick : ℕ) (entry : EntryName) → HasNoted journal.now.events
            (WaitingEvent by pick (record { guard = true; entry = entry } ∷ []) NoTail) self.new }
    {
        let kept = &mut self.kept;
        let view = kept.view(journal);
        calls::after_accept(&mut self.agenda, &view);
        let records = kept.records.as_mut_slice();
        record_hold(records, by, journal.len() + 1, false);
        follow_hold(&mut kept.tables, records, by);
    }

    // Answers an accept statement (9.5): a wait with one open choice and nothing else.
    #[inline(never)]
    pub(crate) fn begin_accept(
        &mut self,
        journal: &mut Journal,
        by: TaskNo,
        entry: Entry,
        pick: u32,
    ) -> Result<(), Refusal>
        requires { MayBegin self.old journal.old.events }
        ensures ok { OnOk result (HasBegun journal.old
            (asked.Wait by (record { guard = true; entry = entry } ∷ []) Nothing pick)
            journal.new) }
        ensures err { IfErr result (λ cause. IsRefused journal.old.events
            (asked.Wait by (record { guard = true; entry = entry } ∷ []) Nothing pick) cause
            journal.new.events) }
        ensures stands { IsIndexOf self.new journal.new.events }
    {
        if let Some(cause) = refusal_of_accept(&self.view(journal), by, entry) {
            return Err(cause);
        }
        make_room(journal)?;
        let choice = Choice { guard: true, entry };
        let choices = ChoiceList::from_slice(journal.allocator(), &[choice])?;
        self.note_accept(journal, by);
        journal.push_reserved(Event::Waiting {
            by,
            pick,
            choices,
            tail: EventTail::Nothing,
        });
        Ok(())
    }

    // Notes the end of a rendezvous, by an exception where `raised` is true (11.5).
    #[inline(always)]
    fn note_end(&mut self, journal: &Journal, by: TaskNo, call: u32, raised: bool)
        requires { MayNote self.old journal.now.events (EndedEvent by call raised) }
        ensures { IsIndexOf self.new (EndedEvent by call raised ∷ journal.now.events) }
    {
        let caller = holder_at(journal, call);
        let kept = &mut self.kept;
        let view = kept.view(journal);
        calls::after_end(&mut self.agenda, &view, call);
        let records = kept.records.as_mut_slice();
        record_end(records, by, caller, raised);
        follow_end(&mut kept.tables, records, by, caller, call);
    }

    // Answers the end of an accept statement (9.5), by an exception where `raised` is true (11.5).
    #[inline(never)]
    pub(crate) fn begin_end(
        &mut self,
        journal: &mut Journal,
        by: TaskNo,
        raised: bool,
    ) -> Result<(), Refusal>
        requires { MayBegin self.old journal.old.events }
        ensures ok { OnOk result (HasBegun journal.old (asked.End by raised) journal.new) }
        ensures err { IfErr result (λ cause.
            IsRefused journal.old.events (asked.End by raised) cause journal.new.events) }
        ensures stands { IsIndexOf self.new journal.new.events }
    {
        if let Some(cause) = refusal_of_end(&self.view(journal), by) {
            return Err(cause);
        }
        make_room(journal)?;
        let call = member_position(self.view(journal).innermost(by));
        self.note_end(journal, by, call, raised);
        journal.push_reserved(Event::Ended { by, call, raised });
        Ok(())
    }

    // Notes that a wait takes a call.
    #[inline(always)]
    fn note_meeting(&mut self, journal: &Journal, call: u32, wait: u32)
        requires { MayNote self.old journal.now.events (MetEvent call wait) }
        ensures { IsIndexOf self.new (MetEvent call wait ∷ journal.now.events) }
    {
        let caller = holder_at(journal, call);
        let acceptor = holder_at(journal, wait);
        let choice = self.view(journal).choice_met(wait);
        let kept = &mut self.kept;
        let records = kept.records.as_mut_slice();
        record_meeting(records, caller, acceptor, call, choice);
        follow_meeting(&mut kept.tables, records, call, caller, acceptor);
    }

    // Lets the wait at a position take a call (9.5, 9.7.1), where there is one.
    #[inline(never)]
    pub(crate) fn meet(&mut self, journal: &mut Journal, wait: u32) -> bool
        requires { MayTake self.old journal.old row.Meeting wait }
        ensures { Takes self.old journal.old row.Meeting wait result self.new journal.new }
    {
        let Some(call) = self.view(journal).meets(wait) else {
            return false;
        };
        self.note_meeting(journal, call, wait);
        journal.push_reserved(Event::Met { call, wait });
        self.drop_key(Row::Meeting, wait);
        true
    }

    // Notes that a call fails.
    #[inline(always)]
    fn note_failure(&mut self, journal: &Journal, call: u32)
        requires { MayNote self.old journal.now.events (FailedEvent call) }
        ensures { IsIndexOf self.new (FailedEvent call ∷ journal.now.events) }
    {
        let caller = holder_at(journal, call);
        let kept = &mut self.kept;
        let view = kept.view(journal);
        calls::after_failure(&mut self.agenda, &view, call);
        let records = kept.records.as_mut_slice();
        record_release(records, caller, Outcome::TaskingError);
        let callee = callee_at(journal, call);
        follow_failure(&mut kept.tables, records, callee, caller, call);
    }

    // Lets the call at a position fail (9.5, 9.10), where it is to fail.
    #[inline(never)]
    pub(crate) fn fail(&mut self, journal: &mut Journal, call: u32) -> bool
        requires { MayTake self.old journal.old row.Failing call }
        ensures { Takes self.old journal.old row.Failing call result self.new journal.new }
    {
        if !self.view(journal).fails(call) {
            return false;
        }
        self.note_failure(journal, call);
        journal.push_reserved(Event::Failed { call });
        self.drop_key(Row::Failing, call);
        true
    }

    // Notes that a call is cancelled.
    fn note_cancellation(&mut self, journal: &Journal, call: u32)
        requires { MayNote self.old journal.now.events (CancelledEvent call) }
        ensures { IsIndexOf self.new (CancelledEvent call ∷ journal.now.events) }
    {
        let caller = holder_at(journal, call);
        let kept = &mut self.kept;
        let view = kept.view(journal);
        calls::after_cancellation(&mut self.agenda, &view, call);
        let records = kept.records.as_mut_slice();
        record_release(records, caller, Outcome::Cancelled);
        follow_cancellation(&mut kept.tables, records, caller);
    }

    // Cancels the call at a position (9.7.2, 9.7.3), where it is to be cancelled.
    #[inline(never)]
    pub(crate) fn cancel(&mut self, journal: &mut Journal, call: u32) -> bool
        requires { MayTake self.old journal.old row.Cancelling call }
        ensures { Takes self.old journal.old row.Cancelling call result self.new journal.new }
    {
        if !self.view(journal).cancels(call) {
            return false;
        }
        self.note_cancellation(journal, call);
        journal.push_reserved(Event::Cancelled { call });
        true
    }
}
