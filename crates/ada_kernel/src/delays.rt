//! Delay statements, and the moment (9.6), in milliseconds.

ghost use Rattle.std.specs.Prelude.{◌≡◌, ◌∷◌, IfErr, OnOk};
ghost use Rattle.ada_events.specs.Steps.{IsRefused};
ghost use Rattle.ada_events.specs.declared.event.Event.TheVariants.{Paused as PausedEvent, Ticked as TickedEvent, Woken as WokenEvent};
ghost use Rattle.ada_events.specs.declared.request.Request.TheVariants as asked;
ghost use Rattle.ada_step_laws.specs.declared.row.Row.TheVariants as row;
ghost use Rattle.ada_kernel.specs.internal.Indexes.{IsIndexOf};
ghost use Rattle.ada_kernel.specs.internal.Stepping.{MayBegin, MayNote, MayTake, Takes};
ghost use Rattle.ada_steps.specs.Beginning.{HasBegun};

use crate::index::Index;
use ada_admission::delays::{refusal_of_delay, refusal_of_tick};
use ada_agenda::keeping::put_delay_keys;
use ada_events::{Event, Journal, Outcome, Refusal, TaskNo, due_after};
use ada_records::records::{holder_at, record_hold, record_release};
use ada_records::suspension::{follow_hold, follow_release};
use ada_steps::make_room;
use ada_triggers::moments::after_tick;

impl Index {
    // Notes that a task is delayed until a moment.
    fn note_delay(&mut self, journal: &Journal, by: TaskNo, due: i64)
        requires { MayNote self.old journal.now.events (PausedEvent by due) }
        ensures { IsIndexOf self.new (PausedEvent by due ∷ journal.now.events) }
    {
        let kept = &mut self.kept;
        let at = journal.len() + 1;
        put_delay_keys(&mut self.agenda, at);
        self.next_due = self.next_due.with(Some(due));
        let records = kept.records.as_mut_slice();
        record_hold(records, by, at, false);
        follow_hold(&mut kept.tables, records, by);
    }

    // Delays a task by a duration.
    #[inline(never)]
    pub(crate) fn begin_delay(
        &mut self,
        journal: &mut Journal,
        by: TaskNo,
        duration: i64,
    ) -> Result<(), Refusal>
        requires { MayBegin self.old journal.old.events }
        ensures ok { OnOk result (HasBegun journal.old (asked.Delay by duration) journal.new) }
        ensures err { IfErr result (λ cause.
            IsRefused journal.old.events (asked.Delay by duration) cause journal.new.events) }
        ensures stands { IsIndexOf self.new journal.new.events }
    {
        if let Some(cause) = refusal_of_delay(&self.view(journal), by, duration) {
            return Err(cause);
        }
        make_room(journal)?;
        let due = due_after(self.view(journal).moment(), duration);
        self.note_delay(journal, by, due);
        journal.push_reserved(Event::Paused { by, due });
        Ok(())
    }

    // Notes that a delay is over.
    fn note_waking(&mut self, journal: &Journal, pause: u32)
        requires { MayNote self.old journal.now.events (WokenEvent pause) }
        ensures { IsIndexOf self.new (WokenEvent pause ∷ journal.now.events) }
    {
        let task = holder_at(journal, pause);
        let kept = &mut self.kept;
        let records = kept.records.as_mut_slice();
        record_release(records, task, Outcome::Awake);
        follow_release(&mut kept.tables, records, task);
    }

    // Ends the delay at a position (9.6), where its moment has come.
    #[inline(never)]
    pub(crate) fn wake(&mut self, journal: &mut Journal, pause: u32) -> bool
        requires { MayTake self.old journal.old row.Waking pause }
        ensures { Takes self.old journal.old row.Waking pause result self.new journal.new }
    {
        if !self.view(journal).wakes(pause) {
            return false;
        }
        self.note_waking(journal, pause);
        journal.push_reserved(Event::Woken { pause });
        true
    }

    // Notes that the moment moves.
    fn note_tick(&mut self, journal: &Journal, event: &Event, now: i64)
        requires may { MayNote self.old journal.now.events event.now }
        requires ticks { event.now ≡ TickedEvent now }
        ensures { IsIndexOf self.new (event.now ∷ journal.now.events) }
    {
        let kept = &mut self.kept;
        let view = kept.view(journal);
        self.next_due = after_tick(&mut self.agenda, self.next_due, &view, event, now);
        kept.moment = now;
    }

    // Moves the moment.
    #[inline(never)]
    pub(crate) fn begin_tick(&mut self, journal: &mut Journal, now: i64) -> Result<(), Refusal>
        requires { MayBegin self.old journal.old.events }
        ensures ok { OnOk result (HasBegun journal.old (asked.Tick now) journal.new) }
        ensures err { IfErr result (λ cause.
            IsRefused journal.old.events (asked.Tick now) cause journal.new.events) }
        ensures stands { IsIndexOf self.new journal.new.events }
    {
        if let Some(cause) = refusal_of_tick(&self.view(journal), now) {
            return Err(cause);
        }
        make_room(journal)?;
        let event = Event::Ticked { now };
        self.note_tick(journal, &event, now);
        journal.push_reserved(event);
        Ok(())
    }
}
