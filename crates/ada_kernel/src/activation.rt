//! Activation (9.3): its start, the end of a task's own, and the end of the whole.

ghost use Rattle.std.specs.Prelude.{◌∷◌, IfErr, OnOk};
ghost use Rattle.ada_events.specs.Steps.{IsRefused};
ghost use Rattle.ada_events.specs.declared.event.Event.TheVariants.{Started as StartedEvent, Elaborated as ElaboratedEvent, Activated as ActivatedEvent};
ghost use Rattle.ada_events.specs.declared.request.Request.TheVariants as asked;
ghost use Rattle.ada_step_laws.specs.declared.row.Row.TheVariants as row;
ghost use Rattle.ada_kernel.specs.internal.Indexes.{IsIndexOf};
ghost use Rattle.ada_kernel.specs.internal.Stepping.{MayBegin, MayNote, MayTake, Takes};
ghost use Rattle.ada_steps.specs.Beginning.{HasBegun};

use crate::index::Index;
use ada_admission::activation::{refusal_of_activate, refusal_of_elaborated};
use ada_agenda::keeping::put_start_keys;
use ada_events::{Event, Journal, Refusal, TaskList, TaskNo, Tasks};
use ada_records::activation::{follow_elaboration, follow_start};
use ada_records::records::{
    activation_outcome, holder_at, record_elaboration, record_release, record_start,
};
use ada_records::suspension::follow_release;
use ada_steps::make_room;
use ada_triggers::endings::after_elaboration;

impl Index {
    // Notes that a task starts the activation of tasks, and waits for its end.
    fn note_start(&mut self, journal: &Journal, by: TaskNo, tasks: &[TaskNo])
        requires { MayNote self.old journal.now.events (StartedEvent by tasks.now) }
        ensures { IsIndexOf self.new (StartedEvent by tasks.now ∷ journal.now.events) }
    {
        let kept = &mut self.kept;
        let at = journal.len() + 1;
        put_start_keys(&mut self.agenda, at);
        let records = kept.records.as_mut_slice();
        record_start(records, by, at, tasks);
        follow_start(&mut kept.tables, records, by, tasks);
    }

    // Starts the activation of tasks.
    #[inline(never)]
    pub(crate) fn begin_activate(
        &mut self,
        journal: &mut Journal,
        by: TaskNo,
        tasks: &Tasks,
    ) -> Result<(), Refusal>
        requires { MayBegin self.old journal.old.events }
        ensures ok { OnOk result (HasBegun journal.old (asked.Activate by tasks.now) journal.new) }
        ensures err { IfErr result (λ cause.
            IsRefused journal.old.events (asked.Activate by tasks.now) cause journal.new.events) }
        ensures stands { IsIndexOf self.new journal.new.events }
    {
        let named = tasks.as_slice();
        if let Some(cause) = refusal_of_activate(&self.view(journal), by, named) {
            return Err(cause);
        }
        make_room(journal)?;
        let tasks = TaskList::from_slice(journal.allocator(), named)?;
        self.note_start(journal, by, named);
        journal.push_reserved(Event::Started { by, tasks });
        Ok(())
    }

    // Notes that a task ends its own activation, by an exception where `ok` is false.
    fn note_elaboration(&mut self, journal: &Journal, by: TaskNo, ok: bool)
        requires { MayNote self.old journal.now.events (ElaboratedEvent by ok) }
        ensures { IsIndexOf self.new (ElaboratedEvent by ok ∷ journal.now.events) }
    {
        let kept = &mut self.kept;
        let view = kept.view(journal);
        after_elaboration(&mut self.agenda, &mut self.unstarted, &view, by, ok);
        let records = kept.records.as_mut_slice();
        record_elaboration(records, by, ok);
        follow_elaboration(&mut kept.tables, records, by);
    }

    // Ends a task's own activation, by an exception where `ok` is false.
    #[inline(never)]
    pub(crate) fn begin_elaborated(
        &mut self,
        journal: &mut Journal,
        by: TaskNo,
        ok: bool,
    ) -> Result<(), Refusal>
        requires { MayBegin self.old journal.old.events }
        ensures ok { OnOk result (HasBegun journal.old (asked.Elaborated by ok) journal.new) }
        ensures err { IfErr result (λ cause.
            IsRefused journal.old.events (asked.Elaborated by ok) cause journal.new.events) }
        ensures stands { IsIndexOf self.new journal.new.events }
    {
        if let Some(cause) = refusal_of_elaborated(&self.view(journal), by) {
            return Err(cause);
        }
        make_room(journal)?;
        self.note_elaboration(journal, by, ok);
        journal.push_reserved(Event::Elaborated { by, ok });
        Ok(())
    }

    // Notes that an activation ends, and goes past the tasks that were started, so that nothing later has to.
    fn note_activation(&mut self, journal: &Journal, start: u32, ok: bool)
        requires { MayNote self.old journal.now.events (ActivatedEvent start ok) }
        ensures { IsIndexOf self.new (ActivatedEvent start ok ∷ journal.now.events) }
    {
        let task = holder_at(journal, start);
        let kept = &mut self.kept;
        let view = kept.view(journal);
        self.unstarted.advance(&view);
        let records = kept.records.as_mut_slice();
        record_release(records, task, activation_outcome(ok));
        follow_release(&mut kept.tables, records, task);
    }

    // Ends the activation that started at a position (9.3), where all its tasks are done.
    #[inline(never)]
    pub(crate) fn activate(&mut self, journal: &mut Journal, start: u32) -> bool
        requires { MayTake self.old journal.old row.Activating start }
        ensures { Takes self.old journal.old row.Activating start result self.new journal.new }
    {
        let Some(ok) = self.view(journal).activates(start) else {
            return false;
        };
        self.note_activation(journal, start, ok);
        journal.push_reserved(Event::Activated { start, ok });
        true
    }
}
