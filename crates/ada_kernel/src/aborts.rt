//! Aborts, and the halts that they force (9.10).

ghost use Rattle.std.specs.Prelude.{◌∷◌, IfErr, OnOk};
ghost use Rattle.ada_events.specs.Steps.{IsRefused};
ghost use Rattle.ada_events.specs.declared.event.Event.TheVariants.{Aborted as AbortedEvent, Halted as HaltedEvent};
ghost use Rattle.ada_events.specs.declared.names.TaskNo.{TaskNo as Number};
ghost use Rattle.ada_events.specs.declared.request.Request.TheVariants as asked;
ghost use Rattle.ada_step_laws.specs.declared.row.Row.TheVariants as row;
ghost use Rattle.ada_kernel.specs.internal.Indexes.{IsIndexOf};
ghost use Rattle.ada_kernel.specs.internal.Stepping.{MayBegin, MayNote, HasNoted, MayTake, Takes};
ghost use Rattle.ada_steps.specs.Beginning.{HasBegun};

use crate::index::Index;
use ada_admission::aborts::refusal_of_abort;
use ada_events::{Event, Journal, Refusal, TaskList, TaskNo, Tasks};
use ada_records::aborts::follow_halt;
use ada_records::records::{record_abort, record_halt};
use ada_step_laws::Row;
use ada_steps::make_room;
use ada_triggers::endings::after_halt;
use ada_triggers::kinds::after_abort;
use ada_view::hit;

impl Index {
    // Notes that tasks are aborted, with all that depend on them.
    fn note_abort(&mut self, journal: &Journal, tasks: &[TaskNo])
        requires { IsIndexOf self.old journal.now.events }
        ensures { (by : Number) → HasNoted journal.now.events (AbortedEvent by tasks.now) self.new }
    {
        let kept = &mut self.kept;
        let view = kept.view(journal);
        let hit = hit(&view, tasks);
        after_abort(&mut self.agenda, &view, hit.as_slice());
        let records = kept.records.as_mut_slice();
        record_abort(records, hit.as_slice());
    }

    // Aborts tasks.
    #[inline(never)]
    pub(crate) fn begin_abort(
        &mut self,
        journal: &mut Journal,
        by: TaskNo,
        tasks: &Tasks,
    ) -> Result<(), Refusal>
        requires { MayBegin self.old journal.old.events }
        ensures ok { OnOk result (HasBegun journal.old (asked.Abort by tasks.now) journal.new) }
        ensures err { IfErr result (λ cause.
            IsRefused journal.old.events (asked.Abort by tasks.now) cause journal.new.events) }
        ensures stands { IsIndexOf self.new journal.new.events }
    {
        let named = tasks.as_slice();
        if let Some(cause) = refusal_of_abort(&self.view(journal), by, named) {
            return Err(cause);
        }
        make_room(journal)?;
        let tasks = TaskList::from_slice(journal.allocator(), named)?;
        self.note_abort(journal, named);
        journal.push_reserved(Event::Aborted { by, tasks });
        Ok(())
    }

    // Notes that a task is halted.
    #[inline(always)]
    fn note_halt(&mut self, journal: &Journal, task: TaskNo)
        requires { MayNote self.old journal.now.events (HaltedEvent task) }
        ensures { IsIndexOf self.new (HaltedEvent task ∷ journal.now.events) }
    {
        let kept = &mut self.kept;
        let view = kept.view(journal);
        after_halt(&mut self.agenda, &mut self.unstarted, &view, task);
        let records = kept.records.as_mut_slice();
        record_halt(records, task);
        follow_halt(&mut kept.tables, records, task);
    }

    // Halts the task of that number (9.10), where it is to be halted.
    #[tactic(auto, using(ada_view::proofs::Strangers::no_halt))]
    #[inline(never)]
    pub(crate) fn halt(&mut self, journal: &mut Journal, key: u32) -> bool
        requires { MayTake self.old journal.old row.Halting key }
        ensures { Takes self.old journal.old row.Halting key result self.new journal.new }
    {
        let Some(task) = self.view(journal).task(key) else {
            return false;
        };
        if !self.view(journal).halts(task) {
            return false;
        }
        self.note_halt(journal, task);
        journal.push_reserved(Event::Halted { task });
        self.drop_key(Row::Halting, key);
        true
    }
}
