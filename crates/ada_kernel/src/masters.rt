//! Tasks and the masters that they depend on (9.1, 9.4): creations, blocks, completion and termination.

ghost use Rattle.std.specs.Prelude.{◌≡◌, ◌∷◌, IfErr, OnOk, OnErr};
ghost use Rattle.ada_events.specs.Steps.{IsRefused};
ghost use Rattle.ada_events.specs.declared.event.Event.TheVariants.{Opened as OpenedEvent, Closed as ClosedEvent, Left as LeftEvent};
ghost use Rattle.ada_events.specs.declared.event.Event.TheVariants.{Completed as CompletedEvent, Gone as GoneEvent, Quit as QuitEvent};
ghost use Rattle.ada_events.specs.declared.names.Master.{Master as Owner};
ghost use Rattle.ada_events.specs.declared.request.Request.TheVariants as asked;
ghost use Rattle.ada_step_laws.specs.declared.row.Row.TheVariants as row;
ghost use Rattle.ada_kernel.specs.internal.Indexes.{IsIndexOf};
ghost use Rattle.ada_kernel.specs.internal.Stepping.{MayBegin, MayNote, HasNoted, MayTake, Takes};
ghost use Rattle.ada_steps.specs.Beginning.{HasBegun};
ghost use Rattle.ada_records.specs.TableEvents.{MakesTask};

use crate::index::Index;
use ada_admission::masters::{
    refusal_of_close, refusal_of_complete, refusal_of_create, refusal_of_open,
};
use ada_agenda::keeping::put_creation_keys;
use ada_events::{
    Event, Families, FamilyList, Journal, Master, Outcome, Refusal, TaskNo, member_position,
};
use ada_records::masters::{
    follow_completion, follow_creation, follow_leaving, follow_opening, follow_quitting,
    follow_termination,
};
use ada_records::records::{
    holder_at, record_completion, record_creation, record_hold, record_quit, record_release,
    record_termination,
};
use ada_records::suspension::follow_hold;
use ada_step_laws::Row;
use ada_steps::make_room;
use ada_triggers::endings::{after_completion, after_quit, after_termination};
use ada_triggers::kinds::after_close;
use ada_view::dependents;

impl Index {
    // Notes an event that makes a task. Fails with `OutOfMemory` alone, and then changes nothing.
    fn note_creation(
        &mut self,
        journal: &Journal,
        event: &Event,
        master: Master,
        families: &Families,
    ) -> Result<(), Refusal>
        requires may { MayNote self.old journal.now.events event.now }
        requires makes { MakesTask event.now master families.now }
        ensures ok { OnOk result (IsIndexOf self.new (event.now ∷ journal.now.events)) }
        ensures err { IfErr result (λ cause. cause ≡ Refusal.OutOfMemory) }
        ensures unchanged { OnErr result (IsIndexOf self.new journal.now.events) }
    {
        let tasks = usize::from(self.kept.tables.tasks());
        self.kept.records.reserve(1)?;
        follow_creation(&mut self.kept.tables, master, families)?;
        record_creation(&mut self.kept.records, journal.len() + 1);
        put_creation_keys(&mut self.agenda, tasks);
        Ok(())
    }

    // Makes a task that depends on a master.
    #[inline(never)]
    pub(crate) fn begin_create(
        &mut self,
        journal: &mut Journal,
        by: TaskNo,
        master: Master,
        families: &Families,
    ) -> Result<(), Refusal>
        requires { MayBegin self.old journal.old.events }
        ensures ok { OnOk result
            (HasBegun journal.old (asked.Create by master families.now) journal.new) }
        ensures err { IfErr result (λ cause. IsRefused journal.old.events
            (asked.Create by master families.now) cause journal.new.events) }
        ensures stands { IsIndexOf self.new journal.new.events }
    {
        let listed = families.as_slice();
        if let Some(cause) = refusal_of_create(&self.view(journal), by, master, listed) {
            return Err(cause);
        }
        make_room(journal)?;
        let under = self.view(journal).frame(by);
        let declared = FamilyList::from_slice(journal.allocator(), listed)?;
        let event = Event::Created {
            by,
            under,
            master,
            families: declared,
        };
        self.note_creation(journal, &event, master, families)?;
        journal.push_reserved(event);
        Ok(())
    }

    // Notes that a task opens a block.
    fn note_opening(&mut self, journal: &Journal, by: TaskNo)
        requires { (under : Owner) × MayNote self.old journal.now.events (OpenedEvent by under) }
        ensures { (under : Owner) → HasNoted journal.now.events (OpenedEvent by under) self.new }
    {
        let kept = &mut self.kept;
        follow_opening(&mut kept.tables, by, journal.len() + 1);
    }

    // Opens a block.
    #[inline(never)]
    pub(crate) fn begin_open(&mut self, journal: &mut Journal, by: TaskNo) -> Result<(), Refusal>
        requires { MayBegin self.old journal.old.events }
        ensures ok { OnOk result (HasBegun journal.old (asked.Open by) journal.new) }
        ensures err { IfErr result (λ cause.
            IsRefused journal.old.events (asked.Open by) cause journal.new.events) }
        ensures stands { IsIndexOf self.new journal.new.events }
    {
        if let Some(cause) = refusal_of_open(&self.view(journal), by) {
            return Err(cause);
        }
        make_room(journal)?;
        let under = self.view(journal).frame(by);
        self.note_opening(journal, by);
        journal.push_reserved(Event::Opened { by, under });
        Ok(())
    }

    // Notes that a task closes a block.
    fn note_close(&mut self, journal: &Journal, by: TaskNo, block: u32)
        requires { MayNote self.old journal.now.events (ClosedEvent by block) }
        ensures { IsIndexOf self.new (ClosedEvent by block ∷ journal.now.events) }
    {
        let kept = &mut self.kept;
        let view = kept.view(journal);
        after_close(&mut self.agenda, &mut self.unstarted, &view, block);
        let records = kept.records.as_mut_slice();
        record_hold(records, by, journal.len() + 1, false);
        follow_hold(&mut kept.tables, records, by);
    }

    // Closes a task's innermost block.
    #[inline(never)]
    pub(crate) fn begin_close(&mut self, journal: &mut Journal, by: TaskNo) -> Result<(), Refusal>
        requires { MayBegin self.old journal.old.events }
        ensures ok { OnOk result (HasBegun journal.old (asked.Close by) journal.new) }
        ensures err { IfErr result (λ cause.
            IsRefused journal.old.events (asked.Close by) cause journal.new.events) }
        ensures stands { IsIndexOf self.new journal.new.events }
    {
        if let Some(cause) = refusal_of_close(&self.view(journal), by) {
            return Err(cause);
        }
        make_room(journal)?;
        let block = member_position(self.view(journal).innermost(by));
        self.note_close(journal, by, block);
        journal.push_reserved(Event::Closed { by, block });
        Ok(())
    }

    // Notes that a block is left.
    fn note_leaving(&mut self, journal: &Journal, close: u32)
        requires { MayNote self.old journal.now.events (LeftEvent close) }
        ensures { IsIndexOf self.new (LeftEvent close ∷ journal.now.events) }
    {
        let task = holder_at(journal, close);
        let kept = &mut self.kept;
        let records = kept.records.as_mut_slice();
        record_release(records, task, Outcome::BlockLeft);
        follow_leaving(&mut kept.tables, records, task);
    }

    // Lets the block be left that is closed at a position (9.4), where all its dependents are terminated.
    #[inline(never)]
    pub(crate) fn leave(&mut self, journal: &mut Journal, close: u32) -> bool
        requires { MayTake self.old journal.old row.Leaving close }
        ensures { Takes self.old journal.old row.Leaving close result self.new journal.new }
    {
        if !self.view(journal).leaves(close) {
            return false;
        }
        self.note_leaving(journal, close);
        journal.push_reserved(Event::Left { close });
        true
    }

    // Notes that a task completes.
    fn note_completion(&mut self, journal: &Journal, by: TaskNo)
        requires { MayNote self.old journal.now.events (CompletedEvent by) }
        ensures { IsIndexOf self.new (CompletedEvent by ∷ journal.now.events) }
    {
        let kept = &mut self.kept;
        let view = kept.view(journal);
        after_completion(&mut self.agenda, &mut self.unstarted, &view, by);
        let records = kept.records.as_mut_slice();
        record_completion(records, by);
        follow_completion(&mut kept.tables, records, by);
    }

    // Completes a task.
    #[inline(never)]
    pub(crate) fn begin_complete(
        &mut self,
        journal: &mut Journal,
        by: TaskNo,
    ) -> Result<(), Refusal>
        requires { MayBegin self.old journal.old.events }
        ensures ok { OnOk result (HasBegun journal.old (asked.Complete by) journal.new) }
        ensures err { IfErr result (λ cause.
            IsRefused journal.old.events (asked.Complete by) cause journal.new.events) }
        ensures stands { IsIndexOf self.new journal.new.events }
    {
        if let Some(cause) = refusal_of_complete(&self.view(journal), by) {
            return Err(cause);
        }
        make_room(journal)?;
        self.note_completion(journal, by);
        journal.push_reserved(Event::Completed { by });
        Ok(())
    }

    // Notes that a task terminates by itself.
    #[inline(always)]
    fn note_termination(&mut self, journal: &Journal, task: TaskNo)
        requires { MayNote self.old journal.now.events (GoneEvent task) }
        ensures { IsIndexOf self.new (GoneEvent task ∷ journal.now.events) }
    {
        let kept = &mut self.kept;
        let view = kept.view(journal);
        after_termination(&mut self.agenda, &view, task);
        let records = kept.records.as_mut_slice();
        record_termination(records, task);
        follow_termination(&mut kept.tables, records, task);
    }

    // Lets the task of that number terminate by itself (9.3, 9.4), where it is to.
    #[tactic(auto, using(ada_view::proofs::Strangers::no_end))]
    #[inline(never)]
    pub(crate) fn terminate(&mut self, journal: &mut Journal, key: u32) -> bool
        requires { MayTake self.old journal.old row.Terminating key }
        ensures { Takes self.old journal.old row.Terminating key result self.new journal.new }
    {
        let Some(task) = self.view(journal).task(key) else {
            return false;
        };
        if !self.view(journal).terminates(task) {
            return false;
        }
        self.note_termination(journal, task);
        journal.push_reserved(Event::Gone { task });
        self.drop_key(Row::Terminating, key);
        true
    }

    // Notes that all that depend on a master terminate together.
    #[inline(never)]
    fn note_quit(&mut self, journal: &Journal, master: Master)
        requires { MayNote self.old journal.now.events (QuitEvent master) }
        ensures { IsIndexOf self.new (QuitEvent master ∷ journal.now.events) }
    {
        let kept = &mut self.kept;
        let view = kept.view(journal);
        let dependents = dependents(&view, master);
        after_quit(&mut self.agenda, &mut self.unstarted, &view, master);
        let records = kept.records.as_mut_slice();
        record_quit(records, dependents.as_slice());
        follow_quitting(&mut kept.tables, records, dependents.as_slice());
    }

    // Lets all terminate together that depend on the body of the task of that number (9.4), where they are to.
    #[tactic(auto, using(ada_view::proofs::Strangers::no_quitting))]
    #[inline(never)]
    pub(crate) fn quit_body(&mut self, journal: &mut Journal, key: u32) -> bool
        requires { MayTake self.old journal.old row.QuittingBody key }
        ensures { Takes self.old journal.old row.QuittingBody key result self.new journal.new }
    {
        let Some(task) = self.view(journal).task(key) else {
            return false;
        };
        if !self.view(journal).quits_body(task) {
            return false;
        }
        let master = Master::Body(task);
        self.note_quit(journal, master);
        journal.push_reserved(Event::Quit { master });
        true
    }

    // Lets all terminate together that depend on the block at a position (9.4), where they are to.
    #[inline(never)]
    pub(crate) fn quit_block(&mut self, journal: &mut Journal, block: u32) -> bool
        requires { MayTake self.old journal.old row.QuittingBlock block }
        ensures { Takes self.old journal.old row.QuittingBlock block result self.new journal.new }
    {
        if !self.view(journal).quits_block(block) {
            return false;
        }
        let master = Master::Block(block);
        self.note_quit(journal, master);
        journal.push_reserved(Event::Quit { master });
        true
    }
}
