//! The kernel, on what is kept of its journal: no request and no query searches the journal.
ghost use Rattle.std.specs.Prelude.{◌≡◌, [], IfOk, IfErr};
ghost use Rattle.std.specs.Bool.{then_some};
ghost use Rattle.ada_events.specs.Lawful.{IsLawful, IsSettled};
ghost use Rattle.ada_events.specs.Steps.{IsAccepted, IsRefused};
ghost use Rattle.ada_events.specs.Tasks.{task_count, has_task};
ghost use Rattle.ada_events.specs.Phases.{is_terminated, is_running};
ghost use Rattle.ada_events.specs.Outcomes.{outcome_of};
ghost use Rattle.ada_events.specs.Attributes.{is_callable, own_count, is_finished};
ghost use Rattle.ada_events.specs.Slots.{slot_of};
ghost use Rattle.ada_events.specs.Boards.{board_of};
ghost use Rattle.ada_laws.specs.Laws.{KeepsTheLaws};
ghost use Rattle.ada_view.specs.Views.{IsRecordIfAny};

use crate::copying::copy_journal;
use crate::index::Index;
use ada_events::{Board, Entry, Journal, Outcome, Refusal, Request, TaskNo};
use ada_records::Record;
use ada_steps::step;
use ada_view::boards::board;
use ada_view::counts::count;
use ada_view::slots::slot;
use ada_view::{View, queries};
use std::alloc::Global;
use std::marker::Model;

/// A kernel. Contracts see it as its journal, the newest event first.
#[derive(Drop)]
pub struct Kernel {
    journal: Journal,
    index: Index,
}

impl Model for Kernel {
    ghost use Rattle.std.specs.Prelude.{List};
    ghost use Rattle.ada_events.specs.declared.event.Event.{Event};
    ghost use Rattle.ada_events.specs.Lawful.{IsLawful, IsSettled};
    ghost use Rattle.ada_kernel.specs.internal.Indexes.{IsIndexOf};

    ghost Value = { List Event };

    ghost view = { λ k. k.journal.events };

    ghost invariant = { λ k. IsLawful k.journal.events
        × IsSettled k.journal.events × IsIndexOf k.index k.journal.events };
}

impl Kernel {
    /// A kernel with an empty journal, whose events will lie in memory of `alloc`. Fails with
    /// `OutOfMemory` alone.
    pub fn new(alloc: Global) -> Result<Self, Refusal>
        ensures ok { IfOk result (λ kernel. kernel ≡ []) }
        ensures err { IfErr result (λ cause. cause ≡ Refusal.OutOfMemory) }
    {
        let index = Index::new(alloc)?;
        let journal = Journal::new(alloc);
        Ok(Kernel { journal, index })
    }

    /// A copy of the kernel, in memory of `alloc`: what is asked of the one changes nothing in the other. Fails with
    /// `OutOfMemory` alone.
    pub fn copy(&self, alloc: Global) -> Result<Self, Refusal>
        ensures ok { IfOk result (λ copy. copy ≡ self.now) }
        ensures err { IfErr result (λ cause. cause ≡ Refusal.OutOfMemory) }
    {
        let index = self.index.copy(alloc)?;
        let journal = copy_journal(alloc, &self.journal)?;
        Ok(Kernel { journal, index })
    }

    /// Answers a request. Accepted, its event is appended and then exactly the steps that it forces, in
    /// order, and the answer is the position of its event, from 1. Refused, the answer is the first
    /// cause that applies, and nothing is changed; `OutOfMemory` is answered only where no other cause
    /// applies and a growth was refused.
    // Inlined, so that a request isn't copied on its way to who answers it.
    #[inline(always)]
    pub fn step(&mut self, request: Request) -> Result<u32, Refusal>
        ensures ok { IfOk result (λ at. IsAccepted self.old request at self.new) }
        ensures err { IfErr result (λ cause. IsRefused self.old request cause self.new) }
        ensures lawful { IsLawful self.new }
        ensures settled { IsSettled self.new }
    {
        step(&mut self.index, &mut self.journal, &request)
    }

    /// The journal: every event so far, lawful and settled. It keeps the six laws.
    #[tactic(auto, using(ada_laws::proofs::KeepingLaws::journals_keep_the_laws))]
    pub fn journal(&self) -> &Journal
        ensures events { result.now.events ≡ self.now }
        ensures lawful { IsLawful self.now }
        ensures settled { IsSettled self.now }
        ensures laws { KeepsTheLaws self.now }
    {
        &self.journal
    }

    /// The journal with what is kept of it: records, tables and the moment, for a crate that reads more of
    /// them than the queries below tell.
    pub fn view(&self) -> View<'_>
        ensures { result ≡ self.now }
    {
        self.index.view(&self.journal)
    }

    /// How many tasks there are, the main program counted: 1 to 256.
    pub fn tasks(&self) -> u16
        ensures { result ≡ task_count self.now }
    {
        queries::tasks(&self.view())
    }

    /// The outcome of a task; none where there is no such task.
    pub fn outcome(&self, task: TaskNo) -> Option<Outcome>
        ensures { result ≡ then_some (has_task self.now task.0) (outcome_of self.now task.0) }
    {
        queries::outcome(&self.view(), task)
    }

    /// The attribute CALLABLE of a task (9.9); none where there is no such task.
    pub fn callable(&self, task: TaskNo) -> Option<bool>
        ensures { result ≡ then_some (has_task self.now task.0) (is_callable self.now task.0) }
    {
        queries::callable(&self.view(), task)
    }

    /// The attribute TERMINATED of a task (9.9); none where there is no such task.
    pub fn terminated(&self, task: TaskNo) -> Option<bool>
        ensures { result ≡ then_some (has_task self.now task.0) (is_terminated self.now task.0) }
    {
        queries::terminated(&self.view(), task)
    }

    /// Whether a task is running: started, not ended, and not suspended. None where there is no such
    /// task.
    pub fn running(&self, task: TaskNo) -> Option<bool>
        ensures { result ≡ then_some (has_task self.now task.0) (is_running self.now task.0) }
    {
        queries::running(&self.view(), task)
    }

    /// What is kept of a task: how far it has come, and where it is suspended (9.3 to 9.7, 9.10); none
    /// where there is no such task.
    pub fn record(&self, task: TaskNo) -> Option<Record>
        ensures { IsRecordIfAny self.now task.0 result }
    {
        queries::known(&self.view(), task)
    }

    /// The attribute COUNT of an entry of the asking task's own (9.9), at most 256. Refused for the first
    /// that applies of `UnknownTask`, `NotRunning`, `NoSuchFamily` and `ConstraintError`.
    pub fn count(&self, by: TaskNo, entry: Entry) -> Result<u16, Refusal>
        ensures { result ≡ own_count self.now by.0 entry }
    {
        count(&self.view(), by, entry)
    }

    /// The slot of an entry, below 1,024: all entries of all tasks are numbered from 0 in order of task,
    /// family and index. None where there is no such task or entry.
    pub fn slot(&self, task: TaskNo, entry: Entry) -> Option<u16>
        ensures { result ≡ slot_of self.now task.0 entry }
    {
        slot(&self.view(), task, entry)
    }

    /// The attributes of all tasks and entries.
    pub fn board(&self) -> Board
        ensures { result ≡ board_of self.now }
    {
        board(&self.view())
    }

    /// Whether the main program is terminated.
    pub fn finished(&self) -> bool
        ensures { result ≡ is_finished self.now }
    {
        queries::finished(&self.view())
    }
}
