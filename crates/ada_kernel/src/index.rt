//! What is kept of a journal.

ghost use Rattle.std.specs.Prelude.{◌≡◌, [], IfOk, IfErr};
ghost use Rattle.ada_kernel.specs.internal.Indexes.{IsIndexOf};
ghost use Rattle.ada_view.specs.Views.{IsKept};

use ada_agenda::Agenda;
use ada_events::{Journal, Refusal};
use ada_records::Record;
use ada_tables::Tables;
use ada_triggers::{FirstUnstarted, NextDue};
use ada_view::View;
use std::alloc::Global;

/// What a view of a journal takes beside it: a record of each task, the tables, and the moment in milliseconds.
#[derive(Drop)]
pub(crate) struct Kept {
    pub(crate) records: Vec<Record>,
    pub(crate) tables: Tables,
    pub(crate) moment: i64,
}

impl Kept {
    /// The journal with it.
    #[inline(always)]
    pub(crate) fn view<'a>(&'a self, journal: &'a Journal) -> View<'a>
        requires { IsKept journal.now.events
            self.now.records.items self.now.tables self.now.moment }
        ensures { result ≡ journal.now.events }
    {
        View::new(journal, &self.records, &self.tables, self.moment)
    }
}

/// What is kept of a journal beside the journal: what a view of it takes, the agenda of where a step may be forced,
/// the next moment for which a task is suspended, and the first task that may not be started.
#[derive(Drop)]
pub struct Index {
    pub(crate) kept: Kept,
    pub(crate) agenda: Agenda,
    pub(crate) next_due: NextDue,
    pub(crate) unstarted: FirstUnstarted,
}

impl Index {
    /// What is kept of the empty journal, in memory of `alloc`. Fails with `OutOfMemory` alone.
    pub fn new(alloc: Global) -> Result<Self, Refusal>
        ensures ok { IfOk result (λ index. IsIndexOf index []) }
        ensures err { IfErr result (λ cause. cause ≡ Refusal.OutOfMemory) }
    {
        let mut records = Vec::new(alloc);
        records.reserve(1)?;
        records.push_reserved(Record::of_main());
        let tables = Tables::new(alloc)?;
        let agenda = Agenda::new(alloc)?;
        let next_due = NextDue::new();
        let unstarted = FirstUnstarted::new();
        let kept = Kept {
            records,
            tables,
            moment: 0,
        };
        Ok(Index {
            kept,
            agenda,
            next_due,
            unstarted,
        })
    }

    /// The journal with what is kept of it.
    pub fn view<'a>(&'a self, journal: &'a Journal) -> View<'a>
        requires { IsIndexOf self.now journal.now.events }
        ensures { result ≡ journal.now.events }
    {
        self.kept.view(journal)
    }
}
