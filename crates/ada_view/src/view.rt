//! A journal, and what is kept of it.

ghost use Rattle.std.specs.Prelude.{◌≡◌, ◌+◌, ◌<◌, Some, length};
ghost use Rattle.std.specs.Option.{option_and_then, option_copied};
ghost use Rattle.ada_events.specs.Calls.{is_pending};
ghost use Rattle.ada_events.specs.Lawful.{IsLawful};
ghost use Rattle.ada_events.specs.Says.{creation_in, held_in};
ghost use Rattle.ada_events.specs.Search.{event_at};
ghost use Rattle.ada_events.specs.Tasks.{creation_of, moment};
ghost use Rattle.ada_records.specs.Records.{IsRecordOf};
ghost use Rattle.ada_view.specs.Views.{IsKept};
ghost use Rattle.ada_tables.specs.Standing.{StandFor};
ghost use Rattle.ada_agenda.specs.declared.numbers.TheConstants.{MOST_KEYS};

use ada_events::{Event, Journal, TaskNo};
use ada_records::Record;
use ada_tables::Tables;
use std::marker::Model;

/// A journal with the records and the tables that stand for it, and its moment in milliseconds. Contracts see it as the
/// events of the journal, the newest first.
#[derive(Drop)]
pub struct View<'a> {
    journal: &'a Journal,
    records: &'a [Record],
    tables: &'a Tables,
    moment: i64,
}

impl<'a> Model for View<'a> {
    ghost use Rattle.std.specs.Prelude.{List};
    ghost use Rattle.ada_events.specs.declared.event.Event.{Event};
    ghost use Rattle.ada_view.specs.Views.{IsKept};
    ghost use Rattle.ada_tables.specs.Standing.{StandFor};

    ghost Value = { List Event };

    ghost view = { λ s. s.journal.now.events };

    ghost invariant = { λ s.
        IsKept s.journal.now.events s.records.now s.tables.now s.moment };
}

impl<'a> View<'a> {
    /// A journal, and what is kept of it: the records, the tables and the moment.
    pub fn new(journal: &'a Journal, records: &'a [Record], tables: &'a Tables, moment: i64) -> Self
        requires { IsKept journal.now.events records.now tables.now moment }
        ensures { result ≡ journal.now.events }
    {
        View {
            journal,
            records,
            tables,
            moment,
        }
    }

    /// How many events there are.
    pub fn len(&self) -> u32
        ensures { result ≡ length self.now }
    {
        self.journal.len()
    }

    /// The position of the event that comes next, which is a key of an agenda.
    pub fn next_position(&self) -> u32
        ensures next { result ≡ length self.now + 1 }
        ensures fits { result < MOST_KEYS }
    {
        self.journal.len() + 1
    }

    /// The event at a position, from 1; none at 0 and past the end.
    pub fn event(&self, at: u32) -> Option<&Event>
        ensures event { option_copied result ≡ event_at self.now at }
        ensures lawful { IsLawful self.now }
    {
        self.journal.get(at)
    }

    /// The event by which a task was made (9.1); none for the main program and for no task.
    pub fn creation(&self, task: TaskNo) -> Option<&Event>
        ensures { option_and_then creation_in (option_copied result) ≡ creation_of self.now task.0 }
    {
        self.journal.get(self.record(task).created)
    }

    /// The moment, in milliseconds.
    pub fn moment(&self) -> i64
        ensures { result ≡ moment self.now }
    {
        self.moment
    }

    /// The tables.
    pub fn tables(&self) -> &Tables
        ensures stand { StandFor result.now self.now }
        ensures lawful { IsLawful self.now }
    {
        self.tables
    }

    /// What is kept of a task, or of none.
    pub fn record(&self, task: TaskNo) -> Record
        ensures right { IsRecordOf self.now task.0 result }
        ensures lawful { IsLawful self.now }
    {
        match self.records.get(task.0 as usize) {
            Some(kept) => *kept,
            None => Record::of_new_task(0),
        }
    }

    /// Whether the task that is held up by the event at a position is neither released, nor has it ended.
    pub fn is_pending(&self, at: u32, by: TaskNo) -> bool
        requires { option_and_then held_in (event_at self.now at) ≡ Some by.0 }
        ensures pending { result ≡ is_pending self.now at by.0 }
        ensures lawful { IsLawful self.now }
    {
        self.record(by).suspension.at == at
    }
}
