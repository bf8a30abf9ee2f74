//! Trials of the tables.
ghost use Rattle.std.specs.Prelude.{IsTrue};
ghost use Rattle.ada_tables.specs.Dependents.{IsOpen};
ghost use Rattle.ada_events.specs.declared.names.Master.TheVariants as masters;

use crate::kernels::answer_of;
use crate::trial::{Answer, Trial};
use ada_events::{Families, Family, Master, Refusal, TaskNo};
use ada_tables::{Layers, Phase, Tables};
use std::alloc::Global;

const MAIN: TaskNo = TaskNo(0);

/// The calls of the tables that take memory.
#[derive(Clone, Copy, Debug, PartialEq, Eq)]
pub enum TableCall {
    New,
    AddTask,
    ReserveCall,
}

/// Tables, and the call that is made of them: that they are made, or on those with so many tasks beside the main
/// program's.
#[derive(Drop)]
pub struct TableTrial {
    alloc: Global,
    call: TableCall,
    tables: Option<Tables>,
    /// The number of the task that was added.
    added: Option<TaskNo>,
}

impl TableTrial {
    pub fn prepare(alloc: Global, call: TableCall, tasks: usize) -> TableTrial {
        let mut trial = TableTrial {
            alloc,
            call,
            tables: None,
            added: None,
        };
        if call != TableCall::New {
            let _ = trial.make();
        }
        for _ in 1..tasks {
            let _ = trial.add();
        }
        trial
    }

    fn make(&mut self) -> Result<(), Refusal> {
        self.tables = Some(Tables::new(self.alloc)?);
        Ok(())
    }

    // Adds a task with four entries under the main program.
    fn add(&mut self) -> Result<(), Refusal> {
        let families = [Family { low: 0, high: 0 }, Family { low: 1, high: 3 }];
        let declared = Families::from_slice(&families);
        let Some(tables) = &mut self.tables else {
            return Err(Refusal::UnknownTask);
        };
        let slots = u64::from(tables.slots());
        if tables.tasks() == 256
            || Family::entries_in(declared.as_slice()).saturating_add(slots) > 1024
            || !is_main_alive(tables)
        {
            return Err(Refusal::UnknownTask);
        }
        self.added = Some(tables.add_task(Master::Body(MAIN), &declared)?);
        Ok(())
    }

    fn reserve(&mut self) -> Result<(), Refusal> {
        match &mut self.tables {
            Some(tables) => tables.reserve_call(),
            None => Err(Refusal::UnknownTask),
        }
    }
}

// The main program isn't terminated.
fn is_main_alive(tables: &Tables) -> bool
    ensures { IsTrue result → IsOpen tables.now.tasks (masters.Body MAIN) }
{
    tables.tasks() > 0 && tables.phase(MAIN) != Phase::Terminated
}

impl Trial for TableTrial {
    fn call(&mut self) -> Answer {
        let outcome = match self.call {
            TableCall::New => self.make(),
            TableCall::AddTask => self.add(),
            TableCall::ReserveCall => self.reserve(),
        };
        answer_of(outcome.err())
    }

    fn go_on(&mut self) {
        let _ = self.add();
        let _ = self.reserve();
    }

    fn is_like(&self, other: &TableTrial) -> bool {
        let same = match (&self.tables, &other.tables) {
            (Some(tables), Some(other)) => are_same(tables, other),
            (None, None) => true,
            _ => false,
        };
        same && self.added == other.added
    }
}

/// Whether two tables answer every query alike.
fn are_same(tables: &Tables, other: &Tables) -> bool {
    tables.tasks() == other.tasks()
        && tables.slots() == other.slots()
        && (0..tables.slots()).all(|slot| is_same_slot(tables, other, slot))
        && (0..tables.tasks()).all(|task| is_same_task(tables, other, task))
}

fn is_same_slot(tables: &Tables, other: &Tables, slot: u16) -> bool {
    slot < tables.slots()
        && slot < other.slots()
        && tables.queue_len_at(slot) == other.queue_len_at(slot)
}

fn is_same_task(tables: &Tables, other: &Tables, number: u16) -> bool {
    let task = TaskNo(number);
    number < tables.tasks()
        && number < other.tasks()
        && tables.master(task) == other.master(task)
        && tables.families(task) == other.families(task)
        && tables.phase(task) == other.phase(task)
        && tables.waits(task) == other.waits(task)
        && is_same_nest(tables.nest(task), other.nest(task))
        && tables.unready_dependents(Master::Body(task))
            == other.unready_dependents(Master::Body(task))
}

fn is_same_nest(nest: &Layers, other: &Layers) -> bool {
    nest.len() == other.len() && (0..nest.len()).all(|place| nest.get(place) == other.get(place))
}
