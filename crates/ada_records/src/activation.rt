//! Tables that follow the start of an activation, and the end of a task's own (9.3).
ghost use Rattle.std.specs.Prelude.{◌<◌, Bool, length};
ghost use Rattle.ada_events.specs.declared.event.Event.TheVariants.{Started as StartedEvent, Elaborated as ElaboratedEvent};
ghost use Rattle.ada_records.specs.Followed.{AreTabled, HaveFollowed};
ghost use Rattle.ada_records.specs.Noted.{HaveRecords};

use crate::Record;
use crate::phasing::{refresh, refresh_listed};
use ada_events::TaskNo;
use ada_tables::Tables;

/// Lets tables follow the start of an activation, which changes the phases of the tasks that it names and of the one
/// that waits for them (9.3).
pub fn follow_start(tables: &mut Tables, records: &[Record], by: TaskNo, tasks: &[TaskNo])
    requires by { by.0 < length tables.old.tasks }
    requires recorded { by.0 < length records.now }
    requires tabled { AreTabled tasks.now tables.old }
    requires tasks { HaveRecords tasks.now records.now }
    ensures { HaveFollowed (StartedEvent by tasks.now) records.now tables.old tables.new }
{
    refresh_listed(tables, records, tasks);
    refresh(tables, by, &records[by.0 as usize]);
}

/// Lets tables follow the end of a task's own activation, by which it completes if it failed (9.3).
pub fn follow_elaboration(tables: &mut Tables, records: &[Record], task: TaskNo)
    requires tabled { task.0 < length tables.old.tasks }
    requires recorded { task.0 < length records.now }
    ensures { (ok : Bool) →
        HaveFollowed (ElaboratedEvent task ok) records.now tables.old tables.new }
{
    refresh(tables, task, &records[task.0 as usize]);
}
