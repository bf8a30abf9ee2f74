//! Tables in which the phases of tasks follow an event.
ghost use Rattle.std.specs.Prelude.{◌≡◌, ◌<◌, length};
ghost use Rattle.ada_records.specs.Followed.{AreTabled};
ghost use Rattle.ada_records.specs.Noted.{HaveRecords};
ghost use Rattle.ada_records.specs.internal.Phasing.{AreRefreshed, refreshed};

use crate::Record;
use crate::phases::phase_of;
use ada_events::TaskNo;
use ada_tables::{Phase, Tables};

/// Gives a task the phase that its record tells, unless it is terminated.
pub(crate) fn refresh(tables: &mut Tables, task: TaskNo, kept: &Record)
    requires { task.0 < length tables.old.tasks }
    ensures { tables.new ≡ refreshed task.0 kept.now tables.old }
{
    match tables.phase(task) {
        Phase::Terminated => {}
        _ => tables.set_phase(task, phase_of(kept)),
    }
}

/// Gives each task of a list the phase that its record tells, unless it is terminated.
pub(crate) fn refresh_listed(tables: &mut Tables, records: &[Record], tasks: &[TaskNo])
    requires tabled { AreTabled tasks.now tables.old }
    requires recorded { HaveRecords tasks.now records.now }
    ensures { AreRefreshed records.now tasks.now tables.old tables.new (length tasks.now) }
{
    for i in 0..tasks.len() {
        refresh(tables, tasks[i], &records[tasks[i].0 as usize]);
    }
}
