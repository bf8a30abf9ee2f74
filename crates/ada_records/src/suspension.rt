//! Tables that follow what holds a task up and what lets it go on (9.3, 9.4, 9.6, 9.7.1).
ghost use Rattle.std.specs.Prelude.{◌<◌, length};
ghost use Rattle.ada_records.specs.Followed.{HaveFollowedHold, HaveFollowedRelease};

use crate::Record;
use crate::phasing::refresh;
use ada_events::TaskNo;
use ada_tables::Tables;

/// Lets tables follow a task's wait, delay or close, which holds the task up and changes no more (9.4, 9.6, 9.7.1).
#[inline(always)]
pub fn follow_hold(tables: &mut Tables, records: &[Record], by: TaskNo)
    requires tabled { by.0 < length tables.old.tasks }
    requires recorded { by.0 < length records.now }
    ensures { HaveFollowedHold by.0 records.now tables.old tables.new }
{
    refresh(tables, by, &records[by.0 as usize]);
}

/// Lets tables follow the end of a wait without a rendezvous, of a delay, or of an activation: the task goes on that is
/// suspended there, and no more changes (9.3, 9.6, 9.7.1).
pub fn follow_release(tables: &mut Tables, records: &[Record], task: TaskNo)
    requires tabled { task.0 < length tables.old.tasks }
    requires recorded { task.0 < length records.now }
    ensures { HaveFollowedRelease task.0 records.now tables.old tables.new }
{
    refresh(tables, task, &records[task.0 as usize]);
}
