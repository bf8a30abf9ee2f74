//! Tables that follow the halt of a task (9.10).
ghost use Rattle.std.specs.Prelude.{◌<◌, length};
ghost use Rattle.ada_events.specs.declared.event.Event.TheVariants.{Halted as HaltedEvent};
ghost use Rattle.ada_records.specs.Followed.{HaveFollowed};

use crate::Record;
use crate::phasing::refresh;
use crate::queues::leave_queue;
use ada_events::TaskNo;
use ada_tables::Tables;

/// Lets tables follow the halt of a task, whose call leaves the queue in which it waits (9.10).
pub fn follow_halt(tables: &mut Tables, records: &[Record], task: TaskNo)
    requires tabled { task.0 < length tables.old.tasks }
    requires recorded { task.0 < length records.now }
    ensures { HaveFollowed (HaltedEvent task) records.now tables.old tables.new }
{
    leave_queue(tables, task);
    refresh(tables, task, &records[task.0 as usize]);
}
