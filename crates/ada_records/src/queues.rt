//! Tables in whose queues a task waits no longer.
ghost use Rattle.std.specs.Prelude.{◌≡◌, ◌<◌, ◌≤◌, length};
ghost use Rattle.ada_tables.specs.Queues.{without};

use ada_events::TaskNo;
use ada_tables::Tables;

/// Takes a task's call out of the queue in which it waits, if it waits.
#[inline(always)]
pub(crate) fn leave_queue(tables: &mut Tables, task: TaskNo)
    requires { task.0 < length tables.old.tasks }
    ensures queues { tables.new ≡ record tables.old {
      queues = without task.0 tables.old.queues;
      spare = tables.new.spare;
    } }
    ensures spare { tables.old.spare ≤ tables.new.spare }
{
    if tables.waits(task) {
        tables.unlink(task);
    }
}
