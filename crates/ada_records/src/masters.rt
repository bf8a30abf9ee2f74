//! Tables that follow the making of a task, blocks that are opened and left, and tasks that complete and terminate
//! (9.1, 9.4).
ghost use Rattle.std.specs.Prelude.{◌≡◌, ◌+◌, ◌<◌, ◌≤◌, length, OnOk, OnErr, IfErr};
ghost use Rattle.std.specs.Option.{ForSome};
ghost use Rattle.ada_events.specs.Entries.{entries_in};
ghost use Rattle.ada_events.specs.Nests.{innermost};
ghost use Rattle.ada_events.specs.declared.event.Event.TheVariants.{Completed as CompletedEvent, Gone as GoneEvent};
ghost use Rattle.ada_events.specs.declared.limits.TheConstants.{MOST_MEMBERS, MOST_SLOTS, MOST_TASKS};
ghost use Rattle.ada_events.specs.declared.names.Member.TheVariants.{Block};
ghost use Rattle.ada_tables.specs.Dependents.{task_at, IsFresh, IsIdle, IsOpen};
ghost use Rattle.ada_records.specs.Followed.{AreTabled, HaveFollowed, HaveFollowedCreation, HaveFollowedLeaving};
ghost use Rattle.ada_records.specs.Followed.{HaveFollowedOpening, HaveFollowedQuit};
ghost use Rattle.ada_records.specs.Noted.{HaveRecords};

use crate::Record;
use crate::phasing::{refresh, refresh_listed};
use ada_events::{Families, Master, Member, Refusal, TaskNo};
use ada_tables::Tables;

/// Lets tables follow an event that makes a task (9.1). Fails with `OutOfMemory` alone, and then changes nothing.
pub fn follow_creation(
    tables: &mut Tables,
    master: Master,
    families: &Families,
) -> Result<(), Refusal>
    requires few { length tables.old.tasks < MOST_TASKS }
    requires slots { length tables.old.queues + entries_in families.now ≤ MOST_SLOTS }
    requires master { IsOpen tables.old.tasks master }
    ensures ok { OnOk result (HaveFollowedCreation master families.now tables.old tables.new) }
    ensures err { IfErr result (λ cause. cause ≡ Refusal.OutOfMemory) }
    ensures unchanged { OnErr result (tables.new ≡ tables.old) }
{
    tables.add_task(master, families)?;
    Ok(())
}

/// Lets tables follow the opening of a block at a position, which its task comes into (9.4).
pub fn follow_opening(tables: &mut Tables, by: TaskNo, block: u32)
    requires tabled { by.0 < length tables.old.tasks }
    requires shallow { length (task_at tables.old.tasks by.0).nest < MOST_MEMBERS }
    requires new { IsFresh (Block block) tables.old.tasks }
    ensures { HaveFollowedOpening by block tables.old tables.new }
{
    tables.push_nest(by, Member::Block(block));
}

/// Lets tables follow the leaving of the block whose close holds a task up, which goes on (9.4).
pub fn follow_leaving(tables: &mut Tables, records: &[Record], holder: TaskNo)
    requires tabled { holder.0 < length tables.old.tasks }
    requires recorded { holder.0 < length records.now }
    requires inside { 0 < length (task_at tables.old.tasks holder.0).nest }
    requires idle { ForSome (innermost (task_at tables.old.tasks holder.0).nest)
        (IsIdle tables.old.tasks) }
    ensures { HaveFollowedLeaving holder.0 records.now tables.old tables.new }
{
    tables.pop_nest(holder);
    refresh(tables, holder, &records[holder.0 as usize]);
}

/// Lets tables follow the completion of a task, which changes its phase and no more (9.4).
pub fn follow_completion(tables: &mut Tables, records: &[Record], by: TaskNo)
    requires tabled { by.0 < length tables.old.tasks }
    requires recorded { by.0 < length records.now }
    ensures { HaveFollowed (CompletedEvent by) records.now tables.old tables.new }
{
    refresh(tables, by, &records[by.0 as usize]);
}

/// Lets tables follow the termination of a task by itself, which changes its phase and no more (9.4).
pub fn follow_termination(tables: &mut Tables, records: &[Record], task: TaskNo)
    requires tabled { task.0 < length tables.old.tasks }
    requires recorded { task.0 < length records.now }
    ensures { HaveFollowed (GoneEvent task) records.now tables.old tables.new }
{
    refresh(tables, task, &records[task.0 as usize]);
}

/// Lets tables follow the termination of all that depend on a master, of whom the list has those that aren't terminated
/// (9.4).
pub fn follow_quitting(tables: &mut Tables, records: &[Record], dependents: &[TaskNo])
    requires tabled { AreTabled dependents.now tables.old }
    requires recorded { HaveRecords dependents.now records.now }
    ensures { HaveFollowedQuit dependents.now records.now tables.old tables.new }
{
    refresh_listed(tables, records, dependents);
}
