//! What a close and an abort add to an agenda.

ghost use Rattle.std.specs.Prelude.{◌<◌, List};
ghost use Rattle.ada_events.specs.declared.event.Event.TheVariants.{Closed as ClosedEvent, Aborted as AbortedEvent};
ghost use Rattle.ada_events.specs.declared.names.Master.TheVariants.{Block as BlockMaster};
ghost use Rattle.ada_events.specs.declared.names.TaskNo.{TaskNo as Number};
ghost use Rattle.ada_view.specs.Views.{IsHeldBySome};
ghost use Rattle.ada_triggers.specs.Bounds.{IsStartBound};
ghost use Rattle.ada_agenda.specs.declared.numbers.TheConstants.{MOST_KEYS};
ghost use Rattle.ada_agenda.specs.Keeping.{KeepsUp};
ghost use Rattle.ada_records.specs.Records as records;

use crate::sweeps::put_all_hit;
use crate::unstarted::{FirstUnstarted, put_all_unstarted};
use ada_agenda::Agenda;
use ada_agenda::keeping::{put, put_if};
use ada_events::{Master, TaskNo};
use ada_step_laws::Row;
use ada_view::{View, named};

/// Notes that a task closes a block (9.4): that it leaves the block, that the block's dependents quit, where some of
/// them live, and that tasks go that were never started, may be forced.
pub fn after_close(agenda: &mut Agenda, first: &mut FirstUnstarted, view: &View, block: u32)
    requires held { IsHeldBySome view.now (BlockMaster block) }
    requires fits { block < MOST_KEYS }
    requires bound { IsStartBound view.now first.old }
    ensures keeps_up { (by : Number)
        → KeepsUp view.now (ClosedEvent by block) agenda.old agenda.new }
    ensures bound { IsStartBound view.now first.new }
{
    put(agenda, Row::Leaving, view.next_position() as usize);
    let lives = view.has_live_dependents(Master::Block(block));
    put_if(agenda, Row::QuittingBlock, block as usize, lives);
    put_all_unstarted(agenda, first, view);
}

/// Notes that tasks are aborted (9.10): that those are halted whom the abort hits, and that calls to them fail, may be
/// forced.
pub fn after_abort(agenda: &mut Agenda, view: &View, hit: &[TaskNo])
    ensures { (by : Number) (tasks : List Number)
        → records.ListsLive view.now hit.now (records.is_hit view.now tasks)
        → KeepsUp view.now (AbortedEvent by tasks) agenda.old agenda.new }
{
    put_all_hit(agenda, view, &named(hit));
}
