//! Tables that follow the events of a rendezvous: a call, its beginning, its end, its failure and its cancellation
//! (9.5, 9.7.2, 9.7.3).
ghost use Rattle.std.specs.Prelude.{◌≡◌, ◌<◌, false, length};
ghost use Rattle.std.specs.Option.{option_map_or};
ghost use Rattle.ada_events.specs.Says.{call_in, call_at};
ghost use Rattle.ada_events.specs.declared.limits.TheConstants.{MOST_MEMBERS};
ghost use Rattle.ada_tables.specs.Dependents.{task_at};
ghost use Rattle.ada_tables.specs.Queues.{waits};
ghost use Rattle.ada_tables.specs.Tables.{HasEntry};
ghost use Rattle.ada_records.specs.Followed.{HaveFollowedCall, HaveFollowedCancellation, HaveFollowedEnd};
ghost use Rattle.ada_records.specs.Followed.{HaveFollowedFailure, HaveFollowedMeeting};

use crate::Record;
use crate::phasing::refresh;
use crate::queues::leave_queue;
use ada_events::{Entry, Event, Journal, Member, TaskNo};
use ada_tables::Tables;

// The task that a call calls; the main program where the event is no call.
#[tactic(auto, unfolding(ada_events::specs::Says::call_in))]
fn callee_in(event: &Event) -> TaskNo
    ensures { result.0 ≡ option_map_or (λ call. call.callee) (call_in event.now) 0 }
{
    match event {
        Event::Called { callee, .. } => *callee,
        _ => TaskNo(0),
    }
}

/// The task that the call at a position calls (9.5); the main program where no call stands there.
pub fn callee_at(journal: &Journal, at: u32) -> TaskNo
    ensures { result.0 ≡ option_map_or (λ call. call.callee) (call_at journal.now.events at) 0 }
{
    match journal.get(at) {
        Some(event) => callee_in(event),
        None => TaskNo(0),
    }
}

/// Lets tables follow a task's call of an entry at a position, which comes last in its queue and holds the task up
/// (9.5). There is room for one more call.
#[inline(always)]
pub fn follow_call(
    tables: &mut Tables,
    records: &[Record],
    by: TaskNo,
    callee: TaskNo,
    entry: Entry,
    at: u32,
)
    requires tabled { by.0 < length tables.old.tasks }
    requires recorded { by.0 < length records.now }
    requires entry { HasEntry tables.old.tasks callee.0 entry }
    requires idle { waits by.0 tables.old.queues ≡ false }
    requires room { 0 < tables.old.spare }
    ensures { HaveFollowedCall by callee entry at records.now tables.old tables.new }
{
    tables.enqueue_reserved(by, callee, entry, at);
    refresh(tables, by, &records[by.0 as usize]);
}

/// Lets tables follow the beginning of a rendezvous: the call served leaves its queue, and the acceptor comes into it
/// and goes on (9.5).
#[inline(always)]
pub fn follow_meeting(
    tables: &mut Tables,
    records: &[Record],
    call: u32,
    served: TaskNo,
    acceptor: TaskNo,
)
    requires served { served.0 < length tables.old.tasks }
    requires acceptor { acceptor.0 < length tables.old.tasks }
    requires recorded { acceptor.0 < length records.now }
    requires shallow { length (task_at tables.old.tasks acceptor.0).nest < MOST_MEMBERS }
    ensures { HaveFollowedMeeting served.0 acceptor.0 call records.now tables.old tables.new }
{
    leave_queue(tables, served);
    tables.push_nest(acceptor, Member::Rendezvous(call));
    refresh(tables, acceptor, &records[acceptor.0 as usize]);
}

/// Lets tables follow the end of a rendezvous by the task called, which leaves it and lets the caller go on (9.5). The
/// call left its queue when the rendezvous began.
#[inline(always)]
pub fn follow_end(tables: &mut Tables, records: &[Record], by: TaskNo, caller: TaskNo, call: u32)
    requires by { by.0 < length tables.old.tasks }
    requires caller { caller.0 < length tables.old.tasks }
    requires recorded { caller.0 < length records.now }
    ensures { HaveFollowedEnd by caller.0 call records.now tables.old tables.new }
{
    tables.cut_nest(by, call);
    refresh(tables, caller, &records[caller.0 as usize]);
}

/// Lets tables follow the failure of a call, which leaves its queue and ends its rendezvous, if it is in one, and lets
/// the caller go on (9.5, 9.10).
pub fn follow_failure(
    tables: &mut Tables,
    records: &[Record],
    callee: TaskNo,
    caller: TaskNo,
    call: u32,
)
    requires callee { callee.0 < length tables.old.tasks }
    requires caller { caller.0 < length tables.old.tasks }
    requires recorded { caller.0 < length records.now }
    ensures { HaveFollowedFailure callee.0 caller.0 call records.now tables.old tables.new }
{
    leave_queue(tables, caller);
    tables.cut_nest(callee, call);
    refresh(tables, caller, &records[caller.0 as usize]);
}

/// Lets tables follow the cancellation of a call, which leaves its queue and lets its task go on (9.7.2, 9.7.3).
pub fn follow_cancellation(tables: &mut Tables, records: &[Record], task: TaskNo)
    requires tabled { task.0 < length tables.old.tasks }
    requires recorded { task.0 < length records.now }
    ensures { HaveFollowedCancellation task.0 records.now tables.old tables.new }
{
    leave_queue(tables, task);
    refresh(tables, task, &records[task.0 as usize]);
}
