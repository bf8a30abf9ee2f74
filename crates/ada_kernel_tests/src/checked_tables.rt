//! The tables behind calls that look at each condition as they run, so that a test proves none.
ghost use Rattle.std.specs.Prelude.{◌≡◌, ℕ, ◌<◌, true, false, Some, IfOk, OnOk, MatchOption, length};
ghost use Rattle.ada_events.specs.Nests.{innermost};
ghost use Rattle.ada_events.specs.Holders.{holds};
ghost use Rattle.ada_tables.specs.Dependents.{task_at, live_dependents, is_terminated, Stands, IsOpen, IsFresh, IsIdle};
ghost use Rattle.ada_tables.specs.Queues as queues;
ghost use Rattle.ada_tables.specs.Tables.{HasEntry};

use ada_events::{Entry, Families, Family, Master, Member, Refusal, TaskNo};
use ada_reference::number_within;
use ada_tables::{Layers, Phase, Tables};
use std::alloc::Global;

/// The condition of a call that doesn't hold, or want of memory.
#[derive(Clone, Copy, Debug, PartialEq, Eq)]
pub enum Unmet {
    TaskUnknown,
    TaskTerminated,
    TooManyTasks,
    TooManyFamilies,
    TooManySlots,
    MasterUnknown,
    MasterTerminated,
    EntryUnknown,
    Waiting,
    NotWaiting,
    TooDeep,
    BlockStands,
    InNothing,
    HasLiveDependents,
    OutOfMemory,
}

// The task of that number is there.
fn known(tables: &Tables, task: TaskNo) -> Result<(), Unmet>
    ensures { OnOk result (task.0 < length tables.now.tasks) }
{
    if task.0 < tables.tasks() {
        Ok(())
    } else {
        Err(Unmet::TaskUnknown)
    }
}

// The task is there, and isn't terminated.
fn unterminated(tables: &Tables, task: TaskNo) -> Result<(), Unmet>
    ensures known { OnOk result (task.0 < length tables.now.tasks) }
    ensures live { OnOk result (is_terminated (task_at tables.now.tasks task.0).phase ≡ false) }
{
    known(tables, task)?;
    match tables.phase(task) {
        Phase::Terminated => Err(Unmet::TaskTerminated),
        _ => Ok(()),
    }
}

// The task has the entry.
fn has_entry(tables: &Tables, task: TaskNo, entry: Entry) -> Result<(), Unmet>
    ensures { OnOk result (HasEntry tables.now.tasks task.0 entry) }
{
    known(tables, task)?;
    match number_within(tables.families(task).as_slice(), entry) {
        Some(_) => Ok(()),
        None => Err(Unmet::EntryUnknown),
    }
}

// Whether a task holds a master: its body, or a block of its nest.
fn holds(tables: &Tables, task: TaskNo, master: Master) -> bool
    requires { task.0 < length tables.now.tasks }
    ensures { result ≡ holds task.0 (task_at tables.now.tasks task.0).nest master }
{
    match master {
        Master::Body(body) => body.0 == task.0,
        Master::Block(block) => tables.nest(task).has_block(block),
    }
}

// The task that holds a master.
fn holder(tables: &Tables, master: Master) -> Option<TaskNo>
    ensures { MatchOption result
        ((task : ℕ) → task < length tables.now.tasks
        → holds task (task_at tables.now.tasks task).nest master ≡ false)
        (λ task. (task.0 < length tables.now.tasks)
        × (holds task.0 (task_at tables.now.tasks task.0).nest master ≡ true)) }
{
    for number in 0..tables.tasks() {
        if holds(tables, TaskNo(number), master) {
            return Some(TaskNo(number));
        }
    }
    None
}

// The master is a body, or stands in a nest.
fn stands(tables: &Tables, master: Master) -> Result<(), Unmet>
    ensures { OnOk result (Stands tables.now.tasks master) }
{
    match holder(tables, master) {
        Some(_) => Ok(()),
        None => Err(Unmet::MasterUnknown),
    }
}

// The task that holds the master isn't terminated.
fn is_open(tables: &Tables, master: Master) -> Result<(), Unmet>
    ensures { OnOk result (IsOpen tables.now.tasks master) }
{
    match holder(tables, master) {
        Some(task) => match tables.phase(task) {
            Phase::Terminated => Err(Unmet::MasterTerminated),
            _ => Ok(()),
        },
        None => Err(Unmet::MasterUnknown),
    }
}

// The member is no block that stands in a nest.
fn is_fresh(tables: &Tables, member: Member) -> Result<(), Unmet>
    ensures { OnOk result (IsFresh member tables.now.tasks) }
{
    match member {
        Member::Block(block) => match holder(tables, Master::Block(block)) {
            Some(_) => Err(Unmet::BlockStands),
            None => Ok(()),
        },
        Member::Rendezvous(_) => Ok(()),
    }
}

// How many dependents of a master aren't terminated.
fn live(tables: &Tables, master: Master) -> Result<u16, Unmet>
    ensures { IfOk result (λ count. count ≡ live_dependents tables.now.tasks master) }
{
    stands(tables, master)?;
    Ok(tables.live_dependents(master))
}

// The member is no block with live dependents.
fn is_idle(tables: &Tables, member: Member) -> Result<(), Unmet>
    ensures { OnOk result (IsIdle tables.now.tasks member) }
{
    match member {
        Member::Block(block) => {
            let count = live(tables, Master::Block(block))?;
            if count == 0 {
                Ok(())
            } else {
                Err(Unmet::HasLiveDependents)
            }
        }
        Member::Rendezvous(_) => Ok(()),
    }
}

// There is room in the nest of a task.
fn has_room(tables: &Tables, task: TaskNo) -> Result<(), Unmet>
    ensures known { OnOk result (task.0 < length tables.now.tasks) }
    ensures depth { OnOk result (length (task_at tables.now.tasks task.0).nest < 32) }
{
    known(tables, task)?;
    if tables.nest(task).len() < 32 {
        Ok(())
    } else {
        Err(Unmet::TooDeep)
    }
}

// The innermost member of a task's nest.
fn innermost(tables: &Tables, task: TaskNo) -> Result<Member, Unmet>
    ensures known { OnOk result (task.0 < length tables.now.tasks) }
    ensures inside { OnOk result (0 < length (task_at tables.now.tasks task.0).nest) }
    ensures value { IfOk result (λ member.
        innermost (task_at tables.now.tasks task.0).nest ≡ Some member) }
{
    known(tables, task)?;
    let nest = tables.nest(task);
    nest.get(nest.len().saturating_sub(1))
        .ok_or(Unmet::InNothing)
}

/// The tables, called where it is allowed.
#[derive(Drop)]
pub struct CheckedTables {
    tables: Tables,
}

impl CheckedTables {
    /// Tables with the main program alone.
    pub fn new(alloc: Global) -> Result<Self, Refusal> {
        let tables = Tables::new(alloc)?;
        Ok(CheckedTables { tables })
    }

    /// Adds a task that was made under a master, with these families.
    pub fn add(&mut self, master: Master, families: &[Family]) -> Result<TaskNo, Unmet> {
        if self.tables.tasks() == 256 {
            return Err(Unmet::TooManyTasks);
        }
        if families.len() > 16 {
            return Err(Unmet::TooManyFamilies);
        }
        let declared = Families::from_slice(families);
        let slots = u64::from(self.tables.slots());
        if Family::entries_in(declared.as_slice()).saturating_add(slots) > 1024 {
            return Err(Unmet::TooManySlots);
        }
        is_open(&self.tables, master)?;
        let added = self.tables.add_task(master, &declared);
        added.map_err(|_| Unmet::OutOfMemory)
    }

    /// Puts a call last in the queue of an entry.
    pub fn enqueue(
        &mut self,
        by: TaskNo,
        callee: TaskNo,
        entry: Entry,
        call: u32,
    ) -> Result<(), Unmet> {
        known(&self.tables, by)?;
        has_entry(&self.tables, callee, entry)?;
        if self.tables.waits(by) {
            return Err(Unmet::Waiting);
        }
        self.tables.reserve_call().map_err(|_| Unmet::OutOfMemory)?;
        self.tables.enqueue_reserved(by, callee, entry, call);
        Ok(())
    }

    /// Takes a task's call out of the queue in which it waits.
    pub fn unlink(&mut self, by: TaskNo) -> Result<(), Unmet> {
        if self.waits(by)? {
            self.tables.unlink(by);
            Ok(())
        } else {
            Err(Unmet::NotWaiting)
        }
    }

    /// Puts a task into a block or a rendezvous.
    pub fn push(&mut self, task: TaskNo, member: Member) -> Result<(), Unmet> {
        has_room(&self.tables, task)?;
        is_fresh(&self.tables, member)?;
        self.tables.push_nest(task, member);
        Ok(())
    }

    /// Takes a task out of the innermost member of its nest.
    pub fn pop(&mut self, task: TaskNo) -> Result<(), Unmet> {
        let member = innermost(&self.tables, task)?;
        is_idle(&self.tables, member)?;
        self.tables.pop_nest(task);
        Ok(())
    }

    /// Takes a task out of the rendezvous with a call.
    pub fn cut(&mut self, task: TaskNo, call: u32) -> Result<(), Unmet> {
        known(&self.tables, task)?;
        self.tables.cut_nest(task, call);
        Ok(())
    }

    /// Sets the phase of a task.
    pub fn set_phase(&mut self, task: TaskNo, phase: Phase) -> Result<(), Unmet> {
        unterminated(&self.tables, task)?;
        self.tables.set_phase(task, phase);
        Ok(())
    }

    /// Whether a call of a task is queued.
    pub fn waits(&self, by: TaskNo) -> Result<bool, Unmet>
        ensures { IfOk result (λ waits. waits ≡ queues.waits by.0 self.now.tables.queues) }
    {
        known(&self.tables, by)?;
        Ok(self.tables.waits(by))
    }

    /// The call that has waited longest at an entry.
    pub fn front(&self, task: TaskNo, entry: Entry) -> Result<Option<u32>, Unmet> {
        has_entry(&self.tables, task, entry)?;
        Ok(self.tables.front(task, entry))
    }

    /// How many calls wait at an entry.
    pub fn queue_len(&self, task: TaskNo, entry: Entry) -> Result<u16, Unmet> {
        has_entry(&self.tables, task, entry)?;
        Ok(self.tables.queue_len(task, entry))
    }

    /// The parent of a master.
    pub fn parent(&self, master: Master) -> Result<Option<Master>, Unmet> {
        stands(&self.tables, master)?;
        Ok(self.tables.parent(master))
    }

    /// What a task is in.
    pub fn nest(&self, task: TaskNo) -> Result<&Layers, Unmet> {
        known(&self.tables, task)?;
        Ok(self.tables.nest(task))
    }

    /// How many dependents of a master aren't terminated.
    pub fn live(&self, master: Master) -> Result<u16, Unmet> {
        live(&self.tables, master)
    }

    /// How many dependents of a master are neither terminated nor ready to quit.
    pub fn unready(&self, master: Master) -> u16 {
        self.tables.unready_dependents(master)
    }
}
