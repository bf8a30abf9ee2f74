//! The records of all tasks, and the counts of their masters.
ghost use Rattle.std.specs.Prelude.{◌≡◌, ◌-◌, ◌<◌, ◌≤◌, Some, None, true, false, [], ◌∷◌, ◌++◌, OnOk, IfOk, length, slice_index, take};
ghost use Rattle.std.specs.Option.{ForSome};
ghost use Rattle.ada_events.specs.Nests.{innermost};
ghost use Rattle.ada_tables.specs.Layers.{members};
ghost use Rattle.ada_events.specs.Holders.{has_block, holds};
ghost use Rattle.ada_tables.specs.Dependents.{depends_on, task_at, cut, is_terminated, parent_of, made_facts, with_nest, with_phase};
ghost use Rattle.ada_tables.specs.Dependents.{live_dependents, Stands};
ghost use Rattle.ada_tables.specs.Dependents.{IsOpen, IsFresh, IsIdle};
ghost use Rattle.ada_tables.specs.Counts.{facts, first_slots};
ghost use Rattle.ada_tables.specs.internal.Counts.{ChangesAlong, StandAlone, AreCounted, IsLed};
ghost use Rattle.ada_events.specs.declared.limits.TheConstants.{MOST_MEMBERS, MOST_TASKS};

use crate::change::Change;
use crate::task::{self, Task};
use crate::{Layers, Phase};
use ada_events::{Families, Master, Member, TaskNo};
use std::alloc::{AllocError, Global};
use std::marker::Model;

// A copy of the records, in memory of `alloc`.
fn copy_of(alloc: Global, tasks: &[Task]) -> Result<Vec<Task>, AllocError>
    ensures { IfOk result (λ copy. copy.items ≡ tasks.now) }
{
    let mut copy = Vec::with_capacity(alloc, tasks.len())?;
    for task in tasks {
        copy.push(task.copy())?;
    }
    Ok(copy)
}

// Changes the counts of the masters that a task depends on: those of the holder of the master that it was
// made under, then those of the holder of that task's master, and so on. A holder was made before the tasks
// that it holds masters of, so its number is lower.
fn count(tasks: &mut [Task], task: u16, change: Change)
    requires known { task < length tasks.old }
    requires alone { StandAlone (facts tasks.old) }
    requires led { IsLed tasks.old task }
    ensures { ChangesAlong change tasks.old tasks.new (depends_on (facts tasks.old) task) (λ _.
        false) }
{
    let mut number = task;
    while let Some(master) = tasks[number as usize].master {
        number = tasks[number as usize].holder;
        task::count(&mut tasks[number as usize], master, change);
    }
}

// Ends a task.
fn end(tasks: &mut [Task], task: u16)
    requires known { task < length tasks.old }
    requires live { is_terminated (task_at (facts tasks.old) task).phase ≡ false }
    requires counted { AreCounted tasks.old }
    ensures counted { AreCounted tasks.new }
    ensures facts { facts tasks.new ≡ with_phase task Phase.Terminated (facts tasks.old) }
    ensures firsts { first_slots tasks.new ≡ first_slots tasks.old }
{
    count(tasks, task, Change::Ended);
    let record = &mut tasks[task as usize];
    record.phase = Phase::Terminated;
}

// Whether a task depends on a master: whether its way outwards, from holder to holder, passes that master.
fn depends_on(tasks: &[Task], task: u16, master: Master) -> bool
    requires known { task < length tasks.now }
    requires led { IsLed tasks.now task }
    ensures { result ≡ depends_on (facts tasks.now) task master }
{
    let mut number = task;
    while let Some(from) = tasks[number as usize].master {
        number = tasks[number as usize].holder;
        if task::encloses(number, &tasks[number as usize].nest, from, master) {
            return true;
        }
    }
    false
}

// The number of the task in whose nest a block stands; the search ends there.
fn holder_in(tasks: &[Task], block: u32) -> u16
    requires few { length tasks.now ≤ MOST_TASKS }
    requires stands { Stands (facts tasks.now) (Master.Block block) }
    ensures within { result < length tasks.now }
    ensures held { has_block block (task_at (facts tasks.now) result).nest ≡ true }
{
    let mut number: u16 = 0;
    while !tasks[number as usize].nest.has_block(block) {
        number += 1;
    }
    number
}

// The number of the task that holds a master.
fn holder_of(tasks: &[Task], master: Master) -> u16
    requires few { length tasks.now ≤ MOST_TASKS }
    requires stands { Stands (facts tasks.now) master }
    ensures within { result < length tasks.now }
    ensures held { holds result (task_at (facts tasks.now) result).nest master ≡ true }
{
    match master {
        Master::Body(TaskNo(task)) => task,
        Master::Block(block) => holder_in(tasks, block),
    }
}

/// All tasks: what each was made under, what it is in and what has become of it, and how many live
/// dependents each master has. Contracts see what is known of each task, the slot of its first entry, and for
/// how many more there is room.
#[derive(Drop)]
pub(crate) struct Tasks {
    tasks: Vec<Task>,
}

impl Model for Tasks {
    ghost use Rattle.std.specs.Prelude.{◌-◌, vec_len, vec_capacity};
    ghost use Rattle.ada_tables.specs.Dependents.{Known};

    ghost Value = { Known };

    ghost use Rattle.ada_tables.specs.Counts.{facts, first_slots};
    ghost use Rattle.ada_tables.specs.internal.Counts.{AreCounted};

    ghost view = { λ t. record {
      tasks = facts t.tasks.items;
      firsts = first_slots t.tasks.items;
      room = vec_capacity t.tasks - vec_len t.tasks;
    } };

    ghost invariant = { λ t. AreCounted t.tasks.items };
}

impl Tasks {
    /// No tasks. They will lie in memory of `alloc`.
    pub(crate) fn new(alloc: Global) -> Self
        ensures { result.tasks ≡ [] }
    {
        Tasks {
            tasks: Vec::new(alloc),
        }
    }

    /// A copy of the tasks, in memory of `alloc`.
    pub(crate) fn copy(&self, alloc: Global) -> Result<Self, AllocError>
        ensures { IfOk result (λ copy. copy ≡ record self.now { room = copy.room }) }
    {
        let tasks = copy_of(alloc, &self.tasks)?;
        Ok(Tasks { tasks })
    }

    /// Makes room for one more task.
    pub(crate) fn reserve(&mut self) -> Result<(), AllocError>
        ensures ok { OnOk result (0 < self.new.room) }
        ensures kept { self.new ≡ record self.old { room = self.new.room } }
    {
        self.tasks.reserve(1)
    }

    /// Adds the main program, the outermost master, which was made under none.
    pub(crate) fn add_main_reserved(&mut self)
        requires first { self.old.tasks ≡ [] }
        requires room { 0 < self.old.room }
        ensures { self.new ≡ record self.old {
          tasks = made_facts None [] ∷ [];
          firsts = 0 ∷ [];
          room = self.old.room - 1;
        } }
    {
        self.tasks
            .push_reserved(Task::of(None, 0, 0, Families::new()));
    }

    /// Adds a task that was made under a master (9.4), the body or an open block of a task that isn't
    /// terminated. Its entries begin at a slot. There are at most 256 tasks.
    pub(crate) fn add_reserved(&mut self, master: Master, families: &Families, first_slot: u16)
        requires few { length self.old.tasks < MOST_TASKS }
        requires master { IsOpen self.old.tasks master }
        requires room { 0 < self.old.room }
        ensures { self.new ≡ record self.old {
          tasks = self.old.tasks ++ made_facts (Some master) families.now ∷ [];
          firsts = self.old.firsts ++ first_slot ∷ [];
          room = self.old.room - 1;
        } }
    {
        let families = Families::from_slice(families.as_slice());
        let holder = holder_of(self.tasks.as_slice(), master);
        let task = self.tasks.len() as u16;
        self.tasks
            .push_reserved(Task::of(Some(master), holder, first_slot, families));
        count(self.tasks.as_mut_slice(), task, Change::Added);
    }

    /// How many tasks there are, at most 256.
    pub(crate) fn len(&self) -> usize
        ensures value { result ≡ length self.now.tasks }
        ensures fits { result ≤ MOST_TASKS }
    {
        self.tasks.len()
    }

    /// The master that a task was made under (9.4); none for the main program.
    pub(crate) fn master(&self, task: u16) -> Option<Master>
        requires { task < length self.now.tasks }
        ensures { result ≡ (task_at self.now.tasks task).master }
    {
        self.tasks[task as usize].master
    }

    /// The families of entries that a task declares (9.5).
    pub(crate) fn families(&self, task: u16) -> &Families
        requires { task < length self.now.tasks }
        ensures { result.now ≡ (task_at self.now.tasks task).families }
    {
        &self.tasks[task as usize].families
    }

    /// The slot of a task's first entry.
    pub(crate) fn first_slot(&self, task: u16) -> u16
        requires { task < length self.now.tasks }
        ensures { result ≡ slice_index self.now.firsts task }
    {
        self.tasks[task as usize].first_slot
    }

    /// What a task is in.
    pub(crate) fn nest(&self, task: u16) -> &Layers
        requires { task < length self.now.tasks }
        ensures { members result.now ≡ (task_at self.now.tasks task).nest }
    {
        &self.tasks[task as usize].nest
    }

    /// What has become of a task.
    pub(crate) fn phase(&self, task: u16) -> Phase
        requires { task < length self.now.tasks }
        ensures { result ≡ (task_at self.now.tasks task).phase }
    {
        self.tasks[task as usize].phase
    }

    /// Puts a task into a block or a rendezvous.
    pub(crate) fn push_nest(&mut self, task: u16, member: Member)
        requires known { task < length self.old.tasks }
        requires depth { length (task_at self.old.tasks task).nest < MOST_MEMBERS }
        requires fresh { IsFresh member self.old.tasks }
        ensures { self.new ≡ record self.old {
          tasks = with_nest task ((task_at self.old.tasks task).nest ++ member ∷ []) self.old.tasks;
        } }
    {
        let record = &mut self.tasks[task as usize];
        record.nest.push(member);
    }

    /// Takes a task out of the innermost member of its nest, which is no block with live dependents.
    pub(crate) fn pop_nest(&mut self, task: u16)
        requires known { task < length self.old.tasks }
        requires inside { 0 < length (task_at self.old.tasks task).nest }
        requires idle { ForSome (innermost (task_at self.old.tasks task).nest)
            (IsIdle self.old.tasks) }
        ensures { let nest = (task_at self.old.tasks task).nest in
            self.new ≡ record self.old {
              tasks = with_nest task (take (length nest - 1) nest)
                  self.old.tasks;
            } }
    {
        let record = &mut self.tasks[task as usize];
        record.nest.pop();
    }

    /// Takes a task out of the rendezvous with a call, wherever it stands in its nest.
    #[inline(always)]
    pub(crate) fn cut_nest(&mut self, task: u16, call: u32)
        requires { task < length self.old.tasks }
        ensures { self.new ≡ record self.old {
          tasks = with_nest task (cut call (task_at self.old.tasks task).nest) self.old.tasks;
        } }
    {
        let record = &mut self.tasks[task as usize];
        record.nest.cut(call);
    }

    /// Sets the phase of a task that isn't terminated.
    pub(crate) fn set_phase(&mut self, task: u16, phase: Phase)
        requires known { task < length self.old.tasks }
        requires live { is_terminated (task_at self.old.tasks task).phase ≡ false }
        ensures { self.new ≡ record self.old { tasks = with_phase task phase self.old.tasks } }
    {
        match phase {
            Phase::Terminated => end(self.tasks.as_mut_slice(), task),
            _ => {
                let record = &mut self.tasks[task as usize];
                record.phase = phase;
            }
        }
    }

    /// How many dependents of a master (9.4) aren't terminated, at most 255.
    #[tactic(auto, using(crate::proofs::Bounds::live_fits))]
    pub(crate) fn live_dependents(&self, master: Master) -> u16
        requires { Stands self.now.tasks master }
        ensures value { result ≡ live_dependents self.now.tasks master }
        ensures fits { result ≤ 255 }
    {
        let number = holder_of(self.tasks.as_slice(), master);
        let holder = &self.tasks[number as usize];
        match master {
            Master::Body(_) => holder.live,
            Master::Block(block) => holder.nest.live_at(block),
        }
    }

    /// Whether a task that isn't terminated depends on a master (9.4): it was made under it, or under one from
    /// which it is reached by parents.
    pub(crate) fn depends_on(&self, task: u16, master: Master) -> bool
        requires known { task < length self.now.tasks }
        requires live { is_terminated (task_at self.now.tasks task).phase ≡ false }
        ensures { result ≡ depends_on self.now.tasks task master }
    {
        depends_on(self.tasks.as_slice(), task, master)
    }

    /// The parent of a master (9.4): of a task's body the master that the task was made under, of a block the
    /// next block outside it in its task's nest, else that task's body. The body of the main program has none.
    pub(crate) fn parent(&self, master: Master) -> Option<Master>
        requires { Stands self.now.tasks master }
        ensures { result ≡ parent_of self.now.tasks master }
    {
        let number = holder_of(self.tasks.as_slice(), master);
        let holder = &self.tasks[number as usize];
        match master {
            Master::Body(_) => holder.master,
            Master::Block(block) => Some(task::parent_within(number, &holder.nest, block)),
        }
    }
}
