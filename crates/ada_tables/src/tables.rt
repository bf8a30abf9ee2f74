//! The tables as the kernel sees them.
ghost use Rattle.std.specs.Prelude.{◌≡◌, ◌+◌, ◌-◌, ◌<◌, ◌≤◌, Some, true, false, [], ◌∷◌, ◌++◌, OnOk, IfOk, IfErr, ◌&&◌};
ghost use Rattle.std.specs.Prelude.{length, take, replicate};
ghost use Rattle.std.specs.Option.{ForSome};
ghost use Rattle.ada_events.specs.Entries.{entries_in};
ghost use Rattle.ada_events.specs.Nests.{innermost};
ghost use Rattle.ada_tables.specs.Layers.{members};
ghost use Rattle.ada_tables.specs.Dependents.{task_at, depends_on, cut, is_terminated, parent_of, made_facts, main_facts, with_nest, with_phase};
ghost use Rattle.ada_tables.specs.Dependents.{live_dependents, Stands};
ghost use Rattle.ada_tables.specs.Dependents.{IsOpen, IsFresh, IsIdle};
ghost use Rattle.ada_tables.specs.Queues.{queue_at, waits, with_last, without, front_call};
ghost use Rattle.ada_tables.specs.Standing.{StandFor};
ghost use Rattle.ada_tables.specs.Tables.{slot_at, slots_before, declared, has_no_calls, is_ready, is_unready, unready_dependents, HasEntry, ready_dependents};
ghost use Rattle.ada_events.specs.declared.limits.TheConstants.{MOST_MEMBERS, MOST_SLOTS, MOST_TASKS};

use crate::tasks::Tasks;
use crate::{Layers, Phase, Queues, slots};
use ada_events::{Entry, Families, Master, Member, Refusal, TaskNo};
use std::alloc::Global;
use std::marker::Model;

/// The tables of the kernel: the tasks with their masters, nests and phases, and the queues of all
/// entries. Contracts see what is known of each task, the calls that wait at each slot, and for how many
/// more calls there is room.
#[derive(Drop)]
pub struct Tables {
    tasks: Tasks,
    queues: Queues,
}

impl Model for Tables {
    ghost use Rattle.ada_tables.specs.Tables.{TableState};
    ghost use Rattle.ada_tables.specs.internal.Tables.{AreTied};

    ghost Value = { TableState };

    ghost view = { λ t. record {
      tasks = t.tasks.tasks;
      queues = t.queues.queues;
      spare = t.queues.spare;
    } };

    ghost invariant = { λ t.
        AreTied t.tasks.tasks t.queues.queues t.queues.callers t.tasks.firsts };
}

impl Tables {
    /// Tables with the main program alone, which runs. What they keep will lie in memory of `alloc`. Fails with
    /// `OutOfMemory` alone.
    #[tactic(auto, using(crate::proofs::Ties::tied_main))]
    pub fn new(alloc: Global) -> Result<Self, Refusal>
        ensures ok { IfOk result (λ tables. tables.tasks ≡ main_facts ∷ []) }
        ensures queues { IfOk result (λ tables. tables.queues ≡ []) }
        ensures stands { IfOk result (λ tables. StandFor tables []) }
        ensures err { IfErr result (λ cause. cause ≡ Refusal.OutOfMemory) }
    {
        let mut tasks = Tasks::new(alloc);
        let mut queues = Queues::new(alloc);
        tasks.reserve()?;
        queues.add_caller(0)?;
        tasks.add_main_reserved();
        tasks.set_phase(0, Phase::Active);
        Ok(Tables { tasks, queues })
    }

    /// A copy of the tables, in memory of `alloc`. For how many more calls there is room may differ. Fails with
    /// `OutOfMemory` alone.
    pub fn copy(&self, alloc: Global) -> Result<Self, Refusal>
        ensures ok { IfOk result (λ copy. copy ≡ record self.now { spare = copy.spare }) }
        ensures err { IfErr result (λ cause. cause ≡ Refusal.OutOfMemory) }
    {
        let tasks = self.tasks.copy(alloc)?;
        let queues = self.queues.copy(alloc)?;
        Ok(Tables { tasks, queues })
    }

    /// Adds a task that was made under a master (9.4), the body or an open block of a task that isn't
    /// terminated, and gives its number. There are at most 256 tasks and 1,024 entries. Fails with
    /// `OutOfMemory` alone, and then changes nothing.
    pub fn add_task(&mut self, master: Master, families: &Families) -> Result<TaskNo, Refusal>
        requires few { length self.old.tasks < MOST_TASKS }
        requires slots { length self.old.queues + entries_in families.now ≤ MOST_SLOTS }
        requires master { IsOpen self.old.tasks master }
        ensures ok { OnOk result (self.new ≡ record self.old {
          tasks = self.old.tasks ++ made_facts (Some master) families.now ∷ [];
          queues = self.old.queues ++ replicate (entries_in families.now) [];
        }) }
        ensures number { IfOk result (λ task. task.0 ≡ length self.old.tasks) }
        ensures err { IfErr result (λ cause. (cause ≡ Refusal.OutOfMemory)
            × (self.new ≡ self.old)) }
    {
        let number = self.tasks.len() as u16;
        let first = self.queues.slots() as u16;
        let more = slots::entries_in(families.as_slice()) as u16;
        self.tasks.reserve()?;
        self.queues.add_caller(more)?;
        self.tasks.add_reserved(master, families, first);
        Ok(TaskNo(number))
    }

    /// The slot of an entry that a task has, below 1,024: entries are numbered from 0 in order of task, family
    /// and index (9.5).
    pub fn slot(&self, task: TaskNo, entry: Entry) -> u16
        requires { HasEntry self.now.tasks task.0 entry }
        ensures value { result ≡ slot_at self.now.tasks task.0 entry }
        ensures known { result < length self.now.queues }
    {
        let number = slots::number_within(self.tasks.families(task.0).as_slice(), entry);
        (u64::from(self.tasks.first_slot(task.0)) + number) as u16
    }

    /// Makes room for one more queued call. Fails with `OutOfMemory` alone, and then changes nothing.
    pub fn reserve_call(&mut self) -> Result<(), Refusal>
        ensures ok { OnOk result (0 < self.new.spare) }
        ensures kept { self.new ≡ record self.old { spare = self.new.spare } }
        ensures spare { self.old.spare ≤ self.new.spare }
        ensures err { IfErr result (λ cause. cause ≡ Refusal.OutOfMemory) }
    {
        self.queues.reserve_call()?;
        Ok(())
    }

    /// Puts a call last in the queue of an entry (9.5). There must be room, and no call of the caller may be
    /// queued.
    #[inline(always)]
    pub fn enqueue_reserved(&mut self, by: TaskNo, callee: TaskNo, entry: Entry, call: u32)
        requires by { by.0 < length self.old.tasks }
        requires entry { HasEntry self.old.tasks callee.0 entry }
        requires idle { waits by.0 self.old.queues ≡ false }
        requires reserved { 0 < self.old.spare }
        ensures { self.new ≡ record self.old {
          queues = with_last (slot_at self.old.tasks callee.0 entry)
              (record { call = call; caller = by.0 }) self.old.queues;
          spare = self.old.spare - 1;
        } }
    {
        let slot = self.slot(callee, entry);
        self.queues.enqueue_reserved(by.0, slot, call);
    }

    /// Whether a call of a task is queued at an entry.
    pub fn waits(&self, by: TaskNo) -> bool
        requires { by.0 < length self.now.tasks }
        ensures { result ≡ waits by.0 self.now.queues }
    {
        self.queues.waits(by.0)
    }

    /// Takes a task's call out of the queue in which it waits.
    #[inline(always)]
    pub fn unlink(&mut self, by: TaskNo)
        requires { waits by.0 self.old.queues ≡ true }
        ensures { self.new ≡ record self.old {
          queues = without by.0 self.old.queues;
          spare = self.old.spare + 1;
        } }
    {
        self.queues.unlink(by.0);
    }

    /// The call that has waited longest at an entry; none where none waits.
    pub fn front(&self, task: TaskNo, entry: Entry) -> Option<u32>
        requires { HasEntry self.now.tasks task.0 entry }
        ensures { result ≡ front_call (queue_at self.now.queues
            (slot_at self.now.tasks task.0 entry)) }
    {
        self.queues.front(self.slot(task, entry))
    }

    /// How many calls wait at an entry, at most 256: the attribute COUNT (9.9).
    pub fn queue_len(&self, task: TaskNo, entry: Entry) -> u16
        requires { HasEntry self.now.tasks task.0 entry }
        ensures value { result ≡ length (queue_at self.now.queues
            (slot_at self.now.tasks task.0 entry)) }
        ensures fits { result ≤ MOST_TASKS }
    {
        self.queue_len_at(self.slot(task, entry))
    }

    /// How many calls wait at the entry of a slot, at most 256: the attribute COUNT (9.9).
    pub fn queue_len_at(&self, slot: u16) -> u16
        requires { slot < length self.now.queues }
        ensures value { result ≡ length (queue_at self.now.queues slot) }
        ensures fits { result ≤ MOST_TASKS }
    {
        self.queues.queue_len(slot)
    }

    /// How many tasks there are, the main program counted, at most 256.
    pub fn tasks(&self) -> u16
        ensures value { result ≡ length self.now.tasks }
        ensures fits { result ≤ MOST_TASKS }
    {
        self.tasks.len() as u16
    }

    /// How many entries all tasks have together, at most 1,024.
    pub fn slots(&self) -> u16
        ensures value { result ≡ length self.now.queues }
        ensures all { result ≡ slots_before (declared self.now.tasks) (length self.now.tasks) }
        ensures fits { result ≤ MOST_SLOTS }
    {
        self.queues.slots() as u16
    }

    /// The master that a task was made under (9.4); none for the main program.
    pub fn master(&self, task: TaskNo) -> Option<Master>
        requires { task.0 < length self.now.tasks }
        ensures { result ≡ (task_at self.now.tasks task.0).master }
    {
        self.tasks.master(task.0)
    }

    /// The parent of a master (9.4), which is the body of a task or a block that stands in a nest; none for the
    /// body of the main program.
    pub fn parent(&self, master: Master) -> Option<Master>
        requires { Stands self.now.tasks master }
        ensures { result ≡ parent_of self.now.tasks master }
    {
        self.tasks.parent(master)
    }

    /// Whether a task that isn't terminated depends on a master (9.4).
    pub fn depends_on(&self, task: TaskNo, master: Master) -> bool
        requires known { task.0 < length self.now.tasks }
        requires live { is_terminated (task_at self.now.tasks task.0).phase ≡ false }
        ensures { result ≡ depends_on self.now.tasks task.0 master }
    {
        self.tasks.depends_on(task.0, master)
    }

    /// The families of entries that a task declares (9.5).
    pub fn families(&self, task: TaskNo) -> &Families
        requires { task.0 < length self.now.tasks }
        ensures { result.now ≡ (task_at self.now.tasks task.0).families }
    {
        self.tasks.families(task.0)
    }

    /// What a task is in, outermost first.
    pub fn nest(&self, task: TaskNo) -> &Layers
        requires { task.0 < length self.now.tasks }
        ensures { members result.now ≡ (task_at self.now.tasks task.0).nest }
    {
        self.tasks.nest(task.0)
    }

    /// What has become of a task.
    pub fn phase(&self, task: TaskNo) -> Phase
        requires { task.0 < length self.now.tasks }
        ensures { result ≡ (task_at self.now.tasks task.0).phase }
    {
        self.tasks.phase(task.0)
    }

    /// Puts a task into a block or a rendezvous, the innermost member of its nest from then on. A nest has at
    /// most 32 members, and a block stands in no other.
    pub fn push_nest(&mut self, task: TaskNo, member: Member)
        requires known { task.0 < length self.old.tasks }
        requires depth { length (task_at self.old.tasks task.0).nest < MOST_MEMBERS }
        requires fresh { IsFresh member self.old.tasks }
        ensures { self.new ≡ record self.old {
          tasks = with_nest task.0 ((task_at self.old.tasks task.0).nest ++ member
              ∷ []) self.old.tasks;
        } }
    {
        self.tasks.push_nest(task.0, member);
    }

    /// Takes a task out of the innermost member of its nest, which is no block with live dependents.
    pub fn pop_nest(&mut self, task: TaskNo)
        requires known { task.0 < length self.old.tasks }
        requires inside { 0 < length (task_at self.old.tasks task.0).nest }
        requires idle { ForSome (innermost (task_at self.old.tasks task.0).nest)
            (IsIdle self.old.tasks) }
        ensures { let nest = (task_at self.old.tasks task.0).nest in
            self.new ≡ record self.old {
              tasks = with_nest task.0 (take (length nest - 1) nest)
                  self.old.tasks;
            } }
    {
        self.tasks.pop_nest(task.0);
    }

    /// Takes a task out of the rendezvous with a call, wherever it stands in its nest.
    #[inline(always)]
    pub fn cut_nest(&mut self, task: TaskNo, call: u32)
        requires { task.0 < length self.old.tasks }
        ensures { self.new ≡ record self.old {
          tasks = with_nest task.0 (cut call (task_at self.old.tasks task.0).nest) self.old.tasks;
        } }
    {
        self.tasks.cut_nest(task.0, call);
    }

    /// Sets the phase of a task that isn't terminated.
    pub fn set_phase(&mut self, task: TaskNo, phase: Phase)
        requires known { task.0 < length self.old.tasks }
        requires live { is_terminated (task_at self.old.tasks task.0).phase ≡ false }
        ensures { self.new ≡ record self.old { tasks = with_phase task.0 phase self.old.tasks } }
    {
        self.tasks.set_phase(task.0, phase);
    }

    /// How many dependents of a master (9.4) aren't terminated, at most 255. The master is the body of a task, or
    /// a block that stands in a nest.
    pub fn live_dependents(&self, master: Master) -> u16
        requires { Stands self.now.tasks master }
        ensures value { result ≡ live_dependents self.now.tasks master }
        ensures fits { result ≤ 255 }
    {
        self.tasks.live_dependents(master)
    }

    /// Whether no call waits at any entry of a task (9.5).
    pub fn has_no_calls(&self, task: TaskNo) -> bool
        requires { task.0 < length self.now.tasks }
        ensures { result ≡ has_no_calls self.now.tasks self.now.queues task.0 }
    {
        let first = self.tasks.first_slot(task.0);
        let many = slots::entries_in(self.tasks.families(task.0).as_slice()) as u16;
        self.queues.are_empty(first, many)
    }

    // Whether a task is ready to quit.
    fn is_ready(&self, task: u16) -> bool
        requires { task < length self.now.tasks }
        ensures { result ≡ is_ready self.now.tasks self.now.queues task }
    {
        match self.tasks.phase(task) {
            Phase::Quittable => self.has_no_calls(TaskNo(task)),
            _ => false,
        }
    }

    // Whether a task depends on a master, and is ready to quit.
    fn is_ready_dependent(&self, task: u16, master: Master) -> bool
        requires { task < length self.now.tasks }
        ensures { result ≡ (is_ready self.now.tasks self.now.queues task
            && depends_on self.now.tasks task master) }
    {
        self.is_ready(task) && self.tasks.depends_on(task, master)
    }

    /// How many dependents of a master (9.4) are ready to quit, at most 255: suspended at a wait whose terminate
    /// alternative is open, while no call waits at any of their entries. Where these are all that live, they terminate
    /// together once the master is complete.
    #[tactic(auto, using(crate::proofs::Ways::counted_one, crate::proofs::Ways::counted_none, crate::proofs::Ways::count_nothing))]
    pub fn ready_dependents(&self, master: Master) -> u16
        ensures value { result ≡ ready_dependents self.now.tasks self.now.queues master }
        ensures fits { result ≤ 255 }
    {
        let mut count = 0;
        for task in 0..self.tasks() {
            if self.is_ready_dependent(task, master) {
                count += 1;
            }
        }
        count
    }

    // Whether a task is neither terminated nor ready to quit.
    fn is_unready(&self, task: u16) -> bool
        requires { task < length self.now.tasks }
        ensures { result ≡ is_unready self.now.tasks self.now.queues task }
    {
        match self.tasks.phase(task) {
            Phase::Terminated => false,
            Phase::Quittable => !self.has_no_calls(TaskNo(task)),
            _ => true,
        }
    }

    // Whether a task depends on a master, and is neither terminated nor ready to quit.
    fn is_unready_dependent(&self, task: u16, master: Master) -> bool
        requires { task < length self.now.tasks }
        ensures { result ≡ (is_unready self.now.tasks self.now.queues task
            && depends_on self.now.tasks task master) }
    {
        self.is_unready(task) && self.tasks.depends_on(task, master)
    }

    /// How many dependents of a master (9.4) are neither terminated nor ready to quit, at most 255: ready to quit
    /// is who is suspended at a wait whose terminate alternative is open, while no call waits at any of its entries.
    #[tactic(auto, using(crate::proofs::Ways::counted_one, crate::proofs::Ways::counted_none, crate::proofs::Ways::count_nothing))]
    pub fn unready_dependents(&self, master: Master) -> u16
        ensures value { result ≡ unready_dependents self.now.tasks self.now.queues master }
        ensures fits { result ≤ 255 }
    {
        let mut count = 0;
        for task in 0..self.tasks() {
            if self.is_unready_dependent(task, master) {
                count += 1;
            }
        }
        count
    }
}
