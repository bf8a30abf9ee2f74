//! The queues of calls, one for each entry, linked through their nodes.
ghost use Rattle.std.specs.Prelude.{◌≡◌, ◌+◌, ◌-◌, ◌<◌, ◌≤◌, true, false, [], ◌++◌, Some, None, IfOk, OnOk, OnErr, is_none, if◌then◌else◌};
ghost use Rattle.std.specs.Prelude.{◌==◌, length, replicate};
ghost use Rattle.std.specs.Option.{option_or};
ghost use Rattle.ada_events.specs.Search.{all_below};
ghost use Rattle.ada_tables.specs.Queues.{queue_at, waits, with_last, without, front_call};
ghost use Rattle.ada_events.specs.declared.limits.TheConstants.{MOST_SLOTS, MOST_TASKS};

use crate::nodes::{Node, Nodes};
use std::alloc::{AllocError, Global};
use std::marker::Model;

// The queue of one entry. A call puts its node in last; a meeting, a failure, a cancellation and the halt of the
// caller take it out.
#[derive(Clone, Copy)]
struct Queue {
    // The key of the first call's node.
    first: Option<usize>,
    // The key of the last call's node.
    last: Option<usize>,
    // How many calls there are: COUNT (9.9).
    len: u16,
}

const EMPTY: Queue = Queue {
    first: None,
    last: None,
    len: 0,
};

impl Queue {
    // The queue with one more node last.
    fn with_last(self, key: usize) -> Queue
        requires { self.len < 65535 }
        ensures { result ≡ record {
          first = option_or self.first (Some key);
          last = Some key;
          len = self.len + 1;
        } }
    {
        Queue {
            first: self.first.or(Some(key)),
            last: Some(key),
            len: self.len + 1,
        }
    }

    // The queue without one of its nodes.
    fn without(self, node: Node) -> Queue
        requires { 0 < self.len }
        ensures { result ≡ record {
          first = (if is_none node.before then node.after else self.first);
          last = (if is_none node.after then node.before else self.last);
          len = self.len - 1;
        } }
    {
        Queue {
            first: if node.before.is_none() {
                node.after
            } else {
                self.first
            },
            last: if node.after.is_none() {
                node.before
            } else {
                self.last
            },
            len: self.len - 1,
        }
    }
}

/// The queues of all entries, by slot. Contracts see the list of queued calls at each slot, how many tasks
/// may call, and for how many more calls there is room. No queue is ever walked.
#[derive(Drop)]
pub struct Queues {
    nodes: Nodes,
    queues: Vec<Queue>,
}

impl Model for Queues {
    ghost use Rattle.std.specs.Prelude.{map, length, ◌-◌};
    ghost use Rattle.slab.specs.Slab.{slab_len};
    ghost use Rattle.ada_tables.specs.Queues.{Waiting};

    ghost Value = { Waiting };

    ghost use Rattle.ada_tables.specs.Links.{calls_in};
    ghost use Rattle.ada_tables.specs.internal.Links.{AreLinked};

    ghost view = { λ q. record {
      queues = map (calls_in q.nodes.slab.slots) q.queues.items;
      callers = length q.nodes.keys;
      spare = q.nodes.slab.capacity - slab_len q.nodes.slab;
    } };

    ghost invariant = { λ q. AreLinked q.nodes.slab.slots q.nodes.keys q.queues.items };
}

impl Queues {
    /// No queues and no callers. What they keep will lie in memory of `alloc`.
    pub fn new(alloc: Global) -> Self
        ensures queues { result.queues ≡ [] }
        ensures callers { result.callers ≡ 0 }
    {
        Queues {
            nodes: Nodes::new(alloc),
            queues: Vec::new(alloc),
        }
    }

    /// A copy of the queues, in memory of `alloc`. For how many more calls there is room may differ.
    pub fn copy(&self, alloc: Global) -> Result<Self, AllocError>
        ensures { IfOk result (λ copy. copy ≡ record self.now { spare = copy.spare }) }
    {
        let nodes = self.nodes.copy(alloc)?;
        let queues = Vec::from_slice(alloc, &self.queues)?;
        Ok(Queues { nodes, queues })
    }

    /// Adds a task that may call, with so many slots, whose queues are empty. There are at most 256 tasks and
    /// 1,024 slots. A failure changes nothing.
    pub fn add_caller(&mut self, slots: u16) -> Result<(), AllocError>
        requires callers { self.old.callers < MOST_TASKS }
        requires slots { length self.old.queues + slots ≤ MOST_SLOTS }
        ensures ok { OnOk result (self.new ≡ record self.old {
          queues = self.old.queues ++ replicate slots [];
          callers = self.old.callers + 1;
        }) }
        ensures err { OnErr result (self.new ≡ self.old) }
    {
        let all = self.queues.len() + slots as usize;
        self.queues.reserve_exact(slots as usize)?;
        self.nodes.add_caller()?;
        let Ok(()) = self.queues.resize(all, EMPTY) else {
            unreachable!()
        };
        Ok(())
    }

    /// How many slots there are.
    pub fn slots(&self) -> usize
        ensures { result ≡ length self.now.queues }
    {
        self.queues.len()
    }

    /// How many tasks may call.
    pub fn callers(&self) -> usize
        ensures { result ≡ self.now.callers }
    {
        self.nodes.len()
    }

    /// Whether a call of a task is queued.
    pub fn waits(&self, task: u16) -> bool
        requires { task < self.now.callers }
        ensures { result ≡ waits task self.now.queues }
    {
        self.nodes.has(task)
    }

    /// Makes room for one more call.
    pub fn reserve_call(&mut self) -> Result<(), AllocError>
        ensures ok { OnOk result (0 < self.new.spare) }
        ensures kept { self.new ≡ record self.old { spare = self.new.spare } }
        ensures spare { self.old.spare ≤ self.new.spare }
    {
        self.nodes.reserve()
    }

    /// Puts a call of a task last in the queue at a slot (9.5). There must be room, and no call of the task may
    /// be queued.
    #[inline(always)]
    pub fn enqueue_reserved(&mut self, by: u16, slot: u16, call: u32)
        requires known { by < self.old.callers }
        requires slot { slot < length self.old.queues }
        requires idle { waits by self.old.queues ≡ false }
        requires reserved { 0 < self.old.spare }
        ensures { self.new ≡ record self.old {
          queues = with_last slot (record { call = call; caller = by }) self.old.queues;
          spare = self.old.spare - 1;
        } }
    {
        let queue = self.queues[slot as usize];
        let key = self.nodes.insert_reserved(Node {
            call,
            caller: by,
            slot,
            before: queue.last,
            after: None,
        });
        self.nodes.set_after(queue.last, Some(key));
        self.queues[slot as usize] = queue.with_last(key);
    }

    /// Takes a task's call out of the queue in which it waits.
    #[inline(always)]
    pub fn unlink(&mut self, by: u16)
        requires { waits by self.old.queues ≡ true }
        ensures { self.new ≡ record self.old {
          queues = without by self.old.queues;
          spare = self.old.spare + 1;
        } }
    {
        let node = self.nodes.remove(by);
        let queue = self.queues[node.slot as usize];
        self.queues[node.slot as usize] = queue.without(node);
        self.nodes.join(node.before, node.after);
    }

    /// The call that has waited longest at a slot; none where its queue is empty.
    pub fn front(&self, slot: u16) -> Option<u32>
        requires { slot < length self.now.queues }
        ensures { result ≡ front_call (queue_at self.now.queues slot) }
    {
        let first = self.queues[slot as usize].first?;
        self.nodes.call(first)
    }

    /// How many calls wait at a slot, at most 256: the attribute COUNT (9.9).
    pub fn queue_len(&self, slot: u16) -> u16
        requires { slot < length self.now.queues }
        ensures value { result ≡ length (queue_at self.now.queues slot) }
        ensures fits { result ≤ MOST_TASKS }
    {
        self.queues[slot as usize].len
    }

    /// Whether no call waits at any of so many slots, from one on.
    pub fn are_empty(&self, first: u16, many: u16) -> bool
        requires slots { first + many ≤ length self.now.queues }
        requires few { length self.now.queues < 65536 }
        ensures { result ≡ all_below (λ slot.
            length (queue_at self.now.queues (first + slot)) == 0) many }
    {
        for slot in 0..many {
            if self.queue_len(first + slot) != 0 {
                return false;
            }
        }
        true
    }
}
