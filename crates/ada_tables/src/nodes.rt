//! The nodes of queued calls, in a slab.
ghost use Rattle.std.specs.Prelude.{◌≡◌, ◌+◌, ◌<◌, ◌≤◌, ◌==◌, [], ◌∷◌, ◌++◌, Some, None, IsSome, IfOk, OnOk, OnErr, is_some, option_map, length, slice_set};
ghost use Rattle.std.specs.Option.{option_and_then, ForSome};
ghost use Rattle.slab.specs.Slab.{get, slab_len, HasRoomFor, Updates};
ghost use Rattle.ada_tables.specs.internal.Nodes.{key_of};
ghost use Rattle.ada_tables.specs.internal.Links.{relinked_after, relinked_before, joined};

use slab::Slab;
use std::alloc::{AllocError, Global};
use std::marker::Model;

/// A queued call (9.5), linked to the calls before and after it in its entry's queue by the keys of their nodes.
#[derive(Clone, Copy)]
pub(crate) struct Node {
    /// The call's position. Set by the call, as caller and slot are; the node goes when the call leaves the queue.
    pub(crate) call: u32,
    /// The task that made the call.
    pub(crate) caller: u16,
    /// The slot of the entry.
    pub(crate) slot: u16,
    /// The key of the node before it, if there is one. Set by the call; changed when that one leaves.
    pub(crate) before: Option<usize>,
    /// The key of the node after it, if there is one. Set when that one comes; changed when it leaves.
    pub(crate) after: Option<usize>,
}

/// The nodes of all queued calls. Contracts see the slab in which they lie, and the key of each caller's node: a
/// task waits in one queue at most.
#[derive(Drop)]
pub(crate) struct Nodes {
    slab: Slab<Node>,
    // The key of each caller's node, by the caller's number.
    keys: Vec<Option<usize>>,
}

impl Model for Nodes {
    ghost use Rattle.ada_tables.specs.Nodes.{KeptNodes};

    ghost Value = { KeptNodes };

    ghost view = { λ n. record {
      slab = n.slab;
      keys = n.keys.items;
    } };
}

impl Nodes {
    /// No nodes, of no callers. They will lie in memory of `alloc`.
    pub(crate) fn new(alloc: Global) -> Self
        ensures slots { result.slab.slots ≡ [] }
        ensures keys { result.keys ≡ [] }
    {
        Nodes {
            slab: Slab::new(alloc),
            keys: Vec::new(alloc),
        }
    }

    /// A copy of the nodes, under the same keys, in memory of `alloc`.
    #[tactic(auto, using(crate::proofs::Copying::same_slab))]
    pub(crate) fn copy(&self, alloc: Global) -> Result<Self, AllocError>
        ensures { IfOk result (λ copy. copy ≡ record self.now {
          slab = record self.now.slab { capacity = copy.slab.capacity };
        }) }
    {
        let slab = self.slab.clone()?;
        let keys = Vec::from_slice(alloc, &self.keys)?;
        Ok(Nodes { slab, keys })
    }

    /// Adds a caller without a node. A failure changes nothing.
    pub(crate) fn add_caller(&mut self) -> Result<(), AllocError>
        ensures ok { OnOk result (self.new
            ≡ record self.old { keys = self.old.keys ++ None ∷ [] }) }
        ensures err { OnErr result (self.new ≡ self.old) }
    {
        self.keys.push(None)?;
        Ok(())
    }

    /// How many callers there are.
    pub(crate) fn len(&self) -> usize
        ensures { result ≡ length self.now.keys }
    {
        self.keys.len()
    }

    /// Whether there are no callers.
    pub(crate) fn is_empty(&self) -> bool
        ensures { result ≡ (length self.now.keys == 0) }
    {
        self.keys.is_empty()
    }

    /// Makes room for one more node.
    pub(crate) fn reserve(&mut self) -> Result<(), AllocError>
        ensures ok { OnOk result (HasRoomFor self.new.slab 1) }
        ensures kept { self.new ≡ record self.old {
          slab = record self.old.slab { capacity = self.new.slab.capacity };
        } }
        ensures capacity { self.old.slab.capacity ≤ self.new.slab.capacity }
    {
        self.slab.reserve(1)
    }

    /// Whether a caller has a node.
    pub(crate) fn has(&self, caller: u16) -> bool
        requires { caller < length self.now.keys }
        ensures { result ≡ is_some (key_of self.now.keys caller) }
    {
        self.keys[caller as usize].is_some()
    }

    /// The call whose node is under a key, if there is one.
    pub(crate) fn call(&self, key: usize) -> Option<u32>
        ensures { result ≡ option_map (λ node. node.call) (get self.now.slab key) }
    {
        match self.slab.get(key) {
            Some(node) => Some(node.call),
            None => None,
        }
    }

    /// Keeps the node of a caller that has none, and gives its key. There must be room.
    pub(crate) fn insert_reserved(&mut self, node: Node) -> usize
        requires known { node.caller < length self.old.keys }
        requires without { key_of self.old.keys node.caller ≡ None }
        requires room { HasRoomFor self.old.slab 1 }
        ensures vacant { get self.old.slab result ≡ None }
        ensures nodes { Updates self.old.slab self.new.slab result (Some node) }
        ensures keys { self.new.keys ≡ slice_set self.old.keys node.caller (Some result) }
        ensures len { slab_len self.new.slab ≡ slab_len self.old.slab + 1 }
        ensures capacity { self.new.slab.capacity ≡ self.old.slab.capacity }
    {
        let caller = node.caller as usize;
        let key = self.slab.insert_reserved(node);
        self.keys[caller] = Some(key);
        key
    }

    /// Takes out a caller's node.
    pub(crate) fn remove(&mut self, caller: u16) -> Node
        requires { IsSome (option_and_then (get self.old.slab) (key_of self.old.keys caller)) }
        ensures node { option_and_then (get self.old.slab) (key_of self.old.keys caller)
            ≡ Some result }
        ensures nodes { ForSome (key_of self.old.keys caller) (λ key.
            self.new.slab.slots ≡ slice_set self.old.slab.slots key None) }
        ensures keys { self.new.keys ≡ slice_set self.old.keys caller None }
        ensures len { slab_len self.new.slab + 1 ≡ slab_len self.old.slab }
        ensures room { HasRoomFor self.new.slab 1 }
        ensures capacity { self.new.slab.capacity ≡ self.old.slab.capacity }
    {
        let Some(key) = self.keys[caller as usize] else {
            unreachable!()
        };
        self.keys[caller as usize] = None;
        self.slab.remove(key)
    }

    /// Links the node under a key, if there is a key, to another one after it.
    pub(crate) fn set_after(&mut self, key: Option<usize>, after: Option<usize>)
        requires { ForSome key (λ key. IsSome (get self.old.slab key)) }
        ensures { self.new ≡ record self.old {
          slab = record self.old.slab {
            slots = relinked_after key after self.old.slab.slots;
          };
        } }
    {
        if let Some(key) = key {
            if let Some(node) = self.slab.get_mut(key) {
                node.after = after;
            }
        }
    }

    /// Links the node under a key, if there is a key, to another one before it.
    pub(crate) fn set_before(&mut self, key: Option<usize>, before: Option<usize>)
        requires { ForSome key (λ key. IsSome (get self.old.slab key)) }
        ensures { self.new ≡ record self.old {
          slab = record self.old.slab {
            slots = relinked_before key before self.old.slab.slots;
          };
        } }
    {
        if let Some(key) = key {
            if let Some(node) = self.slab.get_mut(key) {
                node.before = before;
            }
        }
    }

    /// Links two nodes to one another, the first before the second. Where there is only one, nothing stands
    /// on its other side.
    pub(crate) fn join(&mut self, before: Option<usize>, after: Option<usize>)
        requires before { ForSome before (λ key. IsSome (get self.old.slab key)) }
        requires after { ForSome after (λ key. IsSome (get self.old.slab key)) }
        ensures { self.new ≡ record self.old {
          slab = record self.old.slab { slots = joined before after self.old.slab.slots };
        } }
    {
        self.set_after(before, after);
        self.set_before(after, before);
    }
}
