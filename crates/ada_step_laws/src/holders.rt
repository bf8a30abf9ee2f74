//! Laws of who holds a master, and of how blocks nest.

ghost use Rattle.ada_step_laws.specs.Holders.{BlocksNestProperly, OneHolderEach, ALeftBlockHasNoLiveDependent, MastersAreHeld};
ghost use Rattle.ada_step_laws.specs.Pending.{ClosedBlocksAreInnermost, WaitsHaveRoom, OpenTerminatesAreInNoRendezvous};

/// Each block that a task is within was opened within the block before it, the first within the task's body
/// (9.4).
#[tactic(auto, using(crate::proofs::holding::NestedBlocks::nest_properly))]
pub fn blocks_nest_properly()
    ensures { BlocksNestProperly }
{}

/// A master is held by one task at most: a body by its task, a block by the task that is within it.
pub fn one_holder_each()
    ensures { OneHolderEach }
{}

/// No block that was left has a dependent that isn't terminated (9.4).
#[tactic(auto, using(crate::proofs::holding::LiveHolders::a_left_block_has_no_live_dependent))]
pub fn a_left_block_has_no_live_dependent()
    ensures { ALeftBlockHasNoLiveDependent }
{}

/// What a task that isn't terminated was made under is held by one task, which was made before it and isn't
/// terminated either (9.4).
#[tactic(auto, using(crate::proofs::holding::LiveHolders::masters_are_held))]
pub fn masters_are_held()
    ensures { MastersAreHeld }
{}

/// While a task waits for the dependents of a block that it closed, nothing is further within than that block; while it
/// waits selectively, its nest has room for the rendezvous that may begin; while it waits at an open terminate
/// alternative, it is in no rendezvous (9.4, 9.5, 9.7.1).
pub fn pending_nests()
    ensures blocks { ClosedBlocksAreInnermost }
    ensures room { WaitsHaveRoom }
    ensures alone { OpenTerminatesAreInNoRendezvous }
{}
