//! Laws of what one more event changes.

ghost use Rattle.ada_step_laws.specs.Changes.{CallsComeLast, ReleasedCallsLeave, MetCallsLeave, CompletedCallersLeave, OthersKeepQueues, RendezvousAreEntered};
ghost use Rattle.ada_step_laws.specs.Changes.{RendezvousAreLeft, BlocksAreEntered, BlocksAreLeft, OthersKeepNests, NestsAreDistinct};
ghost use Rattle.ada_step_laws.specs.Latest.{WhatIsReleasedHeld, HoldsAreHeld, ReleasesDecide, RaisersHaveRaised, OthersKeepOutcomes};

/// A call comes last in the queue of its entry (9.5).
#[tactic(auto, using(crate::proofs::changing::QueueKinds::queue_called))]
pub fn calls_come_last()
    ensures { CallsComeLast }
{}

/// A call that is cancelled or fails leaves its queue; one that ends has left it (9.5, 9.7.2, 9.7.3).
pub fn released_calls_leave()
    ensures { ReleasedCallsLeave }
{}

/// A call with which a rendezvous begins leaves its queue (9.5).
pub fn met_calls_leave()
    ensures { MetCallsLeave }
{}

/// The call of a task that is completed leaves its queue (9.10).
pub fn completed_callers_leave()
    ensures { CompletedCallersLeave }
{}

/// An event that makes no call, releases nothing, begins no rendezvous and completes nobody, as the termination of a
/// task, leaves each queue as it was.
pub fn others_keep_queues()
    ensures { OthersKeepQueues }
{}

/// A task whose wait takes a call is then within its rendezvous, innermost (9.5).
#[tactic(auto, using(crate::proofs::changing::Nesting::nest_met))]
pub fn rendezvous_are_entered()
    ensures { RendezvousAreEntered }
{}

/// Where a call is released, nobody is within its rendezvous any more (9.5).
#[tactic(auto, using(crate::proofs::changing::Unnesting::nest_released))]
pub fn rendezvous_are_left()
    ensures { RendezvousAreLeft }
{}

/// A task that opens a block is then within it, innermost (9.4).
#[tactic(auto, using(crate::proofs::changing::NestKinds::blocks_are_entered))]
pub fn blocks_are_entered()
    ensures { BlocksAreEntered }
{}

/// Where a task leaves the block that it closed, nobody is within that block any more (9.4).
pub fn blocks_are_left()
    ensures { BlocksAreLeft }
{}

/// An event that opens no block, begins no rendezvous and releases nothing, as the completion or the termination of
/// a task, leaves each task within what it was in.
#[tactic(auto, using(crate::proofs::changing::NestKinds::others_keep_nests))]
pub fn others_keep_nests()
    ensures { OthersKeepNests }
{}

/// A task is within each block and each rendezvous once.
#[tactic(auto, using(crate::proofs::changing::Distinct::nests_are_distinct))]
pub fn nests_are_distinct()
    ensures { NestsAreDistinct }
{}

/// Whatever an event releases, a task is suspended at it.
#[tactic(auto, using(crate::proofs::changing::LatestOutcomes::what_is_released_held))]
pub fn what_is_released_held()
    ensures { WhatIsReleasedHeld }
{}

/// What became of a task's latest suspension: who is held up is held, until the event that releases it says what became
/// of it; who ends a rendezvous by an exception has it raised (11.5). Nothing new becomes of other tasks.
pub fn outcomes_are_the_latest()
    ensures held { HoldsAreHeld }
    ensures released { ReleasesDecide }
    ensures raised { RaisersHaveRaised }
    ensures others { OthersKeepOutcomes }
{}
