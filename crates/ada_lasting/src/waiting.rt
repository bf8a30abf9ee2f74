//! What two journals of which the second stands in for the first tell of waiting tasks.
ghost use Rattle.ada_lasting.specs.Waiting.{WaitedAlike};

/// Both journals tell alike why tasks don't go on. A task that has a name has the same reason as what stands for it;
/// both wait until the same moment, or for none. If no step is forced, both wait for the same tasks. The first moment
/// for which any task waits is the same. Nobody runs in both, or somebody does in both, and the same can let both go
/// on. Both are lawful where tasks, slots and events have no limit.
#[tactic(auto, using(crate::proofs::waits::Laws::waited_alike))]
pub fn waited_alike()
    ensures { WaitedAlike }
{}
