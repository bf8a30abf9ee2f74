//! What a task is suspended at.
ghost use Rattle.ada_laws.specs.Suspension.{SuspendedAtSomePosition, SuspendedThere, SuspendedAtTheLatest, SuspendedAtOnePosition, SuspendedTasksExist};
ghost use Rattle.ada_laws.specs.Suspension.{OneReleaseEach};

/// A task is suspended exactly where it is suspended at some position: at one at most, which is the
/// latest of all that held it up. Only a task that exists is suspended.
pub fn suspended_at_one_position()
    ensures somewhere { SuspendedAtSomePosition }
    ensures there { SuspendedThere }
    ensures latest { SuspendedAtTheLatest }
    ensures one { SuspendedAtOnePosition }
    ensures exists { SuspendedTasksExist }
{}

/// One event at most releases a call, wait, delay, start or close.
#[tactic(auto, using(crate::proofs::held::Releasing::one_release_each))]
pub fn one_release_each()
    ensures { OneReleaseEach }
{}
