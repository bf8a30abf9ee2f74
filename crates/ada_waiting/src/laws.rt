//! Laws of reasons, and of a standstill.
ghost use Rattle.ada_waiting.specs.Laws.{OneReasonEach, SuspendedThere, OnlyLiveTasksAreAwaited};
ghost use Rattle.ada_waiting.specs.Laws.{OnlyTicksAreAccepted, TicksForceFromTheFirstMoment, StuckForEver};

/// A task has no reason exactly if it runs or is terminated.
#[tactic(auto, using(crate::proofs::Reasoning::one_reason_each))]
pub fn one_reason_each()
    ensures { OneReasonEach }
{}

/// A task is suspended at its latest call, wait, delay, start or close, if it is suspended.
pub fn suspended_there()
    ensures { SuspendedThere }
{}

/// Only a task that isn't terminated is waited for.
pub fn only_live_tasks_are_awaited()
    ensures { OnlyLiveTasksAreAwaited }
{}

/// While nobody runs, every request is refused but a tick.
#[tactic(auto, using(crate::proofs::Standing::only_ticks_are_accepted))]
pub fn only_ticks_are_accepted()
    ensures { OnlyTicksAreAccepted }
{}

/// A tick forces a step exactly if the first moment for which any task waits has come.
#[tactic(auto, using(crate::proofs::Ticking::ticks_force_from_the_first_moment))]
pub fn ticks_force_from_the_first_moment()
    ensures { TicksForceFromTheFirstMoment }
{}

/// A stuck journal stays stuck: nothing but ticks is ever added to it.
pub fn stuck_for_ever()
    ensures { StuckForEver }
{}
