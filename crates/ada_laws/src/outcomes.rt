//! A law of outcomes.
ghost use Rattle.ada_laws.specs.Outcomes.{SuspendedTasksAreHeld, HeldTasksAreSuspended};

/// In a lawful journal the outcome of a task is that it is held exactly where it is suspended.
#[tactic(auto, using(crate::proofs::held::OutcomeLaws::suspended_tasks_are_held, crate::proofs::held::OutcomeLaws::held_tasks_are_suspended))]
pub fn held_exactly_where_suspended()
    ensures suspended { SuspendedTasksAreHeld }
    ensures held { HeldTasksAreSuspended }
{}
