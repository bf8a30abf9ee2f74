//! Laws of masters and their parents (9.4).
ghost use Rattle.ada_laws.specs.Masters.{MastersReachByParents, TasksDependByParents};

/// A master reaches itself and what its parent reaches, and a task depends on the parent of its body and
/// on what this reaches.
#[tactic(auto, using(crate::proofs::within::Parents::masters_reach_by_parents, crate::proofs::within::Parents::tasks_depend_by_parents))]
pub fn masters_reach_by_parents()
    ensures reach { MastersReachByParents }
    ensures depend { TasksDependByParents }
{}
