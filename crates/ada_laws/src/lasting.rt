//! Laws of what lasts: what holds of a journal and of every journal that begins with it.
ghost use Rattle.ada_laws.specs.Lasting.{TerminatedTasksStaySo, CompletedTasksStaySo, UncallableTasksStaySo, MomentsNeverGoBack};

/// A terminated task stays terminated, and a completed one completed (9.4).
#[tactic(auto, using(crate::proofs::held::LastingLaws::terminated_tasks_stay_so, crate::proofs::held::LastingLaws::completed_tasks_stay_so))]
pub fn ended_tasks_stay_so()
    ensures terminated { TerminatedTasksStaySo }
    ensures completed { CompletedTasksStaySo }
{}

/// A task that isn't callable never becomes callable again (9.9).
#[tactic(auto, using(crate::proofs::held::LastingLaws::uncallable_tasks_stay_so))]
pub fn uncallable_tasks_stay_so()
    ensures { UncallableTasksStaySo }
{}

/// In a lawful journal the moment never goes back.
#[tactic(auto, using(crate::proofs::held::LastingLaws::moments_never_go_back))]
pub fn moments_never_go_back()
    ensures { MomentsNeverGoBack }
{}
