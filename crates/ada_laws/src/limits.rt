//! Limits that every lawful journal keeps, and how many steps a request forces.
ghost use Rattle.ada_laws.specs.Limits.{TasksAreFew, WorkIsThreeForEachTask, StepsLessenTheWork, AppendsFew, LeadsToAJournal, LeadsToFewEvents, EventsAreFew};

/// A lawful journal has at most 256 tasks.
#[tactic(auto, using(crate::proofs::asking::LimitLaws::tasks_are_few))]
pub fn tasks_are_few()
    ensures { TasksAreFew }
{}

/// The work left in a lawful journal is at most three for each task.
#[tactic(auto, using(crate::proofs::asking::LimitLaws::work_is_three_for_each_task))]
pub fn work_is_three_for_each_task()
    ensures { WorkIsThreeForEachTask }
{}

/// Each forced step lessens the work left.
#[tactic(auto, using(crate::proofs::asking::LimitLaws::steps_lessen_the_work))]
pub fn steps_lessen_the_work()
    ensures { StepsLessenTheWork }
{}

/// One request appends at most 769 events.
#[tactic(auto, using(crate::proofs::asking::LimitLaws::appends_few))]
pub fn appends_few()
    ensures { AppendsFew }
{}

/// What a request leads to exists wherever the request isn't refused.
#[tactic(auto, using(crate::proofs::asking::LimitLaws::leads_to_a_journal))]
pub fn leads_to_a_journal()
    ensures { LeadsToAJournal }
{}

/// A request that isn't refused leads to at most 65,536 events.
#[tactic(auto, using(crate::proofs::asking::LimitLaws::leads_to_few_events))]
pub fn leads_to_few_events()
    ensures { LeadsToFewEvents }
{}

/// A lawful journal has at most 65,536 events.
#[tactic(auto, using(crate::proofs::asking::LimitLaws::events_are_few))]
pub fn events_are_few()
    ensures { EventsAreFew }
{}
