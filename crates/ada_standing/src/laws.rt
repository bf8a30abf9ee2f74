//! Laws of two journals of which the second stands in for the first. Both are lawful where tasks, slots and events have
//! no limit, as every lawful journal is.
ghost use Rattle.ada_standing.specs.Laws.{AcceptedWithoutLimits, AnsweredAlike, FewerNamesStandIn, ForcedAlike};
ghost use Rattle.ada_standing.specs.Laws.{LeadsAlike, LimitsRefuseAtLast, RefusedAlike, StandInsChain};

/// The second journal forces what stands for the step that the first one forces: the same step of the tasks, masters
/// and positions that stand for those it names. It forces none where the first one forces none. Both are lawful where
/// tasks, slots and events have no limit.
#[tactic(auto, using(crate::proofs::lawful::Laws::forced_alike))]
pub fn forced_alike()
    ensures { ForcedAlike }
{}

/// Questions are answered alike: what the moment is, whether the main program is terminated, and of each task that has
/// a name whether it is terminated, callable or running, its outcome, and the queues and COUNT of its entries. Both
/// journals are lawful where tasks, slots and events have no limit.
#[tactic(auto, using(crate::proofs::asked::Answering::answered_alike))]
pub fn answered_alike()
    ensures { AnsweredAlike }
{}

/// Requests are refused alike, where tasks, slots and events have no limit: what stands for a request is refused for
/// the same cause, or isn't refused either, provided that each task that the request names has a name or doesn't exist.
/// Both journals are lawful where tasks, slots and events have no limit, and the second one has no task 65535, which
/// is named for one without a name: with the limits it has fewer.
#[tactic(auto, using(crate::proofs::asked::Refusing::refused_alike))]
pub fn refused_alike()
    ensures { RefusedAlike }
{}

/// A request is refused for a limit of tasks, slots or events only where there is no other cause.
#[tactic(auto, using(ada_laws::proofs::asking::Limitless::limits_refuse_at_last))]
pub fn limits_refuse_at_last()
    ensures { LimitsRefuseAtLast }
{}

/// What isn't refused isn't refused where tasks, slots and events have no limit.
#[tactic(auto, using(ada_laws::proofs::asking::Limitless::accepted_without_limits))]
pub fn accepted_without_limits()
    ensures { AcceptedWithoutLimits }
{}

/// A request leads to journals of which the second stands in for the first again, where nothing is forced and neither
/// journal refuses it: each event that the second journal grows by stands for one that the first grows by, in their
/// order, new tasks and positions stand for one another, and what existed before has the name that it had, and no
/// other. Tasks, slots and events have no limit: both journals are lawful there, and don't refuse the request there.
#[tactic(auto, using(crate::proofs::led::Leading::leads_alike))]
pub fn leads_alike()
    ensures { LeadsAlike }
{}

/// Journals that stand in for others chain: what stands in for a journal that stands in for a first one stands in for
/// the first one too, with what stands for what stands for each task and position. The first one is lawful where tasks,
/// slots and events have no limit.
pub fn stand_ins_chain()
    ensures { StandInsChain }
{}

/// A journal stands in for a settled one with fewer names too, as long as they are enough: the main program, the tasks
/// that aren't terminated, where these are suspended and what they are within keep their names. The settled one is
/// lawful where tasks, slots and events have no limit.
pub fn fewer_names_stand_in()
    ensures { FewerNamesStandIn }
{}
