//! Laws of tables that stand for a journal.

ghost use Rattle.ada_records.specs.Facing.{HeldTablesStand};
ghost use Rattle.ada_records.specs.RecordedPhases.{RecordsTellPhases, OthersKeepPhases};
ghost use Rattle.ada_records.specs.TableChanges.{TablesFollow, CutsKeepTheRest};
ghost use Rattle.ada_records.specs.TableChanges.{HoldsChangeOnePhase, ReleasesChangeOnePhase, CompletionsChangeOnePhase, GoingChangesOnePhase};

/// Tables that hold what a lawful journal says of each task and each queue stand for it, the counts of dependents
/// included.
#[tactic(auto, using(crate::proofs::following::Standing::held_tables_stand))]
pub fn held_tables_stand()
    ensures { HeldTablesStand }
{}

/// The rendezvous with a call stands in a nest once, so that the tables, which take out the first that they find,
/// leave there what the journal says once the call is released (9.5).
pub fn cuts_keep_the_rest()
    ensures { CutsKeepTheRest }
{}

/// A right record tells its task's phase (9.3, 9.4, 9.7.1).
#[tactic(auto, using(crate::proofs::phase_changes::RecordedPhases::records_tell_phases))]
pub fn records_tell_phases()
    ensures { RecordsTellPhases }
{}

/// A task that an event doesn't touch keeps its phase.
#[tactic(auto, using(crate::proofs::phase_changes::KeptPhases::others_keep_phases))]
pub fn others_keep_phases()
    ensures { OthersKeepPhases }
{}

/// Tables that stand for a journal stand for it with an event that makes no task once nests, phases and queues are
/// changed as the event says: masters, entries and counts of dependents need no care.
pub fn tables_follow()
    ensures { TablesFollow }
{}

/// A wait, a delay and a close change the phase of their task alone, and so do the end of a wait otherwise than by a
/// rendezvous, of a delay and of a start, the completion of a task that isn't suspended, and the termination of a task
/// by itself.
pub fn one_phase_changes()
    ensures holds { HoldsChangeOnePhase }
    ensures releases { ReleasesChangeOnePhase }
    ensures completes { CompletionsChangeOnePhase }
    ensures goes { GoingChangesOnePhase }
{}
