//! The phase of a task by its record.
ghost use Rattle.std.specs.Prelude.{◌≡◌};
ghost use Rattle.ada_records.specs.RecordedPhases.{phase_by};

use crate::Record;
use ada_tables::Phase;

/// The phase of a task, as the tables keep it.
pub(crate) fn phase_of(kept: &Record) -> Phase
    ensures { result ≡ phase_by kept.now }
{
    if kept.stage.terminated {
        return Phase::Terminated;
    }
    if kept.stage.completed {
        return Phase::Completed;
    }
    match (
        kept.suspension.at == 0,
        kept.stage.started,
        kept.suspension.quittable,
    ) {
        (true, true, _) => Phase::Active,
        (true, false, _) => Phase::Unstarted,
        (false, _, true) => Phase::Quittable,
        (false, _, false) => Phase::Held,
    }
}
