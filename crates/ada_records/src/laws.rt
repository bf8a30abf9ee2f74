//! What a right record tells of its task. A law is the contract of a function that does nothing.

ghost use Rattle.ada_records.specs.RecordedStates.{RecordsTell};

/// A right record tells of its task whether it has ended, runs and is callable (9.9), and its outcome.
#[tactic(auto, using(crate::proofs::recording::Queries::records_tell))]
pub fn records_tell()
    ensures { RecordsTell }
{}
