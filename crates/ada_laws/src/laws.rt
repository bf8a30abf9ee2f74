//! The six laws as one record of a journal.
ghost use Rattle.ada_laws.specs.Laws.{JournalsKeepTheLaws};

/// Every lawful and settled journal keeps the six laws: one open call each; queues rise and fronts are
/// met; one meeting for a joined call; no open call to a finished task; a terminated body has no live
/// dependent; no acceptor waits at a queued choice.
#[tactic(auto, using(crate::proofs::KeepingLaws::journals_keep_the_laws))]
pub fn journals_keep_the_laws()
    ensures { JournalsKeepTheLaws }
{}
