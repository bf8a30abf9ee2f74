//! What a request leads to.
ghost use Rattle.ada_laws.specs.Requests.{LeadsToOneJournal, KeepsTheOldJournal, StaysLawful};

/// What a request leads to is unique.
#[tactic(auto, using(crate::proofs::asking::RequestLaws::leads_to_one_journal))]
pub fn leads_to_one_journal()
    ensures { LeadsToOneJournal }
{}

/// What a request leads to begins with the old journal, followed by the request's own event.
#[tactic(auto, using(crate::proofs::asking::RequestLaws::keeps_the_old_journal))]
pub fn keeps_the_old_journal()
    ensures { KeepsTheOldJournal }
{}

/// What a request leads to is lawful.
#[tactic(auto, using(crate::proofs::asking::RequestLaws::stays_lawful))]
pub fn stays_lawful()
    ensures { StaysLawful }
{}
