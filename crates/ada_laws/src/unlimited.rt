//! Laws of journals that are lawful where tasks, slots and events have no limit.
ghost use Rattle.ada_laws.specs.Unlimited.{LawfulIsUnlimited, LeadsOnUnlimited, StaysLawfulUnlimited};

/// A lawful journal is lawful where tasks, slots and events have no limit, too.
#[tactic(auto, using(crate::proofs::asking::Limitless::lawful_unlimited))]
pub fn lawful_is_unlimited()
    ensures { LawfulIsUnlimited }
{}

/// Where tasks, slots and events have no limit, what a request leads to exists wherever the request isn't refused.
pub fn leads_on_unlimited()
    ensures { LeadsOnUnlimited }
{}

/// Where tasks, slots and events have no limit, what a request leads to is lawful.
pub fn stays_lawful_unlimited()
    ensures { StaysLawfulUnlimited }
{}
