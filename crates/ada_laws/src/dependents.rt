//! A law of dependents (9.4).
ghost use Rattle.ada_laws.specs.Laws.{OfLawful};
ghost use Rattle.ada_laws.specs.Dependents.{ATerminatedBodyHasNoLiveDependent};

/// No terminated task has a dependent of its body that isn't terminated.
pub fn a_terminated_body_has_no_live_dependent()
    ensures { OfLawful ATerminatedBodyHasNoLiveDependent }
{}
