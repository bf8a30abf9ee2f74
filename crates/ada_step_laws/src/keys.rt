//! Laws of the keys at which steps are forced.

ghost use Rattle.ada_step_laws.specs.Agendas.{FirstKeysAreForced, EmptyAgendasForceNothing, IdleKeysMayGo, OneMoreEventTouches};

/// The first key of an agenda that gives a step gives the step that the journal forces.
#[tactic(auto, using(crate::proofs::rows::Keys::forced_first))]
pub fn first_keys_are_forced()
    ensures { FirstKeysAreForced }
{}

/// Where an agenda has no keys, the journal forces nothing.
#[tactic(auto, using(crate::proofs::rows::Keys::forced_nothing))]
pub fn empty_agendas_force_nothing()
    ensures { EmptyAgendasForceNothing }
{}

/// A key that gives no step may be dropped from an agenda.
#[tactic(auto, using(crate::proofs::rows::Keys::agenda_less))]
pub fn idle_keys_may_go()
    ensures { IdleKeysMayGo }
{}

/// After one more event a row gives a step only where it gave one before, or at a key that the event touches.
#[tactic(auto, using(crate::proofs::rows::TouchedKeys::newly))]
pub fn one_more_event_touches()
    ensures { OneMoreEventTouches }
{}
