//! A law of groups: a request's event with the steps that it forces.
ghost use Rattle.ada_laws.specs.Groups.{StepsFollowTheirRequest};

/// Every lawful journal with an event ends in a group: the event of a request that wasn't refused by a
/// journal at rest, and right behind it the steps that it forced so far.
#[tactic(auto, using(crate::proofs::asking::GroupLaws::steps_follow_their_request))]
pub fn steps_follow_their_request()
    ensures { StepsFollowTheirRequest }
{}
