//! Laws of entry calls (9.5).
ghost use Rattle.ada_laws.specs.Laws.{OfEvery, OfLawful, OfSettled};
ghost use Rattle.ada_laws.specs.Calls.{OneOpenCallEach, OpenCallsSuspend, CallsThatSuspendAreOpen, OpenCallsAreJoinedOrQueued, QueuesRise, FrontsAreMet};
ghost use Rattle.ada_laws.specs.Calls.{OneMeetingForAJoinedCall, NoOpenCallToAFinishedTask, NoAcceptorWaitsAtAQueuedChoice};

/// One open call each: a task has one open call at most, exactly where it is suspended at that call.
/// An open call is joined in a rendezvous or stands in exactly one queue, that of its entry.
pub fn one_open_call_each()
    ensures one { OfLawful OneOpenCallEach }
    ensures suspends { OfEvery OpenCallsSuspend }
    ensures open_at { OfEvery CallsThatSuspendAreOpen }
    ensures joined_or_queued { OfLawful OpenCallsAreJoinedOrQueued }
{}

/// Queues rise and fronts are met: calls stand in a queue in the order of their arrival, and each
/// rendezvous began with the call at the front of the queue of an open choice.
#[tactic(auto, using(crate::proofs::queues::CallLaws::queues_rise, crate::proofs::queues::CallLaws::fronts_are_met))]
pub fn queues_rise_and_fronts_are_met()
    ensures rise { OfEvery QueuesRise }
    ensures met { OfLawful FrontsAreMet }
{}

/// One meeting for a joined call: with a call one rendezvous begins at most, by a wait of the task
/// called.
#[tactic(auto, using(crate::proofs::queues::CallLaws::one_meeting_for_a_joined_call))]
pub fn one_meeting_for_a_joined_call()
    ensures { OfLawful OneMeetingForAJoinedCall }
{}

/// In a settled journal no call to a completed, terminated or abnormal task is open.
pub fn no_open_call_to_a_finished_task()
    ensures { OfSettled NoOpenCallToAFinishedTask }
{}

/// In a settled journal no task waits at an open choice whose queue isn't empty.
pub fn no_acceptor_waits_at_a_queued_choice()
    ensures { OfSettled NoAcceptorWaitsAtAQueuedChoice }
{}
