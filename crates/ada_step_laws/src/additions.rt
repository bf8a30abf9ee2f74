//! Laws of where each kind of event can newly force a step.

ghost use Rattle.ada_step_laws.specs.Additions.{EventsAddTheirKeys, AgendasGrow, AgendasStay, OpeningsAddNothing, CreationsAddTheirTask, StartsAddThemselves};
ghost use Rattle.ada_step_laws.specs.Additions.{ElaborationsAddTheirStart, CallsAddTheWait, WaitsAddMasters, DelaysAddThemselves, ClosesAddTheirBlock};
ghost use Rattle.ada_step_laws.specs.Additions.{EndsAddTheCaller, FailuresAddTheCaller, CancellationsAddMasters, MeetingsAddNothing, PassingsAddNothing};
ghost use Rattle.ada_step_laws.specs.Additions.{WakingsAddNothing, ActivationsAddNothing, LeavingsAddNothing, CompletionsAddTheirTask};
ghost use Rattle.ada_step_laws.specs.Additions.{FailedActivationsAddTheirTask, HaltsAddTheirTask, AbortsAddTheirTasks, TicksAddWhatIsDue};
ghost use Rattle.ada_step_laws.specs.Additions.{TerminationsAddMasters, QuitsAddMasters, MastersAreFoundOutwards};

/// After one more event of a lawful journal a row gives a step only where it gave one before, or at one of the few
/// keys that an event of its kind adds.
#[tactic(auto, using(crate::proofs::newly::Adding::events_add_their_keys))]
pub fn events_add_their_keys()
    ensures { EventsAddTheirKeys }
{}

/// An agenda of a lawful journal, with those of the keys that an event adds which give a step, is an agenda of the
/// journal with the event.
#[tactic(auto, using(crate::proofs::newly::Adding::agendas_grow))]
pub fn agendas_grow()
    ensures { AgendasGrow }
{}

/// An agenda of a lawful journal is one of the journal with an opening, the beginning of a rendezvous, the passing of a
/// wait, the end of a delay or of an activation, or the leaving of a block.
#[tactic(auto, using(crate::proofs::newly::Adding::agendas_stay))]
pub fn agendas_stay()
    ensures { AgendasStay }
{}

/// The opening of a block can newly force nothing (9.4).
#[tactic(auto, using(crate::proofs::newly::Adding::openings_add_nothing))]
pub fn openings_add_nothing()
    ensures { OpeningsAddNothing }
{}

/// A creation can newly force only that the task just made goes (9.3).
#[tactic(auto, using(crate::proofs::newly::Adding::creations_add_their_task))]
pub fn creations_add_their_task()
    ensures { CreationsAddTheirTask }
{}

/// The start of an activation can newly force only its own end (9.3).
#[tactic(auto, using(crate::proofs::newly::Adding::starts_add_themselves))]
pub fn starts_add_themselves()
    ensures { StartsAddThemselves }
{}

/// A task that ends its activation without an exception can newly force only the end of the start that names it, at
/// which its maker is suspended (9.3).
#[tactic(auto, using(crate::proofs::newly::Adding::elaborations_add_their_start))]
pub fn elaborations_add_their_start()
    ensures { ElaborationsAddTheirStart }
{}

/// A call can newly force only its own failure or cancellation, and the meeting with the wait at which its callee
/// is suspended (9.5, 9.7.2, 9.7.3).
#[tactic(auto, using(crate::proofs::newly::Adding::calls_add_the_wait))]
pub fn calls_add_the_wait()
    ensures { CallsAddTheWait }
{}

/// A selective wait can newly force only its own meeting or passing, and, with an open terminate alternative, the
/// quitting of masters on which its task depends (9.4, 9.7.1).
#[tactic(auto, using(crate::proofs::newly::Adding::waits_add_masters))]
pub fn waits_add_masters()
    ensures { WaitsAddMasters }
{}

/// A delay can newly force only its own end (9.6).
#[tactic(auto, using(crate::proofs::newly::Adding::delays_add_themselves))]
pub fn delays_add_themselves()
    ensures { DelaysAddThemselves }
{}

/// A close can newly force only the leaving of its block, the block's quitting, and the going of tasks that were made
/// within it and were never started (9.3, 9.4).
#[tactic(auto, using(crate::proofs::newly::Adding::closes_add_their_block))]
pub fn closes_add_their_block()
    ensures { ClosesAddTheirBlock }
{}

/// The end of a rendezvous can newly force only that its caller is halted, where that is abnormal (9.5, 9.10).
#[tactic(auto, using(crate::proofs::newly::Adding::ends_add_the_caller))]
pub fn ends_add_the_caller()
    ensures { EndsAddTheCaller }
{}

/// The failure of a call can newly force only that its caller is halted, where that is abnormal (9.5, 9.10).
#[tactic(auto, using(crate::proofs::newly::Adding::failures_add_the_caller))]
pub fn failures_add_the_caller()
    ensures { FailuresAddTheCaller }
{}

/// The cancellation of a call can newly force only the quitting of masters on which its callee depends, where it
/// makes that ready to quit (9.4, 9.7.2, 9.7.3).
#[tactic(auto, using(crate::proofs::newly::Adding::cancellations_add_masters))]
pub fn cancellations_add_masters()
    ensures { CancellationsAddMasters }
{}

/// The beginning of a rendezvous, the passing of a wait, the end of a delay or of an activation, and the leaving of a
/// block can newly force nothing (9.3 to 9.7).
#[tactic(auto, using(crate::proofs::newly::Adding::meetings_add_nothing, crate::proofs::newly::Adding::passings_add_nothing, crate::proofs::newly::Adding::wakings_add_nothing, crate::proofs::newly::Adding::activations_add_nothing, crate::proofs::newly::Adding::leavings_add_nothing))]
pub fn other_releases_add_nothing()
    ensures meetings { MeetingsAddNothing }
    ensures passings { PassingsAddNothing }
    ensures wakings { WakingsAddNothing }
    ensures activations { ActivationsAddNothing }
    ensures leavings { LeavingsAddNothing }
{}

/// A completion can newly force only that the task goes, that the dependents of its body quit, that open calls to it
/// fail, the end of the start that names it, and the going of tasks that it made and that were never started (9.3, 9.4,
/// 9.5).
#[tactic(auto, using(crate::proofs::newly::Adding::completions_add_their_task, crate::proofs::newly::Adding::failed_activations_add_their_task))]
pub fn completions_add_their_task()
    ensures completed { CompletionsAddTheirTask }
    ensures failed { FailedActivationsAddTheirTask }
{}

/// A halt can newly force only what a completion can, that the dependents of blocks quit that the task is within, and
/// the quitting of masters on which the callee depends whose queue its call leaves, where that makes the callee ready
/// to quit (9.4, 9.10).
#[tactic(auto, using(crate::proofs::newly::Adding::halts_add_their_task))]
pub fn halts_add_their_task()
    ensures { HaltsAddTheirTask }
{}

/// An abort can newly force only that each task that it makes abnormal is halted, and that open calls to these fail
/// (9.5, 9.10).
#[tactic(auto, using(crate::proofs::newly::Adding::aborts_add_their_tasks))]
pub fn aborts_add_their_tasks()
    ensures { AbortsAddTheirTasks }
{}

/// A tick can newly force only the cancellation of timed calls, the passing of waits and the end of delays whose due
/// moment comes by it, each of a task that is suspended there (9.6, 9.7.1, 9.7.3).
#[tactic(auto, using(crate::proofs::newly::Adding::ticks_add_what_is_due))]
pub fn ticks_add_what_is_due()
    ensures { TicksAddWhatIsDue }
{}

/// A task that terminates by itself can newly force only that open calls to it fail, the end of the start that names
/// it, and of the masters on which it depends the quitting, the going of the task whose body it is, and the leaving
/// (9.3, 9.4, 9.5).
#[tactic(auto, using(crate::proofs::newly::Adding::terminations_add_masters))]
pub fn terminations_add_masters()
    ensures { TerminationsAddMasters }
{}

/// Tasks that terminate together can newly force only what each of them would by itself, and the going of tasks that
/// they made and that were never started (9.3, 9.4).
#[tactic(auto, using(crate::proofs::newly::Adding::quits_add_masters))]
pub fn quits_add_masters()
    ensures { QuitsAddMasters }
{}

/// A walk by parents, from what a task was made under outwards, finds all masters on which the task depends (9.4).
pub fn masters_are_found_outwards()
    ensures { MastersAreFoundOutwards }
{}
