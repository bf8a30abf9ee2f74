//! The next step of a behaviour over a kernel.

ghost use Rattle.std.specs.Prelude.{◌≡◌, false, IfOk, OnOk, Option, Some, None};
ghost use Rattle.std.specs.Option.{option_map};
ghost use Rattle.ada_events.specs.declared.refusal.Refusal.TheVariants.{OutOfMemory};
ghost use Rattle.ada_events.specs.declared.request.Request.TheVariants.{Tick};
ghost use Rattle.ada_laws.specs.Unlimited.{is_limit};
ghost use Rattle.ada_schedules.specs.Schedules.{Acts};
ghost use Rattle.ada_search.specs.Findings.{at};
ghost use Rattle.ada_behaviours.specs.declared.want.ObjectNo.{ObjectNo as Number};
ghost use Rattle.ada_behaviours.specs.declared.want.Want.TheVariants as want;
ghost use Rattle.ada_behaviours.specs.declared.want.Move.TheVariants as move;
ghost use Rattle.ada_behaviours.specs.Moves as moves;

use crate::Rest;
use crate::asking::{answer_to, is_idle, made_by, requested};
use crate::rest::{leave, note_made, settle};
use crate::telling::running_of;
use ada_behaviours::{Action, Behaviour, Move, ObjectNo, Question, Want};
use ada_events::{Refusal, Request};
use ada_kernel::Kernel;
use ada_search::Halt;
use ada_waiting::next_due;
use std::alloc::Global;

// Whether the cause is one of the rules, and no limit of tasks, entries or events, nor want of memory.
#[tactic(auto, unfolding(ada_laws::specs::Unlimited::is_limit))]
fn of_the_rules(cause: Refusal) -> Result<(), Halt>
    ensures { OnOk result ((is_limit cause ≡ false) × (cause ≡ OutOfMemory → ⊥)) }
{
    match cause {
        Refusal::TooManyTasks | Refusal::TooManySlots | Refusal::JournalFull => {
            Err(Halt::Limit(cause))
        }
        Refusal::OutOfMemory => Err(Halt::Memory),
        _ => Ok(()),
    }
}

// What is left once the request of an object was accepted, which made the task of an object or of none.
fn accepted<B: Behaviour>(
    behaviour: &B,
    kernel: &Kernel,
    rest: &mut Rest<B::State>,
    object: ObjectNo,
    pick: u32,
    made: Option<ObjectNo>,
    task: u16,
) -> Result<(), Halt>
    ensures { OnOk result (rest.new ≡ moves.settled_in (B.told behaviour.now) kernel.now
        (moves.with_made (option_map (λ (o : Number). o.0) made) task 0 rest.old.tasks)
        ((B.told behaviour.now).accepted rest.old.state object.0 pick)) }
{
    note_made(&mut rest.tasks, made, task);
    behaviour.accept(&mut rest.state, object, pick)?;
    settle(behaviour, kernel, rest)
}

// What is left once it was refused.
fn refused<B: Behaviour>(
    behaviour: &B,
    rest: &mut Rest<B::State>,
    object: ObjectNo,
    pick: u32,
    cause: Refusal,
) -> Result<(), Halt>
    ensures { OnOk result (rest.new
        ≡ moves.left_refused (B.told behaviour.now) rest.old (move.Go object pick) cause) }
{
    behaviour.refuse(&mut rest.state, object, pick, cause)?;
    leave(behaviour, rest)
}

// Makes the request of an object, which makes the task of an object or of none.
fn perform<B: Behaviour>(
    behaviour: &B,
    kernel: &mut Kernel,
    rest: &mut Rest<B::State>,
    object: ObjectNo,
    pick: u32,
    made: Option<ObjectNo>,
    request: Request,
) -> Result<Option<Refusal>, Halt>
    requires asks { moves.asked_by (B.told behaviour.now) kernel.old rest.old
        (move.Go object pick) ≡ Some request }
    requires makes { option_map (λ (o : Number). o.0) made
        ≡ moves.made_in ((B.told behaviour.now).wants rest.old.state object.0 pick) }
    ensures { OnOk result (Acts (moves.behaving (B.told behaviour.now)) (move.Go object pick)
        (at kernel.old rest.old) (at kernel.new rest.new)) }
{
    let task = kernel.tasks();
    match kernel.step(request) {
        Ok(_) => {
            accepted(behaviour, kernel, rest, object, pick, made, task)?;
            Ok(None)
        }
        Err(cause) => {
            of_the_rules(cause)?;
            refused(behaviour, rest, object, pick, cause)?;
            Ok(Some(cause))
        }
    }
}

// An object acts whose task runs.
fn act<B: Behaviour>(
    behaviour: &B,
    kernel: &mut Kernel,
    rest: &mut Rest<B::State>,
    object: ObjectNo,
    pick: u32,
    task: u16,
    action: Action,
) -> Result<Option<Refusal>, Halt>
    requires runs { moves.running_of kernel.old rest.old.tasks object.0 ≡ Some task }
    requires wants { (B.told behaviour.now).wants rest.old.state object.0 pick
        ≡ want.Act action }
    ensures { OnOk result (Acts (moves.behaving (B.told behaviour.now)) (move.Go object pick)
        (at kernel.old rest.old) (at kernel.new rest.new)) }
{
    let made = made_by(&action);
    let Some(request) = requested(kernel, &rest.tasks, task, pick, action) else {
        return Err(Halt::NoChoice);
    };
    perform(behaviour, kernel, rest, object, pick, made, request)
}

// An object whose task runs has the answer to a question.
fn ask<B: Behaviour>(
    behaviour: &B,
    kernel: &Kernel,
    rest: &mut Rest<B::State>,
    object: ObjectNo,
    pick: u32,
    task: u16,
    question: Question,
) -> Result<(), Halt>
    requires runs { moves.running_of kernel.now rest.old.tasks object.0 ≡ Some task }
    requires wants { (B.told behaviour.now).wants rest.old.state object.0 pick
        ≡ want.Ask question }
    ensures { OnOk result (Acts (moves.behaving (B.told behaviour.now)) (move.Go object pick)
        (at kernel.now rest.old) (at kernel.now rest.new)) }
{
    let Some(answer) = answer_to(kernel, &rest.tasks, task, question) else {
        return Err(Halt::NoChoice);
    };
    behaviour.answer(&mut rest.state, object, answer)?;
    leave(behaviour, rest)?;
    Ok(())
}

// An object does what it wants, if its task runs.
fn go<B: Behaviour>(
    alloc: Global,
    behaviour: &B,
    kernel: &mut Kernel,
    rest: &mut Rest<B::State>,
    object: ObjectNo,
    pick: u32,
) -> Result<Option<Refusal>, Halt>
    ensures { OnOk result (Acts (moves.behaving (B.told behaviour.now)) (move.Go object pick)
        (at kernel.old rest.old) (at kernel.new rest.new)) }
{
    let Some(task) = running_of(kernel, &rest.tasks, object) else {
        return Err(Halt::NoChoice);
    };
    match behaviour.wants(alloc, &rest.state, object, pick)? {
        Want::Nothing => Err(Halt::NoChoice),
        Want::Act(action) => act(behaviour, kernel, rest, object, pick, task, action),
        Want::Ask(question) => {
            ask(behaviour, kernel, rest, object, pick, task, question)?;
            Ok(None)
        }
    }
}

// Whether an object wants something, and its task runs.
fn is_busy<B: Behaviour>(
    alloc: Global,
    behaviour: &B,
    kernel: &Kernel,
    rest: &Rest<B::State>,
    object: ObjectNo,
) -> Result<bool, Halt>
    ensures { IfOk result (λ busy.
        busy ≡ moves.is_busy (B.told behaviour.now) kernel.now rest.now object.0) }
{
    if running_of(kernel, &rest.tasks, object).is_none() {
        return Ok(false);
    }
    let wanted = behaviour.wants(alloc, &rest.state, object, 0)?;
    Ok(!is_idle(&wanted))
}

/// Whether nobody who runs wants anything.
pub(crate) fn all_idle<B: Behaviour>(
    alloc: Global,
    behaviour: &B,
    kernel: &Kernel,
    rest: &Rest<B::State>,
) -> Result<bool, Halt>
    ensures { IfOk result (λ idle.
        idle ≡ moves.all_idle (B.told behaviour.now) kernel.now rest.now) }
{
    for object in 0..behaviour.objects() {
        if is_busy(alloc, behaviour, kernel, rest, ObjectNo(object))? {
            return Ok(false);
        }
    }
    Ok(true)
}

// Time passes to a moment.
fn pass_to<B: Behaviour>(
    behaviour: &B,
    kernel: &mut Kernel,
    rest: &mut Rest<B::State>,
    now: i64,
) -> Result<Option<Refusal>, Halt>
    requires { moves.asked_by (B.told behaviour.now) kernel.old rest.old move.Pass
        ≡ Some (Tick now) }
    ensures { OnOk result (Acts (moves.behaving (B.told behaviour.now)) move.Pass
        (at kernel.old rest.old) (at kernel.new rest.new)) }
{
    match kernel.step(Request::Tick { now }) {
        Ok(_) => {
            settle(behaviour, kernel, rest)?;
            Ok(None)
        }
        Err(cause) => {
            of_the_rules(cause)?;
            Ok(Some(cause))
        }
    }
}

// Time passes, if nobody wants anything, to the first moment for which a task waits (9.6).
fn pass<B: Behaviour>(
    alloc: Global,
    behaviour: &B,
    kernel: &mut Kernel,
    rest: &mut Rest<B::State>,
) -> Result<Option<Refusal>, Halt>
    ensures { OnOk result (Acts (moves.behaving (B.told behaviour.now)) move.Pass
        (at kernel.old rest.old) (at kernel.new rest.new)) }
{
    if !all_idle(alloc, behaviour, kernel, rest)? {
        return Err(Halt::NoChoice);
    }
    match next_due(kernel) {
        Some(now) => pass_to(behaviour, kernel, rest, now),
        None => Err(Halt::NoChoice),
    }
}

/// Makes a move. Answers the cause if its request was refused.
pub(crate) fn make<B: Behaviour>(
    alloc: Global,
    behaviour: &B,
    kernel: &mut Kernel,
    rest: &mut Rest<B::State>,
    choice: Move,
) -> Result<Option<Refusal>, Halt>
    ensures { OnOk result (Acts (moves.behaving (B.told behaviour.now)) choice
        (at kernel.old rest.old) (at kernel.new rest.new)) }
{
    match choice {
        Move::Go { object, pick } => go(alloc, behaviour, kernel, rest, object, pick),
        Move::Pass => pass(alloc, behaviour, kernel, rest),
    }
}
