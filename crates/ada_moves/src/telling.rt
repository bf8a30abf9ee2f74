//! What the objects of a behaviour are told: what became of their tasks.

ghost use Rattle.std.specs.Prelude.{◌≡◌, ◌==◌, ◌&&◌, nat_lt, false, IfOk, OnOk};
ghost use Rattle.std.specs.Option.{option_map_or};
ghost use Rattle.ada_events.specs.Outcomes.{outcome_of};
ghost use Rattle.ada_behaviours.specs.Moves as moves;

use ada_behaviours::{Behaviour, ObjectNo};
use ada_events::{Outcome, TaskNo};
use ada_kernel::Kernel;
use ada_search::Halt;

/// The task of an object; none if it isn't made, or may not be named any more.
pub(crate) fn task_of(tasks: &[Option<u16>], object: ObjectNo) -> Option<u16>
    ensures { result ≡ moves.task_of tasks.now object.0 }
{
    match tasks.get(usize::from(object.0)) {
        Some(task) => *task,
        None => None,
    }
}

/// Whether a task exists, and runs.
pub(crate) fn runs(kernel: &Kernel, task: u16) -> bool
    ensures { result ≡ moves.runs kernel.now task }
{
    kernel.running(TaskNo(task)).unwrap_or(false)
}

/// Whether a task exists, and is terminated.
pub(crate) fn is_gone(kernel: &Kernel, task: u16) -> bool
    ensures { result ≡ moves.is_gone kernel.now task }
{
    kernel.terminated(TaskNo(task)).unwrap_or(false)
}

/// The task of an object, if it runs.
pub(crate) fn running_of(kernel: &Kernel, tasks: &[Option<u16>], object: ObjectNo) -> Option<u16>
    ensures { result ≡ moves.running_of kernel.now tasks.now object.0 }
{
    let task = task_of(tasks, object)?;
    if runs(kernel, task) { Some(task) } else { None }
}

// Whether a position at which a task is suspended, 0 if it isn't, is this one.
fn is_place(at: u32, position: u32) -> bool
    ensures { result ≡ (nat_lt 0 position && at == position) }
{
    position > 0 && at == position
}

// Whether a task is suspended at a position.
fn is_held_at(kernel: &Kernel, position: u32, task: u16) -> bool
    ensures { result ≡ moves.is_held_at kernel.now position task }
{
    let _journal = kernel.journal();
    match kernel.record(TaskNo(task)) {
        Some(kept) => is_place(kept.suspension.at, position),
        None => false,
    }
}

// Whether the task of an object is, if it has one.
fn is_object_held_at(kernel: &Kernel, position: u32, task: Option<u16>) -> bool
    ensures { result ≡ option_map_or (moves.is_held_at kernel.now position) task false }
{
    match task {
        Some(task) => is_held_at(kernel, position, task),
        None => false,
    }
}

// The object whose task is suspended at a position; how many objects there are, if there is none.
fn held_object(kernel: &Kernel, tasks: &[Option<u16>], position: u32) -> usize
    ensures { result ≡ moves.held_object kernel.now tasks.now position }
{
    for object in 0..tasks.len() {
        if is_object_held_at(kernel, position, tasks[object]) {
            return object;
        }
    }
    tasks.len()
}

// An outcome, in which the number of an object stands for its call.
fn told(kernel: &Kernel, tasks: &[Option<u16>], outcome: Outcome) -> Result<Outcome, Halt>
    ensures { IfOk result (λ known. known ≡ moves.told kernel.now tasks.now outcome) }
{
    match outcome {
        Outcome::Accepted { call, choice } => {
            let object = held_object(kernel, tasks, call);
            let call = u32::try_from(object).map_err(|_| Halt::TooLong)?;
            Ok(Outcome::Accepted { call, choice })
        }
        _ => Ok(outcome),
    }
}

// The outcome of a task, told so.
fn outcome_told(kernel: &Kernel, tasks: &[Option<u16>], task: u16) -> Result<Outcome, Halt>
    ensures { IfOk result (λ known.
        known ≡ moves.told kernel.now tasks.now (outcome_of kernel.now task)) }
{
    match kernel.outcome(TaskNo(task)) {
        Some(outcome) => told(kernel, tasks, outcome),
        None => Err(Halt::NoChoice),
    }
}

// Tells an object what became of its task: that it is terminated, or its outcome if it runs.
fn tell<B: Behaviour>(
    behaviour: &B,
    kernel: &Kernel,
    tasks: &[Option<u16>],
    state: &mut B::State,
    object: ObjectNo,
) -> Result<(), Halt>
    ensures { OnOk result (state.new
        ≡ moves.told_one (B.told behaviour.now) kernel.now tasks.now state.old object.0) }
{
    let Some(task) = task_of(tasks, object) else {
        return Ok(());
    };
    if is_gone(kernel, task) {
        return behaviour.end(state, object);
    }
    if !runs(kernel, task) {
        return Ok(());
    }
    let outcome = outcome_told(kernel, tasks, task)?;
    behaviour.let_go(state, object, outcome)
}

/// Tells each object what became of its task.
pub(crate) fn tell_all<B: Behaviour>(
    behaviour: &B,
    kernel: &Kernel,
    tasks: &[Option<u16>],
    state: &mut B::State,
) -> Result<(), Halt>
    ensures { OnOk result (state.new
        ≡ moves.told_all (B.told behaviour.now) kernel.now tasks.now state.old) }
{
    for object in 0..behaviour.objects() {
        tell(behaviour, kernel, tasks, state, ObjectNo(object))?;
    }
    Ok(())
}
