//! Questions to a kernel, in numbers.
ghost use Rattle.std.specs.Prelude.{◌≡◌, option_map};
ghost use Rattle.ada_border.specs.Answers.{or_bad as found_or};
ghost use Rattle.ada_border.specs.Events as events;
ghost use Rattle.ada_border.specs.Events.{flag as flag_of};
ghost use Rattle.ada_border.specs.declared.bad.Bad.TheVariants.{NoSuchItem};
ghost use Rattle.ada_events.specs.declared.names.TaskNo.{TaskNo as Task};
ghost use Rattle.ada_embed.specs.Outcomes as told;
ghost use Rattle.ada_embed.specs.Questions as spec;

use crate::answering::or_bad;
use crate::reasons::{PlainReason, plain_reason};
use ada_border::Bad;
use ada_border::events::{PlainEvent, flag, plain_of};
use ada_border::lists::{
    PlainDue, PlainLengths, choices_of, dues_of, families_of, lengths_of, plain_choice, plain_due,
    plain_family, tasks_of,
};
use ada_border::outcomes::{PlainOutcome, plain_outcome};
use ada_border::parts::{PlainChoice, PlainFamily, entry_in, position_in, task_in};
use ada_events::{Outcome, Refusal, TaskNo};
use ada_kernel::Kernel;
use ada_lasting::outcomes::caller_in;
use ada_lasting::queues::queued_in;
use ada_waiting::{first_awaited, first_runnable, next_due, reason_in};

fn flag_or_none(holds: Option<bool>) -> Option<u32>
    ensures { result ≡ option_map flag_of holds }
{
    match holds {
        Some(holds) => Some(flag(holds)),
        None => None,
    }
}

// The task of a number, if there is one.
fn known(kernel: &Kernel, number: u64) -> Result<TaskNo, Bad>
    ensures { result ≡ spec.known kernel.now number }
{
    let task = task_in(number)?;
    if task.0 < kernel.tasks() {
        Ok(task)
    } else {
        Err(Bad::NoSuchTask)
    }
}

// The number of a task that was found.
fn item_or_none(found: Option<TaskNo>) -> Result<u64, Bad>
    ensures { result ≡ found_or (option_map (λ (t : Task). t.0) found) NoSuchItem }
{
    match found {
        Some(task) => Ok(u64::from(task.0)),
        None => Err(Bad::NoSuchItem),
    }
}

/// Whether a task is running.
pub fn running(kernel: &Kernel, task: u64) -> Result<u32, Bad>
    ensures { result ≡ spec.running_of kernel.now task }
{
    let task = task_in(task)?;
    or_bad(flag_or_none(kernel.running(task)), Bad::NoSuchTask)
}

/// The attribute CALLABLE of a task (9.9).
pub fn callable(kernel: &Kernel, task: u64) -> Result<u32, Bad>
    ensures { result ≡ spec.callable_of kernel.now task }
{
    let task = task_in(task)?;
    or_bad(flag_or_none(kernel.callable(task)), Bad::NoSuchTask)
}

/// The attribute TERMINATED of a task (9.9).
pub fn terminated(kernel: &Kernel, task: u64) -> Result<u32, Bad>
    ensures { result ≡ spec.terminated_of kernel.now task }
{
    let task = task_in(task)?;
    or_bad(flag_or_none(kernel.terminated(task)), Bad::NoSuchTask)
}

// The caller of the call that was accepted, while its rendezvous lasts.
fn caller(kernel: &Kernel, outcome: Outcome) -> Option<u64>
    ensures { result ≡ told.caller_in kernel.now outcome }
{
    match outcome {
        Outcome::Accepted { call, .. } => Some(u64::from(caller_in(kernel, call)?.0)),
        _ => None,
    }
}

/// The outcome of a task.
pub fn outcome(kernel: &Kernel, task: u64) -> Result<PlainOutcome, Bad>
    ensures { result ≡ spec.outcome_of_task kernel.now task }
{
    let task = task_in(task)?;
    match kernel.outcome(task) {
        Some(outcome) => Ok(plain_outcome(outcome, caller(kernel, outcome))),
        None => Err(Bad::NoSuchTask),
    }
}

/// Why a task doesn't go on.
pub fn reason(kernel: &Kernel, task: u64) -> Result<PlainReason, Bad>
    ensures { result ≡ spec.reason_told kernel.now task }
{
    let task = known(kernel, task)?;
    Ok(plain_reason(reason_in(kernel, task)))
}

/// The first task, of a number or more, for which a task waits.
pub fn awaited(kernel: &Kernel, task: u64, from: u64) -> Result<u64, Bad>
    ensures { result ≡ spec.awaited_told kernel.now task from }
{
    let from = task_in(from)?;
    let task = known(kernel, task)?;
    item_or_none(first_awaited(kernel, task, from))
}

/// The first task, of a number or more, that runs and didn't before the last request.
pub fn runnable(kernel: &Kernel, from: u64) -> Result<u64, Bad>
    ensures { result ≡ spec.runnable_told kernel.now from }
{
    let from = task_in(from)?;
    item_or_none(first_runnable(kernel, from))
}

/// The first moment for which any task waits.
pub fn due(kernel: &Kernel) -> Result<i64, Bad>
    ensures { result ≡ spec.due_told kernel.now }
{
    or_bad(next_due(kernel), Bad::NoSuchItem)
}

/// The slot of an entry.
pub fn slot(kernel: &Kernel, task: u64, family: u32, index: i32) -> Result<u32, Bad>
    ensures { result ≡ spec.slot_of_entry kernel.now task family index }
{
    let task = task_in(task)?;
    let entry = entry_in(family, index)?;
    match kernel.slot(task, entry) {
        Some(slot) => Ok(u32::from(slot)),
        None => Err(Bad::NoSuchEntry),
    }
}

/// How many calls are queued at an entry of a task.
pub fn queued(kernel: &Kernel, task: u64, family: u32, index: i32) -> Result<u32, Bad>
    ensures { result ≡ spec.queued_told kernel.now task family index }
{
    let task = known(kernel, task)?;
    let entry = entry_in(family, index)?;
    match queued_in(&kernel.view(), task, entry) {
        Some(count) => Ok(u32::from(count)),
        None => Err(Bad::NoSuchEntry),
    }
}

/// The event at a position.
pub fn event(kernel: &Kernel, position: u64) -> Result<PlainEvent, Bad>
    ensures { result ≡ spec.event_told kernel.now position }
{
    let position = position_in(position)?;
    match kernel.journal().get(position) {
        Some(event) => Ok(plain_of(event)),
        None => Err(Bad::NoSuchEvent),
    }
}

/// How many items the lists of an event have.
pub fn lengths(kernel: &Kernel, position: u64) -> Result<PlainLengths, Bad>
    ensures { result ≡ spec.lengths_told kernel.now position }
{
    let position = position_in(position)?;
    match kernel.journal().get(position) {
        Some(event) => Ok(lengths_of(event)),
        None => Err(Bad::NoSuchEvent),
    }
}

/// COUNT of an entry of the asking task's own (9.9).
pub fn count(kernel: &Kernel, by: u64, family: u32, index: i32) -> Result<Result<u16, Refusal>, Bad>
    ensures { result ≡ spec.count_told kernel.now by family index }
{
    let by = task_in(by)?;
    let entry = entry_in(family, index)?;
    Ok(kernel.count(by, entry))
}

/// A task of an event's list.
pub fn task_item(kernel: &Kernel, position: u64, place: u64) -> Result<u64, Bad>
    ensures { result ≡ spec.item_told kernel.now position place events.tasks_of events.plain_task }
{
    let position = position_in(position)?;
    let Some(event) = kernel.journal().get(position) else {
        return Err(Bad::NoSuchEvent);
    };
    match tasks_of(event).get(place as usize) {
        Some(item) => Ok(u64::from(item.0)),
        None => Err(Bad::NoSuchItem),
    }
}

/// A family of an event's list.
pub fn family_item(kernel: &Kernel, position: u64, place: u64) -> Result<PlainFamily, Bad>
    ensures { result ≡ spec.item_told kernel.now position place events.families_of
        events.plain_family }
{
    let position = position_in(position)?;
    let Some(event) = kernel.journal().get(position) else {
        return Err(Bad::NoSuchEvent);
    };
    match families_of(event).get(place as usize) {
        Some(item) => Ok(plain_family(*item)),
        None => Err(Bad::NoSuchItem),
    }
}

/// An accept alternative of a wait.
pub fn choice_item(kernel: &Kernel, position: u64, place: u64) -> Result<PlainChoice, Bad>
    ensures { result ≡ spec.item_told kernel.now position place events.choices_of
        events.plain_choice }
{
    let position = position_in(position)?;
    let Some(event) = kernel.journal().get(position) else {
        return Err(Bad::NoSuchEvent);
    };
    match choices_of(event).get(place as usize) {
        Some(item) => Ok(plain_choice(*item)),
        None => Err(Bad::NoSuchItem),
    }
}

/// A delay alternative of a wait.
pub fn due_item(kernel: &Kernel, position: u64, place: u64) -> Result<PlainDue, Bad>
    ensures { result ≡ spec.item_told kernel.now position place events.dues_of events.plain_due }
{
    let position = position_in(position)?;
    let Some(event) = kernel.journal().get(position) else {
        return Err(Bad::NoSuchEvent);
    };
    match dues_of(event).get(place as usize) {
        Some(item) => Ok(plain_due(*item)),
        None => Err(Bad::NoSuchItem),
    }
}
