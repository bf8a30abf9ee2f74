//! Questions to a kernel that lives on, in numbers.
ghost use Rattle.std.specs.Prelude.{◌≡◌, List, option_map, slice_get};
ghost use Rattle.ada_border.specs.Events as events;
ghost use Rattle.ada_border.specs.Requests as requests;
ghost use Rattle.ada_events.specs.declared.event.Event.{Event as Happening};
ghost use Rattle.ada_lasting.specs.Following.{Follows};
ghost use Rattle.ada_embed.specs.Lasting as spec;

use crate::codes::{GIVEN_UP, lasting_code};
use crate::lasting::outcomes::plain_lasting_outcome;
use crate::reasons::{PlainReason, plain_lasting_reason};
use ada_border::Bad;
use ada_border::codes::{ACCEPTED, bad_code};
use ada_border::events::{PlainEvent, flag};
use ada_border::lists::{PlainDue, PlainLengths, plain_choice, plain_due, plain_family};
use ada_border::outcomes::PlainOutcome;
use ada_border::parts::{PlainChoice, PlainFamily, entry_in};
use ada_events::{Choice, Entry, Family};
use ada_lasting::{LongKernel, NotDone};

// What was found, or why nothing was.
fn or_code<T: Copy>(found: Option<T>, why: i32) -> Result<T, i32>
    ensures { result ≡ spec.or_code found why }
{
    match found {
        Some(told) => Ok(told),
        None => Err(why),
    }
}

// Why a task has no name.
fn nameless(kernel: &LongKernel, task: u64) -> i32
    ensures { (journal : List Happening) → Follows journal kernel.now
        → result ≡ spec.nameless journal task }
{
    if task < kernel.tasks() {
        GIVEN_UP
    } else {
        bad_code(Bad::NoSuchTask)
    }
}

/// Whether a task is running.
pub fn running(kernel: &LongKernel, task: u64) -> Result<u32, i32>
    ensures { (journal : List Happening) → Follows journal kernel.now
        → result ≡ spec.running_of task journal kernel.now }
{
    match kernel.running(task) {
        Some(runs) => Ok(flag(runs)),
        None => Err(nameless(kernel, task)),
    }
}

/// The attribute CALLABLE of a task (9.9).
pub fn callable(kernel: &LongKernel, task: u64) -> Result<u32, i32>
    ensures { (journal : List Happening) → Follows journal kernel.now
        → result ≡ spec.callable_of task journal kernel.now }
{
    match kernel.callable(task) {
        Some(is_callable) => Ok(flag(is_callable)),
        None => Err(nameless(kernel, task)),
    }
}

/// The attribute TERMINATED of a task (9.9).
pub fn terminated(kernel: &LongKernel, task: u64) -> Result<u32, i32>
    ensures { (journal : List Happening) → Follows journal kernel.now
        → result ≡ spec.terminated_of task journal kernel.now }
{
    match kernel.terminated(task) {
        Some(is_terminated) => Ok(flag(is_terminated)),
        None => Err(nameless(kernel, task)),
    }
}

/// The outcome of a task.
#[tactic(auto, using(crate::proofs::Told::told_alike))]
pub fn outcome(kernel: &LongKernel, task: u64) -> Result<PlainOutcome, i32>
    ensures { (journal : List Happening) → Follows journal kernel.now
        → result ≡ spec.outcome_of_task task journal kernel.now }
{
    match kernel.outcome(task) {
        Some(outcome) => Ok(plain_lasting_outcome(outcome)),
        None => Err(nameless(kernel, task)),
    }
}

/// Why a task doesn't go on.
pub fn reason(kernel: &LongKernel, task: u64) -> Result<PlainReason, i32>
    ensures { (journal : List Happening) → Follows journal kernel.now
        → result ≡ spec.reason_told task journal kernel.now }
{
    if kernel.running(task).is_some() {
        Ok(plain_lasting_reason(kernel.reason(task)))
    } else {
        Err(nameless(kernel, task))
    }
}

/// The first task, of a number or more, for which a task waits.
pub fn awaited(kernel: &LongKernel, task: u64, from: u64) -> Result<u64, i32>
    ensures { (journal : List Happening) → Follows journal kernel.now
        → result ≡ spec.awaited_told task from journal kernel.now }
{
    if kernel.running(task).is_some() {
        or_code(kernel.first_awaited(task, from), bad_code(Bad::NoSuchItem))
    } else {
        Err(nameless(kernel, task))
    }
}

/// The first task, of a number or more, that runs and didn't before the last request.
pub fn runnable(kernel: &LongKernel, from: u64) -> Result<u64, i32>
    ensures { (journal : List Happening) → Follows journal kernel.now
        → result ≡ spec.runnable_told from journal kernel.now }
{
    or_code(kernel.first_runnable(from), bad_code(Bad::NoSuchItem))
}

/// The first task, of a number or more, that is terminated and wasn't before the last request.
pub fn ended(kernel: &LongKernel, from: u64) -> Result<u64, i32>
    ensures { (journal : List Happening) → Follows journal kernel.now
        → result ≡ spec.ended_told from journal kernel.now }
{
    or_code(kernel.first_terminated(from), bad_code(Bad::NoSuchItem))
}

/// The first moment for which any task waits.
pub fn due(kernel: &LongKernel) -> Result<i64, i32>
    ensures { (journal : List Happening) → Follows journal kernel.now
        → result ≡ spec.due_told journal kernel.now }
{
    or_code(kernel.next_due(), bad_code(Bad::NoSuchItem))
}

// The place of the event at a position among those that the last request appended.
fn place(kernel: &LongKernel, position: u64) -> Result<usize, i32>
    ensures { (journal : List Happening) → Follows journal kernel.now
        → result ≡ spec.place_of position journal kernel.now }
{
    let length = kernel.length();
    if position == 0 || length < position {
        return Err(bad_code(Bad::NoSuchEvent));
    }
    let older = length.saturating_sub(kernel.events() as u64);
    if position <= older {
        return Err(GIVEN_UP);
    }
    Ok((position - 1 - older) as usize)
}

/// The event at a position.
pub fn event(kernel: &LongKernel, position: u64) -> Result<PlainEvent, i32>
    ensures { (journal : List Happening) → Follows journal kernel.now
        → result ≡ spec.event_told position journal kernel.now }
{
    let place = place(kernel, position)?;
    or_code(kernel.event(place), bad_code(Bad::NoSuchEvent))
}

/// How many items the lists of an event have.
pub fn lengths(kernel: &LongKernel, position: u64) -> Result<PlainLengths, i32>
    ensures { (journal : List Happening) → Follows journal kernel.now
        → result ≡ spec.lengths_told position journal kernel.now }
{
    let place = place(kernel, position)?;
    or_code(kernel.event_lengths(place), bad_code(Bad::NoSuchEvent))
}

/// A task of an event's list.
pub fn task_item(kernel: &LongKernel, position: u64, item: u64) -> Result<u64, i32>
    ensures { (journal : List Happening) → Follows journal kernel.now
        → result ≡ spec.task_told position item journal kernel.now }
{
    let place = place(kernel, position)?;
    or_code(
        kernel.event_task(place, item as usize),
        bad_code(Bad::NoSuchItem),
    )
}

// The one at a place, from 0, in plain numbers.
fn family_at(families: &[Family], place: u64) -> Option<PlainFamily>
    ensures { result ≡ option_map events.plain_family (slice_get families.now place) }
{
    Some(plain_family(*families.get(place as usize)?))
}

/// A family of an event's list.
pub fn family_item(kernel: &LongKernel, position: u64, item: u64) -> Result<PlainFamily, i32>
    ensures { (journal : List Happening) → Follows journal kernel.now
        → result ≡ spec.item_told position item events.families_of events.plain_family
        journal kernel.now }
{
    let place = place(kernel, position)?;
    let family = family_at(kernel.event_families(place), item);
    or_code(family, bad_code(Bad::NoSuchItem))
}

// The one at a place, from 0, in plain numbers.
fn choice_at(choices: &[Choice], place: u64) -> Option<PlainChoice>
    ensures { result ≡ option_map events.plain_choice (slice_get choices.now place) }
{
    Some(plain_choice(*choices.get(place as usize)?))
}

/// An accept alternative of a wait.
pub fn choice_item(kernel: &LongKernel, position: u64, item: u64) -> Result<PlainChoice, i32>
    ensures { (journal : List Happening) → Follows journal kernel.now
        → result ≡ spec.item_told position item events.choices_of events.plain_choice
        journal kernel.now }
{
    let place = place(kernel, position)?;
    let choice = choice_at(kernel.event_choices(place), item);
    or_code(choice, bad_code(Bad::NoSuchItem))
}

// The one at a place, from 0, in plain numbers.
fn due_at(delays: &[Option<i64>], place: u64) -> Option<PlainDue>
    ensures { result ≡ option_map events.plain_due (slice_get delays.now place) }
{
    Some(plain_due(*delays.get(place as usize)?))
}

/// A delay alternative of a wait.
pub fn due_item(kernel: &LongKernel, position: u64, item: u64) -> Result<PlainDue, i32>
    ensures { (journal : List Happening) → Follows journal kernel.now
        → result ≡ spec.item_told position item events.dues_of events.plain_due
        journal kernel.now }
{
    let place = place(kernel, position)?;
    let due = due_at(kernel.event_delays(place), item);
    or_code(due, bad_code(Bad::NoSuchItem))
}

// The entry of a family by its place and an index.
fn entry(family: u32, index: i32) -> Result<Entry, i32>
    ensures { result ≡ spec.as_told (requests.entry_in family index) }
{
    match entry_in(family, index) {
        Ok(entry) => Ok(entry),
        Err(bad) => Err(bad_code(bad)),
    }
}

/// How many calls are queued at an entry of a task.
pub fn queued(kernel: &LongKernel, task: u64, family: u32, index: i32) -> Result<u32, i32>
    ensures { (journal : List Happening) → Follows journal kernel.now
        → result ≡ spec.queued_told task family index journal kernel.now }
{
    if kernel.running(task).is_none() {
        return Err(nameless(kernel, task));
    }
    let entry = entry(family, index)?;
    match kernel.queued(task, entry) {
        Some(count) => Ok(u32::from(count)),
        None => Err(bad_code(Bad::NoSuchEntry)),
    }
}

// COUNT of an entry, or why it isn't told.
fn told_count(counted: Result<u16, NotDone>, out: &mut u32) -> i32
    ensures { spec.IsCountTold counted result out.old out.new }
{
    match counted {
        Ok(count) => {
            *out = u32::from(count);
            ACCEPTED
        }
        Err(cause) => lasting_code(cause),
    }
}

/// COUNT of an entry of the asking task's own (9.9).
pub fn count(kernel: &LongKernel, by: u64, family: u32, index: i32, out: &mut u32) -> i32
    ensures { (journal : List Happening) → Follows journal kernel.now
        → spec.IsCountedOr journal kernel.now by (requests.entry_in family index)
        result out.old out.new }
{
    match entry_in(family, index) {
        Ok(entry) => told_count(kernel.count(by, entry), out),
        Err(bad) => bad_code(bad),
    }
}

/// Gives a terminated task up.
pub fn release(kernel: &mut LongKernel, task: u64) -> i32
    ensures { (journal : List Happening) → Follows journal kernel.old
        → spec.IsReleased task journal result kernel.old kernel.new }
{
    match kernel.release(task) {
        Ok(()) => ACCEPTED,
        Err(cause) => lasting_code(cause),
    }
}

/// Makes the present journal shorter.
pub fn compact(kernel: &mut LongKernel) -> i32
    ensures { (journal : List Happening) → Follows journal kernel.old
        → spec.IsCompacted journal result kernel.old kernel.new }
{
    match kernel.compact() {
        Ok(()) => ACCEPTED,
        Err(cause) => lasting_code(cause),
    }
}
