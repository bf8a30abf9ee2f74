//! The parts of requests, read from numbers.
ghost use Rattle.std.specs.Prelude.{◌≡◌};
ghost use Rattle.ada_border.specs.Requests as spec;

use crate::Bad;
use ada_events::limits::{MOST_CHOICES, MOST_DELAYS, MOST_FAMILIES, MOST_TASKS};
use ada_events::{
    Choice, Choices, Entry, Families, Family, Master, Patience, Pause, Pauses, TaskNo, Tasks,
};

/// A family of entries with the index range `low..high`; a single entry is 0 and 0 (9.5).
#[repr(C)]
#[derive(Clone, Copy, Debug, PartialEq, Eq)]
pub struct PlainFamily {
    pub low: i32,
    pub high: i32,
}

/// An accept alternative: an entry, and whether it is open, 0 or 1 (9.7.1).
#[repr(C)]
#[derive(Clone, Copy, Debug, PartialEq, Eq)]
pub struct PlainChoice {
    pub family: u32,
    pub index: i32,
    pub is_open: u32,
}

/// A delay alternative: its duration in milliseconds, and whether it is open, 0 or 1 (9.7.1).
#[repr(C)]
#[derive(Clone, Copy, Debug, PartialEq, Eq)]
pub struct PlainPause {
    pub duration: i64,
    pub is_open: u32,
}

/// The task of a number, which has 16 bits.
pub fn task_in(number: u64) -> Result<TaskNo, Bad>
    ensures { result ≡ spec.task_in number }
{
    if number < 65_536 {
        Ok(TaskNo(number as u16))
    } else {
        Err(Bad::OutOfRange)
    }
}

/// The position of a number, which has 32 bits.
pub fn position_in(number: u64) -> Result<u32, Bad>
    ensures { result ≡ spec.position_in number }
{
    if number < 4_294_967_296 {
        Ok(number as u32)
    } else {
        Err(Bad::OutOfRange)
    }
}

/// Whether a number says yes: 0 for no, 1 for yes.
pub fn flag_in(number: u32) -> Result<bool, Bad>
    ensures { result ≡ spec.flag_in number }
{
    match number {
        0 => Ok(false),
        1 => Ok(true),
        _ => Err(Bad::NoSuchKind),
    }
}

/// The master of a kind: 0 for a task's body, 1 for a block by the position of its opening.
pub fn master_in(kind: u32, number: u64) -> Result<Master, Bad>
    ensures { result ≡ spec.master_in kind number }
{
    match kind {
        0 => {
            let task = task_in(number)?;
            Ok(Master::Body(task))
        }
        1 => {
            let opened = position_in(number)?;
            Ok(Master::Block(opened))
        }
        _ => Err(Bad::NoSuchKind),
    }
}

/// The entry of a family by its place, which has 8 bits, and an index.
pub fn entry_in(family: u32, index: i32) -> Result<Entry, Bad>
    ensures { result ≡ spec.entry_in family index }
{
    if family < 256 {
        Ok(Entry {
            family: family as u8,
            index,
        })
    } else {
        Err(Bad::OutOfRange)
    }
}

/// The patience of a kind: 0 for a simple call, 1 for a conditional one, 2 for a timed one with its duration.
pub fn patience_in(kind: u32, duration: i64) -> Result<Patience, Bad>
    ensures { result ≡ spec.patience_in kind duration }
{
    match kind {
        0 => Ok(Patience::Simple),
        1 => Ok(Patience::Conditional),
        2 => Ok(Patience::Timed(duration)),
        _ => Err(Bad::NoSuchKind),
    }
}

/// The tasks of a list.
#[tactic(auto, using(crate::proofs::Reading::stops_at, crate::proofs::Reading::all_read))]
pub fn tasks_in(numbers: &[u64]) -> Result<Tasks, Bad>
    ensures { result ≡ spec.each_in 256 spec.task_in numbers.now }
{
    if numbers.len() > MOST_TASKS {
        return Err(Bad::TooLong);
    }
    let mut tasks = Tasks::new();
    for number in numbers {
        tasks.push(task_in(*number)?);
    }
    Ok(tasks)
}

/// The families of a list.
#[tactic(auto, using(crate::proofs::Reading::stops_at, crate::proofs::Reading::all_read))]
pub fn families_in(plain: &[PlainFamily]) -> Result<Families, Bad>
    ensures { result ≡ spec.each_in 16 spec.family_in plain.now }
{
    if plain.len() > MOST_FAMILIES {
        return Err(Bad::TooLong);
    }
    let mut families = Families::new();
    for family in plain {
        families.push(family_in(*family)?);
    }
    Ok(families)
}

fn family_in(plain: PlainFamily) -> Result<Family, Bad>
    ensures { result ≡ spec.family_in plain }
{
    Ok(Family {
        low: plain.low,
        high: plain.high,
    })
}

/// The accept alternatives of a list.
#[tactic(auto, using(crate::proofs::Reading::stops_at, crate::proofs::Reading::all_read))]
pub fn choices_in(plain: &[PlainChoice]) -> Result<Choices, Bad>
    ensures { result ≡ spec.each_in 16 spec.choice_in plain.now }
{
    if plain.len() > MOST_CHOICES {
        return Err(Bad::TooLong);
    }
    let mut choices = Choices::new();
    for choice in plain {
        choices.push(choice_in(*choice)?);
    }
    Ok(choices)
}

/// The accept alternative of its entry and its flag.
#[inline(always)]
pub fn choice_in(plain: PlainChoice) -> Result<Choice, Bad>
    ensures { result ≡ spec.choice_in plain }
{
    let entry = entry_in(plain.family, plain.index)?;
    let guard = flag_in(plain.is_open)?;
    Ok(Choice { guard, entry })
}

/// The delay alternatives of a list.
#[tactic(auto, using(crate::proofs::Reading::stops_at, crate::proofs::Reading::all_read))]
pub fn pauses_in(plain: &[PlainPause]) -> Result<Pauses, Bad>
    ensures { result ≡ spec.each_in 8 spec.pause_in plain.now }
{
    if plain.len() > MOST_DELAYS {
        return Err(Bad::TooLong);
    }
    let mut pauses = Pauses::new();
    for pause in plain {
        pauses.push(pause_in(*pause)?);
    }
    Ok(pauses)
}

fn pause_in(plain: PlainPause) -> Result<Pause, Bad>
    ensures { result ≡ spec.pause_in plain }
{
    let guard = flag_in(plain.is_open)?;
    Ok(Pause {
        guard,
        duration: plain.duration,
    })
}
