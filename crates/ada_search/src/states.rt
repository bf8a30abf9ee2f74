//! The states that were met, each by a schedule that leads to it.

ghost use Rattle.std.specs.Prelude.{◌≡◌, ◌∷◌, ◌++◌, [], length, slice_get, IfOk, OnOk};
ghost use Rattle.std.specs.Option.{option_copied};

use crate::{Halt, Progress};
use indexmap::IndexMap;
use std::alloc::Global;
use std::marker::Model;

/// A schedule, by its choices.
#[derive(Drop)]
pub(crate) struct Schedule<Choice: Copy> {
    choices: Vec<Choice>,
}

impl<Choice: Copy> Model for Schedule<Choice> {
    ghost use Rattle.std.specs.Prelude.{List};

    ghost Value = { List Choice };

    ghost view = { λ s. s.choices.items };
}

impl<Choice: Copy> Schedule<Choice> {
    /// Of these choices.
    pub(crate) fn of(alloc: Global, choices: &[Choice]) -> Result<Self, Halt>
        ensures { IfOk result (λ schedule. schedule ≡ choices.now) }
    {
        let choices = Vec::from_slice(alloc, choices).map_err(|_| Halt::Memory)?;
        Ok(Schedule { choices })
    }

    /// The choices, in their order.
    pub(crate) fn choices(&self) -> &[Choice]
        ensures { result.now ≡ self.now }
    {
        &self.choices
    }

    // So many bytes its choices take, about.
    fn bytes(&self) -> u64 {
        (self.choices.len() as u64).saturating_mul(CHOICE)
    }

    /// The same schedule.
    pub(crate) fn copy(&self, alloc: Global) -> Result<Self, Halt>
        ensures { IfOk result (λ copy. copy ≡ self.now) }
    {
        Schedule::of(alloc, &self.choices)
    }

    /// A schedule with one choice more than these.
    pub(crate) fn longer(alloc: Global, choices: &[Choice], choice: Choice) -> Result<Self, Halt>
        ensures { IfOk result (λ longer. longer ≡ choices.now ++ choice ∷ []) }
    {
        let mut longer = Vec::from_slice(alloc, choices).map_err(|_| Halt::Memory)?;
        longer.push(choice).map_err(|_| Halt::Memory)?;
        Ok(Schedule { choices: longer })
    }
}

/// The states that were met. Contracts see them as the schedules that lead to them.
#[derive(Drop)]
pub(crate) struct States<Choice: Copy> {
    schedules: Vec<Schedule<Choice>>,
    /// Which of them has a key. Nothing is promised of it: whether that state stands in for another is checked.
    keys: IndexMap<Vec<u8>, u32>,
    /// So many bytes the keys and the schedules have.
    bytes: u64,
}

/// So many bytes a state takes beside these, about, and a choice.
const STATE: u64 = 160;

const CHOICE: u64 = 12;

impl<Choice: Copy> Model for States<Choice> {
    ghost use Rattle.std.specs.Prelude.{List};

    ghost Value = { List (List Choice) };

    ghost view = { λ s. s.schedules.items };
}

impl<Choice: Copy> States<Choice> {
    /// No states.
    pub(crate) fn new(alloc: Global) -> Self
        ensures { result ≡ [] }
    {
        States {
            schedules: Vec::new(alloc),
            keys: IndexMap::new(alloc),
            bytes: 0,
        }
    }

    /// How far the search has come that went on from so many of them.
    pub(crate) fn progress(&self, done: u32) -> Progress {
        let met = u32::try_from(self.schedules.len()).unwrap_or(u32::MAX);
        Progress {
            done,
            met,
            bytes: u64::from(met)
                .saturating_mul(STATE)
                .saturating_add(self.bytes),
        }
    }

    /// How many there are.
    pub(crate) fn count(&self) -> usize
        ensures { result ≡ length self.now }
    {
        self.schedules.len()
    }

    /// The schedule that leads to a state.
    pub(crate) fn schedule(&self, state: usize) -> Option<&Schedule<Choice>>
        ensures { option_copied result ≡ slice_get self.now state }
    {
        self.schedules.get(state)
    }

    /// The state that may have this key.
    pub(crate) fn with_key(&self, key: &Vec<u8>) -> Option<usize> {
        self.keys.get(key).map(|state| *state as usize)
    }

    // Notes that the state that is met next has this key.
    fn note(&mut self, key: Vec<u8>) -> Result<(), Halt>
        ensures { self.new ≡ self.old }
    {
        let next = u32::try_from(self.schedules.len()).map_err(|_| Halt::Memory)?;
        self.keys.insert(key, next).map_err(|_| Halt::Memory)?;
        Ok(())
    }

    /// Meets a state, to which a schedule leads, and which has this key.
    pub(crate) fn meet(&mut self, schedule: Schedule<Choice>, key: Vec<u8>) -> Result<(), Halt>
        ensures { OnOk result (self.new ≡ self.old ++ schedule ∷ []) }
    {
        let bytes = (key.len() as u64).saturating_add(schedule.bytes());
        self.note(key)?;
        self.schedules.push(schedule).map_err(|_| Halt::Memory)?;
        self.bytes = self.bytes.saturating_add(bytes);
        Ok(())
    }
}
