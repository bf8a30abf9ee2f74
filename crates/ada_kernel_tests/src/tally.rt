//! What came up in random runs, so that a test sees that they are no sham.

use crate::side_by_side::Both;
use ada_events::{Refusal, TaskNo};
use std::alloc::{AllocError, Global};
use std::fmt::Debug;
use std::process::Abort;

const EVENTS: [&str; 22] = [
    "Opened",
    "Created",
    "Started",
    "Elaborated",
    "Called",
    "Waiting",
    "Paused",
    "Ended",
    "Closed",
    "Completed",
    "Aborted",
    "Ticked",
    "Halted",
    "Failed",
    "Met",
    "Cancelled",
    "Passed",
    "Woken",
    "Activated",
    "Gone",
    "Quit",
    "Left",
];

/// All causes but those that a short run has no room for: `TooManyTasks`, `JournalFull` and `OutOfMemory`.
const CAUSES: [&str; 20] = [
    "UnknownTask",
    "NotRunning",
    "DuringActivation",
    "NotActivating",
    "NotYourMaster",
    "EmptyList",
    "NotYourTask",
    "NoAccept",
    "NoSuchFamily",
    "ConstraintError",
    "SameFamilyNested",
    "TerminateInAccept",
    "NotInAccept",
    "NoBlock",
    "StillNested",
    "MainTask",
    "MomentBack",
    "MomentTooLarge",
    "TooManySlots",
    "TooDeep",
];

const OUTCOMES: [&str; 16] = [
    "Dead",
    "Done",
    "Held",
    "Served",
    "TaskingError",
    "Cancelled",
    "Accepted",
    "TookElse",
    "TookDelay",
    "ProgramError",
    "Awake",
    "ActivationOk",
    "ActivationFailed",
    "BlockLeft",
    "Raised",
    "Nothing",
];

/// Which kinds of values came up, such as events, of those with these names.
#[derive(Clone, Copy)]
struct Seen {
    names: &'static [&'static str],
    // A bit for each name.
    kinds: u64,
}

impl Seen {
    /// Nothing so far.
    fn new(names: &'static [&'static str]) -> Self {
        Seen { names, kinds: 0 }
    }

    /// Keeps that a value's kind came up: the word with which its text begins.
    fn note<T: Debug>(&mut self, alloc: Global, value: &T) -> Result<(), AllocError> {
        let text = format!(in alloc; "{value:?}")?;
        let name = text
            .as_str()
            .split(|letter: char| !letter.is_ascii_alphanumeric())
            .next()
            .unwrap_or("");
        self.keep(name);
        Ok(())
    }

    fn keep(&mut self, name: &str) {
        for (place, known) in self.names.iter().enumerate() {
            if *known == name {
                self.kinds |= 1 << (place % 64);
            }
        }
    }

    /// Whether the kind with the name at this place came up.
    fn has(&self, place: usize) -> bool {
        self.kinds >> (place % 64) & 1 == 1
    }

    fn assert_all_came_up<R: Abort>(&self, rt: &R) {
        for (place, name) in self.names.iter().enumerate() {
            assert!(rt; self.has(place), "{name} never came up");
        }
    }
}

/// What came up in all runs.
#[derive(Clone, Copy)]
pub struct Tally {
    alloc: Global,
    accepted: u64,
    events: Seen,
    causes: Seen,
    outcomes: Seen,
}

impl Tally {
    /// Nothing so far.
    pub fn new(alloc: Global) -> Self {
        Tally {
            alloc,
            accepted: 0,
            events: Seen::new(&EVENTS),
            causes: Seen::new(&CAUSES),
            outcomes: Seen::new(&OUTCOMES),
        }
    }

    /// Notes the answer to a request, the events after so many, and the outcomes of all tasks.
    pub fn note(
        &mut self,
        answer: Result<u32, Refusal>,
        both: &Both,
        before: u32,
    ) -> Result<(), AllocError> {
        match answer {
            Ok(_) => self.accepted = self.accepted.saturating_add(1),
            Err(cause) => self.causes.note(self.alloc, &cause)?,
        }
        let events = both.plain().journal().as_slice();
        for event in events.iter().skip(before as usize) {
            self.events.note(self.alloc, event)?;
        }
        for task in 0..both.tasks() {
            if let Some(outcome) = both.outcome(TaskNo(task)) {
                self.outcomes.note(self.alloc, &outcome)?;
            }
        }
        Ok(())
    }

    /// Sees that many requests were accepted, and that all came up that a short run has room for.
    pub fn assert_all_came_up<R: Abort>(&self, rt: &R) {
        assert!(rt;
            self.accepted > 5000,
            "{} requests were accepted",
            self.accepted
        );
        self.events.assert_all_came_up(rt);
        self.causes.assert_all_came_up(rt);
        self.outcomes.assert_all_came_up(rt);
    }
}
