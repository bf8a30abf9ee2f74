//! The answers of both kernels to all questions, compared.

use crate::both::Both;
use crate::plainly::plain_task;
use crate::unlike::{Unlike, want};
use ada_events::{Entry, Event, Outcome};
use ada_lasting::{LastingOutcome, NotDone};

const FIRST: Entry = Entry {
    family: 0,
    index: 0,
};

// Whether an event ends the rendezvous with a call (9.5, 9.10).
fn ends(event: &Event, at: u32) -> bool {
    match event {
        Event::Ended { call, .. } | Event::Failed { call } => *call == at,
        _ => false,
    }
}

// What an outcome is called by a kernel that lives on.
fn as_lasting(outcome: Outcome, caller: Option<u64>) -> LastingOutcome {
    match outcome {
        Outcome::Dead => LastingOutcome::Dead,
        Outcome::Done => LastingOutcome::Done,
        Outcome::Held => LastingOutcome::Held,
        Outcome::Served => LastingOutcome::Served,
        Outcome::TaskingError => LastingOutcome::TaskingError,
        Outcome::Cancelled => LastingOutcome::Cancelled,
        Outcome::Accepted { call, choice } => LastingOutcome::Accepted {
            call: u64::from(call),
            choice,
            caller,
        },
        Outcome::TookElse => LastingOutcome::TookElse,
        Outcome::TookDelay(number) => LastingOutcome::TookDelay(number),
        Outcome::ProgramError => LastingOutcome::ProgramError,
        Outcome::Awake => LastingOutcome::Awake,
        Outcome::ActivationOk => LastingOutcome::ActivationOk,
        Outcome::ActivationFailed => LastingOutcome::ActivationFailed,
        Outcome::BlockLeft => LastingOutcome::BlockLeft,
        Outcome::Raised => LastingOutcome::Raised,
        Outcome::Nothing => LastingOutcome::Nothing,
    }
}

impl Both {
    /// Compares the answers to all questions.
    pub fn compare(&self) -> Result<(), Unlike> {
        let is_whole = self.long.finished() == self.plain.finished()
            && self.long.tasks() == u64::from(self.plain.tasks());
        want(is_whole, Unlike::Whole)?;
        for task in 0..=self.tasks() {
            self.compare_task(task)?;
            self.compare_counts(task)?;
        }
        Ok(())
    }

    fn compare_task(&self, task: u64) -> Result<(), Unlike> {
        if self.is_given_up(task) {
            return self.want_nothing(task);
        }
        let plain = plain_task(task);
        let is_terminated = self.plain.terminated(plain);
        want(
            self.long.terminated(task) == is_terminated,
            Unlike::Terminated(task),
        )?;
        let is_callable = self.plain.callable(plain);
        want(
            self.long.callable(task) == is_callable,
            Unlike::Callable(task),
        )?;
        let is_running = self.plain.running(plain);
        want(self.long.running(task) == is_running, Unlike::Running(task))?;
        self.compare_outcome(task)
    }

    // There are no answers about a task that was given up.
    fn want_nothing(&self, task: u64) -> Result<(), Unlike> {
        want(
            self.long.terminated(task).is_none(),
            Unlike::Terminated(task),
        )?;
        want(self.long.callable(task).is_none(), Unlike::Callable(task))?;
        want(self.long.running(task).is_none(), Unlike::Running(task))?;
        want(self.long.outcome(task).is_none(), Unlike::Outcome(task))
    }

    fn compare_outcome(&self, task: u64) -> Result<(), Unlike> {
        let wanted = match self.plain.outcome(plain_task(task)) {
            Some(outcome) => Some(as_lasting(outcome, self.caller(outcome))),
            None => None,
        };
        want(self.long.outcome(task) == wanted, Unlike::Outcome(task))
    }

    // Who made an accepted call whose rendezvous hasn't ended.
    fn caller(&self, outcome: Outcome) -> Option<u64> {
        let Outcome::Accepted { call, .. } = outcome else {
            return None;
        };
        let events = self.plain.journal().as_slice();
        let later = events.get(call as usize..)?;
        match self.plain.journal().get(call) {
            Some(Event::Called { by, .. }) if !later.iter().any(|event| ends(event, call)) => {
                Some(u64::from(by.0))
            }
            _ => None,
        }
    }

    // COUNT of the entries of a running task's families, of one beside them, and of a family that it doesn't have.
    fn compare_counts(&self, task: u64) -> Result<(), Unlike> {
        let Some(made) = self.made.get(task as usize) else {
            return Ok(());
        };
        if self.plain.running(plain_task(task)) != Some(true) {
            return self.compare_count(task, FIRST);
        }
        for family in 0..=made.families {
            self.compare_family(task, family, made.low)?;
        }
        Ok(())
    }

    fn compare_family(&self, task: u64, family: u8, low: i32) -> Result<(), Unlike> {
        for offset in 0..3 {
            let index = low.wrapping_add(offset);
            self.compare_count(task, Entry { family, index })?;
        }
        Ok(())
    }

    fn compare_count(&self, task: u64, entry: Entry) -> Result<(), Unlike> {
        let wanted = if self.is_given_up(task) {
            Err(NotDone::GivenUp(task))
        } else {
            match self.plain.count(plain_task(task), entry) {
                Ok(count) => Ok(count),
                Err(cause) => Err(NotDone::Refused(cause)),
            }
        };
        want(self.long.count(task, entry) == wanted, Unlike::Count(task))
    }
}
