//! A library call that is tried where memory may be refused to it.

use ada_events::Refusal;

/// What a call answered.
#[derive(Clone, Copy, Debug, PartialEq, Eq)]
pub enum Answer {
    /// It did its work.
    Done,
    /// It did its work, and is behind for want of memory: with what it publishes, or with a shorter journal.
    Behind,
    /// It was refused for want of memory.
    Refused,
    /// A thread was refused to it.
    NoThread,
    /// It failed for another cause.
    Failed,
}

impl Answer {
    fn is_done(self) -> bool {
        matches!(self, Answer::Done | Answer::Behind)
    }

    /// Whether the call is to be made again.
    pub fn is_refused(self) -> bool {
        matches!(self, Answer::Refused | Answer::NoThread)
    }
}

impl From<Refusal> for Answer {
    fn from(cause: Refusal) -> Answer {
        match cause {
            Refusal::OutOfMemory => Answer::Refused,
            _ => Answer::Failed,
        }
    }
}

/// How far a trial goes.
#[derive(Clone, Copy, Debug, PartialEq, Eq)]
pub enum Reach {
    /// Up to the call.
    Before,
    /// The call, and nothing after it that takes memory.
    Call,
    /// What the call left is looked at, it is made again where it was refused, and what follows is played.
    Whole,
}

/// What was seen of a call.
#[derive(Clone, Copy, Debug, PartialEq, Eq)]
pub struct Seen {
    pub answer: Answer,
    /// Whether it left what its answer promises: everything as it was, where it was refused.
    pub unchanged: bool,
    /// Whether it was done in the end, and from then on nothing told it from one that was never refused.
    pub again: bool,
}

/// A library call that takes memory, and what it is made on.
pub trait Trial: Drop {
    /// Makes the call, and keeps what it gave.
    fn call(&mut self) -> Answer;

    /// Makes what follows the call, if anything does.
    fn go_on(&mut self);

    /// Whether no query tells this from another trial.
    fn is_like(&self, other: &Self) -> bool;
}

/// Goes as far as it is asked in a trial, of which the second is a twin that is never refused. Gives what was
/// seen of a whole trial.
pub fn go<T: Trial>(mut trial: T, mut twin: T, reach: Reach) -> Option<Seen> {
    match reach {
        Reach::Before => None,
        Reach::Call => {
            let _ = trial.call();
            None
        }
        Reach::Whole => Some(look(&mut trial, &mut twin)),
    }
}

fn look<T: Trial>(trial: &mut T, twin: &mut T) -> Seen {
    let answer = trial.call();
    let unchanged = answer.is_done() || trial.is_like(twin);
    let last = if answer.is_refused() {
        trial.call()
    } else {
        answer
    };
    let done = last.is_done() && twin.call() == Answer::Done;
    let alike = trial.is_like(twin);
    trial.go_on();
    twin.go_on();
    Seen {
        answer,
        unchanged,
        again: done && alike && trial.is_like(twin),
    }
}
