//! Questions to a kernel beside reads of a table, and kernels that are made and dropped.

use crate::turns::Job;
use ada_events::{Board, Entry, Journal, TaskNo};
use ada_kernel::Kernel;
use std::time::{Duration, Instant};

/// What is asked of a kernel, about one task after another.
#[derive(Clone, Copy, Debug, PartialEq, Eq)]
pub enum Query {
    /// CALLABLE of the task (9.9).
    Callable,
    /// COUNT of the task's first entry (9.9).
    Count,
}

impl Query {
    /// All questions.
    pub const ALL: [Query; 2] = [Query::Callable, Query::Count];

    /// The name of the question.
    pub fn name(self) -> &'static str {
        match self {
            Query::Callable => "callable",
            Query::Count => "count",
        }
    }

    /// The answer of a kernel, as a number.
    fn ask(self, kernel: &Kernel, task: TaskNo) -> u64 {
        match self {
            Query::Callable => u64::from(kernel.callable(task) == Some(true)),
            Query::Count => kernel.count(task, ENTRY).map_or(0, u64::from),
        }
    }

    /// The number that stands in a table.
    fn look_up(self, board: &Board, task: TaskNo) -> u64 {
        let place = usize::from(task.0);
        match self {
            Query::Callable => u64::from(board.callable.get(place).copied().unwrap_or(false)),
            Query::Count => u64::from(board.counts.get(place).copied().unwrap_or(0)),
        }
    }
}

/// A single entry.
const ENTRY: Entry = Entry {
    family: 0,
    index: 0,
};

/// Questions to a kernel, so many of them.
#[derive(Drop)]
pub struct Asking<'a> {
    pub kernel: &'a Kernel,
    pub query: Query,
    pub times: u64,
    /// The sum of the answers, so that asking isn't left out.
    pub digest: u64,
}

impl Job<HostRuntime> for Asking<'_> {
    fn turn(&mut self, rt: &HostRuntime) -> anyhow::Result<Duration> {
        let start = Instant::now(rt)?;
        for time in 0..self.times {
            let answer = self.query.ask(self.kernel, TaskNo((time % 256) as u16));
            self.digest = self.digest.wrapping_add(answer);
        }
        Ok(start.elapsed(rt)?)
    }
}

/// The floor of questions: as many numbers read from a table.
#[derive(Drop)]
pub struct Looking<'a> {
    pub board: &'a Board,
    pub query: Query,
    pub times: u64,
    /// The sum of the numbers, so that reading them isn't left out.
    pub digest: u64,
}

impl Job<HostRuntime> for Looking<'_> {
    fn turn(&mut self, rt: &HostRuntime) -> anyhow::Result<Duration> {
        let start = Instant::now(rt)?;
        for time in 0..self.times {
            let number = self.query.look_up(self.board, TaskNo((time % 256) as u16));
            self.digest = self.digest.wrapping_add(number);
        }
        Ok(start.elapsed(rt)?)
    }
}

/// Kernels that are made and dropped, so many of them.
#[derive(Drop)]
pub struct Making {
    pub kernels: u64,
    /// How many events they had, so that making them isn't left out.
    pub digest: u64,
}

impl Job<HostRuntime> for Making {
    fn turn(&mut self, rt: &HostRuntime) -> anyhow::Result<Duration> {
        let start = Instant::now(rt)?;
        for _ in 0..self.kernels {
            let kernel = Kernel::new(rt.alloc())?;
            self.digest = self.digest.wrapping_add(u64::from(kernel.journal().len()));
        }
        Ok(start.elapsed(rt)?)
    }
}

/// The floor of kernels: as many journals made and dropped.
#[derive(Drop)]
pub struct Listing {
    pub journals: u64,
    /// How many events they had, so that making them isn't left out.
    pub digest: u64,
}

impl Job<HostRuntime> for Listing {
    fn turn(&mut self, rt: &HostRuntime) -> anyhow::Result<Duration> {
        let start = Instant::now(rt)?;
        for _ in 0..self.journals {
            let journal = Journal::new(rt.alloc());
            self.digest = self.digest.wrapping_add(u64::from(journal.len()));
        }
        Ok(start.elapsed(rt)?)
    }
}
