//! Two ways to see the attributes of tasks: on a published board, and on a board under a lock.

use ada_board::{BoardReader, Naming};
use ada_events::{Board, TaskNo};
use std::sync::{Mutex, Wait};
use std::thread::{Threads, join};

/// What answers CALLABLE and TERMINATED of a task.
pub trait Sight {
    fn callable<R: Wait>(&mut self, rt: &R, task: u8) -> bool;

    fn terminated<R: Wait>(&mut self, rt: &R, task: u8) -> bool;
}

impl<J: Naming> Sight for BoardReader<J> {
    fn callable<R: Wait>(&mut self, _rt: &R, task: u8) -> bool {
        BoardReader::callable(self, TaskNo(u16::from(task))) == Some(true)
    }

    fn terminated<R: Wait>(&mut self, _rt: &R, task: u8) -> bool {
        BoardReader::terminated(self, TaskNo(u16::from(task))) == Some(true)
    }
}

/// A board under a lock.
#[derive(Drop)]
pub struct Locked<'a> {
    pub board: &'a Mutex<Board>,
}

impl Sight for Locked<'_> {
    fn callable<R: Wait>(&mut self, rt: &R, task: u8) -> bool {
        self.board.lock(rt).callable[usize::from(task)]
    }

    fn terminated<R: Wait>(&mut self, rt: &R, task: u8) -> bool {
        self.board.lock(rt).terminated[usize::from(task)]
    }
}

/// How often is asked at most until the main program is terminated.
const LOOKS: u64 = 1_000_000_000;

/// Asks so often whether the main program is callable, and says how often it was.
pub fn look<S: Sight, R: Wait>(rt: &R, sight: &mut S, times: u32) -> u32 {
    let mut callable: u32 = 0;
    for _ in 0..times {
        if sight.callable(rt, 0) {
            callable = callable.saturating_add(1);
        }
    }
    callable
}

// Asks whether the main program is callable until it isn't, and whether it is terminated until it is. Says how
// often it asked.
fn watch<S: Sight, R: Wait>(rt: &R, sight: &mut S) -> u64 {
    for asked in 0..LOOKS {
        if !sight.callable(rt, 0) && sight.terminated(rt, 0) {
            return asked;
        }
    }
    LOOKS
}

// Two that watch, each in a thread of its own. Says how often they asked.
fn watch_both<S: Sight + Send, R: Threads + Wait + Sync>(
    rt: &R,
    first: &mut S,
    second: &mut S,
) -> u64 {
    let (one, other) = join(rt, || watch(rt, first), || watch(rt, second));
    one.saturating_add(other)
}

/// Three that watch.
#[derive(Drop)]
pub struct Watchers<S> {
    pub first: S,
    pub second: S,
    pub third: S,
}

impl<S: Sight + Send> Watchers<S> {
    /// Each watches in a thread of its own. Says how often they asked.
    pub fn watch<R: Threads + Wait + Sync>(&mut self, rt: &R) -> u64 {
        let Watchers {
            first,
            second,
            third,
        } = self;
        let (asked, more) = join(rt, || watch_both(rt, first, second), || watch(rt, third));
        asked.saturating_add(more)
    }
}
