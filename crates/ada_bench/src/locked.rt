//! The same with a board under a lock.

use crate::album::Album;
use crate::race::Race;
use crate::sights::{Locked, Watchers, look};
use crate::turns::Job;
use ada_events::Board;
use ada_kernel::Kernel;
use std::sync::{Mutex, Wait};
use std::thread::{Threads, join};
use std::time::{Clock, Duration, Instant};

// The board of a new kernel.
fn opening<R: AllocGlobal>(rt: &R) -> anyhow::Result<Board> {
    Ok(Kernel::new(rt.alloc())?.board())
}

// Stores all boards, one after another.
fn store_all<R: Wait>(rt: &R, lock: &Mutex<Board>, boards: &[Board]) {
    for board in boards {
        *lock.lock(rt) = *board;
    }
}

/// One reader that asks so often, while nothing is stored.
#[derive(Drop)]
pub struct ReadingLocked {
    pub times: u32,
}

impl<R: Wait + Clock + AllocGlobal> Job<R> for ReadingLocked {
    fn turn(&mut self, rt: &R) -> anyhow::Result<Duration> {
        let lock = Mutex::new(opening(rt)?);
        let start = Instant::now(rt)?;
        look(rt, &mut Locked { board: &lock }, self.times);
        Ok(start.elapsed(rt)?)
    }
}

/// All boards of an album stored, and nobody who reads them.
#[derive(Drop)]
pub struct Storing<'a> {
    pub album: &'a Album,
}

impl<R: Wait + Clock + AllocGlobal> Job<R> for Storing<'_> {
    fn turn(&mut self, rt: &R) -> anyhow::Result<Duration> {
        let lock = Mutex::new(opening(rt)?);
        let start = Instant::now(rt)?;
        store_all(rt, &lock, self.album.boards());
        Ok(start.elapsed(rt)?)
    }
}

// How often three readers asked until they saw the last board, each in a thread of its own.
fn watch_three<R: Threads + Wait + Sync>(rt: &R, lock: &Mutex<Board>, boards: &[Board]) -> u64 {
    let mut watchers = Watchers {
        first: Locked { board: lock },
        second: Locked { board: lock },
        third: Locked { board: lock },
    };
    let (asked, ()) = join(rt, || watchers.watch(rt), || store_all(rt, lock, boards));
    asked
}

/// So many races of three readers beside a writer that stores all boards of an album without pause.
pub fn races<R: Threads + Wait + Sync + Clock + AllocGlobal>(
    rt: &R,
    album: &Album,
    rounds: u32,
) -> anyhow::Result<Race> {
    let mut all = Race::default();
    for _ in 0..rounds {
        let lock = Mutex::new(opening(rt)?);
        let start = Instant::now(rt)?;
        let asked = watch_three(rt, &lock, album.boards());
        all.add(asked, album.boards().len(), start.elapsed(rt)?);
    }
    Ok(all)
}
