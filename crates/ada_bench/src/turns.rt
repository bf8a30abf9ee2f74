//! How long some work takes, over several turns.

use std::time::Duration;

/// The longest that turns are repeated, in nanoseconds.
const LONGEST: u64 = 1_000_000_000;

/// The most turns.
const MOST: usize = 101;

/// What the turns took, in nanoseconds: the first, on memory that is fresh from the system, and of all
/// the best and the median, on memory that is mostly kept.
#[derive(Clone, Copy, Debug)]
pub struct Turns {
    pub first: u64,
    pub best: u64,
    pub median: u64,
}

/// Some work that can be done again and again.
pub trait Job<R> {
    /// Does it once, and says how long the part of it took that is measured.
    fn turn(&mut self, rt: &R) -> anyhow::Result<Duration>;
}

/// Does some work until a second is over, at least once and at most 101 times.
pub fn measure<R: AllocGlobal, J: Job<R>>(rt: &R, job: &mut J) -> anyhow::Result<Turns> {
    let mut times = Vec::new(rt.alloc());
    let mut total: u64 = 0;
    for _ in 0..MOST {
        let time = nanoseconds(job.turn(rt)?);
        times.push(time)?;
        total = total.saturating_add(time);
        if total >= LONGEST {
            break;
        }
    }
    let first = times.first().copied().unwrap_or(0);
    times.sort()?;
    let best = times.first().copied().unwrap_or(0);
    let median = times.get(times.len() / 2).copied().unwrap_or(0);
    Ok(Turns {
        first,
        best,
        median,
    })
}

fn nanoseconds(time: Duration) -> u64 {
    time.as_nanos().min(u128::from(u64::MAX)) as u64
}
