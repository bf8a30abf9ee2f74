//! A line on a terminal that says how a search goes on, and the end of its time.

use crate::order::Bounds;
use ada_explore::{Progress, Watch};
use std::io::Eprint;
use std::time::{Clock, Duration, Instant};

/// So many bytes has a megabyte.
const MEGABYTE: u64 = 1_000_000;

/// Who watches a search.
#[derive(Drop)]
pub struct Watching<'a, R> {
    rt: &'a R,
    /// None where the clock can't be read: then the search has no end of time.
    start: Option<Instant>,
    bounds: Bounds,
    /// Whether the line is written.
    is_shown: bool,
}

impl<'a, R: Eprint + Clock> Watching<'a, R> {
    /// Begins to watch.
    pub fn new(rt: &'a R, bounds: Bounds, is_shown: bool) -> Self {
        Watching {
            rt,
            start: Instant::now(rt).ok(),
            bounds,
            is_shown,
        }
    }

    /// Wipes the line out.
    pub fn end(&self) {
        if self.is_shown {
            let _ = eprint!(self.rt; "\r\x1b[K");
        }
    }

    fn elapsed(&self) -> Duration {
        match &self.start {
            Some(start) => start.elapsed(self.rt).unwrap_or_default(),
            None => Duration::default(),
        }
    }

    fn show(&self, progress: Progress, elapsed: Duration) {
        let Progress { done, met, bytes } = progress;
        let rate = u64::from(met) / elapsed.as_secs().max(1);
        let left = met.saturating_sub(done);
        let megabytes = bytes / MEGABYTE;
        let _ = eprint!(self.rt;
            "\r\x1b[K{met} states, {rate} a second, {megabytes} MB, {left} of them to go on from"
        );
    }
}

impl<R: Eprint + Clock> Watch for Watching<'_, R> {
    fn goes_on(&mut self, progress: Progress) -> bool {
        let elapsed = self.elapsed();
        if self.is_shown {
            self.show(progress, elapsed);
        }
        let Bounds {
            seconds,
            megabytes,
            ..
        } = self.bounds;
        let has_time = seconds.map_or(true, |most| elapsed.as_secs() < u64::from(most));
        let has_room = megabytes.map_or(true, |most| progress.bytes / MEGABYTE < u64::from(most));
        has_time && has_room
    }
}
