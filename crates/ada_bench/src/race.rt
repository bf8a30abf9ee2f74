//! How often readers asked while boards were published.

use std::io;
use std::time::Duration;

/// How often all readers asked, how many boards were published meanwhile, and how long it took, in
/// nanoseconds.
#[derive(Clone, Copy, Debug, Default)]
pub struct Race {
    pub asked: u64,
    pub boards: u64,
    pub time: u64,
}

impl Race {
    /// What came of one more race.
    pub fn add(&mut self, asked: u64, boards: usize, time: Duration) {
        let nanoseconds = time.as_nanos().min(u128::from(u64::MAX)) as u64;
        self.asked = self.asked.saturating_add(asked);
        self.boards = self.boards.saturating_add(boards as u64);
        self.time = self.time.saturating_add(nanoseconds);
    }

    /// Prints the thousands of answers and of boards in a second.
    pub fn print<R: Print>(&self, rt: &R, name: &str) -> io::Result<()> {
        println!(rt;
            "  {:<10} {:>10} {:>10}",
            name,
            in_milliseconds(self.asked, self.time),
            in_milliseconds(self.boards, self.time)
        )
    }
}

// How many of so many came in a millisecond, if all took so many nanoseconds.
fn in_milliseconds(count: u64, nanoseconds: u64) -> u64 {
    count.saturating_mul(1_000_000) / nanoseconds.max(1)
}
