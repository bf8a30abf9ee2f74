//! A writer that counts.

use std::io;
use std::io::Write;

/// Takes all that is written, and counts the writes and their bytes.
#[derive(Drop, Debug, Default)]
pub struct Sink {
    pub writes: u64,
    pub bytes: u64,
}

impl Write for Sink {
    fn write(&mut self, buf: &[u8]) -> io::Result<usize> {
        self.writes = self.writes.saturating_add(1);
        self.bytes = self.bytes.saturating_add(buf.len() as u64);
        Ok(buf.len())
    }

    fn flush(&mut self) -> io::Result<()> {
        Ok(())
    }
}
