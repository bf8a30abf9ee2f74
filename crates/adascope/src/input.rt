//! Reading a log.
ghost use Rattle.std.specs.Prelude.{◌≤◌, ◌<◌, ◌^◌, length, vec_len};

use ada_replay::RunFault;
use std::alloc::Global;
use std::io::{ErrorKind, Read};

/// The most bytes that a log has: 65,536 lines of 200 bytes with a line feed, each an event, and as much as 3.6 million
/// bytes of comments and shown attributes.
pub const MOST_BYTES: usize = 16_777_216;

/// More lines than these no log has: each ends with a line feed, but for the last one.
pub const MOST_LOG_LINES: u32 = 16_777_217;

/// A log as it was read.
#[derive(Drop)]
pub struct Log {
    bytes: Vec<u8>,
    /// How many of the bytes are in lines that end with a line feed.
    complete: usize,
    ghost within: { complete ≤ vec_len bytes },
    ghost short: { vec_len bytes ≤ 16777216 },
}

impl Log {
    /// The log of these bytes; none if there are more than a log has.
    pub fn of(bytes: Vec<u8>) -> Option<Self> {
        if bytes.len() > MOST_BYTES {
            return None;
        }
        let complete = complete_bytes(&bytes);
        Some(Log { bytes, complete })
    }

    /// The lines that end with a line feed.
    pub fn lines(&self) -> &[u8]
        ensures { length result.now < 2 ^ 32 }
    {
        &self.bytes[..self.complete]
    }

    /// The first complete lines, of which there are so many at least.
    pub fn first_lines(&self, count: u32) -> &[u8] {
        let lines = self.lines();
        &lines[..end_of_lines(lines, count)]
    }

    /// The complete lines after the first, of which there are so many at least.
    pub fn lines_after(&self, count: u32) -> &[u8] {
        let lines = self.lines();
        &lines[end_of_lines(lines, count)..]
    }

    /// What stands after the last line feed, which may be cut off.
    pub fn rest(&self) -> &[u8] {
        &self.bytes[self.complete..]
    }
}

// How many bytes there are up to the last line feed, this one included.
fn complete_bytes(bytes: &[u8]) -> usize
    ensures { result ≤ length bytes.now }
{
    let mut complete = bytes.len();
    while complete > 0 && bytes[complete - 1] != b'\n' {
        complete -= 1;
    }
    complete
}

// Where so many lines end.
fn end_of_lines(bytes: &[u8], count: u32) -> usize
    ensures { result ≤ length bytes.now }
{
    let mut left = count;
    for (i, byte) in bytes.iter().enumerate() {
        if left == 0 {
            return i;
        }
        if *byte == b'\n' {
            left -= 1;
        }
    }
    bytes.len()
}

/// Reads an input to its end, or as many bytes as a log has and one more, with which it is none.
pub fn read_log<R: Read + Drop>(alloc: Global, reader: R) -> Result<Vec<u8>, RunFault> {
    let mut bytes = Vec::new(alloc);
    let mut reader = reader.take(MOST_BYTES as u64 + 1);
    match reader.read_to_end(&mut bytes) {
        Ok(_) => Ok(bytes),
        Err(fault) if fault.kind() == ErrorKind::OutOfMemory => Err(RunFault::Memory),
        Err(_) => Err(RunFault::Read),
    }
}
