//! Readers that come in pieces, fail or are interrupted, and writers that take a byte or all at a time, and fail.

use std::io;
use std::io::ErrorKind;

/// Gives a text in pieces of so many bytes, and fails once so many reads were made.
#[derive(Drop)]
pub struct Pieces<'a> {
    pub text: &'a [u8],
    pub size: usize,
    pub reads_left: usize,
}

impl io::Read for Pieces<'_> {
    fn read(&mut self, buf: &mut [u8]) -> io::Result<usize> {
        if self.reads_left == 0 {
            return Err(io::Error::from(ErrorKind::Other));
        }
        self.reads_left -= 1;
        let count = buf.len().min(self.text.len()).min(self.size);
        buf[..count].copy_from_slice(&self.text[..count]);
        self.text = &self.text[count..];
        Ok(count)
    }
}

/// Gives a text in pieces, but for one read, which a signal interrupts; behind that it goes on.
#[derive(Drop)]
pub struct Interrupted<'a> {
    pub pieces: Pieces<'a>,
    /// How many reads are still made before that one.
    pub reads_before: Option<usize>,
}

impl io::Read for Interrupted<'_> {
    fn read(&mut self, buf: &mut [u8]) -> io::Result<usize> {
        match self.reads_before {
            None => self.pieces.read(buf),
            Some(0) => {
                self.reads_before = None;
                Err(io::Error::from(ErrorKind::Interrupted))
            }
            Some(reads) => {
                self.reads_before = Some(reads - 1);
                self.pieces.read(buf)
            }
        }
    }
}

/// What a writer does once it has taken its bytes.
#[derive(Clone, Copy, PartialEq, Eq)]
pub enum End {
    Fails,
    TakesNothing,
}

/// Takes a byte at each write, so many in all, and then comes to its end.
#[derive(Drop)]
pub struct Bytes {
    pub taken: Vec<u8>,
    pub room: usize,
    pub end: End,
}

impl io::Write for Bytes {
    fn write(&mut self, buf: &[u8]) -> io::Result<usize> {
        if self.taken.len() < self.room {
            return match buf.first() {
                Some(byte) => {
                    self.taken
                        .push(*byte)
                        .map_err(|_| io::Error::from(ErrorKind::Other))?;
                    Ok(1)
                }
                None => Ok(0),
            };
        }
        match self.end {
            End::Fails => Err(io::Error::from(ErrorKind::Other)),
            End::TakesNothing => Ok(0),
        }
    }

    fn flush(&mut self) -> io::Result<()> {
        Ok(())
    }
}

/// Takes all that it is given, and fails once so many writes were made.
#[derive(Drop)]
pub struct Writes {
    pub taken: Vec<u8>,
    pub writes_left: usize,
}

impl io::Write for Writes {
    fn write(&mut self, buf: &[u8]) -> io::Result<usize> {
        if self.writes_left == 0 {
            return Err(io::Error::from(ErrorKind::Other));
        }
        self.taken
            .extend_from_slice(buf)
            .map_err(|_| io::Error::from(ErrorKind::Other))?;
        self.writes_left -= 1;
        Ok(buf.len())
    }

    fn flush(&mut self) -> io::Result<()> {
        Ok(())
    }
}
