//! Scripts of as many lines as are asked for, each of one kind of line.

use std::alloc::{AllocError, Global};

/// What the lines of a script are.
#[derive(Clone, Copy, Debug, PartialEq, Eq)]
pub enum Kind {
    /// Comments of 200 bytes.
    Comments,
    /// Ticks, each to the next moment.
    Ticks,
    /// One rendezvous after another between a client and a server, and COUNT for lines that are left.
    PingPong,
    /// The same, with a last line that is no statement.
    Faulty,
    /// COUNT of an entry.
    Shows,
    /// Aborts of 96 names, which fill their lines.
    Names,
}

impl Kind {
    /// All kinds.
    pub const ALL: [Kind; 6] = [
        Kind::Comments,
        Kind::Ticks,
        Kind::PingPong,
        Kind::Faulty,
        Kind::Shows,
        Kind::Names,
    ];

    /// The name of the kind.
    pub fn name(self) -> &'static str {
        match self {
            Kind::Comments => "comments",
            Kind::Ticks => "ticks",
            Kind::PingPong => "ping_pong",
            Kind::Faulty => "faulty",
            Kind::Shows => "shows",
            Kind::Names => "names",
        }
    }
}

/// A task `S` with an entry `E` and a task `C`, both active.
const SERVER_AND_CLIENT: &[u8] = b"main: create S under main E
main: create C under main
main: activate S C
S: up
C: up
";

const ROUND: &[u8] = b"C: call S E
S: accept E
S: end
";

const SHOW: &[u8] = b"S: show count E\n";

/// A task that asks, and one that it aborts.
const ABORTER: &[u8] = b"main: create S under main
main: create X under main
main: activate S
S: up
";

/// The script of so many lines, at least 8.
pub fn script(alloc: Global, kind: Kind, lines: usize) -> Result<Vec<u8>, AllocError> {
    let lines = lines.max(8);
    match kind {
        Kind::Comments => comments(alloc, lines),
        Kind::Ticks => ticks(alloc, lines),
        Kind::PingPong => ping_pong(alloc, lines),
        Kind::Faulty => {
            let mut text = ping_pong(alloc, lines - 1)?;
            text.extend_from_slice(b"C: jump\n")?;
            Ok(text)
        }
        Kind::Shows => repeated(alloc, SERVER_AND_CLIENT, SHOW, lines - 5),
        Kind::Names => aborts(alloc, lines),
    }
}

/// A text, and then a line so many times.
fn repeated(alloc: Global, head: &[u8], line: &[u8], times: usize) -> Result<Vec<u8>, AllocError> {
    let mut text = Vec::from_slice(alloc, head)?;
    for _ in 0..times {
        text.extend_from_slice(line)?;
    }
    Ok(text)
}

fn comments(alloc: Global, lines: usize) -> Result<Vec<u8>, AllocError> {
    let mut line = [b'#'; 201];
    line[200] = b'\n';
    repeated(alloc, b"", &line, lines)
}

fn ticks(alloc: Global, lines: usize) -> Result<Vec<u8>, AllocError> {
    let mut text = Vec::new(alloc);
    for moment in 0..lines {
        let line = format!(in alloc; "tick {moment}\n")?;
        text.extend_from_slice(line.as_bytes())?;
    }
    Ok(text)
}

fn ping_pong(alloc: Global, lines: usize) -> Result<Vec<u8>, AllocError> {
    let behind = lines.saturating_sub(5);
    let text = repeated(alloc, SERVER_AND_CLIENT, ROUND, behind / 3)?;
    repeated(alloc, &text, SHOW, behind % 3)
}

fn aborts(alloc: Global, lines: usize) -> Result<Vec<u8>, AllocError> {
    let line = repeated(alloc, b"S: abort", b" X", 96)?;
    let mut text = Vec::from_slice(alloc, ABORTER)?;
    for _ in 4..lines {
        text.extend_from_slice(&line)?;
        text.push(b'\n')?;
    }
    Ok(text)
}
