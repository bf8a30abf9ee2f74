//! Colours for a terminal.

use std::alloc::{AllocError, Global};

/// What a text is, by which its lines have colours.
#[derive(Clone, Copy, Debug, PartialEq, Eq)]
pub enum Kind {
    Explanation,
    Findings,
    Difference,
}

/// The colours, by their numbers in a control sequence of ECMA-48.
const RED: u32 = 31;

const GREEN: u32 = 32;

const YELLOW: u32 = 33;

/// A text with colours: what is wrong in red, warnings in yellow; of a difference, what the first has in red, and what
/// the second has in green.
pub fn painted(alloc: Global, text: &str, kind: Kind) -> Result<String, AllocError> {
    let mut out = String::new(alloc);
    for (i, line) in text.split('\n').enumerate() {
        if i > 0 {
            out.push('\n')?;
        }
        match color_of(kind, line) {
            Some(color) => write!(out, "\x1b[{color}m{line}\x1b[0m")?,
            None => out.push_str(line)?,
        }
    }
    Ok(out)
}

fn color_of(kind: Kind, line: &str) -> Option<u32> {
    match kind {
        Kind::Explanation => {
            let is_wrong = line.contains("refused line ")
                || line.starts_with("  A circle: ")
                || line.starts_with("Verdict: stuck");
            if is_wrong { Some(RED) } else { None }
        }
        Kind::Findings if line.starts_with(' ') => {
            let is_mark = line.trim_start().starts_with('^');
            if is_mark { Some(GREEN) } else { None }
        }
        Kind::Findings if line.contains(": error: ") => Some(RED),
        Kind::Findings if line.contains(": warning: ") => Some(YELLOW),
        Kind::Difference if line.starts_with("- ") => Some(RED),
        Kind::Difference if line.starts_with("+ ") => Some(GREEN),
        Kind::Findings | Kind::Difference => None,
    }
}
