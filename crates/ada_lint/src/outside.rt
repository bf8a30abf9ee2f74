//! Lines that are refused before their words are read: too many, too long, or with bytes outside of printable ASCII.

use ada_script::Cause;
use std::alloc::AllocError;

/// The place of the first byte outside of 32 to 126.
pub fn first_outside(line: &[u8]) -> Option<usize> {
    line.iter().position(|byte| *byte < 32 || *byte > 126)
}

/// Where a line is refused before its words are read: the place from 0, how many bytes are wrong there, and what to
/// write in place of them, if that is known.
#[derive(Clone, Copy, Debug)]
pub struct Outside {
    pub place: usize,
    pub length: usize,
    pub repair: Option<&'static str>,
}

// What stands at the beginning of some bytes, how many bytes it takes, and what to write in place of them.
fn name_of(bytes: &[u8]) -> (&'static str, usize, Option<&'static str>) {
    match bytes {
        [b'\t', ..] => ("a tab: write spaces", 1, Some(" ")),
        [b'\r', ..] => (
            "a carriage return: lines end with a line feed alone",
            1,
            Some(""),
        ),
        [0xEF, 0xBB, 0xBF, ..] => ("a byte order mark: leave it out", 3, Some("")),
        [0xC2, 0xA0, ..] => ("a no-break space: write a space", 2, Some(" ")),
        [0xE2, 0x80, 0x90..=0x95, ..] => ("a dash: write `-`", 3, Some("-")),
        [0xE2, 0x88, 0x92, ..] => ("a minus sign: write `-`", 3, Some("-")),
        [0xE2, 0x80, 0x98..=0x9F, ..] => ("a quotation mark: leave it out", 3, Some("")),
        [0x00..=0x1F, ..] => ("a control character: leave it out", 1, Some("")),
        [0x7F, ..] => ("a control character: leave it out", 1, Some("")),
        [0xC2..=0xDF, 0x80..=0xBF, ..] => ("a character outside of ASCII", 2, None),
        [0xE0..=0xEF, 0x80..=0xBF, 0x80..=0xBF, ..] => ("a character outside of ASCII", 3, None),
        [0xF0..=0xF4, 0x80..=0xBF, 0x80..=0xBF, 0x80..=0xBF, ..] => {
            ("a character outside of ASCII", 4, None)
        }
        _ => ("a byte outside of ASCII", 1, None),
    }
}

/// Appends what is wrong with a line that is refused for this cause before its words are read, and says where.
pub fn write_outside(
    message: &mut String,
    line: &[u8],
    cause: Cause,
) -> Result<Outside, AllocError> {
    match cause {
        Cause::TooManyLines => {
            write!(message, "a script has at most 4096 lines")?;
            Ok(Outside {
                place: 0,
                length: 1,
                repair: None,
            })
        }
        Cause::LineTooLong => {
            write!(
                message,
                "a line has at most 200 bytes, and this one {}",
                line.len()
            )?;
            Ok(Outside {
                place: 200,
                length: 1,
                repair: None,
            })
        }
        _ => {
            let place = first_outside(line).unwrap_or(0);
            let (name, length, repair) = name_of(line.get(place..).unwrap_or(&[]));
            write!(message, "{name}")?;
            Ok(Outside {
                place,
                length,
                repair,
            })
        }
    }
}
