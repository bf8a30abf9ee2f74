//! Who spoke which line, by the script's text alone.

use ada_hall::KeptAnswer;
use ada_script::Line;

/// The speaker of a line of a text, from 1: what stands before its colon, or else the main program.
fn speaker_of(text: &[u8], line: u32) -> &[u8] {
    let words = text
        .split(|byte| *byte == b'\n')
        .nth((line as usize).saturating_sub(1));
    match words {
        Some(words) if words.contains(&b':') => words.split(|byte| *byte == b':').next(),
        _ => None,
    }
    .unwrap_or(b"main")
}

/// How many answers were given when the speaker of a line was answered last. None where the last answer of
/// this speaker is that of a later line.
pub fn last_of(
    text: &[u8],
    lines: &[Line],
    before: &[KeptAnswer],
    kept: &KeptAnswer,
    number: u32,
) -> Option<usize> {
    let speaker = speaker_of(text, number);
    let mut since = 0;
    for at in 0..before.len() {
        let other = before.get(at)?;
        let line = lines.get(other.place as usize)?;
        if speaker_of(text, line.line) == speaker {
            if other.place >= kept.place {
                return None;
            }
            since = at + 1;
        }
    }
    Some(since)
}
