//! Where places of a repaired text were before.

use crate::repair::Repair;
use ada_lint::Finding;
use std::alloc::{AllocError, Global};

/// A repair of a line: the place in the repaired line, from 0, and how many bytes stand there, and stood there before.
#[derive(Clone, Copy, Debug)]
struct Moved {
    line: u32,
    place: usize,
    length: usize,
    before: usize,
}

/// The repairs of a text, line by line.
#[derive(Drop)]
pub struct Places {
    moved: Vec<Moved>,
}

impl Places {
    /// Those of these repairs of a text.
    pub fn of(alloc: Global, text: &[u8], repairs: &[Repair]) -> Result<Self, AllocError> {
        let mut moved = Vec::new(alloc);
        let mut line = 1u32;
        let mut place = 0usize;
        let mut rest = text;
        for repair in repairs {
            let (kept, behind) = rest.split_at(repair.kept.min(rest.len()));
            for byte in kept {
                place = place.saturating_add(1);
                if *byte == b'\n' {
                    line = line.saturating_add(1);
                    place = 0;
                }
            }
            let length = repair.instead.len();
            moved.push(Moved {
                line,
                place,
                length,
                before: repair.length,
            })?;
            place = place.saturating_add(length);
            rest = &behind[repair.length.min(behind.len())..];
        }
        Ok(Places { moved })
    }

    // The repairs of a line.
    fn of_line(&self, line: u32) -> &[Moved] {
        let begin = self.moved.partition_point(|moved| moved.line < line);
        let end = self.moved.partition_point(|moved| moved.line <= line);
        self.moved.get(begin..end).unwrap_or(&[])
    }

    // Where what ends or begins at a place of a line did so before.
    fn before(&self, line: u32, place: usize) -> usize {
        let mut before = place;
        for moved in self.of_line(line) {
            if moved.place.saturating_add(moved.length) <= place {
                before = before
                    .saturating_add(moved.before)
                    .saturating_sub(moved.length);
            }
        }
        before
    }

    /// Says of findings where they were before.
    pub fn move_back(&self, findings: &mut [Finding]) {
        for finding in findings {
            let end = finding.place.saturating_add(finding.length);
            let place = self.before(finding.line, finding.place);
            finding.length = self.before(finding.line, end).saturating_sub(place);
            finding.place = place;
        }
    }
}
