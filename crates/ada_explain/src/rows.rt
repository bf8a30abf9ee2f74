//! The rows of a play: one for each printed line, beside the line of the script that led to it.

use crate::Source;
use ada_replay::{Account, Answer};
use ada_script::cursor::Lines;
use std::alloc::{AllocError, Global};
use std::str;

/// The most columns in which a line of the script stands beside what it printed; a longer one stands above it.
const MOST_COLUMNS: usize = 40;

/// What a row shows.
#[derive(Clone, Copy, Debug, PartialEq, Eq)]
pub enum Shows {
    /// The event at a position that a line asked for.
    Asked(u32),
    /// The event at a position that was forced.
    Forced(u32),
    /// A refusal, or an attribute.
    Answer,
}

/// A row: what it shows, the line of the script with its statement, and what was printed.
#[derive(Clone, Copy, Debug)]
pub struct Row<'a> {
    pub shows: Shows,
    pub line: u32,
    pub statement: &'a str,
    pub printed: &'a str,
}

impl<'a> Row<'a> {
    /// Whether the row is the first of its line.
    pub fn is_first(&self) -> bool {
        !matches!(self.shows, Shows::Forced(_))
    }

    /// What is printed, without the position in front of an event.
    pub fn without_position(&self) -> &'a str {
        match (self.shows, self.printed.split_once(' ')) {
            (Shows::Answer, _) | (_, None) => self.printed,
            (_, Some((_, text))) => text,
        }
    }

    /// Appends the row: the line of the script at the left, in so many columns, and what it printed at the right, after
    /// a sign.
    pub fn write(&self, text: &mut String, sign: &str, width: usize) -> Result<(), AllocError> {
        text.push_str(sign)?;
        if !self.is_first() {
            write_margin(text, width)?;
            return text.push_str(self.printed);
        }
        write!(text, "{:>4}  {}", self.line, self.statement)?;
        if self.statement.len() > width {
            write!(text, "\n{sign}")?;
            write_margin(text, width)?;
        } else {
            write_spaces(text, (width - self.statement.len()).saturating_add(2))?;
        }
        text.push_str(self.printed)
    }
}

fn write_spaces(text: &mut String, count: usize) -> Result<(), AllocError> {
    for _ in 0..count {
        text.push(' ')?;
    }
    Ok(())
}

/// Begins a row without a line of the script.
pub fn write_margin(text: &mut String, width: usize) -> Result<(), AllocError> {
    write_spaces(text, width.saturating_add(8))
}

/// The rows of a play, and the row of each event by its position.
#[derive(Drop)]
pub struct Rows<'a> {
    pub rows: Vec<Row<'a>>,
    places: Vec<usize>,
}

impl<'a> Rows<'a> {
    /// The rows of a play, of whose script this is the source.
    pub fn of(alloc: Global, source: &'a [u8], account: &'a Account) -> Result<Self, AllocError> {
        let source = Source::of(alloc, source)?;
        let mut printed = Lines::new(&account.text);
        let mut rows = Rows {
            rows: Vec::new(alloc),
            places: Vec::new(alloc),
        };
        for (line, answer) in account.lines.iter().zip(account.answers.iter()) {
            let statement = source.line(line.line);
            rows.push_answer(line.line, statement, *answer, &mut printed)?;
        }
        Ok(rows)
    }

    /// The row of the event at a position, from 1; at 0 the beginning.
    pub fn place(&self, position: u32) -> usize {
        match self.places.get((position as usize).saturating_sub(1)) {
            Some(place) if position > 0 => place.saturating_add(1),
            _ if position == 0 => 0,
            _ => self.rows.len(),
        }
    }

    /// How many columns the statements take that stand beside what they printed.
    pub fn width(&self) -> usize {
        let mut width = 0;
        for row in &self.rows {
            let length = row.statement.len();
            if length <= MOST_COLUMNS {
                width = length.max(width);
            }
        }
        width
    }

    fn push_answer(
        &mut self,
        line: u32,
        statement: &'a str,
        answer: Answer,
        printed: &mut Lines<'a>,
    ) -> Result<(), AllocError> {
        let (first, last) = match answer {
            Answer::Group { first, last } => (first, last),
            Answer::Refused(_) | Answer::Shown(_) => {
                return self.push(Row {
                    shows: Shows::Answer,
                    line,
                    statement,
                    printed: next_of(printed),
                });
            }
        };
        for position in first..=last {
            self.places.push(self.rows.len())?;
            self.push(Row {
                shows: if position == first {
                    Shows::Asked(position)
                } else {
                    Shows::Forced(position)
                },
                line,
                statement,
                printed: next_of(printed),
            })?;
        }
        Ok(())
    }

    fn push(&mut self, row: Row<'a>) -> Result<(), AllocError> {
        self.rows.push(row)?;
        Ok(())
    }
}

// The next printed line.
fn next_of<'a>(printed: &mut Lines<'a>) -> &'a str {
    match printed.next() {
        Some(line) => str::from_utf8(line).unwrap_or(""),
        None => "",
    }
}
