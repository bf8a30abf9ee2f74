//! The lines of a schedule by their numbers, in short.

use std::alloc::AllocError;

/// Lines that come one after another, in a text and in a schedule.
#[derive(Clone, Copy)]
struct Run {
    first: u32,
    last: u32,
}

/// Who writes the numbers of lines after one another, as `1-3, 7, 5`.
#[derive(Drop)]
pub struct LineNumbers<'a> {
    text: &'a mut String,
    /// The lines that aren't written yet.
    run: Option<Run>,
    is_first: bool,
}

impl<'a> LineNumbers<'a> {
    /// Nothing was written yet.
    pub fn new(text: &'a mut String) -> Self {
        LineNumbers {
            text,
            run: None,
            is_first: true,
        }
    }

    /// Writes the number of a line.
    pub fn line(&mut self, number: u32) -> Result<(), AllocError> {
        match self.run {
            Some(run) if run.last.checked_add(1) == Some(number) => {
                self.run = Some(Run {
                    first: run.first,
                    last: number,
                });
                Ok(())
            }
            _ => {
                self.end()?;
                self.run = Some(Run {
                    first: number,
                    last: number,
                });
                Ok(())
            }
        }
    }

    /// Writes the number of a line that has a pick of its own.
    pub fn line_with_pick(&mut self, number: u32, pick: u32) -> Result<(), AllocError> {
        self.end()?;
        self.comma()?;
        write!(self.text, "{number} with pick {pick}")
    }

    /// Writes that time passes.
    pub fn time(&mut self) -> Result<(), AllocError> {
        self.end()?;
        self.comma()?;
        self.text.push_str("time")
    }

    /// Writes the lines that aren't written yet.
    pub fn end(&mut self) -> Result<(), AllocError> {
        let Some(Run { first, last }) = self.run.take() else {
            return Ok(());
        };
        self.comma()?;
        if first == last {
            write!(self.text, "{first}")
        } else {
            write!(self.text, "{first}-{last}")
        }
    }

    fn comma(&mut self) -> Result<(), AllocError> {
        if !self.is_first {
            self.text.push_str(", ")?;
        }
        self.is_first = false;
        Ok(())
    }
}
