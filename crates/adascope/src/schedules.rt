//! The texts of what was found of all schedules of a script.

use crate::line_numbers::LineNumbers;
use ada_explain::standstill::write_standstill;
use ada_explain::{Scene, Source};
use ada_explore::{End, Finding as Explored, Halt, Picks, Space, Standing, Stop, Time, Turn};
use ada_replay::RunFault;
use ada_script::{Line, Statement};
use ada_search::{Schedules, begin, follow};
use std::alloc::AllocError;

/// A script, with its text.
#[derive(Clone, Copy)]
pub struct Told<'a, 't> {
    pub space: Space<'a>,
    pub source: &'a Source<'t>,
}

// Of a schedule that was found only want of memory comes.
fn fault_of(_halt: Halt) -> RunFault {
    RunFault::Memory
}

// A number of things, as `1 state` or `2 states`.
fn write_count(text: &mut String, count: u64, thing: &str) -> Result<(), AllocError> {
    let ending = if count == 1 { "" } else { "s" };
    write!(text, "{count} {thing}{ending}")
}

// Says of a search that it didn't see all.
fn write_seen(text: &mut String, found: &Explored) -> Result<(), AllocError> {
    match found.end {
        End::AllSeen => text.push_str("\n"),
        End::Bound | End::Ended => text.push_str(" seen, and more are left\n"),
        End::Limit(cause) => write!(text, " seen; some schedules meet a limit [{cause}]\n"),
    }
}

// Says in how many states the script stops short.
fn write_short(text: &mut String, found: &Explored) -> Result<(), AllocError> {
    if found.short_states == 0 {
        return Ok(());
    }
    text.push_str("In ")?;
    write_count(text, u64::from(found.short_states), "state")?;
    text.push_str(
        " no line can come, though the main program isn't terminated: a task runs, or waits",
    )?;
    text.push_str(" for a moment.\n")
}

/// The schedule that a verdict is about, if it is about one: that which gets stuck, or after which tasks are held up
/// for good.
pub fn schedule_in(found: &Explored) -> Option<&[Turn]> {
    match (&found.stuck, &found.stopped) {
        (Some(path), _) => Some(path),
        (None, Some(stop)) => Some(&stop.path),
        (None, None) => None,
    }
}

// What stands before and after the pick in the line of a selective wait: the first number after the speaker.
fn with_pick_apart(line: &str) -> Option<(&str, &str)> {
    let speaker = line.find(':')?;
    let start = line.get(speaker..)?.find(|c: char| c.is_ascii_digit())?;
    let (before, rest) = line.split_at_checked(speaker.checked_add(start)?)?;
    let end = rest
        .find(|c: char| !c.is_ascii_digit())
        .unwrap_or(rest.len());
    Some((before, rest.get(end..)?))
}

impl<'t> Told<'_, 't> {
    /// What was found.
    pub fn report(&self, found: &Explored) -> Result<String, RunFault> {
        let mut text = String::new(self.space.alloc);
        self.write_verdict(&mut text, found)
            .map_err(|_| RunFault::Memory)?;
        write_short(&mut text, found).map_err(|_| RunFault::Memory)?;
        self.write_refused(&mut text, found)
            .map_err(|_| RunFault::Memory)?;
        if let Some(path) = schedule_in(found) {
            let end = follow(self.space.alloc, &self.space, path).map_err(fault_of)?;
            write_standstill(&mut text, Scene::of(&end.kernel, &end.rest.names)).map_err(
                |_| RunFault::Memory,
            )?;
        }
        if let Some(stop) = &found.stopped {
            self.write_unsaid(&mut text, stop)
                .map_err(|_| RunFault::Memory)?;
        }
        Ok(text)
    }

    // The first line.
    fn write_verdict(&self, text: &mut String, found: &Explored) -> Result<(), AllocError> {
        if let Some(path) = &found.stuck {
            text.push_str("stuck: after ")?;
            write_count(text, path.len() as u64, "step")?;
            write!(text, ", in {} of ", found.stuck_states)?;
            write_count(text, u64::from(found.states), "state")?;
            return write_seen(text, found);
        }
        if let Some(stop) = &found.stopped {
            return self.write_stop(text, found, stop);
        }
        if let Some(states) = found.covered {
            text.push_str("none: no schedule gets stuck")?;
            if self.space.freedom.picks == Picks::All {
                text.push_str(", whatever is picked")?;
            }
            if self.space.freedom.time == Time::Late {
                text.push_str(", if time passes late")?;
            }
            text.push_str("; ")?;
            write_count(text, u64::from(states), "state")?;
            return text.push_str("\n");
        }
        text.push_str("unknown: ")?;
        write_count(text, u64::from(found.states), "state")?;
        if found.end == End::AllSeen {
            return text.push_str(" seen, and none is stuck; that these cover all wasn't found\n");
        }
        write_seen(text, found)?;
        text.push_str("None of these is stuck.\n")
    }

    fn write_stop(
        &self,
        text: &mut String,
        found: &Explored,
        stop: &Stop,
    ) -> Result<(), AllocError> {
        text.push_str("stops: ")?;
        let mut is_first = true;
        for place in &stop.lines {
            if self.is_first_of(stop, *place) {
                let comma = if is_first { "" } else { ", " };
                write!(text, "{comma}{}", self.speaker(*place))?;
                is_first = false;
            }
        }
        text.push_str(" for good, after ")?;
        write_count(text, stop.path.len() as u64, "step")?;
        text.push_str("; ")?;
        write_count(text, u64::from(found.states), "state")?;
        text.push_str("\n")
    }

    // What the tasks that stopped never say.
    fn write_unsaid(&self, text: &mut String, stop: &Stop) -> Result<(), AllocError> {
        for place in &stop.lines {
            if self.is_first_of(stop, *place) {
                let (speaker, number) = (self.speaker(*place), self.number(*place));
                let line = self.source.line(number);
                write!(text, "{speaker} never comes to line {number}, '{line}'.\n")?;
            }
        }
        Ok(())
    }

    // Whether a line is the first of its task that is never said.
    fn is_first_of(&self, stop: &Stop, place: u16) -> bool {
        let speaker = self.speaker(place);
        let first = stop
            .lines
            .iter()
            .find(|other| self.speaker(**other) == speaker);
        first == Some(&place)
    }

    // Says which lines some schedules say in vain.
    fn write_refused(&self, text: &mut String, found: &Explored) -> Result<(), AllocError> {
        for refused in &found.refused {
            let number = self.number(refused.place);
            write!(text, "Refused in ")?;
            write_count(text, refused.steps, "step")?;
            write!(
                text,
                ", first after {}: line {number}, ",
                refused.path.len()
            )?;
            write!(text, "'{}' [{}]\n", self.source.line(number), refused.cause)?;
            self.write_numbers(text, &refused.path)?;
        }
        Ok(())
    }

    // Says by which lines a schedule comes to its end.
    fn write_numbers(&self, text: &mut String, path: &[Turn]) -> Result<(), AllocError> {
        text.push_str("  by lines ")?;
        let mut numbers = LineNumbers::new(text);
        for turn in path {
            match *turn {
                Turn::Line { place, pick: None } => numbers.line(self.number(place))?,
                Turn::Line {
                    place,
                    pick: Some(pick),
                } => numbers.line_with_pick(self.number(place), pick)?,
                Turn::Time => numbers.time()?,
            }
        }
        numbers.end()?;
        text.push_str("\n")
    }

    // The number of the line at a place, from 1.
    fn number(&self, place: u16) -> u32 {
        match self.line(place) {
            Some(line) => line.line,
            None => 0,
        }
    }

    // Whose line it is: the name before its colon, or `tick`.
    fn speaker(&self, place: u16) -> &'t str {
        match self.source.line(self.number(place)).split_once(':') {
            Some((name, _)) => name.trim(),
            None => "tick",
        }
    }

    // The line at a place.
    fn line(&self, place: u16) -> Option<&Line> {
        self.space.script.lines().get(usize::from(place))
    }

    // Which of the alternatives that are open a line takes, where several may be.
    fn pick(&self, place: u16, pick: Option<u32>) -> u32 {
        if let Some(pick) = pick {
            return pick;
        }
        match self.line(place) {
            Some(line) => match &line.statement {
                Statement::Select { pick, .. } => *pick,
                _ => 0,
            },
            None => 0,
        }
    }

    // The line at a place, with a pick.
    fn write_line(
        &self,
        text: &mut String,
        place: u16,
        pick: Option<u32>,
    ) -> Result<(), AllocError> {
        let line = self.source.line(self.number(place));
        match (pick, with_pick_apart(line)) {
            (Some(pick), Some((before, after))) => write!(text, "{before}{pick}{after}\n"),
            _ => write!(text, "{line}\n"),
        }
    }

    // The line of a turn that leads on to a standing; of time the tick to where it came.
    fn write_turn(
        &self,
        text: &mut String,
        turn: Turn,
        standing: &Standing,
    ) -> Result<(), AllocError> {
        match turn {
            Turn::Line { place, pick } => self.write_line(text, place, pick),
            Turn::Time => write!(text, "tick {}\n", standing.kernel.view().moment()),
        }
    }

    /// The lines of a schedule as a script, but for the refused ones, without which it leads to the same.
    pub fn lines_of(&self, path: &[Turn]) -> Result<String, RunFault> {
        let mut standing = begin(self.space.alloc, &self.space).map_err(fault_of)?;
        let mut lines = String::new(self.space.alloc);
        for turn in path {
            let refused = self.space.take(&mut standing, *turn).map_err(fault_of)?;
            if refused.is_none() {
                self.write_turn(&mut lines, *turn, &standing)
                    .map_err(|_| RunFault::Memory)?;
            }
        }
        Ok(lines)
    }

    /// The choices of a schedule, one a line: whose line comes next, and its pick where that isn't 0.
    pub fn choices_of(&self, path: &[Turn]) -> Result<String, AllocError> {
        let mut choices = String::new(self.space.alloc);
        for turn in path {
            self.write_choice(&mut choices, *turn)?;
        }
        Ok(choices)
    }

    fn write_choice(&self, text: &mut String, turn: Turn) -> Result<(), AllocError> {
        let Turn::Line { place, pick } = turn else {
            return text.push_str("tick\n");
        };
        text.push_str(self.speaker(place))?;
        match self.pick(place, pick) {
            0 => text.push_str("\n"),
            pick => write!(text, " {pick}\n"),
        }
    }
}
