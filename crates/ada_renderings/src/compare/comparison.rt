//! Two plays side by side.

use crate::compare::alignment::{Place, align};
use crate::compare::ends::write_ends;
use crate::compare::steps::{Step, partner, steps_of};
use ada_explain::Scene;
use ada_explain::rows::Rows;
use ada_replay::Account;
use std::alloc::{AllocError, Global};

/// A script, how it is called, and its play.
#[derive(Clone, Copy)]
pub struct Played<'a> {
    pub name: &'a str,
    pub source: &'a [u8],
    pub account: &'a Account,
}

/// A comparison, and whether it found a difference.
#[derive(Drop)]
pub struct Comparison {
    pub text: String,
    pub differs: bool,
}

/// Compares two plays: the first lines at which they part, all lines that one of them has alone, or that did something
/// else in the other one, and what differs at the end.
pub fn compare(
    alloc: Global,
    first: Played<'_>,
    second: Played<'_>,
) -> Result<Comparison, AllocError> {
    let first_side = Side::of(alloc, first)?;
    let second_side = Side::of(alloc, second)?;
    let sides = Sides {
        width: first_side.rows.width().max(second_side.rows.width()),
        first: first_side,
        second: second_side,
    };
    let places = align(alloc, &sides.first.steps, &sides.second.steps)?;
    let mut text = String::new(alloc);
    let differs = sides.write(&mut text, &places)?;
    if differs {
        write_ends(&mut text, first.account, second.account)?;
    }
    Ok(Comparison { text, differs })
}

/// A play, its rows, and what each of its lines did.
#[derive(Drop)]
struct Side<'a> {
    name: &'a str,
    scene: Scene<'a>,
    rows: Rows<'a>,
    steps: Vec<Step>,
}

impl<'a> Side<'a> {
    fn of(alloc: Global, played: Played<'a>) -> Result<Self, AllocError> {
        let rows = Rows::of(alloc, played.source, played.account)?;
        let steps = steps_of(alloc, played.account, &rows)?;
        Ok(Side {
            name: played.name,
            scene: Scene::at_end(played.account),
            rows,
            steps,
        })
    }

    // Appends the line of a step, or that there is none.
    fn write_line(&self, text: &mut String, place: usize) -> Result<(), AllocError> {
        match self.steps.get(place) {
            Some(step) => write!(text, "line {} of {}", step.line, self.name),
            None => write!(text, "the end of {}", self.name),
        }
    }

    // Appends what a step did, with a sign in front of each row.
    fn write_step(
        &self,
        text: &mut String,
        sign: &str,
        place: usize,
        width: usize,
    ) -> Result<(), AllocError> {
        let Some(step) = self.steps.get(place) else {
            return Ok(());
        };
        for row in self.rows.rows.iter().skip(step.first).take(step.count) {
            row.write(text, sign, width)?;
            match partner(self.scene, row) {
                Some(task) => write!(text, " ({task})\n")?,
                None => text.push('\n')?,
            }
        }
        Ok(())
    }
}

#[derive(Drop)]
struct Sides<'a> {
    first: Side<'a>,
    second: Side<'a>,
    width: usize,
}

impl Sides<'_> {
    // Whether a place is a difference.
    fn differ(&self, place: Place) -> bool {
        match place {
            Place::Both(one, other) => match (
                self.first.steps.get(one),
                self.second.steps.get(other),
            ) {
                (Some(step), Some(with)) => step.effect != with.effect,
                _ => true,
            },
            Place::First(_) | Place::Second(_) => true,
        }
    }

    // How many runs of differences there are.
    fn count(&self, places: &[Place]) -> u32 {
        let mut count = 0u32;
        let mut was_different = false;
        for place in places {
            let is_different = self.differ(*place);
            if is_different && !was_different {
                count = count.saturating_add(1);
            }
            was_different = is_different;
        }
        count
    }

    // Appends where the plays part, and all differences; whether there is one.
    fn write(&self, text: &mut String, places: &[Place]) -> Result<bool, AllocError> {
        let count = self.count(places);
        if count == 0 {
            write!(text, "No difference: {} lines.\n", places.len())?;
            return Ok(false);
        }
        self.write_parting(text, places)?;
        match count {
            1 => write!(text, ": 1 difference.\n")?,
            _ => write!(text, ": {count} differences.\n")?,
        }
        let mut was_different = false;
        for place in places {
            let is_different = self.differ(*place);
            if is_different && !was_different {
                text.push('\n')?;
            }
            if is_different {
                self.write_place(text, *place)?;
            }
            was_different = is_different;
        }
        Ok(true)
    }

    // Appends the first lines that differ.
    fn write_parting(&self, text: &mut String, places: &[Place]) -> Result<(), AllocError> {
        let same = places
            .iter()
            .take_while(|place| !self.differ(**place))
            .count();
        let (one, other) = match places.get(same) {
            Some(Place::Both(one, other)) => (*one, *other),
            _ => (same, same),
        };
        write!(text, "They part at ")?;
        self.first.write_line(text, one)?;
        write!(text, " and ")?;
        self.second.write_line(text, other)
    }

    // Appends a difference.
    fn write_place(&self, text: &mut String, place: Place) -> Result<(), AllocError> {
        let width = self.width;
        match place {
            Place::First(one) => self.first.write_step(text, "- ", one, width),
            Place::Second(other) => self.second.write_step(text, "+ ", other, width),
            Place::Both(one, other) => {
                self.first.write_step(text, "- ", one, width)?;
                self.second.write_step(text, "+ ", other, width)
            }
        }
    }
}
