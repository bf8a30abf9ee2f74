//! The statements that two scripts have in common, in their order.

use crate::compare::steps::Step;
use std::alloc::{AllocError, Global};

/// A place among the steps of two scripts: that of a statement of both, of the first alone, or of the second alone.
#[derive(Clone, Copy, Debug, PartialEq, Eq)]
pub enum Place {
    Both(usize, usize),
    First(usize),
    Second(usize),
}

/// The places of the steps of two scripts, such that no other order has more statements of both.
pub fn align(alloc: Global, first: &[Step], second: &[Step]) -> Result<Vec<Place>, AllocError> {
    let mut places = Vec::new(alloc);
    let before = begins_same(first, second);
    for place in 0..before {
        places.push(Place::Both(place, place))?;
    }
    let after = ends_same(first, second, before);
    let one = middle(first, before, after);
    let other = middle(second, before, after);
    push_middle(alloc, &mut places, one, other, before)?;
    for place in 0..after {
        let place = place.saturating_add(before);
        places.push(Place::Both(
            place.saturating_add(one.len()),
            place.saturating_add(other.len()),
        ))?;
    }
    Ok(places)
}

// How many of the first statements are the same.
fn begins_same(first: &[Step], second: &[Step]) -> usize {
    first
        .iter()
        .zip(second.iter())
        .take_while(|(one, other)| one.statement == other.statement)
        .count()
}

// How many of the last statements are the same, those after so many of the first.
fn ends_same(first: &[Step], second: &[Step], after: usize) -> usize {
    let least = first.len().min(second.len()).saturating_sub(after);
    first
        .iter()
        .rev()
        .zip(second.iter().rev())
        .take(least)
        .take_while(|(one, other)| one.statement == other.statement)
        .count()
}

// The steps without so many of the first and the last.
fn middle(steps: &[Step], before: usize, after: usize) -> &[Step] {
    match steps.get(before..steps.len().saturating_sub(after)) {
        Some(middle) => middle,
        None => &[],
    }
}

/// How many statements the last so many of one list and the last so many of another one have in common, in order.
#[derive(Drop)]
struct Lengths {
    rows: Vec<Vec<u16>>,
}

impl Lengths {
    fn of(alloc: Global, first: &[Step], second: &[Step]) -> Result<Self, AllocError> {
        let mut rows: Vec<Vec<u16>> = Vec::new(alloc);
        rows.push(Vec::new(alloc))?;
        for step in first.iter().rev() {
            let row = match rows.last() {
                Some(below) => longer(alloc, step, second, below)?,
                None => Vec::new(alloc),
            };
            rows.push(row)?;
        }
        Ok(Lengths { rows })
    }

    fn at(&self, first: usize, second: usize) -> u16 {
        match self.rows.get(first) {
            Some(row) => length_in(row, second),
            None => 0,
        }
    }
}

// A length of a row; a row that is too short goes on as it ends.
fn length_in(row: &[u16], at: usize) -> u16 {
    match row.get(at) {
        Some(length) => *length,
        None => row.last().copied().unwrap_or(0),
    }
}

// The row of one more step of the first list.
fn longer(
    alloc: Global,
    step: &Step,
    second: &[Step],
    below: &[u16],
) -> Result<Vec<u16>, AllocError> {
    let mut row = Vec::new(alloc);
    let mut length = 0u16;
    row.push(length)?;
    for (at, other) in second.iter().rev().enumerate() {
        length = if step.statement == other.statement {
            length_in(below, at).saturating_add(1)
        } else {
            length_in(below, at + 1).max(length)
        };
        row.push(length)?;
    }
    Ok(row)
}

// Pushes the places of some steps after so many that both lists begin with.
fn push_middle(
    alloc: Global,
    places: &mut Vec<Place>,
    first: &[Step],
    second: &[Step],
    before: usize,
) -> Result<(), AllocError> {
    let lengths = Lengths::of(alloc, first, second)?;
    let (mut one, mut other) = (0usize, 0usize);
    for _ in 0..first.len().saturating_add(second.len()) {
        let Some(place) = next_place(first, second, one, other, &lengths) else {
            break;
        };
        let (at, with) = (one.saturating_add(before), other.saturating_add(before));
        places.push(match place {
            Place::Both(..) => Place::Both(at, with),
            Place::First(_) => Place::First(at),
            Place::Second(_) => Place::Second(with),
        })?;
        if !matches!(place, Place::Second(_)) {
            one = one.saturating_add(1);
        }
        if !matches!(place, Place::First(_)) {
            other = other.saturating_add(1);
        }
    }
    Ok(())
}

// The place that comes next, if any step is left.
fn next_place(
    first: &[Step],
    second: &[Step],
    one: usize,
    other: usize,
    lengths: &Lengths,
) -> Option<Place> {
    match (first.get(one), second.get(other)) {
        (None, None) => None,
        (Some(_), None) => Some(Place::First(one)),
        (None, Some(_)) => Some(Place::Second(other)),
        (Some(step), Some(with)) if step.statement == with.statement => {
            Some(Place::Both(one, other))
        }
        (Some(_), Some(_)) => {
            let (left, right) = (first.len() - one, second.len() - other);
            if lengths.at(left - 1, right) >= lengths.at(left, right - 1) {
                Some(Place::First(one))
            } else {
                Some(Place::Second(other))
            }
        }
    }
}
