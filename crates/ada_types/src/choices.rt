//! Choices among values (3.7.3), of a case statement (5.4) or of an aggregate (4.3).

use crate::bounds::Bounds;
use ada_text::{Cause, Trouble};
use std::alloc::{AllocError, Global};

/// The values of a choice, and the index of the byte where it stands.
#[derive(Clone, Copy)]
struct Choice {
    bounds: Bounds,
    at: u32,
}

/// Choices that were met, and the values that they choose from.
#[derive(Drop)]
pub struct Choices {
    values: Bounds,
    chosen: Vec<Choice>,
}

impl Choices {
    /// No choices among these values.
    pub fn among(alloc: Global, values: Bounds) -> Self {
        Choices {
            values,
            chosen: Vec::new(alloc),
        }
    }

    /// Adds a choice, of which a null range has no values.
    fn push(&mut self, bounds: Bounds, at: u32) -> Result<(), AllocError> {
        if !bounds.is_null() {
            self.chosen.push(Choice { bounds, at })?;
        }
        Ok(())
    }

    /// Adds a choice, all of whose values may be chosen.
    pub fn add(&mut self, bounds: Bounds, at: u32) -> Result<(), Trouble> {
        if !self.values.includes(bounds) {
            return Err(Trouble {
                at,
                cause: Cause::ChoiceOutside,
            });
        }
        self.push(bounds, at)?;
        Ok(())
    }

    /// Where a choice stands that has a value of an earlier one, if there is one.
    fn twice(&mut self) -> Option<u32> {
        self.chosen.sort_unstable_by_key(|choice| choice.bounds.low);
        let pairs = self.chosen.iter().zip(self.chosen.iter().skip(1));
        for (one, next) in pairs {
            if next.bounds.low <= one.bounds.high {
                return Some(one.at.max(next.at));
            }
        }
        None
    }

    /// How many values are chosen.
    fn count(&self) -> u64 {
        let mut count: u64 = 0;
        for choice in &self.chosen {
            count = count.saturating_add(choice.bounds.count());
        }
        count
    }

    /// No value is chosen twice, and without `others` each is chosen.
    pub fn check(mut self, at: u32, has_others: bool) -> Result<(), Trouble> {
        if let Some(at) = self.twice() {
            return Err(Trouble {
                at,
                cause: Cause::ChoiceTwice,
            });
        }
        if has_others || self.count() == self.values.count() {
            Ok(())
        } else {
            Err(Trouble {
                at,
                cause: Cause::ChoiceMissing,
            })
        }
    }
}
