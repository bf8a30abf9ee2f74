//! The nearest of some words.

use std::alloc::{AllocError, Global};
use strsim::osa_distance;

/// The nearest word so far, and how far it is.
#[derive(Clone, Copy, Debug)]
pub struct Nearest<'a> {
    pub word: Option<&'a str>,
    distance: usize,
}

impl<'a> Nearest<'a> {
    /// No word yet. A word counts that is at most a third of its letters away, and at least one.
    pub fn to(word: &str) -> Self {
        Nearest {
            word: None,
            distance: (word.len() / 3).max(1) + 1,
        }
    }

    /// Compares one more word.
    pub fn try_word(
        &mut self,
        alloc: Global,
        sought: &str,
        word: &'a str,
    ) -> Result<(), AllocError> {
        let distance = if sought.eq_ignore_ascii_case(word) {
            0
        } else {
            osa_distance(alloc, sought, word)?
        };
        if distance < self.distance && distance < word.len() {
            self.word = Some(word);
            self.distance = distance;
        }
        Ok(())
    }
}

/// The nearest of some words, if one is near.
pub fn nearest_of<'a>(
    alloc: Global,
    sought: &str,
    words: &[&'a str],
) -> Result<Option<&'a str>, AllocError> {
    let mut nearest = Nearest::to(sought);
    for word in words {
        nearest.try_word(alloc, sought, word)?;
    }
    Ok(nearest.word)
}
