//! The sentences of the refused lines of a play, of which each is made when its line is refused.

use crate::refusals::write_refused;
use ada_replay::{Refused, Witness};
use std::alloc::{AllocError, Global};

/// Why each refused line of a play was refused, in their order.
#[derive(Drop)]
pub struct Sentences {
    pub sentences: Vec<String>,
}

impl Sentences {
    /// No sentence. What they keep will lie in memory of `alloc`.
    pub fn new(alloc: Global) -> Self {
        Sentences {
            sentences: Vec::new(alloc),
        }
    }
}

impl Witness for Sentences {
    fn note(&mut self, refused: Refused<'_>) -> Result<(), AllocError> {
        let mut sentence = String::new(*self.sentences.allocator());
        write_refused(&mut sentence, refused)?;
        self.sentences.push(sentence)?;
        Ok(())
    }
}
