//! The names of a text by number.

use crate::spelling::is_character;
use indexmap::IndexSet;
use std::alloc::{AllocError, Global};

/// A name: the same in whatever case has the same number (2.3).
#[derive(Clone, Copy, PartialEq, Eq, Hash)]
pub struct Symbol(pub usize);

/// The names that were met, in upper case.
#[derive(Drop)]
pub struct Symbols {
    alloc: Global,
    names: IndexSet<Vec<u8>>,
}

impl Symbols {
    /// No names.
    pub fn new(alloc: Global) -> Self {
        Symbols {
            alloc,
            names: IndexSet::new(alloc),
        }
    }

    /// The name in upper case; a character literal as it is (2.5).
    fn folded(&self, spelling: &[u8]) -> Result<Vec<u8>, AllocError> {
        if is_character(spelling) {
            return spelling.to_vec(self.alloc);
        }
        spelling.to_ascii_uppercase(self.alloc)
    }

    /// The number of a name.
    pub fn symbol(&mut self, spelling: &[u8]) -> Result<Symbol, AllocError> {
        let folded = self.folded(spelling)?;
        let (index, _) = self.names.insert_full(folded)?;
        Ok(Symbol(index))
    }
}
