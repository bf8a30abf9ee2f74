//! Values in memory of their own.
ghost use Rattle.std.specs.Prelude.{◌≡◌, IfOk};

use std::alloc::{AllocError, Global};
use std::fmt;
use std::marker::Model;

/// A value in memory, of which only a pointer lies in place. Contracts see it as that value.
#[derive(Drop)]
pub struct Stored<T> {
    place: Box<T>,
}

impl<T> Model for Stored<T> {
    ghost Value = { T };

    ghost view = { λ s. s.place.value };
}

impl<T: Drop> Stored<T> {
    /// The value, in memory of `alloc`.
    pub fn new(alloc: Global, value: T) -> Result<Self, AllocError>
        ensures ok { IfOk result (λ stored. stored ≡ value) }
    {
        Ok(Stored {
            place: Box::new(alloc, value)?,
        })
    }
}

impl<T> Stored<T> {
    /// The value.
    pub fn get(&self) -> &T
        ensures { result.now ≡ self.now }
    {
        &self.place
    }
}

impl<T: PartialEq> PartialEq for Stored<T> {
    ghost eq = { T.eq };

    ghost laws = { T.laws };

    fn eq(&self, other: &Self) -> bool {
        *self.get() == *other.get()
    }
}

impl<T: Eq> Eq for Stored<T> {
    ghost laws = { T.Eq.laws };
}

impl<T: fmt::Debug> fmt::Debug for Stored<T> {
    fn fmt<W: fmt::Write>(&self, f: &mut fmt::Formatter<W>) -> fmt::Result {
        self.get().fmt(f)
    }
}
