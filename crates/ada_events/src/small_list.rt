//! Lists that keep few items in the value itself and many in memory of their own.
ghost use Rattle.std.specs.Prelude.{◌≡◌, ◌<◌, ◌≤◌, ◌==◌, ◌++◌, ◌∷◌, [], length, IsOk, IfOk, OnOk, OnErr};
ghost use Rattle.std.specs.Cmp.Lexicographic.{pointwise, lists_per, lists_equiv};

use smallvec::SmallVec;
use std::alloc::{AllocError, Global};
use std::fmt;
use std::marker::Model;

/// A list of at most `MOST` items. Up to `HERE` of them lie in the value itself, and more in memory.
/// Contracts see it as that list.
#[derive(Drop)]
pub struct SmallList<T, const HERE: usize, const MOST: usize> {
    items: SmallVec<T, HERE>,
}

impl<T, const HERE: usize, const MOST: usize> Model for SmallList<T, HERE, MOST> {
    ghost use Rattle.std.specs.Prelude.{◌≤◌, List, length};

    ghost Value = { List T };

    ghost view = { λ l. l.items.items };

    ghost invariant = { λ l. length l.items.items ≤ MOST };
}

impl<T: Copy + Default, const HERE: usize, const MOST: usize> SmallList<T, HERE, MOST> {
    /// The list of these items, of which there are at most `MOST`. It takes memory of `alloc` where
    /// they are more than `HERE`.
    pub fn from_slice(alloc: Global, items: &[T]) -> Result<Self, AllocError>
        requires { length items.now ≤ MOST }
        ensures ok { IfOk result (λ list. list ≡ items.now) }
        ensures succeeds { length items.now ≤ HERE → IsOk result }
    {
        Ok(SmallList {
            items: SmallVec::from_slice(alloc, items)?,
        })
    }
}

impl<T: Default + Drop, const HERE: usize, const MOST: usize> SmallList<T, HERE, MOST> {
    /// The empty list. Items behind the first `HERE` will lie in memory of `alloc`.
    pub fn new(alloc: Global) -> Self
        ensures { result ≡ [] }
    {
        SmallList {
            items: SmallVec::new(alloc),
        }
    }

    /// Appends an item. There must be fewer than `MOST`. An `Err` leaves the list as it was.
    pub fn push(&mut self, item: T) -> Result<(), AllocError>
        requires { length self.old < MOST }
        ensures ok { OnOk result (self.new ≡ self.old ++ item ∷ []) }
        ensures err { OnErr result (self.new ≡ self.old) }
    {
        self.items.push(item)?;
        Ok(())
    }
}

impl<T, const HERE: usize, const MOST: usize> SmallList<T, HERE, MOST> {
    /// The items in their order, at most `MOST`.
    pub fn as_slice(&self) -> &[T]
        ensures value { result.now ≡ self.now }
        ensures fits { length result.now ≤ MOST }
    {
        self.items.as_slice()
    }

    /// Whether there is no item.
    pub fn is_empty(&self) -> bool
        ensures { result ≡ (length self.now == 0) }
    {
        self.items.is_empty()
    }

    /// Whether there are `MOST` items.
    pub fn is_full(&self) -> bool
        ensures value { result ≡ (length self.now == MOST) }
        ensures fits { length self.now ≤ MOST }
    {
        self.items.len() == MOST
    }
}

impl<T: PartialEq, const HERE: usize, const MOST: usize> PartialEq for SmallList<T, HERE, MOST> {
    ghost eq = { pointwise T.eq };

    ghost laws = { lists_per T.laws };

    fn eq(&self, other: &Self) -> bool {
        self.as_slice() == other.as_slice()
    }
}

impl<T: Eq, const HERE: usize, const MOST: usize> Eq for SmallList<T, HERE, MOST> {
    ghost laws = { lists_equiv T.Eq.laws };
}

impl<T: fmt::Debug, const HERE: usize, const MOST: usize> fmt::Debug for SmallList<T, HERE, MOST> {
    fn fmt<W: fmt::Write>(&self, f: &mut fmt::Formatter<W>) -> fmt::Result {
        self.items.fmt(f)
    }
}
