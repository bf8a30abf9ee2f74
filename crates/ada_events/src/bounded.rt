//! Lists that lie in the value itself, so that making one takes no memory.
ghost use Rattle.std.specs.Prelude.{◌≡◌, ◌<◌, ◌≤◌, ◌==◌, ◌++◌, ◌∷◌, [], length};

use arrayvec::ArrayVec;
use std::marker::Model;

/// A list of at most `N` items. Contracts see it as that list.
#[derive(Debug, Drop, PartialEq, Eq)]
pub struct Bounded<T, const N: usize> {
    items: ArrayVec<T, N>,
}

impl<T, const N: usize> Model for Bounded<T, N> {
    ghost use Rattle.std.specs.Prelude.{List};

    ghost Value = { List T };

    ghost view = { λ b. b.items.items };

    ghost inverse = { λ xs. record { items = record { items = xs } } };
}

impl<T: Default, const N: usize> Bounded<T, N> {
    /// The empty list.
    pub fn new() -> Self
        ensures { result ≡ [] }
    {
        Bounded {
            items: ArrayVec::new(),
        }
    }
}

impl<T: Copy + Default, const N: usize> Bounded<T, N> {
    /// The list of these items, of which there are at most `N`.
    pub fn from_slice(items: &[T]) -> Self
        requires { length items.now ≤ N }
        ensures { result ≡ items.now }
    {
        let mut list = Bounded::new();
        for item in items {
            list.push(*item);
        }
        list
    }
}

impl<T: Drop, const N: usize> Bounded<T, N> {
    /// Appends an item. There must be room.
    pub fn push(&mut self, item: T)
        requires { length self.old < N }
        ensures { self.new ≡ self.old ++ item ∷ [] }
    {
        self.items.push(item);
    }
}

impl<T, const N: usize> Bounded<T, N> {
    /// How many items there are, at most `N`.
    pub fn len(&self) -> usize
        ensures value { result ≡ length self.now }
        ensures fits { result ≤ N }
    {
        self.items.len()
    }

    /// Whether there is no item.
    pub fn is_empty(&self) -> bool
        ensures { result ≡ (length self.now == 0) }
    {
        self.items.is_empty()
    }

    /// Whether there are `N` items.
    pub fn is_full(&self) -> bool
        ensures value { result ≡ (length self.now == N) }
        ensures fits { length self.now ≤ N }
    {
        self.items.is_full()
    }

    /// The items in their order.
    pub fn as_slice(&self) -> &[T]
        ensures value { result.now ≡ self.now }
        ensures fits { length result.now ≤ N }
    {
        self.items.as_slice()
    }
}
