//! Who watches a search, and may end it.

/// After so many states a search looks whether it goes on.
pub const LOOK: u32 = 1024;

/// How far a search has come.
#[derive(Clone, Copy, Debug, PartialEq, Eq)]
pub struct Progress {
    /// From so many of the states that were met it went on.
    pub done: u32,
    /// So many states were met.
    pub met: u32,
    /// So many bytes they take, about.
    pub bytes: u64,
}

/// Who watches a search.
pub trait Watch {
    /// Is told how far a search has come, and answers whether it goes on.
    fn goes_on(&mut self, progress: Progress) -> bool;
}

/// Nobody: a search goes on to its end.
#[derive(Drop)]
pub struct Unwatched;

impl Watch for Unwatched {
    fn goes_on(&mut self, _progress: Progress) -> bool {
        true
    }
}
