//! The words of a text, which the manual calls lexical elements (2.2).

ghost use Rattle.std.specs.Prelude.{◌≡◌};

use crate::kind::Kind;
use crate::tree::expression::Identifier;

/// A word: what it is, the index of its first byte, and the index after its last one.
#[derive(Clone, Copy, Debug)]
pub struct Word {
    pub kind: Kind,
    pub at: u32,
    pub end: u32,
}

impl Word {
    /// Where the word begins and ends.
    pub fn bounds(self) -> Identifier
        ensures at { result.at ≡ self.at }
        ensures end { result.end ≡ self.end }
    {
        Identifier {
            at: self.at,
            end: self.end,
        }
    }
}
