//! The words of a statement.

ghost use Rattle.std.specs.Prelude.{◌≡◌, ◌≤◌, ◌<◌, ◌++◌, ◌∷◌, [], length};

use arrayvec::ArrayVec;
use std::marker::Model;

/// A word of a statement: at most 20 bytes. Contracts see it as its bytes.
#[derive(Debug, Drop, Default, PartialEq, Eq)]
pub struct Word {
    bytes: ArrayVec<u8, 20>,
}

impl Model for Word {
    ghost use Rattle.std.specs.Prelude.{List, ℕ};

    ghost Value = { List ℕ };

    ghost view = { λ w. w.bytes.items };

    ghost inverse = { λ xs. record { bytes = record { items = xs } } };
}

impl Word {
    /// The word of these bytes, of which there are at most 20.
    pub fn from_bytes(bytes: &[u8]) -> Self
        requires { length bytes.now ≤ 20 }
        ensures { result ≡ bytes.now }
    {
        let mut word = ArrayVec::new();
        for byte in bytes {
            word.push(*byte);
        }
        Word { bytes: word }
    }

    /// The bytes of the word.
    pub fn as_bytes(&self) -> &[u8]
        ensures { result.now ≡ self.now }
    {
        self.bytes.as_slice()
    }

    /// Appends a byte. There must be room for it.
    pub(crate) fn push(&mut self, byte: u8)
        requires { length self.old < 20 }
        ensures { self.new ≡ self.old ++ byte ∷ [] }
    {
        self.bytes.push(byte);
    }
}
