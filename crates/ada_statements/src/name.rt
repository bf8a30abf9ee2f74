//! The names of a script.

ghost use Rattle.std.specs.Prelude.{◌≡◌, ◌≤◌, length, IsTrue};
ghost use Rattle.std.specs.Cmp.{partial_equiv_from_equiv};
ghost use Rattle.std.specs.Cmp.Lexicographic.{bytes_decides, nat_list_eq_equiv};
ghost use Rattle.std.specs.Cmp.Rules.{hashing};
ghost use Rattle.std.specs.Hash as fed;
ghost use Rattle.std.specs.Str.{bytes_eq};
ghost use Rattle.std.proofs.Common.{ap, rules};

use indexmap::Equivalent;
use std::hash::{Hash, Hasher};
use std::marker::Model;
use std::{fmt, str};

/// The name of a task, a block or an entry: at most 16 bytes. Contracts see it as its bytes.
// Plain bytes, so that a name is copied as one piece, by no loop over what it has.
#[derive(Drop, Default)]
pub struct Name {
    /// The name, and after it whatever.
    bytes: [u8; 16],
    /// How many of the bytes are the name's.
    length: u8,
    /// Where it is looked for first among the names of a script, so that a name that was found once needn't be
    /// searched for again.
    place: u16,
}

impl Model for Name {
    ghost use Rattle.std.specs.Prelude.{◌≤◌, List, ℕ, take};

    ghost Value = { List ℕ };

    ghost view = { λ n. take n.length n.bytes };

    ghost invariant = { λ n. n.length ≤ 16 };
}

// Whether these are the same bytes. They are compared as one number, which no loop does.
#[inline(always)]
fn are_same(own: [u8; 16], others: [u8; 16]) -> bool
    ensures { IsTrue result → own ≡ others }
{
    u128::from_le_bytes(own) == u128::from_le_bytes(others)
}

impl Name {
    /// The name of these bytes, of which there are at most 16.
    pub fn from_bytes(bytes: &[u8]) -> Self
        requires { length bytes.now ≤ 16 }
        ensures { result ≡ bytes.now }
    {
        let mut all = [0; 16];
        all[..bytes.len()].copy_from_slice(bytes);
        Name {
            bytes: all,
            length: bytes.len() as u8,
            place: 0,
        }
    }

    /// The bytes of the name, at most 16.
    #[inline(always)]
    pub fn as_bytes(&self) -> &[u8]
        ensures value { result.now ≡ self.now }
        ensures fits { length result.now ≤ 16 }
    {
        &self.bytes[..usize::from(self.length)]
    }

    /// The characters of the name; `?` if its bytes aren't UTF-8, which no name of a script is.
    pub fn as_str(&self) -> &str {
        str::from_utf8(self.as_bytes()).unwrap_or("?")
    }

    /// Another name of the same bytes.
    #[inline(always)]
    pub fn copy(&self) -> Self
        ensures { result ≡ self.now }
    {
        Name {
            bytes: self.bytes,
            length: self.length,
            place: self.place,
        }
    }

    /// Another name of the same bytes, which is looked for at this place first.
    pub(crate) fn copy_at(&self, place: usize) -> Self
        ensures { result ≡ self.now }
    {
        Name {
            bytes: self.bytes,
            length: self.length,
            place: u16::try_from(place).unwrap_or(0),
        }
    }

    /// Where it is looked for first.
    #[inline(always)]
    pub(crate) fn place(&self) -> usize {
        usize::from(self.place)
    }

    /// Whether these are the bytes of the name.
    // One after another, since names are short.
    #[inline(always)]
    pub(crate) fn is(&self, bytes: &[u8]) -> bool
        ensures { result ≡ bytes_eq bytes.now self.now }
    {
        let own = self.as_bytes();
        if own.len() != bytes.len() {
            return false;
        }
        for i in 0..own.len() {
            if own[i] != bytes[i] {
                return false;
            }
        }
        true
    }

    /// Whether one is a copy of the other. Names that aren't may have the same bytes too.
    // What lies after the names is compared with them.
    #[inline(always)]
    pub(crate) fn is_copy_of(&self, other: &Name) -> bool
        ensures { IsTrue result → self.now ≡ other.now }
    {
        are_same(self.bytes, other.bytes) && self.length == other.length
    }
}

impl PartialEq for Name {
    ghost eq = { bytes_eq };

    ghost laws = { partial_equiv_from_equiv nat_list_eq_equiv };

    #[inline(always)]
    fn eq(&self, other: &Name) -> bool {
        self.is_copy_of(other) || self.as_bytes() == other.as_bytes()
    }
}

impl Eq for Name {
    ghost laws = { nat_list_eq_equiv };
}

impl Hash for Name {
    ghost hash_input = { fed.slice fed.u8 };

    ghost respects_eq = { Prim.search (hashing, rules) };

    fn hash<H: Hasher>(&self, state: &mut H) {
        self.as_bytes().hash(state);
    }
}

impl fmt::Debug for Name {
    fn fmt<W: fmt::Write>(&self, f: &mut fmt::Formatter<W>) -> fmt::Result {
        f.debug_tuple("Name").field(&self.as_bytes()).finish()
    }
}

/// A name is found by its bytes.
impl Equivalent<Name> for &[u8] {
    ghost equivalent = { λ q k. bytes_eq q.now k };

    ghost respects_hash = { λ q k h. ap (fed.slice fed.u8) ((bytes_decides q.now k).0 h) };

    ghost respects_eq = { λ q x y. nat_list_eq_equiv.congr q.now x y };

    #[inline(always)]
    fn equivalent(&self, key: &Name) -> bool {
        key.is(*self)
    }
}
