//! Short names for names that are too long.

use ada_script::Name;
use std::alloc::{AllocError, Global};
use std::collections::{HashMap, HashSet};

/// The numbers that a short name ends with are below this one.
const NUMBERS: u32 = 1_000_000;

/// The short names that were given, each to one long name.
#[derive(Drop)]
pub struct ShortNames<'a> {
    /// All names that nothing else may have.
    taken: HashSet<Name>,
    short: HashMap<&'a str, Name>,
    /// Of each beginning the number with which the next name of it ends that has to end with one.
    next: HashMap<Name, u32>,
}

impl<'a> ShortNames<'a> {
    /// None yet; other names are these.
    pub fn beside(alloc: Global, taken: HashSet<Name>) -> Self {
        ShortNames {
            taken,
            short: HashMap::new(alloc),
            next: HashMap::new(alloc),
        }
    }

    /// The short name for a name, the same for the same one, and none that any other has: its first 16 characters, or
    /// fewer of them with a number; none if all these are taken.
    pub fn short(&mut self, alloc: Global, name: &'a str) -> Result<Option<Name>, AllocError> {
        if let Some(short) = self.short.get(name) {
            return Ok(Some(short.copy()));
        }
        let Some(short) = self.free(alloc, name)? else {
            return Ok(None);
        };
        self.taken.insert(short.copy())?;
        self.short.insert(name, short.copy())?;
        Ok(Some(short))
    }

    // A name of the same beginning that isn't taken.
    fn free(&mut self, alloc: Global, name: &str) -> Result<Option<Name>, AllocError> {
        let first = beginning(name, 16);
        if !self.taken.contains(&first) {
            return Ok(Some(first));
        }
        let next = match self.next.get(&first) {
            Some(next) => *next,
            None => 2,
        };
        for number in next..NUMBERS {
            let short = numbered(alloc, name, number)?;
            if !self.taken.contains(&short) {
                self.next.insert(first, number.saturating_add(1))?;
                return Ok(Some(short));
            }
        }
        Ok(None)
    }
}

// The first characters of a name, so many at most, and never more than 16.
fn beginning(name: &str, count: usize) -> Name {
    let bytes = name.as_bytes();
    Name::from_bytes(&bytes[..count.min(16).min(bytes.len())])
}

// The beginning of a name with a number, in 16 characters.
fn numbered(alloc: Global, name: &str, number: u32) -> Result<Name, AllocError> {
    let ending = format!(in alloc; "_{number}")?;
    let first = beginning(name, 16usize.saturating_sub(ending.len()));
    let short = format!(in alloc; "{}{ending}", first.as_str())?;
    Ok(beginning(&short, 16))
}
