//! Names that the tests share.

use ada_events::{Entry, Family, Master, TaskNo};

/// The main program's body.
pub const MAIN: Master = Master::Body(TaskNo(0));

/// A single entry.
pub const SINGLE: Family = Family { low: 0, high: 0 };

/// The entry of a family with index 0.
pub fn entry(family: u8) -> Entry {
    Entry { family, index: 0 }
}
