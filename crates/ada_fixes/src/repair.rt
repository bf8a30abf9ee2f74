//! A repair of a text.

use arrayvec::ArrayVec;

/// What a repair writes: as many bytes at most as a name has.
pub type Instead = ArrayVec<u8, 16>;

/// A repair: after so many bytes that are kept, the next ones, so many, become these.
#[derive(Debug, Drop)]
pub struct Repair {
    /// How many bytes stand between the repair before it and this one.
    pub kept: usize,
    pub length: usize,
    pub instead: Instead,
}

/// The bytes of a text, of which no more than 16 are taken.
pub fn instead_of(bytes: &[u8]) -> Instead {
    let mut instead = ArrayVec::new();
    for byte in bytes.iter().take(16) {
        let _ = instead.try_push(*byte);
    }
    instead
}
