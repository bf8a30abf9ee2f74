//! The names of what is predefined.

use crate::meaning::{LiteralId, Meaning, Predefined};

/// The names of the package STANDARD (annex C), with itself.
pub const OF_STANDARD: [(&[u8], Meaning); 15] = [
    (b"STANDARD", Meaning::Predefined(Predefined::Standard)),
    (b"BOOLEAN", Meaning::Predefined(Predefined::Boolean)),
    (b"FALSE", Meaning::Literal(LiteralId(0))),
    (b"TRUE", Meaning::Literal(LiteralId(1))),
    (b"INTEGER", Meaning::Predefined(Predefined::Integer)),
    (b"NATURAL", Meaning::Predefined(Predefined::Natural)),
    (b"POSITIVE", Meaning::Predefined(Predefined::Positive)),
    (b"CHARACTER", Meaning::Predefined(Predefined::Character)),
    (b"STRING", Meaning::Predefined(Predefined::Text)),
    (b"DURATION", Meaning::Predefined(Predefined::Duration)),
    (
        b"CONSTRAINT_ERROR",
        Meaning::Predefined(Predefined::ConstraintError),
    ),
    (
        b"NUMERIC_ERROR",
        Meaning::Predefined(Predefined::NumericError),
    ),
    (
        b"PROGRAM_ERROR",
        Meaning::Predefined(Predefined::ProgramError),
    ),
    (
        b"STORAGE_ERROR",
        Meaning::Predefined(Predefined::StorageError),
    ),
    (
        b"TASKING_ERROR",
        Meaning::Predefined(Predefined::TaskingError),
    ),
];

/// The name of the package TEXT_IO (14.3).
pub const TEXT_IO: (&[u8], Meaning) = (b"TEXT_IO", Meaning::Predefined(Predefined::TextIo));

/// The names of TEXT_IO (14.3) that are in the subset.
pub const OF_TEXT_IO: [(&[u8], Meaning); 3] = [
    (b"PUT", Meaning::Predefined(Predefined::Put)),
    (b"PUT_LINE", Meaning::Predefined(Predefined::PutLine)),
    (b"NEW_LINE", Meaning::Predefined(Predefined::NewLine)),
];

/// Other names of TEXT_IO that programs use.
const REST_OF_TEXT_IO: [&[u8]; 6] = [
    b"GET",
    b"GET_LINE",
    b"NEW_PAGE",
    b"SET_COL",
    b"SET_LINE",
    b"SKIP_LINE",
];

/// What a name stands for in such a list.
pub fn meaning_in(names: &[(&'static [u8], Meaning)], spelling: &[u8]) -> Option<Meaning> {
    names
        .iter()
        .find(|name| name.0.eq_ignore_ascii_case(spelling))
        .map(|name| name.1)
}

/// Whether TEXT_IO or what it declares has such a name.
pub fn is_of_text_io(spelling: &[u8]) -> bool {
    TEXT_IO.0.eq_ignore_ascii_case(spelling) || meaning_in(&OF_TEXT_IO, spelling).is_some()
}

/// Whether TEXT_IO declares such a name that isn't in the subset.
pub fn is_rest_of_text_io(spelling: &[u8]) -> bool {
    REST_OF_TEXT_IO
        .iter()
        .any(|name| name.eq_ignore_ascii_case(spelling))
}

impl Predefined {
    /// Whether this is an exception (11.1).
    pub fn is_exception(self) -> bool {
        matches!(
            self,
            Predefined::ConstraintError
                | Predefined::NumericError
                | Predefined::ProgramError
                | Predefined::StorageError
                | Predefined::TaskingError
        )
    }
}
