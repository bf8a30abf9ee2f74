//! The values that attributes have.

/// The value of an attribute (9.9).
#[derive(Clone, Copy, Debug, PartialEq, Eq)]
pub enum Value {
    Truth(bool),
    Number(u16),
}
