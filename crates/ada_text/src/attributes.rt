//! The names of attributes (annex A).

use crate::tree::expression::Attribute;

/// The attributes of the subset that no reserved word names.
const NAMED: [Attribute; 11] = [
    Attribute::First,
    Attribute::Last,
    Attribute::Length,
    Attribute::Image,
    Attribute::Succ,
    Attribute::Pred,
    Attribute::Pos,
    Attribute::Val,
    Attribute::Count,
    Attribute::Callable,
    Attribute::Terminated,
];

/// The name of an attribute.
fn name_of(attribute: Attribute) -> &'static [u8] {
    match attribute {
        Attribute::First => b"FIRST",
        Attribute::Last => b"LAST",
        Attribute::Length => b"LENGTH",
        Attribute::Range => b"RANGE",
        Attribute::Image => b"IMAGE",
        Attribute::Succ => b"SUCC",
        Attribute::Pred => b"PRED",
        Attribute::Pos => b"POS",
        Attribute::Val => b"VAL",
        Attribute::Count => b"COUNT",
        Attribute::Callable => b"CALLABLE",
        Attribute::Terminated => b"TERMINATED",
    }
}

/// The attribute of this name, if it is in the subset.
pub fn attribute_of(name: &[u8]) -> Option<Attribute> {
    NAMED
        .iter()
        .copied()
        .find(|attribute| name.eq_ignore_ascii_case(name_of(*attribute)))
}
