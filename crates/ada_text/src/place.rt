//! Places in a text.

ghost use Rattle.std.specs.Prelude.{◌≡◌, ◌+◌, ◌^◌, ◌≤◌, ◌⊎◌, length};
ghost use Rattle.ada_text.specs.Places.{place_at, place_after as after};

/// A place in a text: its line and its column, both from 1. Columns count characters, a tab as one.
#[derive(Clone, Copy, Debug, PartialEq, Eq)]
pub struct Place {
    pub line: u32,
    pub column: u32,
}

/// The most bytes that a text may have: 1 MiB.
pub const LONGEST_TEXT: usize = 1 << 20;

/// The place after a byte that stands at this place.
fn place_after(place: Place, byte: u8) -> Place
    requires line { place.line ≤ 2 ^ 21 }
    requires column { place.column ≤ 2 ^ 21 }
    ensures place { result ≡ after place byte }
    ensures line { result.line ≤ place.line + 1 }
    ensures column { result.column ≤ place.column + 1 ⊎ result.column ≤ 1 }
{
    if byte == b'\n' {
        Place {
            line: place.line + 1,
            column: 1,
        }
    } else if 128 <= byte && byte < 192 {
        place
    } else {
        Place {
            line: place.line,
            column: place.column + 1,
        }
    }
}

/// The place of the byte with this index, or of the end of the text.
pub fn place_of(text: &[u8], at: usize) -> Place
    requires within { at ≤ length text.now }
    requires short { at ≤ 2 ^ 20 }
    ensures { result ≡ place_at text.now at }
{
    let mut place = Place { line: 1, column: 1 };
    for byte in &text[..at] {
        place = place_after(place, *byte);
    }
    place
}
