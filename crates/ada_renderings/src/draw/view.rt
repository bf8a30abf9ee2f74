//! Which part of a play is drawn, and how.

/// The part of a play from the event at one position up to that at another one, both from 1 and drawn too; with the
/// refusals and attributes that come after each of them.
#[derive(Clone, Copy, Debug, PartialEq, Eq)]
pub struct Part {
    pub from: u32,
    pub to: u32,
}

impl Part {
    /// The whole play.
    pub fn whole() -> Self {
        Part {
            from: 1,
            to: u32::MAX,
        }
    }

    /// Whether the event at a position is drawn.
    pub fn has(self, position: u32) -> bool {
        self.from <= position && position <= self.to
    }
}

/// The colours of a picture.
#[derive(Clone, Copy, Debug, PartialEq, Eq)]
pub enum Scheme {
    /// As whoever looks at it has chosen.
    Auto,
    Light,
    Dark,
}

/// What is drawn of a play as SVG, and how.
#[derive(Clone, Copy, Debug, PartialEq, Eq)]
pub struct View {
    pub part: Part,
    /// Whether what was printed stands beside the columns, and the lines of the script.
    pub has_text: bool,
    pub scheme: Scheme,
}
