//! Ranges of values (3.5).

ghost use Rattle.std.specs.Prelude.{◌≡◌};
ghost use Rattle.ada_types.specs.Types as types;

/// Numbers from one to another, or positions of enumeration literals: none, if the first is above the last.
#[derive(Clone, Copy, Debug, PartialEq, Eq)]
pub struct Bounds {
    pub low: i64,
    pub high: i64,
}

impl Bounds {
    /// The range of this value alone.
    pub fn only(value: i64) -> Self
        ensures low { result.low ≡ value }
        ensures high { result.high ≡ value }
    {
        Bounds {
            low: value,
            high: value,
        }
    }

    /// Whether the range has no value.
    pub fn is_null(self) -> bool
        ensures { result ≡ types.is_null self }
    {
        self.high < self.low
    }

    /// Whether a value lies in the range.
    pub fn contains(self, value: i64) -> bool
        ensures { result ≡ types.contains self value }
    {
        self.low <= value && value <= self.high
    }

    /// Whether all values of another range lie in this one.
    pub fn includes(self, other: Bounds) -> bool
        ensures { result ≡ types.includes self other }
    {
        other.is_null() || self.contains(other.low) && self.contains(other.high)
    }

    /// Whether the range has so many values at most.
    pub fn is_within(self, most: u32) -> bool
        ensures { result ≡ types.is_within self most }
    {
        match self.high.checked_sub(self.low) {
            Some(span) => span < i64::from(most),
            None => self.is_null(),
        }
    }

    /// How many values the range has; of the widest range one less.
    pub fn count(self) -> u64 {
        if self.is_null() {
            0
        } else {
            self.high.abs_diff(self.low).saturating_add(1)
        }
    }
}
