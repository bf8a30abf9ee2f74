//! The slots of one task's entries: their numbers in order of family and index.
ghost use Rattle.std.specs.Prelude.{◌≡◌, ◌<◌, ◌≤◌, ◌-ℤ◌, Some, IsSome, unsigned_abs};
ghost use Rattle.ada_events.specs.Entries as entries;
ghost use Rattle.ada_events.specs.Slots as places;
ghost use Rattle.ada_events.specs.declared.limits.TheConstants.{MOST_SLOTS};

use ada_events::{Entry, Family};

// How far an entry's index is from the low bound of its family.
fn offset_in(family: Family, entry: Entry) -> u64
    ensures { result ≡ unsigned_abs (entry.index -ℤ family.low) }
{
    family.offset(entry.index)
}

/// How many entries some families have, at most 1,024.
pub(crate) fn entries_in(families: &[Family]) -> u64
    requires { entries.entries_in families.now ≤ MOST_SLOTS }
    ensures { result ≡ entries.entries_in families.now }
{
    Family::entries_in(families)
}

/// The number of an entry among all of some families, from 0.
pub(crate) fn number_within(families: &[Family], entry: Entry) -> u64
    requires few { entries.entries_in families.now ≤ MOST_SLOTS }
    requires known { IsSome (places.number_within families.now entry) }
    ensures value { places.number_within families.now entry ≡ Some result }
    ensures below { result < entries.entries_in families.now }
{
    let place = usize::from(entry.family);
    entries_in(&families[..place]) + offset_in(families[place], entry)
}
