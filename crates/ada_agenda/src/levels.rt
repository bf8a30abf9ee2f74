//! Three levels of bits: the least number of all is found by one word of each.

ghost use Rattle.std.specs.Prelude.{◌≡◌, ◌≢◌, ℕ, ◌<◌, ◌*◌, true, false, length, slice_index};
ghost use Rattle.ada_agenda.specs.declared.numbers.TheConstants.{MOST_KEYS};
ghost use Rattle.ada_agenda.specs.Bits.{has};
ghost use Rattle.ada_agenda.specs.internal.Bits.{without_bit, AreHeads, AreLevels};
ghost use Rattle.ada_agenda.specs.Bits.{word_sum};

use crate::bits::{insert, least_in, remove};

/// Puts a number into the set.
pub fn put(low: &mut [u64], mid: &mut [u64], top: &mut [u64], number: usize)
    requires levels { AreLevels low.old mid.old top.old }
    requires within { number < 64 * length low.old }
    ensures levels { AreLevels low.new mid.new top.new }
    ensures many { length low.new ≡ length low.old }
    ensures here { has low.new number ≡ true }
    ensures others { (k : ℕ) → k ≢ number → has low.new k ≡ has low.old k }
{
    insert(low, number);
    insert(mid, number / 64);
    insert(top, number / 64 / 64);
}

/// Takes a number out of the upper two levels.
fn take_head(mid: &mut [u64], top: &mut [u64], number: usize)
    requires top { AreHeads mid.old top.old }
    requires within { number < 64 * length mid.old }
    ensures mid { mid.new ≡ without_bit mid.old number }
    ensures top { AreHeads mid.new top.new }
    ensures many { length top.new ≡ length top.old }
{
    remove(mid, number);
    if mid[number / 64] == 0 {
        remove(top, number / 64);
    }
}

/// Takes a number out of the set.
pub fn take(low: &mut [u64], mid: &mut [u64], top: &mut [u64], number: usize)
    requires levels { AreLevels low.old mid.old top.old }
    requires within { number < 64 * length low.old }
    ensures levels { AreLevels low.new mid.new top.new }
    ensures many { length low.new ≡ length low.old }
    ensures here { has low.new number ≡ false }
    ensures others { (k : ℕ) → k ≢ number → has low.new k ≡ has low.old k }
    ensures fewer { has low.old number ≡ true → word_sum low.new < word_sum low.old }
{
    remove(low, number);
    if low[number / 64] == 0 {
        take_head(mid, top, number / 64);
    }
}

/// The least number of all, of which there is one.
pub fn first(low: &[u64], mid: &[u64], top: &[u64]) -> usize
    requires levels { AreLevels low.now mid.now top.now }
    requires some { 0 < slice_index top.now 0 }
    ensures within { result < MOST_KEYS }
    ensures here { has low.now result ≡ true }
    ensures least { (k : ℕ) → k < result → has low.now k ≡ false }
{
    let head = least_in(top, 0);
    let place = least_in(mid, head);
    least_in(low, place)
}
