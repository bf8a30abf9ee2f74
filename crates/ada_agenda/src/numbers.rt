//! A set of small numbers.

ghost use Rattle.std.specs.Prelude.{◌≡◌, ◌≢◌, ◌+◌, ◌<◌, ◌≤◌, ℕ, true, false, length, max, slice_index_or, vec_capacity, IfOk, IfSome, IfNone};
ghost use Rattle.ada_agenda.specs.declared.numbers.TheConstants.{MOST_KEYS};
ghost use Rattle.ada_agenda.specs.Bits.{has};
ghost use Rattle.ada_agenda.specs.Bits.{word_sum};

use crate::levels::{first, put, take};
use ada_events::limits::MOST_EVENTS;
use std::alloc::{AllocError, Global};
use std::marker::Model;

/// How many words of 64 numbers a set has, on its lowest level and on the one above it.
const WORDS: usize = 1_088;

const HEADS: usize = 17;

/// The most keys of a row: all are below this number.
pub const MOST_KEYS: usize = 69_632;

const _: () = prove!(MOST_KEYS == 64 * WORDS);

// Each position of a journal is such a key.
const _: () = prove!(MOST_EVENTS < MOST_KEYS);

// Adds words of no bit, up to the one at a place, for which there is room.
#[tactic(auto, using(crate::proofs::Words::zero_more, crate::proofs::Words::same_bits))]
fn fill_to(words: &mut Vec<u64>, place: usize)
    requires { place < vec_capacity words.old }
    ensures there { place < length words.new.items }
    ensures few { length words.new.items ≤ max (length words.old.items) (place + 1) }
    ensures same { (w : ℕ)
        → slice_index_or words.new.items w 0 ≡ slice_index_or words.old.items w 0 }
    ensures bits { (k : ℕ) → has words.new.items k ≡ has words.old.items k }
    ensures room { vec_capacity words.new ≡ vec_capacity words.old }
{
    while words.len() <= place {
        words.push_reserved(0);
    }
}

/// A set of numbers below `MOST_KEYS`. Whether a number is in it, putting one in, taking one out, and the least
/// of all each look at a few words, and what is put in adds the words before it that aren't there yet; none takes
/// memory. Contracts see it as the words of its bits.
#[derive(Drop)]
pub struct Numbers {
    /// A bit for each number. There is room for all words, of which those come that are written to and those before
    /// them, so that a new set is made without writing any.
    low: Vec<u64>,
    /// A bit for each word of `low` that isn't 0.
    mid: [u64; HEADS],
    /// A bit for each word of `mid` that isn't 0.
    top: [u64; 1],
}

impl Model for Numbers {
    ghost use Rattle.std.specs.Prelude.{◌≤◌, List, ℕ, vec_capacity};
    ghost use Rattle.ada_agenda.specs.internal.Bits.{AreLevels};

    ghost Value = { List ℕ };

    ghost view = { λ n. n.low.items };

    ghost invariant = { λ n. AreLevels n.low.items n.mid n.top × (1088 ≤ vec_capacity n.low) };
}

impl Numbers {
    /// The empty set.
    pub fn new(alloc: Global) -> Result<Self, AllocError>
        ensures { IfOk result (λ numbers. (k : ℕ) → has numbers k ≡ false) }
    {
        let low = Vec::with_capacity(alloc, WORDS)?;
        Ok(Numbers {
            low,
            mid: [0; HEADS],
            top: [0],
        })
    }

    /// A copy of the set, in memory of `alloc`.
    pub fn copy(&self, alloc: Global) -> Result<Self, AllocError>
        ensures { IfOk result (λ copy. copy ≡ self.now) }
    {
        let mut low = Vec::with_capacity(alloc, WORDS)?;
        low.extend_from_slice(&self.low)?;
        Ok(Numbers {
            low,
            mid: self.mid,
            top: self.top,
        })
    }

    /// Puts a number in, which may be there already.
    pub fn insert(&mut self, number: usize)
        requires { number < MOST_KEYS }
        ensures here { has self.new number ≡ true }
        ensures others { (k : ℕ) → k ≢ number → has self.new k ≡ has self.old k }
    {
        fill_to(&mut self.low, number / 64);
        put(&mut self.low, &mut self.mid, &mut self.top, number);
    }

    /// Takes a number out, if it is there.
    pub fn remove(&mut self, number: usize)
        requires { number < MOST_KEYS }
        ensures here { has self.new number ≡ false }
        ensures others { (k : ℕ) → k ≢ number → has self.new k ≡ has self.old k }
        ensures fewer { has self.old number ≡ true → word_sum self.new < word_sum self.old }
    {
        if number / 64 < self.low.len() {
            take(&mut self.low, &mut self.mid, &mut self.top, number);
        }
    }

    /// The least number of the set.
    pub fn least(&self) -> Option<usize>
        ensures within { IfSome result (λ n. n < MOST_KEYS) }
        ensures here { IfSome result (λ n. has self.now n ≡ true) }
        ensures least { IfSome result (λ n. (k : ℕ) → k < n → has self.now k ≡ false) }
        ensures none { IfNone result ((k : ℕ) → has self.now k ≡ false) }
    {
        if self.top[0] == 0 {
            return None;
        }
        Some(first(&self.low, &self.mid, &self.top))
    }
}
