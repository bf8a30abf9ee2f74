//! Sets of numbers in rows, of which the first comes first.

ghost use Rattle.std.specs.Prelude.{◌≡◌, ◌≢◌, ◌<◌, ◌⊎◌, ℕ, true, false, IfOk, IfSome, IfNone};
ghost use Rattle.ada_step_laws.specs.Rows.{IsFirst};
ghost use Rattle.ada_agenda.specs.declared.numbers.TheConstants.{MOST_KEYS};
ghost use Rattle.ada_agenda.specs.Keeping.{has_key};
ghost use Rattle.ada_agenda.specs.Rows.{weight};

use crate::{Numbers, bits};
use ada_step_laws::Row;
use std::alloc::{AllocError, Global};
use std::marker::Model;

/// How many rows the forced steps have.
const ROWS: usize = 11;

// A copy of the sets, in memory of `alloc`.
fn copy_of(alloc: Global, sets: &[Numbers]) -> Result<Vec<Numbers>, AllocError>
    ensures { IfOk result (λ copy. copy.items ≡ sets.now) }
{
    let mut copy = Vec::with_capacity(alloc, sets.len())?;
    for set in sets {
        copy.push(set.copy(alloc)?)?;
    }
    Ok(copy)
}

/// What is to be looked at, in the rows of the forced steps: numbers below `MOST_KEYS`, of which the least of the
/// first row that has one comes first. All calls but `new` and `copy` take no memory, and look at a few words; a row
/// gets its words as they are reached. Contracts see it as the list of its rows, each as the words of its bits.
#[derive(Drop)]
pub struct Agenda {
    rows: Vec<Numbers>,
    /// A bit for each row that has a number, and for some that have none any more.
    filled: [u64; 1],
}

impl Model for Agenda {
    ghost use Rattle.std.specs.Prelude.{List, ℕ};
    ghost use Rattle.ada_agenda.specs.internal.Rows.{AreFilled};

    ghost Value = { List (List ℕ) };

    ghost view = { λ a. a.rows.items };

    ghost invariant = { λ a. AreFilled a.rows.items a.filled };
}

impl Agenda {
    /// The rows with nothing in them.
    pub fn new(alloc: Global) -> Result<Self, AllocError>
        ensures { IfOk result (λ agenda. (row : Row) (number : ℕ)
            → has_key agenda row number ≡ false) }
    {
        let mut sets = Vec::with_capacity(alloc, ROWS)?;
        for _ in 0..ROWS {
            sets.push(Numbers::new(alloc)?)?;
        }
        Ok(Agenda {
            rows: sets,
            filled: [0],
        })
    }

    /// A copy of the rows, in memory of `alloc`.
    pub fn copy(&self, alloc: Global) -> Result<Self, AllocError>
        ensures { IfOk result (λ copy. copy ≡ self.now) }
    {
        let rows = copy_of(alloc, &self.rows)?;
        Ok(Agenda {
            rows,
            filled: self.filled,
        })
    }

    /// Puts a number into a row, where it may be already.
    #[tactic(auto, using(crate::proofs::RowsHeld::other_place))]
    pub fn insert(&mut self, row: Row, number: usize)
        requires { number < MOST_KEYS }
        ensures here { has_key self.new row number ≡ true }
        ensures others { (other : Row) (k : ℕ) → (other ≢ row) ⊎ (k ≢ number)
            → has_key self.new other k ≡ has_key self.old other k }
    {
        let place = row.rank();
        self.rows[place].insert(number);
        bits::insert(&mut self.filled, place);
    }

    /// Takes a number out of a row, if it is there.
    #[tactic(auto, using(crate::proofs::RowsHeld::other_place))]
    pub fn remove(&mut self, row: Row, number: usize)
        requires { number < MOST_KEYS }
        ensures here { has_key self.new row number ≡ false }
        ensures others { (other : Row) (k : ℕ) → (other ≢ row) ⊎ (k ≢ number)
            → has_key self.new other k ≡ has_key self.old other k }
        ensures fewer { has_key self.old row number ≡ true → weight self.new < weight self.old }
    {
        self.rows[row.rank()].remove(number);
    }

    /// The first row that has a number, and its least, below `MOST_KEYS`.
    pub fn first(&mut self) -> Option<(Row, usize)>
        ensures same { self.new ≡ self.old }
        ensures within { IfSome result (λ key. key.1 < MOST_KEYS) }
        ensures first { IfSome result (λ key. IsFirst (has_key self.new) key.0 key.1) }
        ensures none { IfNone result ((row : Row) (number : ℕ)
            → has_key self.new row number ≡ false) }
    {
        while self.filled[0] != 0 {
            let place = bits::least_in(&self.filled, 0);
            if let (Some(row), Some(number)) = (Row::at_rank(place), self.rows[place].least()) {
                return Some((row, number));
            }
            bits::remove(&mut self.filled, place);
        }
        None
    }
}
