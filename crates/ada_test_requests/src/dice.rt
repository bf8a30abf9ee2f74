//! Random numbers, the same at each run.

ghost use Rattle.std.specs.Prelude.{◌<◌};

use rand_core::utils::NextWord;
use rand_pcg::Pcg32;

/// A generator of random numbers.
#[derive(Drop)]
pub struct Dice {
    words: Pcg32,
}

impl Dice {
    /// A generator whose numbers follow from a seed.
    pub fn new(seed: u64) -> Self {
        Dice {
            words: Pcg32::new(seed, 0),
        }
    }

    /// Any number.
    pub fn any(&mut self) -> u32 {
        self.words.next_word()
    }

    /// Any number, as often one of few digits as one of many.
    pub fn of_any_size(&mut self) -> u32 {
        self.any() >> self.below(32)
    }

    /// A number below a bound, which isn't 0.
    pub fn below(&mut self, bound: u32) -> u32
        requires { 0 < bound }
        ensures { result < bound }
    {
        self.any() % bound
    }

    /// A yes, in one of so many cases.
    pub fn one_in(&mut self, cases: u32) -> bool
        requires { 0 < cases }
    {
        self.below(cases) == 0
    }

    /// A number below a count; 0 if that is 0.
    pub fn among(&mut self, count: usize) -> usize {
        self.any() as usize % count.max(1)
    }

    /// One of some items; none if there is none.
    pub fn pick<T: Copy>(&mut self, items: &[T]) -> Option<T> {
        let place = self.among(items.len());
        items.get(place).copied()
    }

    /// A duration, in milliseconds: mostly short, in four of so many cases of another size.
    pub fn duration(&mut self, cases: u32) -> i64
        requires { 0 < cases }
    {
        match self.below(cases) {
            0 => i64::MAX,
            1 => i64::MIN,
            2 => 9_000_000_000_000,
            3 => -i64::from(self.below(10)),
            _ => i64::from(self.below(12)),
        }
    }

    /// A moment to tick to: mostly less than so far ahead of the present one, rarely any.
    pub fn moment(&mut self, now: i64, ahead: u32) -> i64
        requires { 0 < ahead }
    {
        match self.below(60) {
            0 => i64::MAX,
            1 => i64::MIN,
            2 => 9_000_000_000_001,
            3 => now.wrapping_sub(1),
            _ => now.wrapping_add(i64::from(self.below(ahead))),
        }
    }
}
