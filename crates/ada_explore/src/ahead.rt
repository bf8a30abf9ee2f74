//! What lies ahead of the states of a search: which lines are left for good there. Nothing is promised of it.

use crate::Halt;
use std::alloc::Global;

/// So many lines a word has a bit of.
const WORD: usize = 64;

/// What is known of the lines of a word.
#[derive(Clone, Copy)]
struct Known {
    /// These are left wherever the state leads.
    always: u64,
    /// These are left somewhere.
    somewhere: u64,
}

impl Known {
    // Nothing follows, and these are left.
    fn of(left: u64) -> Self {
        Known {
            always: left,
            somewhere: left,
        }
    }
}

/// Of each state the lines that are left for good where no line may come any more.
#[derive(Drop)]
pub(crate) struct Ahead {
    /// So many words a state has.
    words: usize,
    known: Vec<Known>,
}

impl Ahead {
    /// Of so many states, with so many lines: it isn't known yet where they lead.
    pub(crate) fn new(alloc: Global, states: u32, lines: usize) -> Result<Self, Halt> {
        let words = lines / WORD + 1;
        let length = words.saturating_mul(states as usize);
        let nothing = Known {
            always: u64::MAX,
            somewhere: 0,
        };
        let mut known = Vec::new(alloc);
        known.resize(length, nothing).map_err(|_| Halt::Memory)?;
        Ok(Ahead { words, known })
    }

    // Where a word of a state is.
    fn place(&self, state: u32, word: usize) -> usize {
        self.words
            .saturating_mul(state as usize)
            .saturating_add(word)
    }

    fn word(&self, state: u32, word: usize) -> Known {
        self.known
            .get(self.place(state, word))
            .copied()
            .unwrap_or(Known::of(0))
    }

    fn set_word(&mut self, state: u32, word: usize, known: Known) {
        let place = self.place(state, word);
        if let Some(kept) = self.known.get_mut(place) {
            *kept = known;
        }
    }

    /// No line may come in a state, and these are left for good.
    pub(crate) fn end_at(&mut self, state: u32, lines: &[u16]) {
        for word in 0..self.words {
            self.set_word(state, word, Known::of(0));
        }
        for line in lines {
            let word = usize::from(*line) / WORD;
            let left = self.word(state, word).always | 1 << (usize::from(*line) % WORD);
            self.set_word(state, word, Known::of(left));
        }
    }

    /// A state leads to another one, of which it is known.
    pub(crate) fn lead(&mut self, from: u32, to: u32) {
        for word in 0..self.words {
            let (here, there) = (self.word(from, word), self.word(to, word));
            let both = Known {
                always: here.always & there.always,
                somewhere: here.somewhere | there.somewhere,
            };
            self.set_word(from, word, both);
        }
    }

    /// Whether a line is left wherever a state leads.
    pub(crate) fn is_left(&self, state: u32, line: u16) -> bool {
        let word = self.word(state, usize::from(line) / WORD);
        word.always & 1 << (usize::from(line) % WORD) != 0
    }

    /// Whether lines are left wherever a state leads, and everywhere the same.
    pub(crate) fn is_settled(&self, state: u32) -> bool {
        (0..self.words).all(|word| self.is_same(state, word))
            && (0..self.words).any(|word| self.word(state, word).somewhere != 0)
    }

    fn is_same(&self, state: u32, word: usize) -> bool {
        let known = self.word(state, word);
        known.always == known.somewhere
    }
}
