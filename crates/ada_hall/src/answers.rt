//! The answers that are kept.
ghost use Rattle.std.specs.Prelude.{◌≡◌, ◌==◌, ◌<◌, None, [], ◌∷◌, ◌++◌, IsTrue, IfOk, length};
ghost use Rattle.ada_hall.specs.Answers.{answer_at, AreAll, AnswerNoPlaceTwice};

use crate::answer::KeptAnswer;
use ada_replay::Answer;
use std::alloc::{AllocError, Global};
use std::marker::Model;

/// The answers to the lines of a script, in the order in which they were given, at most one for each place.
/// Contracts see how many places there are, and the list of answers.
#[derive(Drop)]
pub struct Answers {
    /// The answer at each place.
    by_place: Vec<Option<Answer>>,
    kept: Vec<KeptAnswer>,
}

impl Model for Answers {
    ghost use Rattle.std.specs.Prelude.{◌≤◌, ◌<◌, length, vec_capacity};
    ghost use Rattle.std.specs.List.{All};
    ghost use Rattle.ada_hall.specs.Answers.{AnswersKept, AnswerNoPlaceTwice};
    ghost use Rattle.ada_hall.specs.internal.Answers.{AreByPlace};

    ghost Value = { AnswersKept };

    ghost view = { λ a. record { places = length a.by_place.items; kept = a.kept.items } };

    ghost invariant = { λ a. AreByPlace a.by_place.items a.kept.items
        × AnswerNoPlaceTwice a.kept.items
        × All (λ kept. kept.place < length a.by_place.items) a.kept.items
        × (length a.by_place.items ≤ vec_capacity a.kept) };
}

impl Answers {
    /// No answers, with room for one at each of so many places.
    pub fn new(alloc: Global, places: usize) -> Result<Answers, AllocError>
        ensures { IfOk result (λ answers. answers ≡ record { places = places; kept = [] }) }
    {
        Ok(Answers {
            by_place: vec![in alloc; None; places]?,
            kept: Vec::with_capacity(alloc, places)?,
        })
    }

    /// The answers in the order in which they were given.
    pub fn as_slice(&self) -> &[KeptAnswer]
        ensures answers { result.now ≡ self.now.kept }
        ensures apart { AnswerNoPlaceTwice self.now.kept }
    {
        &self.kept
    }

    /// The answer at a place, if there is one.
    pub fn get(&self, place: u32) -> Option<Answer>
        ensures { result ≡ answer_at self.now.kept place }
    {
        *self.by_place.get(place as usize)?
    }

    /// Whether each place has its answer.
    #[tactic(auto, using(crate::proofs::Places::no_place_left))]
    pub fn is_full(&self) -> bool
        ensures all { IsTrue result → AreAll self.now.places self.now.kept }
        ensures as_many { result ≡ (length self.now.kept == self.now.places) }
    {
        self.kept.len() == self.by_place.len()
    }

    /// Keeps the answer to a place that has none. It takes no memory.
    pub fn keep(&mut self, kept: KeptAnswer)
        requires place { kept.place < self.old.places }
        requires unanswered { answer_at self.old.kept kept.place ≡ None }
        ensures { self.new ≡ record {
          places = self.old.places;
          kept = self.old.kept ++ kept ∷ [];
        } }
    {
        self.by_place[kept.place as usize] = Some(kept.answer);
        self.kept.push_reserved(kept);
    }
}
