//! The history of a board, and the name under which its ends go together.
ghost use Rattle.std.specs.Prelude.{◌≡◌, []};
ghost use Rattle.ada_board.specs.internal.Histories.{head_of};

use ada_events::Board;
use logbook::{Gain, Plain, Play, Rule, Seen, Start, Word};
use std::marker::{Brand, Model};

/// The rule of a history: it is a true list, and its word in memory is its length.
pub struct Law;

impl Rule<Board, u64> for Law {
    ghost use Rattle.std.specs.Prelude.{[]};
    ghost use base.Fml.{ftrue};
    ghost use Rattle.ada_board.specs.Histories.{IsHistoryIn};

    ghost holds = { λ cells history. IsHistoryIn cells history };

    ghost first = { [] };

    ghost hinted = { λ number history. Unit {0} };

    ghost shows = { λ history. [] };

    ghost keeps = { λ names history. ftrue };

    ghost moves = { λ ask before after answer. Unit {0} };
}

/// Those who look at a history trade nothing.
pub struct Nothing;

impl Gain<Board, u64> for Nothing {
    ghost use base.Fml.{ftrue};

    ghost after = { λ names about answer. ftrue };
}

/// A step that adds a board.
pub struct Add;

impl Play<Board, u64> for Add {
    ghost use Rattle.ada_board.specs.Histories.{AddsBoard};

    ghost then = { AddsBoard };
}

impl Plain<Board, Board, u64> for Add {
    ghost use Rattle.std.specs.Prelude.{None};

    ghost ask = { λ board. board };

    ghost state = { λ board. None };
}

/// A beginning of a history that was reached. It takes no bytes.
pub type Reached = Seen<Board, u64, Law>;

/// The word of a history: how many boards it has.
pub type Head = Word<Board, u64, Law>;

/// Which board it is: what goes by one name is of one board. A program picks a name for each board that it
/// opens, as the tests of `ada_run_tests` do.
pub trait Naming {
    ghost use Rattle.logbook.specs.Pages.{Book};

    ghost book: { Book };
}

impl Naming for Brand {
    ghost book = { record { number = 0; log_name = 0; cells_name = 0 } };
}

/// A history without a board, of which a board may be opened. Contracts see which one it is.
#[derive(Drop)]
pub struct History {
    pub(crate) head: Head,
    pub(crate) reached: Reached,
}

impl Model for History {
    ghost use Rattle.std.specs.Prelude.{◌≡◌, []};
    ghost use Rattle.logbook.specs.Pages.{Book};
    ghost use Rattle.ada_board.specs.internal.Histories.{head_of};

    ghost Value = { Book };

    ghost view = { λ h. h.reached.book };

    ghost invariant = { λ h. (h.reached.log ≡ []) × (h.head ≡ head_of h.reached.book) };
}

impl History {
    /// A new history, unlike every other.
    #[tactic(auto, using(crate::proofs::Truth::kept_at_first))]
    pub fn new() -> History {
        let (reached, mut first, _second) = Seen::open(Start::alone(), 0, 0);
        History {
            head: Word::tracked(0, &mut first),
            reached,
        }
    }

    /// Its word, and its empty beginning.
    pub(crate) fn into_parts(self) -> (Head, Reached)
        ensures head { result.0 ≡ head_of self }
        ensures reached { (result.1.book ≡ self) × (result.1.log ≡ []) }
    {
        let History { head, reached } = self;
        (head, reached)
    }
}
