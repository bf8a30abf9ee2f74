//! A board with its place in the history.
ghost use Rattle.std.specs.Prelude.{◌≡◌, ◌++◌, ◌∷◌, [], MatchBool};
ghost use Rattle.std.specs.List.{Contains};
ghost use mathlib.Core.List.{IsPrefix};
ghost use Rattle.ada_events.specs.Boards.{AreTrue};
ghost use Rattle.ada_board.specs.Answers.{latest};
ghost use Rattle.ada_board.specs.internal.Histories.{head_of};

use crate::answers::opening_board;
use crate::history::{Add, Head, Law, Nothing, Reached};
use ada_events::Board;
use logbook::Offer;
use std::marker::Model;

/// The newest board of a beginning of the history. Contracts see which history it is, and that beginning.
#[derive(Drop)]
pub struct Edition {
    /// How many boards the beginning has.
    number: u32,
    board: Board,
    reached: Reached,
}

impl Model for Edition {
    ghost use Rattle.ada_board.specs.Histories.{KnownHistory};
    ghost use Rattle.ada_board.specs.internal.Histories.{IsEdition};

    ghost Value = { KnownHistory };

    ghost view = { λ e. record { book = e.reached.book; boards = e.reached.log } };

    ghost invariant = { λ e. IsEdition e.number e.board e.reached.log };
}

impl Edition {
    /// The edition before any board was offered: the board of the empty journal.
    #[tactic(auto, using(crate::proofs::Truth::first_edition))]
    pub(crate) fn opening(reached: Reached) -> Edition
        requires { reached.log ≡ [] }
        ensures { result ≡ record { book = reached.book; boards = [] } }
    {
        Edition {
            number: 0,
            board: opening_board(),
            reached,
        }
    }

    /// The board that it shows.
    pub(crate) fn board(&self) -> &Board
        ensures board { result.now ≡ latest self.now.boards }
        ensures true_list { AreTrue self.now.boards }
    {
        &self.board
    }

    /// The beginning of the history that it is the newest board of.
    pub(crate) fn reached(&self) -> Reached
        ensures book { result.book ≡ self.now.book }
        ensures boards { result.log ≡ self.now.boards }
        ensures true_list { AreTrue self.now.boards }
    {
        self.reached.again()
    }

    /// A copy.
    pub(crate) fn again(&self) -> Edition
        ensures { result ≡ self.now }
    {
        Edition {
            number: self.number,
            board: self.board,
            reached: self.reached.again(),
        }
    }

    /// Becomes a copy of the other.
    pub(crate) fn copy_from(&mut self, other: &Edition)
        ensures { self.new ≡ other.now }
    {
        self.number = other.number;
        self.board = other.board;
        self.reached = other.reached.again();
    }

    /// Becomes a copy of the other where that is newer: a comparison of two numbers, and else nothing.
    pub(crate) fn advance(&mut self, other: &Edition)
        requires { other.now.book ≡ self.old.book }
        ensures book { self.new.book ≡ self.old.book }
        ensures own { IsPrefix self.old.boards self.new.boards }
        ensures others { IsPrefix other.now.boards self.new.boards }
        ensures one { Contains (other.now.boards ∷ self.old.boards ∷ []) self.new.boards }
    {
        let mut both = self.reached.again();
        both.learn(&other.reached);
        if self.number < other.number {
            self.copy_from(other);
        }
    }

    /// Adds a board to the history and becomes its edition. Where the history has gone on without it,
    /// which is never so while its one word is the writer's own, it stays as it was.
    pub(crate) fn extend(&mut self, head: &Head, board: &Board) -> bool
        requires head { head.now ≡ head_of self.old.book }
        requires true_list { AreTrue (self.old.boards ++ board.now ∷ []) }
        ensures { MatchBool result
            (self.new ≡ record { book = self.old.book; boards = self.old.boards ++ board.now ∷ [] })
            (self.new ≡ self.old) }
    {
        let mut reached = self.reached.again();
        let mut offer: Offer<Board, u64, Law, Nothing> = reached.plain::<Nothing, Board, Add>(
            board,
        );
        let mut pen = reached.no_pen();
        let number = u64::from(self.number);
        let found = head.compare_exchange::<Add, Nothing>(
            number,
            number + 1,
            &mut reached,
            &mut offer,
            &mut pen,
        );
        if found != number {
            return false;
        }
        self.number += 1;
        self.board = *board;
        self.reached = reached;
        true
    }
}
