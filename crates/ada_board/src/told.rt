//! What a reader was told of. It exists in proofs alone, but for one byte.
ghost use Rattle.std.specs.Prelude.{◌≡◌, [], ◌∷◌};

use crate::edition::Edition;
use std::marker::Model;
use std::snapshot::Snapshot;

/// The editions that were learnt, each behind those before it.
#[derive(Drop)]
pub enum Chain {
    Nothing,
    Also(Snapshot<Chain>, Snapshot<Edition>),
}

/// The lists of the marks that were learnt. Contracts see those lists, the newest first.
#[derive(Drop)]
pub struct Told {
    chain: Chain,
}

impl Model for Told {
    ghost use Rattle.std.specs.Prelude.{List};
    ghost use Rattle.ada_events.specs.declared.board.Board.{Board};
    ghost use Rattle.ada_board.specs.Telling.{told_of};

    ghost Value = { List (List Board) };

    ghost view = { λ t. told_of t.chain };
}

impl Told {
    /// Nothing was told.
    pub(crate) fn nothing() -> Told
        ensures { result ≡ [] }
    {
        Told {
            chain: Chain::Nothing,
        }
    }

    /// Adds a list.
    pub(crate) fn add(&mut self, edition: &Edition)
        ensures { self.new ≡ edition.now.boards ∷ self.old }
    {
        let before = Snapshot::of(&self.chain);
        self.chain = Chain::Also(before, Snapshot::of(edition));
    }
}
