//! A mark: what was published last, for a reader to be told of.
ghost use Rattle.std.specs.Prelude.{◌≡◌};

use crate::edition::Edition;
use crate::history::Naming;
use std::marker::{Model, PhantomData};

/// A copy of what was published last, for [`BoardReader::learn`](crate::BoardReader::learn). Contracts see the
/// published list.
#[derive(Drop)]
pub struct Mark<J: Naming> {
    edition: Edition,
    name: PhantomData<J>,
}

impl<J: Naming> Model for Mark<J> {
    ghost use Rattle.std.specs.Prelude.{◌≡◌, List};
    ghost use Rattle.ada_events.specs.declared.board.Board.{Board};

    ghost Value = { List Board };

    ghost view = { λ m. m.edition.boards };

    ghost invariant = { λ m. m.edition.book ≡ J.book };
}

impl<J: Naming> Mark<J> {
    pub(crate) fn of(edition: &Edition) -> Mark<J>
        requires { edition.now.book ≡ J.book }
        ensures { result ≡ edition.now.boards }
    {
        Mark {
            edition: edition.again(),
            name: PhantomData,
        }
    }

    pub(crate) fn edition(&self) -> &Edition
        ensures book { result.now.book ≡ J.book }
        ensures boards { result.now.boards ≡ self.now }
    {
        &self.edition
    }
}
