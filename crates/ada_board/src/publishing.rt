//! The rule under which readers and the writer share what is published.
use crate::edition::Edition;
use crate::history::Naming;
use crate::shown::Shown;
use ada_events::Board;
use crossbeam_utils::rule::{Outcome, Protocol};
use left_right::reader::Reader;
use left_right::writer::Writer;
use std::marker::PhantomData;

/// What a place has seen: a list of boards. No value of it is made, and a clause reads it as a list of any
/// length.
pub type Sighted = [Board; 0];

/// Between any two steps of any threads the published list is true, and what each place has seen is a
/// beginning of it.
pub struct Publishing<J> {
    name: PhantomData<J>,
}

impl<J: Naming> Protocol<Shown, Sighted> for Publishing<J> {
    ghost use Rattle.std.specs.Prelude.{[]};
    ghost use Rattle.ada_board.specs.Publishing.{IsPublic};

    ghost holds = { λ shown seen. IsPublic J.book shown.edition.value seen };

    ghost first = { [] };
}

/// A look at what is published, or a publication: the list before begins the list after, and that is what
/// the place has then seen.
pub struct Sees<J> {
    name: PhantomData<J>,
}

impl<J: Naming> Outcome<Shown, Sighted> for Sees<J> {
    ghost use Rattle.ada_board.specs.Publishing.{Follows};

    ghost then = { λ seen before after now.
        Follows J.book seen before.edition.value after.edition.value now };
}

/// A reader's place.
pub type Place<J> = Reader<Shown, Sighted, Publishing<J>>;

/// The writer's end.
pub type Publisher<J> = Writer<Shown, Box<Edition>, Sighted, Publishing<J>>;
