//! What a thread passes before and after each of its lines, and how it reads what a line shows.
ghost use Rattle.std.specs.Prelude.{◌≡◌};
ghost use Rattle.ada_board.specs.Answers.{latest};
ghost use Rattle.ada_board.specs.Sights.{Reads};
ghost use Rattle.ada_run.specs.Reading.{value_on};

use crate::Shared;
use ada_board::BoardReader;
use ada_hall::{Asking, Session};
use ada_script::Value;
use std::sync::Wait;

/// Says when a thread may play its next line. It is given no share of the hall's total, so it can't step the
/// hall.
pub trait Gate {
    /// Returns once the speaker may play the line at a place, or no further line is to be played.
    fn before<J: Session, R: Wait>(&self, rt: &R, shared: &Shared<'_, J>, speaker: u32, place: u32);

    /// The attribute that a line shows; none where the reader's board has no such task or entry. The thread calls
    /// it without the hall's lock, and gives it no runtime, so it can't wait for one.
    fn read<J: Session>(&self, reader: &mut BoardReader<J>, what: Asking) -> Option<Value>
        ensures reads { Reads reader.old reader.new }
        ensures answer { result ≡ value_on (latest reader.new.seen) what }
    {
        match what {
            Asking::Callable(task) => Some(Value::Truth(reader.callable(task)?)),
            Asking::Terminated(task) => Some(Value::Truth(reader.terminated(task)?)),
            Asking::Count(slot) => Some(Value::Number(reader.count(slot)?)),
        }
    }

    /// The speaker has played the line at a place: the turn passes on.
    fn after<J: Session, R: Wait>(
        &self,
        rt: &R,
        shared: &Shared<'_, J>,
        _speaker: u32,
        place: u32,
    ) {
        shared.pass(rt, place);
    }
}
