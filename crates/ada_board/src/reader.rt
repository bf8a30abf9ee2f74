//! A reader of the board.
ghost use Rattle.std.specs.Prelude.{◌≡◌, [], ◌∷◌};
ghost use Rattle.std.specs.List.{Contains};
ghost use mathlib.Core.List.{IsPrefix};
ghost use Rattle.left_right.specs.Sides.{view as sight_of};
ghost use Rattle.ada_board.specs.Answers.{latest, callable_on, terminated_on, count_on};
ghost use Rattle.ada_board.specs.Sights.{Sight, Reads, met_by};

use crate::answers::{callable_on, count_on, terminated_on};
use crate::edition::Edition;
use crate::history::{Naming, Reached};
use crate::mark::Mark;
use crate::publishing::{Place, Sees};
use crate::told::Told;
use ada_events::{Board, TaskNo};
use std::marker::Model;

/// A reader: it answers CALLABLE, TERMINATED and COUNT (9.9) with no lock and no wait, and takes no memory.
/// Contracts see the list of boards that it has seen, the lists that it was told of since, and the list that
/// its place has met.
///
/// It answers from the board of a true list which begins with all that it has seen and was told of: so its
/// answers never go back. It still answers once the writer is closed.
#[derive(Drop)]
pub struct BoardReader<J: Naming> {
    /// None only while it looks.
    place: Option<Place<J>>,
    /// The newest edition that it has seen or was told of.
    known: Edition,
    /// The list that it has seen. It takes no bytes.
    seen: Reached,
    told: Told,
}

impl<J: Naming> Model for BoardReader<J> {
    ghost use Rattle.left_right.specs.Sides.{view as sight_of};
    ghost use Rattle.ada_board.specs.Sights.{Sight, met_by};
    ghost use Rattle.ada_board.specs.internal.Readers.{IsReader};

    ghost Value = { Sight };

    ghost view = { λ r. record {
      seen = r.seen.log;
      told = r.told;
      met = met_by (λ place. sight_of place.place) r.place;
    } };

    ghost invariant = { λ r. IsReader J.book r.known (record {
      seen = r.seen.log;
      told = r.told;
      met = met_by (λ place. sight_of place.place) r.place;
    }) };
}

// Looks once at what is published, and takes it where it is newer.
fn look<J: Naming>(place: Place<J>, known: &mut Edition) -> Place<J>
    requires book { known.old.book ≡ J.book }
    requires sight { IsPrefix (sight_of place.place) known.old.boards }
    ensures book { known.new.book ≡ J.book }
    ensures later { IsPrefix known.old.boards known.new.boards }
    ensures sight { IsPrefix (sight_of result.place) known.new.boards }
    ensures met { IsPrefix (sight_of place.place) (sight_of result.place) }
    ensures one { Contains (sight_of result.place ∷ known.old.boards ∷ []) known.new.boards }
{
    match place.enter_as::<Sees<J>>() {
        Ok(reading) => {
            known.advance(&reading.get().edition);
            reading.leave()
        }
        Err(place) => place,
    }
}

// Takes the place out for one look.
fn visit<J: Naming>(place: &mut Option<Place<J>>, known: &mut Edition)
    requires book { known.old.book ≡ J.book }
    requires sight { IsPrefix (met_by (λ at. sight_of at.place) place.old) known.old.boards }
    ensures book { known.new.book ≡ J.book }
    ensures later { IsPrefix known.old.boards known.new.boards }
    ensures sight { IsPrefix (met_by (λ at. sight_of at.place) place.new) known.new.boards }
    ensures met { IsPrefix (met_by (λ at. sight_of at.place) place.old)
        (met_by (λ at. sight_of at.place) place.new) }
    ensures one { Contains
        (met_by (λ at. sight_of at.place) place.new ∷ known.old.boards ∷ [])
        known.new.boards }
{
    if let Some(taken) = place.take() {
        *place = Some(look(taken, known));
    }
}

impl<J: Naming> BoardReader<J> {
    pub(crate) fn at(place: Place<J>, seen: Reached) -> BoardReader<J>
        requires book { seen.book ≡ J.book }
        requires empty { seen.log ≡ [] }
        requires sight { sight_of place.place ≡ [] }
        ensures { result ≡ record { seen = []; told = []; met = [] } }
    {
        BoardReader {
            place: Some(place),
            known: Edition::opening(seen.again()),
            seen,
            told: Told::nothing(),
        }
    }

    /// Learns what was published when the mark was made: the next answer is no older.
    pub fn learn(&mut self, mark: Mark<J>)
        ensures { self.new ≡ record {
          seen = self.old.seen;
          told = mark ∷ self.old.told;
          met = self.old.met;
        } }
    {
        let edition = mark.edition();
        self.known.advance(edition);
        self.told.add(edition);
    }

    /// CALLABLE of a task (9.9): neither completed, nor terminated, nor abnormal. None where the board that
    /// is read has no such task.
    pub fn callable(&mut self, task: TaskNo) -> Option<bool>
        ensures reads { Reads self.old self.new }
        ensures answer { result ≡ callable_on (latest self.new.seen) task.0 }
    {
        self.refresh();
        callable_on(self.board(), task)
    }

    /// TERMINATED of a task (9.9). None where the board that is read has no such task.
    pub fn terminated(&mut self, task: TaskNo) -> Option<bool>
        ensures reads { Reads self.old self.new }
        ensures answer { result ≡ terminated_on (latest self.new.seen) task.0 }
    {
        self.refresh();
        terminated_on(self.board(), task)
    }

    /// COUNT of the entry at a slot (9.9): how many calls are queued. None where the board that is read has
    /// no such slot.
    pub fn count(&mut self, slot: u16) -> Option<u16>
        ensures reads { Reads self.old self.new }
        ensures answer { result ≡ count_on (latest self.new.seen) slot }
    {
        self.refresh();
        count_on(self.board(), slot)
    }

    // Looks at what is published. All that is then known has been seen.
    fn refresh(&mut self)
        ensures { Reads self.old self.new }
    {
        visit(&mut self.place, &mut self.known);
        self.seen = self.known.reached();
        self.told = Told::nothing();
    }

    // The board that was read last.
    fn board(&self) -> &Board
        requires { self.now.told ≡ [] }
        ensures { result.now ≡ latest self.now.seen }
    {
        self.known.board()
    }
}
