//! Opening a board, and the places of its readers.
ghost use Rattle.std.specs.Prelude.{◌≡◌, ◌+◌, ◌<◌, ◌≤◌, [], drop, IfOk, MatchResult, IsTrue, vec_len, vec_capacity};
ghost use Rattle.std.specs.List.{All};
ghost use Rattle.left_right.specs.Sides.{view as sight_of};

use crate::edition::Edition;
use crate::fault::BoardFault;
use crate::history::{History, Naming, Reached};
use crate::publishing::{Place, Publisher, Publishing, Sighted};
use crate::reader::BoardReader;
use crate::shown::Shown;
use crate::writer::{BoardWriter, publish_queued};
use left_right::reader::Factory;
use std::alloc::{AllocError, Global};
use std::marker::Model;
use std::sync::Wait;

/// The places of a board that no reader has taken yet. Contracts see how many they are.
#[derive(Drop)]
pub struct Readers<J: Naming> {
    places: Vec<Place<J>>,
    reached: Reached,
}

impl<J: Naming> Model for Readers<J> {
    ghost use Rattle.std.specs.Prelude.{◌≡◌, ℕ, [], vec_len};
    ghost use Rattle.std.specs.List.{All};
    ghost use Rattle.left_right.specs.Sides.{view as sight_of};

    ghost Value = { ℕ };

    ghost view = { λ r. vec_len r.places };

    ghost invariant = { λ r. (r.reached.book ≡ J.book) × (r.reached.log ≡ [])
        × All (λ place. sight_of place.place ≡ []) r.places.items };
}

impl<J: Naming> Readers<J> {
    /// Takes a place. Fails with `NoPlace` where every place has been taken, and takes no memory.
    pub fn take(&mut self) -> Result<BoardReader<J>, BoardFault>
        ensures { MatchResult result
            (λ reader. (self.old ≡ self.new + 1)
            × (reader ≡ record { seen = []; told = []; met = [] }))
            (λ fault. (fault ≡ BoardFault.NoPlace) × (self.old ≡ 0) × (self.new ≡ 0)) }
    {
        match self.places.pop() {
            Some(place) => Ok(BoardReader::at(place, self.reached.again())),
            None => Err(BoardFault::NoPlace),
        }
    }
}

// The opening edition, in memory of its own.
fn opening(alloc: Global, reached: &Reached) -> Result<Box<Edition>, AllocError>
    requires { reached.now.log ≡ [] }
    ensures { IfOk result (λ edition.
        edition.value ≡ record { book = reached.now.book; boards = [] }) }
{
    Ok(Box::new(alloc, Edition::opening(reached.again()))?)
}

// A publisher of the opening edition, with room for so many readers.
fn publisher_of<J: Naming>(
    alloc: Global,
    reached: &Reached,
    readers: usize,
) -> Result<Publisher<J>, AllocError>
    requires readers { (0 < readers) × (readers ≤ 256) }
    requires reached { (reached.now.book ≡ J.book) × (reached.now.log ≡ []) }
    ensures { IfOk result (λ publisher.
        (publisher.desk.shown.value.edition.value ≡ record { book = J.book; boards = [] })
        × (drop publisher.behind publisher.log.items ≡ [])) }
{
    let first = Shown {
        edition: opening(alloc, reached)?,
    };
    let second = Shown {
        edition: opening(alloc, reached)?,
    };
    Publisher::new(alloc, first, second, readers)
}

// Publishes the opening edition once more, so that the log of operations has room for all that follow: it
// holds two at most.
fn make_room<J: Naming, R: Wait>(
    rt: &R,
    publisher: Publisher<J>,
    edition: Box<Edition>,
) -> (Publisher<J>, Result<(), AllocError>)
    requires clear { drop publisher.behind publisher.log.items ≡ [] }
    requires shown { publisher.desk.shown.value.edition.value
        ≡ record { book = J.book; boards = [] } }
    requires same { edition.value ≡ record { book = J.book; boards = [] } }
    ensures clear { drop result.0.behind result.0.log.items ≡ [] }
    ensures shown { result.0.desk.shown.value.edition.value
        ≡ record { book = J.book; boards = [] } }
{
    let mut publisher = publisher;
    if publisher.append(edition).is_err() {
        return (publisher, Err(AllocError));
    }
    (publish_queued(rt, publisher), Ok(()))
}

// Fills the list with places, and says whether there were so many.
fn fill<J: Naming>(
    places: &mut Vec<Place<J>>,
    factory: &Factory<Shown, Sighted, Publishing<J>>,
    readers: usize,
) -> bool
    requires { (places.old.items ≡ []) × (vec_len places.old ≡ 0)
        × (readers ≤ vec_capacity places.old) }
    ensures many { IsTrue result → vec_len places.new ≡ readers }
    ensures unseen { All (λ place. sight_of place.place ≡ []) places.new.items }
{
    for taken in 0..readers {
        let Ok(place) = factory.reader() else {
            return false;
        };
        places.push_reserved(place);
    }
    true
}

/// Opens a board on a new history, with places for 1 to 256 readers. Nothing is published yet, so readers
/// answer from the board of the empty journal. Fails with `OutOfMemory`, or with `NoPlace` where fewer places
/// can be had; then the writer is ended, which may wait, and nothing is left behind.
pub fn open_board<J: Naming, R: Wait>(
    rt: &R,
    alloc: Global,
    history: History,
    readers: usize,
) -> Result<(BoardWriter<J>, Readers<J>), BoardFault>
    requires readers { (0 < readers) × (readers ≤ 256) }
    requires named { history ≡ J.book }
    ensures { IfOk result (λ ends.
        (ends.0 ≡ record { published = []; offered = [] }) × (ends.1 ≡ readers)) }
{
    let (head, reached) = history.into_parts();
    let mut places = Vec::with_capacity(alloc, readers)?;
    let edition = opening(alloc, &reached)?;
    let publisher = publisher_of::<J>(alloc, &reached, readers)?;
    let (publisher, room) = make_room(rt, publisher, edition);
    if room.is_err() {
        publisher.take(rt);
        return Err(BoardFault::OutOfMemory);
    }
    if !fill(&mut places, publisher.factory(), readers) {
        publisher.take(rt);
        return Err(BoardFault::NoPlace);
    }
    let writer = BoardWriter::over(alloc, head, publisher, reached.again());
    Ok((writer, Readers { places, reached }))
}
