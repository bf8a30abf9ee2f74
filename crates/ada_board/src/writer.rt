//! The writer of the board.
ghost use Rattle.std.specs.Prelude.{◌≡◌, [], ◌∷◌, ◌++◌, drop, fold, IfOk, IfErr};
ghost use Rattle.std.specs.Option.{option_map_or};
ghost use mathlib.Core.List.{IsPrefix};
ghost use Rattle.ada_events.specs.Boards.{AreTrue};
ghost use Rattle.ada_board.specs.internal.Histories.{head_of};
ghost use Rattle.ada_board.specs.Sights.{Posted};

use crate::edition::Edition;
use crate::fault::BoardFault;
use crate::history::{Head, Naming, Reached};
use crate::mark::Mark;
use crate::publishing::{Publisher, Sees};
use ada_events::Board;
use core::mem::replace_with;
use std::alloc::{AllocError, Global};
use std::marker::Model;
use std::sync::Wait;

/// The one writer of a board. Contracts see the list that is published, and the boards that were offered
/// since. It is not `Drop`: end it by [`close`](BoardWriter::close).
pub struct BoardWriter<J: Naming> {
    alloc: Global,
    head: Head,
    publisher: Publisher<J>,
    /// What will be published next, where anything was offered.
    offered: Option<Box<Edition>>,
    /// The history with all that was offered. It takes no bytes.
    reached: Reached,
}

impl<J: Naming> Model for BoardWriter<J> {
    ghost use Rattle.std.specs.Prelude.{◌≡◌, [], drop};
    ghost use Rattle.std.specs.Option.{option_map_or};
    ghost use Rattle.ada_board.specs.internal.Histories.{head_of};
    ghost use Rattle.ada_board.specs.Sights.{Posted};
    ghost use Rattle.ada_board.specs.Writers.{posted};
    ghost use Rattle.ada_board.specs.internal.Writers.{IsWriter};

    ghost Value = { Posted };

    ghost view = { λ w. posted w.publisher.desk.shown.value.edition.value.boards w.reached.log };

    ghost invariant = { λ w. (w.head ≡ head_of J.book)
        × (drop w.publisher.behind w.publisher.log.items ≡ [])
        × (let published = w.publisher.desk.shown.value.edition.value in
        IsWriter J.book published (option_map_or (λ b. b.value) w.offered published)
        (record { book = w.reached.book; boards = w.reached.log })) };
}

// What is published next, to be added to: what was offered, or else a copy of what is published.
fn draft(
    alloc: Global,
    offered: Option<Box<Edition>>,
    published: &Edition,
) -> Result<Box<Edition>, AllocError>
    ensures ok { IfOk result (λ next.
        next.value ≡ option_map_or (λ b. b.value) offered published.now) }
    ensures err { IfErr result (λ _. offered ≡ None) }
{
    match offered {
        Some(next) => Ok(next),
        None => Ok(Box::new(alloc, published.again())?),
    }
}

// Queues what is to be published. The log has room for it since the board was opened, so nothing is waited
// for and no memory is taken.
fn queue<J: Naming, R: Wait>(rt: &R, publisher: &mut Publisher<J>, next: Box<Edition>)
    requires clear { drop publisher.old.behind publisher.old.log.items ≡ [] }
    ensures desk { publisher.new.desk ≡ publisher.old.desk }
    ensures queued { drop publisher.new.behind publisher.new.log.items ≡ next ∷ [] }
{
    let mut waiting = next;
    for _ in rt.forever() {
        match publisher.append(waiting) {
            Ok(()) => return,
            Err(back) => waiting = back,
        }
    }
    unreachable!()
}

// Publishes what was queued, which what is published begins.
pub(crate) fn publish_queued<J: Naming, R: Wait>(rt: &R, publisher: Publisher<J>) -> Publisher<J>
    requires { let next = fold (λ _ edition. edition.value) publisher.desk.shown.value.edition.value
        (drop publisher.behind publisher.log.items) in
        (next.book ≡ J.book) × AreTrue next.boards
        × IsPrefix publisher.desk.shown.value.edition.value.boards next.boards }
    ensures clear { drop result.behind result.log.items ≡ [] }
    ensures shown { result.desk.shown.value.edition.value ≡ fold (λ _ edition. edition.value)
        publisher.desk.shown.value.edition.value (drop publisher.behind publisher.log.items) }
{
    publisher.publish_as::<Sees<J>, R>(rt).0
}

// Publishes an edition, which what is published begins.
fn publish<J: Naming, R: Wait>(
    publisher: Publisher<J>,
    with: (&R, Box<Edition>),
) -> (Publisher<J>, ())
    requires clear { drop publisher.behind publisher.log.items ≡ [] }
    requires book { with.1.value.book ≡ J.book }
    requires true_list { AreTrue with.1.value.boards }
    requires begun { IsPrefix publisher.desk.shown.value.edition.value.boards with.1.value.boards }
    ensures clear { drop result.0.behind result.0.log.items ≡ [] }
    ensures shown { result.0.desk.shown.value.edition.value ≡ with.entry.1.value }
{
    let (rt, next) = with;
    let mut publisher = publisher;
    queue(rt, &mut publisher, next);
    (publish_queued(rt, publisher), ())
}

impl<J: Naming> BoardWriter<J> {
    pub(crate) fn over(
        alloc: Global,
        head: Head,
        publisher: Publisher<J>,
        reached: Reached,
    ) -> BoardWriter<J>
        requires head { head ≡ head_of J.book }
        requires clear { drop publisher.behind publisher.log.items ≡ [] }
        requires shown { publisher.desk.shown.value.edition.value
            ≡ record { book = J.book; boards = [] } }
        requires reached { (reached.book ≡ J.book) × (reached.log ≡ []) }
        ensures { result ≡ record { published = []; offered = [] } }
    {
        BoardWriter {
            alloc,
            head,
            publisher,
            offered: None,
            reached,
        }
    }

    /// Offers a board, which [`show`](BoardWriter::show) publishes. The published list, with all that was
    /// offered since and this board, has to be true: the board is that of a lawful and settled journal that
    /// goes on from the board before. Fails with `OutOfMemory` alone, and changes nothing then.
    pub fn offer(&mut self, board: Board) -> Result<(), BoardFault>
        requires { AreTrue (self.old.published ++ self.old.offered ++ board ∷ []) }
        ensures ok { IfOk result (λ _. self.new ≡ record {
          published = self.old.published;
          offered = self.old.offered ++ board ∷ [];
        }) }
        ensures err { IfErr result (λ fault.
            (fault ≡ BoardFault.OutOfMemory) × (self.new ≡ self.old)) }
    {
        let published = &self.publisher.published().edition;
        let Ok(mut next) = draft(self.alloc, self.offered.take(), published) else {
            return Err(BoardFault::OutOfMemory);
        };
        let added = next.extend(&self.head, &board);
        self.reached = next.reached();
        self.offered = Some(next);
        if added {
            Ok(())
        } else {
            Err(BoardFault::OutOfMemory)
        }
    }

    /// Publishes what was offered, all at once. It may wait for readers that look at the copy before last to
    /// leave it. It takes no memory.
    pub fn show<R: Wait>(&mut self, rt: &R)
        ensures { self.new ≡ record {
          published = self.old.published ++ self.old.offered;
          offered = [];
        } }
    {
        if let Some(next) = self.offered.take() {
            replace_with(&mut self.publisher, (rt, next), publish::<J, R>);
        }
    }

    /// A mark of what was published last, for a reader to learn. It takes no memory.
    pub fn mark(&self) -> Mark<J>
        ensures { result ≡ self.now.published }
    {
        Mark::of(&self.publisher.published().edition)
    }

    /// Ends the writer. It may wait for readers that are looking to leave. Readers still answer, from what
    /// they know.
    pub fn close<R: Wait>(self, rt: &R) {
        let BoardWriter {
            alloc: _,
            head: _head,
            publisher,
            offered: _offered,
            reached: _reached,
        } = self;
        publisher.take(rt);
    }
}
