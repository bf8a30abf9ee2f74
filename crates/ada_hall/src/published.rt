//! A kernel whose boards are published.
ghost use Rattle.std.specs.Prelude.{◌≡◌, false, [], ◌∷◌, ◌++◌, MatchOption, IfOk, IfErr, OnErr};
ghost use Rattle.ada_events.specs.Boards.{AreTrue, AreTrueOf};
ghost use Rattle.ada_events.specs.Lawful.{IsLawful, IsSettled};
ghost use Rattle.ada_events.specs.Steps.{IsAccepted, IsRefused};
ghost use Rattle.ada_hall.specs.PublishedKernels.{Publishes, IsTied};

use ada_board::{BoardWriter, Mark, Naming};
use ada_events::{Board, Refusal, Request};
use ada_kernel::Kernel;
use std::marker::Model;
use std::sync::Wait;

/// What an accepted request is answered.
#[derive(Drop)]
pub struct Told<J: Naming> {
    /// The position of its event, from 1.
    pub at: u32,
    /// A mark of the board that shows what it led to; none where the board found no memory.
    pub mark: Option<Mark<J>>,
}

/// A kernel and the writer of its board. Contracts see its journal, the list of boards that is published,
/// and whether that is behind: its board isn't the journal's. It is not `Drop`: end it by
/// [`close`](PublishedKernel::close).
pub struct PublishedKernel<J: Naming> {
    kernel: Kernel,
    writer: BoardWriter<J>,
    behind: bool,
}

impl<J: Naming> Model for PublishedKernel<J> {
    ghost use Rattle.std.specs.Prelude.{◌≡◌, []};
    ghost use Rattle.ada_hall.specs.PublishedKernels.{Showing, IsTied};

    ghost Value = { Showing };

    ghost view = { λ s. record {
      journal = s.kernel;
      published = s.writer.published;
      behind = s.behind;
    } };

    ghost invariant = { λ s. IsTied s.kernel s.writer.published s.behind
        × (s.writer.offered ≡ []) };
}

// Publishes a board. Where it finds no memory, nothing is changed.
fn publish<J: Naming, R: Wait>(rt: &R, writer: &mut BoardWriter<J>, board: Board) -> Option<Mark<J>>
    requires clear { writer.old.offered ≡ [] }
    requires true_list { AreTrue (writer.old.published ++ board ∷ []) }
    ensures { MatchOption result (writer.new ≡ writer.old) (λ mark.
        (mark ≡ writer.new.published) × (writer.new ≡ record {
          published = writer.old.published ++ board ∷ [];
          offered = [];
        })) }
{
    let Ok(()) = writer.offer(board) else {
        return None;
    };
    writer.show(rt);
    Some(writer.mark())
}

impl<J: Naming> PublishedKernel<J> {
    /// A new kernel, with nothing published.
    pub fn new(kernel: Kernel, writer: BoardWriter<J>) -> PublishedKernel<J>
        requires kernel { kernel ≡ [] }
        requires writer { writer ≡ record { published = []; offered = [] } }
        ensures { result ≡ record { journal = []; published = []; behind = false } }
    {
        PublishedKernel {
            kernel,
            writer,
            behind: false,
        }
    }

    /// The kernel's step, after which its board is published. Refused, nothing is changed. Where the board
    /// finds no memory, the step stands, what is published is left behind, and the next accepted step
    /// publishes its own board.
    pub fn step<R: Wait>(&mut self, rt: &R, request: Request) -> Result<Told<J>, Refusal>
        ensures ok { IfOk result (λ told.
            IsAccepted self.old.journal request told.at self.new.journal) }
        ensures published { IfOk result (λ told. Publishes self.old self.new told.mark) }
        ensures err { IfErr result (λ cause.
            IsRefused self.old.journal request cause self.new.journal) }
        ensures unchanged { OnErr result (self.new ≡ self.old) }
        ensures lawful { IsLawful self.new.journal }
        ensures settled { IsSettled self.new.journal }
    {
        let at = self.kernel.step(request)?;
        let board = self.kernel.board();
        let mark = publish(rt, &mut self.writer, board);
        self.behind = mark.is_none();
        Ok(Told { at, mark })
    }

    /// The kernel.
    pub fn kernel(&self) -> &Kernel
        ensures journal { result.now ≡ self.now.journal }
        ensures lawful { IsLawful self.now.journal }
        ensures settled { IsSettled self.now.journal }
    {
        let _journal = self.kernel.journal();
        &self.kernel
    }

    /// A mark of what was published last, which is true of the journal.
    pub fn mark(&self) -> Mark<J>
        ensures mark { result ≡ self.now.published }
        ensures true_of { AreTrueOf self.now.journal self.now.published }
    {
        self.writer.mark()
    }

    /// Whether what is published is behind: its board isn't the journal's.
    pub fn is_behind(&self) -> bool
        ensures behind { result ≡ self.now.behind }
        ensures tied { IsTied self.now.journal self.now.published self.now.behind }
    {
        self.behind
    }

    /// Ends the writer, and gives back the kernel.
    pub fn close<R: Wait>(self, rt: &R) -> Kernel
        ensures { result ≡ self.journal }
    {
        let PublishedKernel {
            kernel,
            writer,
            behind: _,
        } = self;
        writer.close(rt);
        kernel
    }
}
