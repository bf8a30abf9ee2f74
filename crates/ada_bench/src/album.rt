//! Boards that one kernel showed, to be published without waiting for the kernel.
ghost use Rattle.ada_events.specs.Boards.{AreTrue};

use ada_events::{Board, Request, TaskNo};
use ada_kernel::Kernel;
use std::alloc::Global;
use std::marker::Model;

/// A kernel, and its boards behind each of its requests. Contracts see these boards.
#[derive(Drop)]
pub struct Album {
    kernel: Kernel,
    boards: Vec<Board>,
}

impl Model for Album {
    ghost use Rattle.std.specs.Prelude.{List};
    ghost use Rattle.ada_events.specs.declared.board.Board.{Board as BoardValue};
    ghost use Rattle.ada_events.specs.Boards.{AreTrueOf};
    ghost use Rattle.ada_events.specs.Lawful.{IsSettled};

    ghost Value = { List BoardValue };

    ghost view = { λ a. a.boards.items };

    ghost invariant = { λ a. AreTrueOf a.kernel a.boards.items × IsSettled a.kernel };
}

impl Album {
    /// No boards yet.
    fn new(alloc: Global) -> anyhow::Result<Album> {
        Ok(Album {
            kernel: Kernel::new(alloc)?,
            boards: Vec::new(alloc),
        })
    }

    /// So many boards: those of so many ticks but one, and that of the end of the main program.
    pub fn of(alloc: Global, length: usize) -> anyhow::Result<Album> {
        let mut album = Album::new(alloc)?;
        for _ in 1..length {
            album.add(Request::Tick { now: 0 })?;
        }
        album.add(Request::Complete { by: TaskNo(0) })?;
        Ok(album)
    }

    // Makes a request, and keeps the board behind it.
    fn add(&mut self, request: Request) -> anyhow::Result<()> {
        self.kernel.step(request)?;
        self.boards.push(self.kernel.board())?;
        Ok(())
    }

    /// The boards in their order.
    pub fn boards(&self) -> &[Board]
        ensures { AreTrue result.now }
    {
        self.boards.as_slice()
    }
}
