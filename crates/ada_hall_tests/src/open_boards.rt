//! A kernel whose boards are published, and the places of its readers.
ghost use Rattle.std.specs.Prelude.{◌≡◌, ◌<◌, ◌≤◌};

use crate::watchers::marked;
use ada_board::{History, Mark, Naming, Readers, open_board};
use ada_events::Request;
use ada_hall::published::PublishedKernel;
use ada_kernel::Kernel;
use ada_test_requests::{MAIN, SINGLE, activate, create, up};
use std::sync::Wait;
use std::test::Fail;

/// A new kernel whose boards are published, with so many places.
pub fn opened<J: Naming, R: Wait + AllocGlobal>(
    rt: &R,
    history: History,
    readers: usize,
) -> Result<(PublishedKernel<J>, Readers<J>), Fail>
    requires named { history ≡ J.book }
    requires readers { (0 < readers) × (readers ≤ 256) }
{
    let kernel = Kernel::new(rt.alloc())?;
    let (writer, places) = open_board::<J, R>(rt, rt.alloc(), history, readers)?;
    Ok((PublishedKernel::new(kernel, writer), places))
}

/// A step whose board is published: the position of its event, and a mark of the board.
pub fn step<J: Naming, R: Wait>(
    rt: &R,
    kernel: &mut PublishedKernel<J>,
    request: Request,
) -> Result<(u32, Mark<J>), Fail> {
    marked(kernel.step(rt, request)?)
}

/// Makes a server, task 1 with two entries, and two clients, and activates them: 8 events.
pub fn make_clients<J: Naming, R: Wait>(
    rt: &R,
    kernel: &mut PublishedKernel<J>,
) -> Result<(), Fail> {
    step(rt, kernel, create(0, MAIN, &[SINGLE, SINGLE]))?;
    step(rt, kernel, create(0, MAIN, &[]))?;
    step(rt, kernel, create(0, MAIN, &[]))?;
    step(rt, kernel, activate(0, 1, 3))?;
    step(rt, kernel, up(1))?;
    step(rt, kernel, up(2))?;
    step(rt, kernel, up(3))?;
    Ok(())
}
