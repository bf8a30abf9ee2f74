//! Steps of a hall, with readers beside it.
ghost use Rattle.std.specs.Prelude.{◌≡◌, ◌<◌};

use crate::scene::{Scene, played};
use crate::watchers::Watchers;
use ada_board::{BoardFault, Readers};
use ada_events::{Refusal, Request};
use ada_hall::{Hall, Session};
use ada_script::read;
use ada_test_requests::{MAIN, SINGLE, abort, activate, create, timed_call, up};
use std::sync::Wait;
use std::sync::ledger::Share;
use std::test::Fail;

/// Makes a server, task 1 with two entries, and two clients, and activates them: 8 events.
fn make_clients<J: Session, R: Wait>(
    rt: &R,
    hall: &mut Hall<'_, J>,
    share: &mut Share<J>,
) -> Result<(), Refusal>
    requires { 0 < share.old.parts }
    ensures { share.new.parts ≡ share.old.parts }
{
    hall.step(rt, share, create(0, MAIN, &[SINGLE, SINGLE]))?;
    hall.step(rt, share, create(0, MAIN, &[]))?;
    hall.step(rt, share, create(0, MAIN, &[]))?;
    hall.step(rt, share, activate(0, 1, 3))?;
    hall.step(rt, share, up(1))?;
    hall.step(rt, share, up(2))?;
    hall.step(rt, share, up(3))?;
    Ok(())
}

/// A step that one of the readers is told of: the position of its event.
fn step<J: Session, R: Wait>(
    rt: &R,
    hall: &mut Hall<'_, J>,
    share: &mut Share<J>,
    both: &mut Watchers<J>,
    request: Request,
) -> Result<u32, Fail>
    requires { 0 < share.old.parts }
    ensures { share.new.parts ≡ share.old.parts }
{
    both.learn(hall.step(rt, share, request)?)
}

/// A call, its time-out and an abort, each seen by a reader that is told of it and by one that isn't.
fn worked_row<J: Session, R: Wait>(
    rt: &R,
    hall: &mut Hall<'_, J>,
    share: &mut Share<J>,
    both: &mut Watchers<J>,
) -> Result<bool, Fail>
    requires { 0 < share.old.parts }
{
    make_clients(rt, hall, share)?;
    let called = step(rt, hall, share, both, timed_call(2, 1, 0, 5))?;
    let waits = both.see_queued(1);
    let ticked = step(rt, hall, share, both, Request::Tick { now: 5 })?;
    let left = both.see_queued(0);
    let aborted = step(rt, hall, share, both, abort(0, 1, 1))?;
    Ok(waits && left && both.see_no_server() && (called, ticked, aborted) == (9, 10, 12))
}

/// The row by two readers, for which there are two places and no third, and what the hall keeps of it.
struct Stepping;

impl Scene for Stepping {
    fn play<J: Session, R: Wait>(
        rt: &R,
        hall: &mut Hall<'_, J>,
        share: &mut Share<J>,
        places: &mut Readers<J>,
    ) -> Result<bool, Fail> {
        let mut both = Watchers::take(places)?;
        let full = places.take().err() == Some(BoardFault::NoPlace);
        let seen = worked_row(rt, hall, share, &mut both)?;
        Ok(full && seen && !hall.behind() && hall.total() == 10 && hall.answers().is_empty())
    }
}

// The second reader learns no mark: it would answer None of the server for ever, did it not look.
#[test]
fn steps_are_seen_without_the_lock(rt: HostRuntime) -> Result<(), Fail> {
    let script = read(rt.alloc(), b"")?;
    assert!(rt; played::<Stepping, _>(&rt, &script, 2)?);
    Ok(())
}
