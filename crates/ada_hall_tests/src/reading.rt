//! Readers beside a kernel whose boards are published, in one thread.
ghost use Rattle.std.specs.Prelude.{◌≡◌};

use crate::open_boards::{make_clients, opened, step};
use crate::watchers::{SERVER, Watchers, sees_no_server};
use ada_board::{BoardFault, BoardReader, History, Mark, Naming, Readers};
use ada_events::{Request, TaskNo};
use ada_hall::published::PublishedKernel;
use ada_test_requests::{MAIN, SINGLE, abort, create, timed_call};
use std::marker::Brand;
use std::sync::Wait;
use std::test::Fail;

/// A step that one of the readers is told of: the position of its event.
fn told_step<J: Naming, R: Wait>(
    rt: &R,
    kernel: &mut PublishedKernel<J>,
    both: &mut Watchers<J>,
    request: Request,
) -> Result<u32, Fail> {
    both.learn(kernel.step(rt, request)?)
}

/// A call, its time-out and an abort, each seen by a reader that is told of it and by one that isn't.
fn worked_row<J: Naming, R: Wait>(
    rt: &R,
    kernel: &mut PublishedKernel<J>,
    both: &mut Watchers<J>,
) -> Result<bool, Fail> {
    make_clients(rt, kernel)?;
    let called = told_step(rt, kernel, both, timed_call(2, 1, 0, 5))?;
    let waits = both.see_queued(1);
    let ticked = told_step(rt, kernel, both, Request::Tick { now: 5 })?;
    let left = both.see_queued(0);
    let aborted = told_step(rt, kernel, both, abort(0, 1, 1))?;
    Ok(waits && left && both.see_no_server() && (called, ticked, aborted) == (9, 10, 12))
}

/// The row by two readers, for which there are two places and no third.
fn row_watched<J: Naming, R: Wait>(
    rt: &R,
    kernel: &mut PublishedKernel<J>,
    places: &mut Readers<J>,
) -> Result<bool, Fail> {
    let mut both = Watchers::take(places)?;
    let full = places.take().err() == Some(BoardFault::NoPlace);
    Ok(worked_row(rt, kernel, &mut both)? && full)
}

fn row_played<J: Naming, R: Wait + AllocGlobal>(rt: &R, history: History) -> Result<bool, Fail>
    requires { history ≡ J.book }
{
    let (mut kernel, mut places) = opened::<J, R>(rt, history, 2)?;
    let came = row_watched(rt, &mut kernel, &mut places);
    kernel.close(rt);
    came
}

// The second reader learns no mark: it would answer None of the server for ever, did it not look.
#[test]
fn reader_answers_from_its_mark(rt: HostRuntime) -> Result<(), Fail> {
    assert!(rt; row_played::<Brand, _>(&rt, History::new())?);
    Ok(())
}

/// Three readers that are told of nothing, each of which is asked for one attribute alone: of a server with a call
/// queued.
fn each_looks<J: Naming, R: Wait>(
    rt: &R,
    kernel: &mut PublishedKernel<J>,
    places: &mut Readers<J>,
) -> Result<bool, Fail> {
    let mut of_callable = places.take()?;
    let mut of_terminated = places.take()?;
    let mut of_count = places.take()?;
    make_clients(rt, kernel)?;
    step(rt, kernel, timed_call(2, 1, 0, 5))?;
    let callable = of_callable.callable(SERVER) == Some(true);
    let lives = of_terminated.terminated(SERVER) == Some(false);
    Ok(callable && lives && of_count.count(0) == Some(1))
}

fn each_read<J: Naming, R: Wait + AllocGlobal>(rt: &R, history: History) -> Result<bool, Fail>
    requires { history ≡ J.book }
{
    let (mut kernel, mut places) = opened::<J, R>(rt, history, 3)?;
    let came = each_looks(rt, &mut kernel, &mut places);
    kernel.close(rt);
    came
}

// A read that didn't look would answer None, since the opening board has no server.
#[test]
fn each_read_looks(rt: HostRuntime) -> Result<(), Fail> {
    assert!(rt; each_read::<Brand, _>(&rt, History::new())?);
    Ok(())
}

/// Takes every place, and reads from each.
fn take_all<J: Naming>(places: &mut Readers<J>) -> Result<bool, Fail> {
    for _ in 0..256 {
        let mut reader = places.take()?;
        if reader.terminated(TaskNo(0)) != Some(false) || reader.callable(SERVER).is_some() {
            return Ok(false);
        }
    }
    Ok(places.take().err() == Some(BoardFault::NoPlace))
}

fn all_taken<J: Naming, R: Wait + AllocGlobal>(rt: &R, history: History) -> Result<bool, Fail>
    requires { history ≡ J.book }
{
    let (kernel, mut places) = opened::<J, R>(rt, history, 256)?;
    let came = take_all(&mut places);
    kernel.close(rt);
    came
}

#[test]
fn board_never_opens(rt: HostRuntime) -> Result<(), Fail> {
    assert!(rt; all_taken::<Brand, _>(&rt, History::new())?);
    Ok(())
}

/// Publishes the board of a first task, which a reader that is told of it sees.
fn is_offered<J: Naming, R: Wait>(
    rt: &R,
    kernel: &mut PublishedKernel<J>,
    places: &mut Readers<J>,
) -> Result<bool, Fail> {
    let mut reader = places.take()?;
    let (created, mark) = step(rt, kernel, create(0, MAIN, &[SINGLE]))?;
    reader.learn(mark);
    let seen = reader.callable(SERVER) == Some(true) && reader.count(0) == Some(0);
    Ok(seen && created == 1)
}

fn board_offered<J: Naming, R: Wait + AllocGlobal>(rt: &R, history: History) -> Result<bool, Fail>
    requires { history ≡ J.book }
{
    let (mut kernel, mut places) = opened::<J, R>(rt, history, 1)?;
    let came = is_offered(rt, &mut kernel, &mut places);
    kernel.close(rt);
    came
}

// Where there is memory, a board opens, and what is offered is seen.
#[test]
fn always_out_of_memory(rt: HostRuntime) -> Result<(), Fail> {
    assert!(rt; board_offered::<Brand, _>(&rt, History::new())?);
    Ok(())
}

/// Makes the clients, which two readers see, and then aborts the server, which one of them is told of.
fn leave_behind<J: Naming, R: Wait>(
    rt: &R,
    kernel: &mut PublishedKernel<J>,
    both: &mut Watchers<J>,
) -> Result<bool, Fail> {
    make_clients(rt, kernel)?;
    let seen = both.see_server();
    let aborted = told_step(rt, kernel, both, abort(0, 1, 1))?;
    Ok(seen && aborted == 9)
}

/// What two readers are left with: one read last before the server's abort, and one was told of that.
fn left_behind<J: Naming, R: Wait>(
    rt: &R,
    kernel: &mut PublishedKernel<J>,
    places: &mut Readers<J>,
) -> Result<Watchers<J>, Fail> {
    let mut both = Watchers::take(places)?;
    if leave_behind(rt, kernel, &mut both)? {
        Ok(both)
    } else {
        Err("the server is callable, and its abort is event 9".into())
    }
}

fn outlived<J: Naming, R: Wait + AllocGlobal>(rt: &R, history: History) -> Result<bool, Fail>
    requires { history ≡ J.book }
{
    let (mut kernel, mut places) = opened::<J, R>(rt, history, 2)?;
    let readers = left_behind(rt, &mut kernel, &mut places);
    kernel.close(rt);
    let mut both = readers?;
    Ok(
        both.untold.callable(SERVER) == Some(true)
            && both.untold.callable(SERVER) == Some(true)
            && sees_no_server(&mut both.told),
    )
}

#[test]
fn readers_outlive_the_writer(rt: HostRuntime) -> Result<(), Fail> {
    assert!(rt; outlived::<Brand, _>(&rt, History::new())?);
    Ok(())
}

/// Two marks, learnt in the wrong order once nothing is published any more.
fn marks_of<J: Naming, R: Wait>(
    rt: &R,
    kernel: &mut PublishedKernel<J>,
    places: &mut Readers<J>,
) -> Result<(BoardReader<J>, Mark<J>, Mark<J>), Fail> {
    let reader = places.take()?;
    make_clients(rt, kernel)?;
    let (_, older) = step(rt, kernel, timed_call(2, 1, 0, 5))?;
    let (_, newer) = step(rt, kernel, Request::Tick { now: 5 })?;
    Ok((reader, older, newer))
}

fn learnt_backwards<J: Naming, R: Wait + AllocGlobal>(
    rt: &R,
    history: History,
) -> Result<bool, Fail>
    requires { history ≡ J.book }
{
    let (mut kernel, mut places) = opened::<J, R>(rt, history, 1)?;
    let marks = marks_of(rt, &mut kernel, &mut places);
    kernel.close(rt);
    let (mut reader, older, newer) = marks?;
    reader.learn(newer);
    let before = reader.count(0);
    reader.learn(older);
    Ok(before == Some(0) && reader.count(0) == Some(0))
}

#[test]
fn marks_in_the_wrong_order(rt: HostRuntime) -> Result<(), Fail> {
    assert!(rt; learnt_backwards::<Brand, _>(&rt, History::new())?);
    Ok(())
}
