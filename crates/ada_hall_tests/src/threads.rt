//! Readers and a writer in threads of their own.
ghost use Rattle.std.specs.Prelude.{◌≡◌};

use crate::open_boards::opened;
use ada_board::{BoardFault, BoardReader, History, Naming, Readers};
use ada_events::{Request, TaskNo};
use ada_hall::published::PublishedKernel;
use ada_test_requests::{MAIN, complete, create};
use std::marker::Brand;
use std::mem::ManuallyDrop;
use std::sync::{Mutex, Wait};
use std::test::Fail;
use std::thread::{Threads, join, yield_now};

/// How many boards a writer publishes, and on how many boards one after another: 100,000 in all.
const PUBLISHED: u32 = 200;

const ROUNDS: u32 = 500;

/// A reader that has looked so often gives up.
const LOOKS: u32 = 100_000_000;

/// Looks until the main program is terminated: whether no task that was there was ever missing again.
fn watch<J: Naming>(mut reader: BoardReader<J>) -> bool {
    let mut last = 0;
    for _ in 0..LOOKS {
        if reader.callable(TaskNo(last)).is_none() {
            return false;
        }
        if last < 255 && reader.callable(TaskNo(last + 1)).is_some() {
            last += 1;
        }
        if reader.terminated(TaskNo(0)) == Some(true) {
            return true;
        }
        yield_now();
    }
    false
}

/// Whether a step is accepted, and its board published.
fn is_published<J: Naming, R: Wait>(
    rt: &R,
    kernel: &mut PublishedKernel<J>,
    request: Request,
) -> bool {
    match kernel.step(rt, request) {
        Ok(told) => told.mark.is_some(),
        Err(_) => false,
    }
}

/// Publishes board after board without pause, a new task with each fiftieth, and at last the end of the main
/// program.
fn publish_all<J: Naming, R: Wait>(rt: &R, kernel: &mut PublishedKernel<J>) -> bool {
    for number in 1..PUBLISHED {
        let request = if number % 50 == 0 {
            create(0, MAIN, &[])
        } else {
            Request::Tick { now: 0 }
        };
        if !is_published(rt, kernel, request) {
            return false;
        }
    }
    is_published(rt, kernel, complete(0))
}

/// Watches by two readers, each in a thread of its own.
fn watch_both<J: Naming + Send + Sync, R: Threads>(
    rt: &R,
    first: BoardReader<J>,
    second: BoardReader<J>,
) -> bool {
    let (one, other) = join(rt, || watch(first), || watch(second));
    one && other
}

fn take_two<J: Naming>(
    places: &mut Readers<J>,
) -> Result<(BoardReader<J>, BoardReader<J>), BoardFault> {
    Ok((places.take()?, places.take()?))
}

/// Watches by four readers while a thread of its own publishes.
fn watched_by_four<J: Naming + Send + Sync, R: Threads + Wait + Sync>(
    rt: &R,
    kernel: &mut PublishedKernel<J>,
    places: &mut Readers<J>,
) -> Result<bool, Fail> {
    let (first, second) = take_two(places)?;
    let (third, fourth) = take_two(places)?;
    let (these, (those, ended)) = join(
        rt,
        || watch_both(rt, first, second),
        || {
            join(
                rt,
                || watch_both(rt, third, fourth),
                || publish_all(rt, kernel),
            )
        },
    );
    Ok(these && those && ended)
}

fn watched<J: Naming + Send + Sync, R: Threads + Wait + Sync + AllocGlobal>(
    rt: &R,
    history: History,
) -> Result<bool, Fail>
    requires { history ≡ J.book }
{
    let (mut kernel, mut places) = opened::<J, R>(rt, history, 4)?;
    let came = watched_by_four(rt, &mut kernel, &mut places);
    kernel.close(rt);
    came
}

#[test]
fn answers_never_go_back(rt: HostRuntime) -> Result<(), Fail> {
    for _ in 0..ROUNDS {
        assert!(rt; watched::<Brand, _>(&rt, History::new())?);
    }
    Ok(())
}

/// What a reader answers in another thread while this one holds the lock round the published kernel.
fn read_beside_the_lock<J: Naming + Send + Sync, R: Threads + Wait + Sync + AllocGlobal>(
    rt: &R,
    history: History,
) -> Result<Option<bool>, Fail>
    requires { history ≡ J.book }
{
    let (mut kernel, mut places) = opened::<J, R>(rt, history, 1)?;
    let reader = places.take();
    let published = is_published(rt, &mut kernel, create(0, MAIN, &[]));
    // It is taken out again below, and closed.
    let lock = Mutex::new(unsafe { ManuallyDrop::new_unchecked(kernel) });
    let guard = lock.lock(rt);
    let answer = match (reader, published) {
        (Ok(mut reader), true) => join(rt, || reader.callable(TaskNo(1)), || ()).0,
        _ => None,
    };
    drop(guard);
    ManuallyDrop::into_inner(lock.into_inner()).close(rt);
    Ok(answer)
}

#[test]
fn reader_takes_the_lock(rt: HostRuntime) -> Result<(), Fail> {
    let answer = read_beside_the_lock::<Brand, _>(&rt, History::new())?;
    assert_eq!(rt; answer, Some(true));
    Ok(())
}
