//! A reader in a thread of its own, beside a hall whose lock is held.
ghost use Rattle.std.specs.Prelude.{◌≡◌};

use ada_board::{BoardReader, History, Mark};
use ada_events::TaskNo;
use ada_hall::{Hall, Session};
use ada_run::{Seat, Shared, open_hall};
use ada_script::{Script, read};
use std::marker::Brand;
use std::sync::Wait;
use std::sync::ledger::Blank;
use std::test::Fail;
use std::thread;
use std::thread::{JoinHandle, Scope, Threads};

/// A client waits in the queue of a server.
const QUEUED: &[u8] = b"main: create S under main E
main: create C under main
main: activate S C
S: up
C: up
C: call S E
S: show count E
";

/// CALLABLE and TERMINATED of the server, and COUNT of its entry.
type Seen = (Option<bool>, Option<bool>, Option<u16>);

/// What a reader answers that has learnt a mark. It is given no runtime, so there is no lock that it could take.
fn look<J: Session>(mut reader: BoardReader<J>, mark: Mark<J>) -> Seen {
    reader.learn(mark);
    (
        reader.callable(TaskNo(1)),
        reader.terminated(TaskNo(1)),
        reader.count(0),
    )
}

/// Starts a thread that looks. None where it is refused.
fn start<'s, E, J: Session + Send + Sync + 's>(
    scope: &Scope<'s, E>,
    reader: BoardReader<J>,
    mark: Mark<J>,
) -> Option<JoinHandle<Seen>> {
    scope.spawn(move || look(reader, mark)).ok()
}

/// What another thread sees while this one holds the lock.
fn look_beside<J: Session + Send + Sync, R: Threads + Wait + Sync>(
    rt: &R,
    shared: &Shared<'_, J>,
    reader: BoardReader<J>,
    mark: Mark<J>,
) -> Option<Seen> {
    let guard = shared.hall.lock(rt);
    let seen = thread::scope(thread::scope_env(), rt, |scope| {
        let handle = start(scope, reader, mark)?;
        Some(handle.join(rt))
    });
    drop(guard);
    seen
}

/// Plays the requests, and asks for the attribute: a reader, and the mark that it is to learn.
fn prepare<J: Session, R: Wait>(
    rt: &R,
    hall: &mut Hall<'_, J>,
    mut seats: Vec<Seat<J>>,
) -> Result<(BoardReader<J>, Mark<J>), Fail> {
    let Some(seat) = seats.pop() else {
        return Err("a seat".into());
    };
    let Seat {
        reader,
        mut share,
        ..
    } = seat;
    for place in 0..6 {
        hall.say(rt, &mut share, place)?;
    }
    let asked = hall.ask(6)?;
    Ok((reader, asked.mark))
}

fn seen_beside<J: Session + Send + Sync, R: Threads + Wait + Sync + AllocGlobal>(
    rt: &R,
    history: History,
    blank: Blank,
    script: &Script,
) -> Result<Option<Seen>, Fail>
    requires named { history ≡ J.book }
    requires script { script.now ≡ J.script }
    requires ledger { (blank.name ≡ J.name) × (blank.parts ≡ J.parts) }
    requires parts { blank.parts ≡ 1 }
{
    let (mut hall, seats) = open_hall::<J, R>(rt, history, blank, script, 1)?;
    let ready = prepare(rt, &mut hall, seats);
    let shared = Shared::new(hall);
    let seen = match ready {
        Ok((reader, mark)) => Ok(look_beside(rt, &shared, reader, mark)),
        Err(fault) => Err(fault),
    };
    shared.into_hall().close(rt);
    seen
}

#[test]
fn reader_takes_the_hall_lock(rt: HostRuntime) -> Result<(), Fail> {
    let script = read(rt.alloc(), QUEUED)?;
    let seen = seen_beside::<Brand, _>(&rt, History::new(), Blank::new(1), &script)?;
    assert_eq!(rt; seen, Some((Some(true), Some(false), Some(1))));
    Ok(())
}
