//! What is found of scripts after some of whose schedules tasks are held up for good, though others aren't.

use crate::plain::AS_WRITTEN;
use ada_explore::{Halt, Space, Stop, Unwatched, explore};
use ada_script::read;
use std::alloc::Global;
use std::test::Fail;

// Ann and Bob call each other, and the main program runs. It takes both calls, after all that comes before them.
static EACH_OTHER: &[u8] = b"main: create Ann under main Ask
main: create Bob under main Ask
main: activate Ann Bob
Ann: up
Bob: up
Ann: call Bob Ask
Bob: call Ann Ask
main: try Ann Ask
Ann: complete
Bob: complete
";

// Ann is called by the main program first or last, and once she took both calls nobody takes the other one of Bob.
static ONE_TOO_MANY: &[u8] = b"main: create Ann under main Ask
main: create Bob under main
main: activate Ann Bob
Ann: up
Bob: up
Ann: accept Ask
Ann: end
Ann: accept Ask
Ann: end
main: try Ann Ask
Bob: call Ann Ask
Bob: call Ann Ask
Bob: complete
";

// Ann may terminate with others where she waits.
static TERMINATE: &[u8] = b"main: create Ann under main Ask
main: activate Ann
Ann: up
Ann: select 0 accept Ask or terminate
Ann: end
";

// A tick more, and Ann goes on.
static NO_TICK: &[u8] = b"main: create Ann under main
main: activate Ann
Ann: up
Ann: delay 5
Ann: complete
";

fn stop_in(alloc: Global, text: &[u8]) -> Result<Option<Stop>, Halt> {
    let script = read(alloc, text).map_err(|_| Halt::Memory)?;
    let space = Space::new(alloc, &script, AS_WRITTEN)?;
    let found = explore(space, u32::MAX, &mut Unwatched)?;
    if found.stuck.is_some() || found.stopped.is_some() == found.covered.is_some() {
        return Err(Halt::TooLong);
    }
    Ok(found.stopped)
}

#[test]
fn finds_who_stops(rt: HostRuntime) -> Result<(), Fail> {
    let stop = stop_in(rt.alloc(), EACH_OTHER)?;
    let Some(stop) = stop else {
        assert!(rt; false);
        return Ok(());
    };
    assert!(rt; stop.path.iter().filter_map(|turn| turn.place()).eq(0..7));
    assert_eq!(&rt; stop.lines.as_slice(), [8, 9].as_slice());
    Ok(())
}

#[test]
fn finds_who_comes_too_late(rt: HostRuntime) -> Result<(), Fail> {
    let stop = stop_in(rt.alloc(), ONE_TOO_MANY)?;
    let Some(stop) = stop else {
        assert!(rt; false);
        return Ok(());
    };
    assert_eq!(&rt; stop.lines.as_slice(), [12].as_slice());
    Ok(())
}

#[test]
fn leaves_out_who_could_go_on(rt: HostRuntime) -> Result<(), Fail> {
    assert!(rt; stop_in(rt.alloc(), TERMINATE)?.is_none());
    assert!(rt; stop_in(rt.alloc(), NO_TICK)?.is_none());
    Ok(())
}
