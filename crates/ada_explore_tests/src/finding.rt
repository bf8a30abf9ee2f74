//! What is found of scripts some of whose schedules get stuck.

use crate::plain::{AS_WRITTEN, ends_of};
use ada_explore::{End, Halt, Space, Unwatched, explore};
use ada_script::read;
use std::alloc::Global;
use std::process::Abort;
use std::test::Fail;

// The main program may complete before it calls, where the two failures came first: then Good waits for ever. By hand:
// three creations, the activation, two failures and `Good: up`, `main: complete` and `Good: accept Ask`.
static EARLY_END: &[u8] = b"main: create Good under main Ask
main: create Bad under main
main: create Worse under main
main: activate Good Bad Worse
Bad: fail
main: complete
Worse: fail
Good: up
main: call Good Ask
Good: accept Ask
Good: end
Good: complete
main: complete
";

// Whoever is aborted, all terminate.
static ABORTED: &[u8] = b"main: create Ann under main
main: create Bob under main
main: create Cid under main
main: abort Ann
main: activate Ann Bob Cid
Bob: abort Cid
Bob: up
main: show terminated Cid
Bob: complete
main: complete
";

/// More schedules, with all that begin them, than any script here has.
const MOST: u32 = 1_000_000;

// How long the shortest schedule is that gets stuck, by the search, which sees all, and by the plain one.
fn found_in(alloc: Global, text: &[u8]) -> Result<(Option<usize>, Option<usize>), Halt> {
    let script = read(alloc, text).map_err(|_| Halt::Memory)?;
    let space = Space::new(alloc, &script, AS_WRITTEN)?;
    let found = explore(space, u32::MAX, &mut Unwatched)?;
    if found.end != End::AllSeen {
        return Err(Halt::TooLong);
    }
    let length = match &found.stuck {
        Some(path) => Some(path.len()),
        None => None,
    };
    Ok((length, ends_of(space, MOST)?.stuck))
}

fn assert_found<R: Abort>(
    rt: &R,
    found: Result<(Option<usize>, Option<usize>), Halt>,
    wanted: Option<usize>,
) {
    assert_eq!(rt; found, Ok((wanted, wanted)));
}

#[test]
fn finds_the_shortest(rt: HostRuntime) -> Result<(), Fail> {
    assert_found(&rt, found_in(rt.alloc(), EARLY_END), Some(9));
    Ok(())
}

#[test]
fn finds_none(rt: HostRuntime) -> Result<(), Fail> {
    assert_found(&rt, found_in(rt.alloc(), ABORTED), None);
    Ok(())
}
