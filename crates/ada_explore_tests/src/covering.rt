//! Whether no schedule of a script gets stuck, of scripts whose schedules were gone through by hand.

use crate::plain::AS_WRITTEN;
use ada_explore::{Halt, Space, Unwatched};
use ada_script::read;
use ada_search::covered_by;
use std::alloc::{AllocError, Global};
use std::test::Fail;

// Seven states: the beginning; then main has made Ann; then it waits for her activation; then she is up. Then each may
// complete before the other, and both orders come to the same.
static TWO_ENDS: &[u8] = b"main: create Ann under main
main: activate Ann
Ann: up
Ann: complete
main: complete
";

// Two philosophers, main and Bob, of whom main takes the left fork first; Bob's lines come after these.
static DINNER: &[u8] = b"main: create Left under main Take Put
main: create Right under main Take Put
main: create Bob under main
main: activate Left Right Bob
Left: up
Right: up
Bob: up
Left: accept Take
Left: end
Left: accept Put
Left: end
Left: accept Take
Left: end
Left: accept Put
Left: end
Left: complete
Right: accept Take
Right: end
Right: accept Put
Right: end
Right: accept Take
Right: end
Right: accept Put
Right: end
Right: complete
main: call Left Take
main: call Right Take
main: call Right Put
main: call Left Put
main: complete
";

// Bob takes it first, too, so whoever has it gets the right one.
static IN_ORDER: &[u8] = b"Bob: call Left Take
Bob: call Right Take
Bob: call Right Put
Bob: call Left Put
Bob: complete
";

// Main takes Left and Bob takes Right; then each waits for the other's fork.
static CROSSWISE: &[u8] = b"Bob: call Right Take
Bob: call Left Take
Bob: call Left Put
Bob: call Right Put
Bob: complete
";

// Five states, one for each line that was said and the beginning: while main waits for the moment, a tick may come.
static DELAYED: &[u8] = b"main: delay 5
tick 3
tick 5
main: complete
";

// Five states, one for each line that was said and the beginning. Ann is never activated, and goes with her block.
static IN_A_BLOCK: &[u8] = b"main: open Block
main: create Ann under Block
main: close
main: complete
";

fn dinner_with(alloc: Global, bob: &[u8]) -> Result<Vec<u8>, AllocError> {
    let mut text = Vec::from_slice(alloc, DINNER)?;
    text.extend_from_slice(bob)?;
    Ok(text)
}

fn covered_in(alloc: Global, text: &[u8], most: u32) -> Result<Option<u32>, Halt> {
    let script = read(alloc, text).map_err(|_| Halt::Memory)?;
    let space = Space::new(alloc, &script, AS_WRITTEN)?;
    covered_by(alloc, &space, most, &mut Unwatched)
}

#[test]
fn counts_states(rt: HostRuntime) -> Result<(), Fail> {
    assert_eq!(&rt; covered_in(rt.alloc(), TWO_ENDS, 7), Ok(Some(7)));
    assert_eq!(&rt; covered_in(rt.alloc(), TWO_ENDS, 6), Ok(None));
    Ok(())
}

#[test]
fn waits_for_ticks(rt: HostRuntime) -> Result<(), Fail> {
    assert_eq!(&rt; covered_in(rt.alloc(), DELAYED, 100), Ok(Some(5)));
    Ok(())
}

#[test]
fn covers_tasks_of_blocks(rt: HostRuntime) -> Result<(), Fail> {
    assert_eq!(&rt; covered_in(rt.alloc(), IN_A_BLOCK, 100), Ok(Some(5)));
    Ok(())
}

#[test]
fn covers_philosophers_in_order(rt: HostRuntime) -> Result<(), Fail> {
    let text = dinner_with(rt.alloc(), IN_ORDER)?;
    let covered = covered_in(rt.alloc(), &text, 10_000);
    assert!(rt; matches!(covered, Ok(Some(_))));
    Ok(())
}

#[test]
fn finds_philosophers_stuck(rt: HostRuntime) -> Result<(), Fail> {
    let text = dinner_with(rt.alloc(), CROSSWISE)?;
    assert_eq!(&rt; covered_in(rt.alloc(), &text, 10_000), Ok(None));
    Ok(())
}
