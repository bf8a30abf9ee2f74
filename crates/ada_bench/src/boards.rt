//! Reads of a board that is published, beside reads of a board under a lock: of one reader alone, and of three
//! while a writer publishes without pause.

use crate::album::Album;
use crate::locked::{ReadingLocked, Storing};
use crate::published::{Publishing, Reading};
use crate::report::{print_head, print_row};
use crate::turns::measure;
use crate::{locked, published};
use std::io::Print;
use std::sync::Wait;
use std::thread::Threads;
use std::time::Clock;

/// The boards that are published.
const BOARDS: usize = 4096;

/// How often one reader asks.
const TIMES: u32 = 1_000_000;

/// How often all boards are published.
const ROUNDS: u32 = 200;

/// Tries all on a few boards, and says that all readers saw the last one.
pub fn try_boards<R: Threads + Wait + Sync + Clock + AllocGlobal + Print>(
    rt: &R,
) -> anyhow::Result<()> {
    let album = Album::of(rt.alloc(), 5)?;
    try_races(rt, &album)
}

fn try_races<R: Threads + Wait + Sync + Clock + AllocGlobal + Print>(
    rt: &R,
    album: &Album,
) -> anyhow::Result<()> {
    let published = published::races(rt, album, 2)?.boards;
    let stored = locked::races(rt, album, 2)?.boards;
    println!(rt; "{published} boards published, {stored} stored")?;
    Ok(())
}

/// Measures reads and publications, and prints the tables.
pub fn measure_boards<R: Threads + Wait + Sync + Clock + AllocGlobal + Print>(
    rt: &R,
) -> anyhow::Result<()> {
    measure_reads(rt)?;
    let album = Album::of(rt.alloc(), BOARDS)?;
    measure_publications(rt, &album)?;
    measure_races(rt, &album)
}

fn measure_reads<R: Wait + Clock + AllocGlobal + Print>(rt: &R) -> anyhow::Result<()> {
    let times = TIMES;
    println!(rt; "{times} reads by one reader; the floor is a board under a lock")?;
    print_head(rt)?;
    let floor = measure(rt, &mut ReadingLocked { times })?;
    let read = measure(rt, &mut Reading { times })?;
    print_row(rt, "read", read, floor)?;
    Ok(())
}

fn measure_publications<R: Wait + Clock + AllocGlobal + Print>(
    rt: &R,
    album: &Album,
) -> anyhow::Result<()> {
    println!(rt; "{BOARDS} boards published; the floor is to store them under a lock")?;
    print_head(rt)?;
    let floor = measure(rt, &mut Storing { album })?;
    let published = measure(rt, &mut Publishing { album })?;
    print_row(rt, "publish", published, floor)?;
    Ok(())
}

fn measure_races<R: Threads + Wait + Sync + Clock + AllocGlobal + Print>(
    rt: &R,
    album: &Album,
) -> anyhow::Result<()> {
    println!(rt; "three readers beside a writer: answers and boards in a millisecond")?;
    published::races(rt, album, ROUNDS)?.print(rt, "published")?;
    locked::races(rt, album, ROUNDS)?.print(rt, "locked")?;
    Ok(())
}
