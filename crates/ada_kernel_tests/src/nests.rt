//! Nests in the tables: as many members as there may be, blocks and rendezvous mixed.

use crate::checked_tables::CheckedTables;
use crate::names::MAIN;
use ada_events::{Master, Member, TaskNo};
use ada_tables::{Layers, Phase};
use std::process::Abort;
use std::test::Fail;

/// The task that is in all this.
const DEEP: TaskNo = TaskNo(1);

/// The member at a place of the full nest: every third is a block, and the first, the one at 16 and the
/// last are rendezvous.
fn member_at(place: u32) -> Member {
    if place % 3 == 2 {
        Member::Block(place)
    } else {
        Member::Rendezvous(place)
    }
}

/// The task comes into 32 members, and makes a task under its outermost block, at 2, and another under its
/// innermost, at 29.
fn fill_nest<R: Abort>(rt: &R, tables: &mut CheckedTables) -> Result<(), Fail> {
    assert_eq!(rt; tables.add(MAIN, &[]), Ok(DEEP));
    for place in 0..32u32 {
        tables.push(DEEP, member_at(place))?;
    }
    assert_eq!(rt; tables.add(Master::Block(2), &[]), Ok(TaskNo(2)));
    assert_eq!(rt; tables.add(Master::Block(29), &[]), Ok(TaskNo(3)));
    Ok(())
}

/// Tables with a task within 32 members, the most that a nest has.
fn with_full_nest<R: Abort + AllocGlobal>(rt: &R) -> Result<CheckedTables, Fail> {
    let mut tables = CheckedTables::new(rt.alloc())?;
    fill_nest(rt, &mut tables)?;
    Ok(tables)
}

/// The member from a place of the full nest stands at a position.
fn member_is<R: Abort>(rt: &R, nest: &Layers, at: usize, place: u32) {
    assert_eq!(rt; nest.get(at), Some(member_at(place)), "{place} at {at}");
}

/// The nest has the members of the full one at all places but these.
fn nest_lacks<R: Abort>(rt: &R, tables: &CheckedTables, gone: &[u32]) -> Result<(), Fail> {
    let nest = tables.nest(DEEP)?;
    let mut at = 0usize;
    for place in 0..32u32 {
        if !gone.contains(&place) {
            member_is(rt, nest, at, place);
            at = at.saturating_add(1);
        }
    }
    assert_eq!(rt; nest.len(), at);
    Ok(())
}

/// Of the ten blocks all have the innermost one's task as dependent, and the outermost one its own too;
/// the parent of each is the next outside it, and of the outermost the body (9.4).
fn blocks_are_counted<R: Abort>(rt: &R, tables: &CheckedTables) {
    assert_eq!(rt; tables.live(Master::Block(2)), Ok(2));
    assert_eq!(rt;
        tables.parent(Master::Block(2)),
        Ok(Some(Master::Body(DEEP)))
    );
    for third in 1..10u32 {
        let block = Master::Block(3 * third + 2);
        assert_eq!(rt; tables.live(block), Ok(1));
        assert_eq!(rt;
            tables.parent(block),
            Ok(Some(Master::Block(3 * third - 1)))
        );
    }
    assert_eq!(rt; tables.live(Master::Body(DEEP)), Ok(2));
}

/// Cuts the member at a place, if it is a rendezvous, after which the nest lacks these.
fn assert_cut<R: Abort>(
    rt: &R,
    tables: &mut CheckedTables,
    place: u32,
    gone: &[u32],
) -> Result<(), Fail> {
    tables.cut(DEEP, place)?;
    nest_lacks(rt, tables, gone)
}

/// Cuts members from outside, from the middle and from inside, and a block, which stays.
fn cut_members<R: Abort>(rt: &R, tables: &mut CheckedTables) -> Result<(), Fail> {
    nest_lacks(rt, tables, &[])?;
    blocks_are_counted(rt, tables);
    assert_cut(rt, tables, 0, &[0])?;
    assert_cut(rt, tables, 16, &[0, 16])?;
    assert_cut(rt, tables, 31, &[0, 16, 31])?;
    assert_cut(rt, tables, 29, &[0, 16, 31])?;
    blocks_are_counted(rt, tables);
    Ok(())
}

// Rendezvous are cut, and the rest stays in order. A block is no rendezvous.
#[test]
fn rendezvous_are_cut_from_a_full_nest(rt: HostRuntime) -> Result<(), Fail> {
    let mut tables = with_full_nest(&rt)?;
    cut_members(&rt, &mut tables)
}

fn assert_live<R: Abort>(rt: &R, tables: &CheckedTables, master: Master, tasks: u16) {
    assert_eq!(rt; tables.live(master), Ok(tasks));
}

/// Leaves all that the task is in, from inside.
fn leave_all<R: Abort>(rt: &R, tables: &mut CheckedTables) -> Result<(), Fail> {
    for left in 0..32usize {
        assert_eq!(rt; tables.nest(DEEP)?.len(), 32 - left);
        tables.pop(DEEP)?;
    }
    assert!(rt; tables.nest(DEEP)?.is_empty());
    Ok(())
}

/// The dependents of the task's blocks end, and it leaves all that it is in.
fn end_and_leave<R: Abort>(rt: &R, tables: &mut CheckedTables) -> Result<(), Fail> {
    tables.set_phase(TaskNo(3), Phase::Terminated)?;
    assert_live(rt, tables, Master::Block(29), 0);
    assert_live(rt, tables, Master::Block(2), 1);
    tables.set_phase(TaskNo(2), Phase::Terminated)?;
    leave_all(rt, tables)?;
    assert_live(rt, tables, Master::Body(DEEP), 0);
    Ok(())
}

// The task leaves its nest once the dependents of its blocks are terminated.
#[test]
fn a_full_nest_is_left(rt: HostRuntime) -> Result<(), Fail> {
    let mut tables = with_full_nest(&rt)?;
    end_and_leave(&rt, &mut tables)
}
