//! Masters in the tables: chains of 256 tasks, of which each made the next, under its body or under its block in
//! turn.

use crate::checked_tables::{CheckedTables, Unmet};
use ada_events::{Master, Member, TaskNo};
use ada_tables::Phase;
use std::process::Abort;
use std::test::Fail;

/// The position of the block that a task opens.
fn block_of(task: u16) -> u32 {
    1000 + u32::from(task)
}

/// Whether a task makes the next one under its block, as every other does, and not under its body.
fn is_within_block(task: u16) -> bool {
    task % 2 == 1
}

/// The master under which a task makes the next.
fn maker(task: u16) -> Master {
    if is_within_block(task) {
        Master::Block(block_of(task))
    } else {
        Master::Body(TaskNo(task))
    }
}

/// A master is given its next task, which has this number.
fn assert_added<R: Abort>(rt: &R, tables: &mut CheckedTables, master: Master, task: u16) {
    assert_eq!(rt; tables.add(master, &[]), Ok(TaskNo(task)));
}

/// Each of 256 tasks makes the next, within a block of its own.
fn make_chain<R: Abort>(rt: &R, tables: &mut CheckedTables) -> Result<(), Fail> {
    tables.push(TaskNo(0), Member::Block(block_of(0)))?;
    for task in 1..256u16 {
        assert_added(rt, tables, maker(task - 1), task);
        tables.push(TaskNo(task), Member::Block(block_of(task)))?;
    }
    Ok(())
}

/// A chain of 256 tasks, each within a block of its own.
fn chain<R: Abort + AllocGlobal>(rt: &R) -> Result<CheckedTables, Fail> {
    let mut tables = CheckedTables::new(rt.alloc())?;
    make_chain(rt, &mut tables)?;
    Ok(tables)
}

/// How many tasks behind a task of the chain live, where those from `first` to `last` do.
fn live_behind(task: u16, first: u16, last: u16) -> u16 {
    let next = task.saturating_add(1);
    last.saturating_add(1).saturating_sub(next.max(first))
}

/// So many dependents of a master live; a failure says which kind of master it is, and whose.
fn live_is<R: Abort>(
    rt: &R,
    tables: &CheckedTables,
    master: Master,
    kind: &str,
    task: u16,
    live: u16,
) {
    assert_eq!(rt; tables.live(master), Ok(live), "{kind} {task}");
}

/// The live tasks behind a task depend on its body, and on its block where it made the next one there (9.4).
/// Those from `first` to `last` live.
fn count_is<R: Abort>(rt: &R, tables: &CheckedTables, task: u16, first: u16, last: u16) {
    let live = live_behind(task, first, last);
    let in_block = if is_within_block(task) { live } else { 0 };
    live_is(rt, tables, Master::Body(TaskNo(task)), "body", task, live);
    live_is(
        rt,
        tables,
        Master::Block(block_of(task)),
        "block",
        task,
        in_block,
    );
}

/// What depends on each fifteenth task, from main to the last, where those from `first` to `last` live.
fn counts_are<R: Abort>(rt: &R, tables: &CheckedTables, first: u16, last: u16) {
    for nth in 0..18u16 {
        count_is(rt, tables, 15 * nth, first, last);
    }
}

/// What depends on each task, where all live.
fn all_are_counted<R: Abort>(rt: &R, tables: &CheckedTables) {
    for task in 0..256u16 {
        count_is(rt, tables, task, 0, 255);
    }
}

/// The parent of a master.
fn parent_is<R: Abort>(rt: &R, tables: &CheckedTables, master: Master, parent: Master) {
    assert_eq!(rt; tables.parent(master), Ok(Some(parent)));
}

/// The parent of a block is its task's body, and that of a body is where its task was made (9.4).
fn parents_are<R: Abort>(rt: &R, tables: &CheckedTables) {
    for task in 0..256u16 {
        let body = Master::Body(TaskNo(task));
        parent_is(rt, tables, Master::Block(block_of(task)), body);
        if task > 0 {
            parent_is(rt, tables, body, maker(task - 1));
        }
    }
}

/// All tasks but main end, the last of the chain first.
fn end_outwards<R: Abort>(rt: &R, tables: &mut CheckedTables) -> Result<(), Fail> {
    for ended in 0..255u16 {
        tables.set_phase(TaskNo(255 - ended), Phase::Terminated)?;
        counts_are(rt, tables, 0, 254 - ended);
    }
    Ok(())
}

/// All tasks but main end, the first of the chain first.
fn end_inwards<R: Abort>(rt: &R, tables: &mut CheckedTables) -> Result<(), Fail> {
    for task in 1..256u16 {
        tables.set_phase(TaskNo(task), Phase::Terminated)?;
        counts_are(rt, tables, task + 1, 255);
    }
    Ok(())
}

/// A whole chain is counted, and while it ends from its last task on.
fn is_counted_outwards<R: Abort>(rt: &R, tables: &mut CheckedTables) -> Result<(), Fail> {
    parents_are(rt, tables);
    all_are_counted(rt, tables);
    end_outwards(rt, tables)?;
    parents_are(rt, tables);
    Ok(())
}

/// A chain is counted while it ends from its first task on.
fn is_counted_inwards<R: Abort>(rt: &R, tables: &mut CheckedTables) -> Result<(), Fail> {
    end_inwards(rt, tables)?;
    parents_are(rt, tables);
    Ok(())
}

/// A new chain, and its end from its last task on.
fn one_ends_outwards<R: Abort + AllocGlobal>(rt: &R) -> Result<(), Fail> {
    let mut tables = chain(rt)?;
    is_counted_outwards(rt, &mut tables)
}

/// A new chain, and its end from its first task on.
fn one_ends_inwards<R: Abort + AllocGlobal>(rt: &R) -> Result<(), Fail> {
    let mut tables = chain(rt)?;
    is_counted_inwards(rt, &mut tables)
}

// A whole chain, and its end from either side.
#[test]
fn a_chain_is_counted(rt: HostRuntime) -> Result<(), Fail> {
    one_ends_outwards(&rt)?;
    one_ends_inwards(&rt)
}

/// The tasks from `first` on wait at an open terminate alternative.
fn wait_to_quit(tables: &mut CheckedTables, first: u16) -> Result<(), Unmet> {
    for task in first..256 {
        tables.set_phase(TaskNo(task), Phase::Quittable)?;
    }
    Ok(())
}

/// How many dependents of a master hold up its quitting.
fn unready_are<R: Abort>(rt: &R, tables: &CheckedTables, master: Master, count: u16) {
    assert_eq!(rt; tables.unready(master), count);
}

/// What holds up quitting, once the tasks from the 200th on wait for it.
fn those_before_are_unready<R: Abort>(rt: &R, tables: &CheckedTables) {
    unready_are(rt, tables, Master::Body(TaskNo(0)), 199);
    unready_are(rt, tables, Master::Block(block_of(101)), 98);
    unready_are(rt, tables, Master::Block(block_of(100)), 0);
    unready_are(rt, tables, Master::Body(TaskNo(199)), 0);
    assert_eq!(rt; tables.live(Master::Body(TaskNo(199))), Ok(56));
}

// Of 255 dependents all hold up quitting at first, and those before the 200th once the others wait for it.
#[test]
fn a_chain_waits_to_quit(rt: HostRuntime) -> Result<(), Fail> {
    let mut tables = chain(&rt)?;
    unready_are(&rt, &tables, Master::Body(TaskNo(0)), 255);
    wait_to_quit(&mut tables, 200)?;
    those_before_are_unready(&rt, &tables);
    Ok(())
}
