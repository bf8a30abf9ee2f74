//! The queues of the tables: long ones, and those of entries at the ends of the index range.

use crate::checked_tables::{CheckedTables, Unmet};
use crate::names::{MAIN, SINGLE, entry};
use ada_events::{Entry, Family, TaskNo};
use std::process::Abort;
use std::test::Fail;

/// The task that all others call.
const CALLEE: TaskNo = TaskNo(1);

/// The call that the callee makes to itself, at its second entry.
const OWN: u32 = 5;

/// The call of a task.
fn call_of(task: u16) -> u32 {
    1000 + u32::from(task)
}

/// 256 tasks, of which the callee has two entries.
fn with_all_tasks<R: Abort + AllocGlobal>(rt: &R) -> Result<CheckedTables, Fail> {
    let mut tables = CheckedTables::new(rt.alloc())?;
    assert_eq!(rt; tables.add(MAIN, &[SINGLE, SINGLE]), Ok(CALLEE));
    for task in 2..256u16 {
        assert_eq!(rt; tables.add(MAIN, &[]), Ok(TaskNo(task)));
    }
    Ok(tables)
}

/// The tasks from `first` on call the callee's first entry, one after the other.
fn call_in_order(tables: &mut CheckedTables, first: u16) -> Result<(), Unmet> {
    for task in first..256 {
        tables.enqueue(TaskNo(task), CALLEE, entry(0), call_of(task))?;
    }
    Ok(())
}

/// Main and the tasks 2 to 255 call the callee's first entry, in that order, and the callee itself its second.
fn all_call(tables: &mut CheckedTables) -> Result<(), Unmet> {
    tables.enqueue(CALLEE, CALLEE, entry(1), OWN)?;
    tables.enqueue(TaskNo(0), CALLEE, entry(0), call_of(0))?;
    call_in_order(tables, 2)
}

/// What stands first in the queue of a family's entry with index 0, and how many calls wait there.
fn queue_is<R: Abort>(rt: &R, tables: &CheckedTables, family: u8, front: Option<u32>, count: u16) {
    assert_eq!(rt; tables.front(CALLEE, entry(family)), Ok(front));
    assert_eq!(rt; tables.queue_len(CALLEE, entry(family)), Ok(count));
}

/// All callers of the first entry leave, in the order of arrival.
fn all_leave<R: Abort>(rt: &R, tables: &mut CheckedTables) -> Result<(), Fail> {
    for task in 0..256u16 {
        queue_is(rt, tables, 0, Some(call_of(task)), 256 - task);
        tables.unlink(TaskNo(task))?;
    }
    queue_is(rt, tables, 0, None, 0);
    queue_is(rt, tables, 1, None, 0);
    Ok(())
}

// All 256 tasks wait at one entry, the callee too, and leave in the order of arrival (9.5).
#[test]
fn as_long_as_a_queue_may_be(rt: HostRuntime) -> Result<(), Fail> {
    let mut tables = with_all_tasks(&rt)?;
    call_in_order(&mut tables, 0)?;
    all_leave(&rt, &mut tables)
}

/// The odd callers leave, the last of them first.
fn odd_ones_leave(tables: &mut CheckedTables) -> Result<(), Unmet> {
    for half in 1..128u16 {
        tables.unlink(TaskNo(257 - 2 * half))?;
    }
    Ok(())
}

/// Main leaves, and calls again.
fn main_calls_again<R: Abort>(rt: &R, tables: &mut CheckedTables) -> Result<(), Fail> {
    queue_is(rt, tables, 0, Some(call_of(0)), 128);
    tables.unlink(TaskNo(0))?;
    tables.enqueue(TaskNo(0), CALLEE, entry(0), 2000)?;
    Ok(())
}

/// The even callers leave, in the order of arrival.
fn even_ones_leave<R: Abort>(rt: &R, tables: &mut CheckedTables) -> Result<(), Fail> {
    for half in 1..128u16 {
        queue_is(rt, tables, 0, Some(call_of(2 * half)), 129 - half);
        tables.unlink(TaskNo(2 * half))?;
    }
    Ok(())
}

/// Main is left, and then nobody but the callee itself.
fn main_leaves_last<R: Abort>(rt: &R, tables: &mut CheckedTables) -> Result<(), Fail> {
    queue_is(rt, tables, 0, Some(2000), 1);
    tables.unlink(TaskNo(0))?;
    queue_is(rt, tables, 0, None, 0);
    queue_is(rt, tables, 1, Some(OWN), 1);
    Ok(())
}

/// What is left leaves.
fn rest_leaves<R: Abort>(rt: &R, tables: &mut CheckedTables) -> Result<(), Fail> {
    odd_ones_leave(tables)?;
    main_calls_again(rt, tables)?;
    even_ones_leave(rt, tables)?;
    main_leaves_last(rt, tables)
}

// What is left leaves in the order of arrival, and a caller that calls again stands last (9.5).
#[test]
fn the_rest_leaves_in_order(rt: HostRuntime) -> Result<(), Fail> {
    let mut tables = with_all_tasks(&rt)?;
    all_call(&mut tables)?;
    rest_leaves(&rt, &mut tables)
}

/// 503 entries of five families, two of which are empty.
const WIDE: [Family; 5] = [
    Family {
        low: -2_147_483_648,
        high: -2_147_483_148,
    },
    Family {
        low: 2_147_483_647,
        high: -2_147_483_648,
    },
    Family {
        low: 2_147_483_647,
        high: 2_147_483_647,
    },
    SINGLE,
    Family { low: 1, high: 0 },
];

/// The 521 entries that are left of 1,024.
const REST: Family = Family {
    low: 2_147_483_127,
    high: 2_147_483_647,
};

/// The bounds of the families of tasks 1 and 2 that have entries.
const BOUNDS: [(TaskNo, u8, i32); 6] = [
    (TaskNo(1), 0, -2_147_483_648),
    (TaskNo(1), 0, -2_147_483_148),
    (TaskNo(1), 2, 2_147_483_647),
    (TaskNo(1), 3, 0),
    (TaskNo(2), 0, 2_147_483_127),
    (TaskNo(2), 0, 2_147_483_647),
];

/// Tasks 1 and 2 have 1,024 entries between them, and there is room for no further one.
fn make_wide<R: Abort>(rt: &R, tables: &mut CheckedTables) {
    assert_eq!(rt; tables.add(MAIN, &WIDE), Ok(TaskNo(1)));
    assert_eq!(rt; tables.add(MAIN, &[REST]), Ok(TaskNo(2)));
    assert_eq!(rt; tables.add(MAIN, &[SINGLE]), Err(Unmet::TooManySlots));
}

/// Tasks 3 to 8 are made, and call each one of the bounds.
fn call_bounds(tables: &mut CheckedTables) -> Result<(), Unmet> {
    for (callee, family, index) in BOUNDS {
        let caller = tables.add(MAIN, &[])?;
        tables.enqueue(caller, callee, Entry { family, index }, call_of(caller.0))?;
    }
    Ok(())
}

/// How many calls wait at the entries of a family in all.
fn calls_at(
    tables: &CheckedTables,
    callee: TaskNo,
    family: u8,
    range: Family,
) -> Result<u64, Unmet> {
    let mut total = 0u64;
    for index in range.low..=range.high {
        let count = tables.queue_len(callee, Entry { family, index })?;
        total = total.saturating_add(u64::from(count));
    }
    Ok(total)
}

/// A call stands first in the queue of an entry.
fn front_is<R: Abort>(rt: &R, tables: &CheckedTables, callee: TaskNo, called: Entry, call: u32) {
    let index = called.index;
    assert_eq!(rt; tables.front(callee, called), Ok(Some(call)), "at {index}");
}

/// One call waits at an entry.
fn one_call_waits<R: Abort>(rt: &R, tables: &CheckedTables, callee: TaskNo, called: Entry) {
    let index = called.index;
    assert_eq!(rt; tables.queue_len(callee, called), Ok(1), "at {index}");
}

/// Each bound has the queue of its own call.
fn bounds_are_apart<R: Abort>(rt: &R, tables: &CheckedTables) {
    let mut caller = 3;
    for (callee, family, index) in BOUNDS {
        let called = Entry { family, index };
        front_is(rt, tables, callee, called, call_of(caller));
        one_call_waits(rt, tables, callee, called);
        caller = caller.saturating_add(1);
    }
}

/// The entries of a family have so many calls in all.
fn calls_are<R: Abort>(rt: &R, tables: &CheckedTables, callee: TaskNo, range: Family, count: u64) {
    assert_eq!(rt; calls_at(tables, callee, 0, range), Ok(count));
}

// Each bound has the queue of its own call, and no other of the 1,024 entries has a call.
#[test]
fn entries_at_bounds_are_apart(rt: HostRuntime) -> Result<(), Fail> {
    let mut tables = CheckedTables::new(rt.alloc())?;
    make_wide(&rt, &mut tables);
    call_bounds(&mut tables)?;
    bounds_are_apart(&rt, &tables);
    calls_are(&rt, &tables, TaskNo(1), WIDE[0], 2);
    calls_are(&rt, &tables, TaskNo(2), REST, 2);
    Ok(())
}
