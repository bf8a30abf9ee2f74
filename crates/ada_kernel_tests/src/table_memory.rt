//! The calls that may want memory, where there is memory.

use crate::checked_tables::CheckedTables;
use crate::names::{MAIN, SINGLE, entry};
use ada_events::{Event, Journal, TaskNo};
use std::test::Fail;

const SERVER: TaskNo = TaskNo(1);

// A journal's room for an event, new tables, a task in them, and the room for its call to itself.
#[test]
fn always_out_of_memory(rt: HostRuntime) -> Result<(), Fail> {
    let mut journal = Journal::new(rt.alloc());
    assert!(rt; journal.reserve(1024).is_ok());
    journal.push_reserved(Event::Ticked { now: 7 });
    assert_eq!(rt; journal.len(), 1);
    let mut tables = CheckedTables::new(rt.alloc())?;
    assert_eq!(rt; tables.add(MAIN, &[SINGLE]), Ok(SERVER));
    assert_eq!(rt; tables.enqueue(SERVER, SERVER, entry(0), 3), Ok(()));
    assert_eq!(rt; tables.queue_len(SERVER, entry(0)), Ok(1));
    Ok(())
}
