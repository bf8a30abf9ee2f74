//! Journals and lists by themselves.

use ada_events::{Bounded, Event, Journal, TaskNo};
use std::test::Fail;

#[test]
fn a_journal_by_itself(rt: HostRuntime) -> Result<(), Fail> {
    let mut journal = Journal::new(rt.alloc());
    assert!(rt; journal.is_empty());
    journal.reserve(2)?;
    journal.push_reserved(Event::Ticked { now: 7 });
    let ticked = Event::Ticked { now: 7 };
    assert_eq!(rt; journal.len(), 1);
    assert!(rt; journal.get(1) == Some(&ticked));
    assert!(rt; journal.get(2).is_none());
    assert_eq!(rt; journal.as_slice().len(), 1);
    Ok(())
}

#[test]
fn a_list_of_tasks(rt: HostRuntime) -> Result<(), Fail> {
    let mut list = Bounded::<TaskNo, 3>::from_slice(&[TaskNo(4), TaskNo(5)]);
    assert_eq!(rt; list.len(), 2);
    assert!(rt; !list.is_empty());
    assert!(rt; !list.is_full());
    list.push(TaskNo(6));
    assert!(rt; list.is_full());
    assert_eq!(rt;
        list.as_slice(),
        [TaskNo(4), TaskNo(5), TaskNo(6)].as_slice()
    );
    Ok(())
}
