//! Tables that follow the first creation.

use ada_events::{Families, Family, Master, TaskNo};
use ada_records::masters::follow_creation;
use ada_tables::{Phase, Tables};
use std::test::Fail;

#[test]
fn the_first_creation_is_followed(rt: HostRuntime) -> Result<(), Fail> {
    let mut tables = Tables::new(rt.alloc())?;
    let families = Families::from_slice(&[Family { low: 0, high: 2 }]);
    let main = Master::Body(TaskNo(0));
    let followed = follow_creation(&mut tables, main, &families);
    assert_eq!(rt; followed, Ok(()));
    assert_eq!(rt; tables.tasks(), 2);
    assert_eq!(rt; tables.slots(), 3);
    assert_eq!(rt; tables.phase(TaskNo(1)), Phase::Unstarted);
    Ok(())
}
