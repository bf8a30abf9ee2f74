//! The plain kernel by itself.

use ada_events::{Refusal, Request, TaskNo};
use ada_reference::PlainKernel;
use ada_test_requests::{MAIN, SINGLE, create, tasks};
use std::test::Fail;

// The plain kernel answers a first rendezvous as the kernel does.
#[test]
fn the_plain_kernel(rt: HostRuntime) -> Result<(), Fail> {
    let mut kernel = PlainKernel::new(rt.alloc())?;
    assert_eq!(rt; kernel.step(create(0, MAIN, &[SINGLE])), Ok(1));
    assert_eq!(rt;
        kernel.step(Request::Activate {
            by: TaskNo(0),
            tasks: tasks(1, 1)
        }),
        Ok(2)
    );
    assert_eq!(rt;
        kernel.step(Request::Complete { by: TaskNo(0) }),
        Err(Refusal::NotRunning)
    );
    assert_eq!(rt; kernel.journal().len(), 2);
    Ok(())
}
