//! Each outcome of a task that runs, by something else that the task does in the second kernel.

use crate::playing::{State, check_state};
use ada_events::TaskNo;
use std::test::Fail;

// Of calls: A was served, B was raised in, C was cancelled, and D called in vain; S raised.
const OF_CALLS: &[u8] = b"main: create S under main E
main: create A under main
main: create B under main
main: create C under main
main: create D under main
main: create X under main E
main: activate S A B C D
S: up
A: up
B: up
C: up
D: up
A: call S E
S: accept E
S: end
B: call S E
S: accept E
S: raise
C: try S E
main: abort X
D: call X E
";

// Of waits: A took the else part, B a delay, and C none; D accepts a call by its second choice, and serves another.
const OF_WAITS: &[u8] = b"main: create A under main E
main: create B under main E F
main: create C under main E
main: create D under main E F G
main: create X under main
main: create Y under main
main: activate A B C D X Y
A: up
B: up
C: up
D: up
X: up
Y: up
A: select 0 accept E else
B: select 1 accept E or closed delay 3 or delay 0 or delay 0
C: select 0 closed accept E
X: call D F
Y: call D G
D: accept F
D: select 0 closed accept E or accept G
";

// A's rendezvous is over, and so is B's, which is within that of an outer call.
const OVER: &[u8] = b"main: create A under main E
main: create B under main E F
main: create X under main
main: create Y under main
main: create Z under main
main: activate A B X Y Z
A: up
B: up
X: up
Y: up
Z: up
Z: call B F
B: accept F
X: call A E
Y: call B E
A: select 0 closed accept E or accept E
A: end
X: complete
B: open C
B: accept E
B: end
";

// A was delayed, B left a block, C activated X, D activated Y, which failed, and main waits.
const OF_OTHERS: &[u8] = b"main: create A under main
main: create B under main
main: create C under main
main: create D under main
main: create N under main
main: activate A B C D
A: up
B: up
C: up
D: up
A: delay 5
tick 5
B: open P
B: close
C: create X under C
C: activate X
X: up
X: complete
D: open Q
D: create Y under Q
D: activate Y
Y: fail
";

const STATES: [State; 4] = [
    State {
        script: OF_CALLS,
        kept: &[TaskNo(6)],
    },
    State {
        script: OF_WAITS,
        kept: &[],
    },
    State {
        script: OVER,
        kept: &[TaskNo(3)],
    },
    State {
        script: OF_OTHERS,
        kept: &[],
    },
];

#[test]
fn outcomes_are_brought_about_again(rt: HostRuntime) -> Result<(), Fail> {
    for state in STATES {
        check_state(&rt, state)?;
    }
    Ok(())
}
