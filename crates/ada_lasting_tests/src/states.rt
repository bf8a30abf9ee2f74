//! States in which some order, or a task that is gone, still matters.

use crate::playing::{State, check_state};
use ada_events::TaskNo;
use std::test::Fail;

// Z, which is gone, held up the quitting of B's dependents until a call came.
const QUIT_HELD_UP: &[u8] = b"main: create D under main
main: activate D
D: up
main: open B
main: create X under B E
main: create Z under B
main: activate X Z
X: up
Z: up
X: select 0 closed accept E or terminate
main: close
D: call X E
Z: complete
";

// The same of a body.
const BODY_HELD_UP: &[u8] = b"main: create D under main
main: create W under main
main: activate D W
D: up
W: up
W: create X under W E
W: create Z under W
W: activate X Z
X: up
Z: up
X: select 0 closed accept E or terminate
W: complete
D: call X E
Z: complete
";

// Y is in its activation; A, which activates it, was halted and is gone.
const LEFT_IN_ACTIVATION: &[u8] = b"main: create A under main
main: activate A
A: up
A: create Y under main E
A: activate Y
main: abort A
Y: delay 5
";

// V, which is abnormal, is served by S still, and holds up its halted master, which is in a block.
const ABNORMAL_CALLER: &[u8] = b"main: create S under main E
main: create T under main
main: activate S T
S: up
T: up
T: open B
T: create V under B
T: activate V
V: up
V: call S E
S: accept E
main: abort T
";

// T completed, and was aborted later; V is served by S still.
const COMPLETED_AND_ABORTED: &[u8] = b"main: create S under main E
main: create T under main
main: activate S T
S: up
T: up
T: create V under T
T: activate V
V: up
T: complete
V: call S E
S: accept E
main: abort T
";

// C's call is over, and stands in the outcome of S; that of D came later and waits.
const YOUNGER_CALL: &[u8] = b"main: create S under main E
main: create C under main
main: create D under main
main: activate S C D
S: up
C: up
D: up
C: call S E
D: call S E
S: accept E
S: end
C: delay 0
";

// Y was made under main's body by A, which is gone, while main was suspended, and is still.
const MADE_BY_ANOTHER: &[u8] = b"main: create S under main E
main: create A under main
main: activate S A
S: up
A: up
main: call S E
S: accept E
A: create Y under main E
A: activate Y
Y: up
A: complete
";

// The same under a block of a task that is suspended, and in the body of such a task.
const MADE_WITHIN: &[u8] = b"main: open B
main: create A under B
main: activate A
A: up
A: open C
A: create F under C
A: create G under A
A: activate F G
F: up
G: up
F: create Y under B
F: create Z under C E
F: activate Y Z
Y: up
Z: up
G: create X under A
G: activate X
X: up
A: delay 7
F: complete
G: complete
Z: accept E
";

// Main waits for the activation of Y, Z and G; that of F, which is gone, failed.
const FAILED_START: &[u8] = b"main: open B
main: create Y under main E
main: create F under B
main: create Z under main
main: create G under main
main: activate Y F Z G
F: fail
G: up
G: complete
Z: create V under Z
Z: activate V
V: up
V: create W under Z
V: activate W
W: up
V: complete
";

// All that may suspend a task, at a moment that isn't 0; one call was timed and is being served.
const SUSPENDED: &[u8] = b"main: create S under main E F 1 3 G
main: create C under main
main: create D under main
main: create P under main
main: create W under main E
main: create T under main E F
main: activate S C D P W T
S: up
C: up
D: up
P: up
W: up
T: up
tick 3
C: call S F 2 within 50
D: call S E within 40
main: call S G
P: delay 20
W: select 7 closed accept E or closed delay 4 or delay 9 or delay 9
T: select 1 accept E or closed accept F or terminate
S: select 1 accept E or accept F 2
S: open B
tick 5
";

// K may still be activated by A, so A refuses nothing by its name; L was activated, and Q's creator is gone.
const KEPT: &[u8] = b"main: create A under main
main: create B under main
main: activate A B
A: up
B: up
A: create K under A E F
A: create L under A G 1 2
A: activate L
L: fail
B: create Q under main E
main: abort K Q
B: complete
";

const ALL_GONE: &[u8] = b"main: create A under main
main: create K under main E
main: activate A
A: up
A: complete
main: complete
tick 12
";

const STATES: [State; 13] = [
    State {
        script: b"",
        kept: &[],
    },
    State {
        script: QUIT_HELD_UP,
        kept: &[],
    },
    State {
        script: BODY_HELD_UP,
        kept: &[TaskNo(4)],
    },
    State {
        script: LEFT_IN_ACTIVATION,
        kept: &[TaskNo(1)],
    },
    State {
        script: ABNORMAL_CALLER,
        kept: &[],
    },
    State {
        script: COMPLETED_AND_ABORTED,
        kept: &[],
    },
    State {
        script: YOUNGER_CALL,
        kept: &[],
    },
    State {
        script: MADE_BY_ANOTHER,
        kept: &[TaskNo(2)],
    },
    State {
        script: MADE_WITHIN,
        kept: &[],
    },
    State {
        script: FAILED_START,
        kept: &[TaskNo(2)],
    },
    State {
        script: SUSPENDED,
        kept: &[],
    },
    State {
        script: KEPT,
        kept: &[TaskNo(2), TaskNo(3), TaskNo(4), TaskNo(5)],
    },
    State {
        script: ALL_GONE,
        kept: &[TaskNo(0), TaskNo(2), TaskNo(2), TaskNo(900)],
    },
];

#[test]
fn states_are_brought_about_again(rt: HostRuntime) -> Result<(), Fail> {
    for state in STATES {
        check_state(&rt, state)?;
    }
    Ok(())
}
