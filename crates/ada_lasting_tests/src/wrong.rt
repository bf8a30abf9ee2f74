//! Short journals that forget something, or change it: the check refuses each, and accepts its like that doesn't.

use crate::playing::played;
use ada_compact::stands_in;
use ada_events::TaskNo;
use ada_standing::{Place, Renaming};
use std::process::Abort;
use std::test::Fail;

/// An old script, one that may take its place, and one that may not, with the names for both: who stands for each task
/// by number, and places by their old and new positions.
#[derive(Clone, Copy)]
struct Case {
    old: &'static [u8],
    right: &'static [u8],
    wrong: &'static [u8],
    tasks: &'static [Option<TaskNo>],
    right_places: &'static [Place],
    wrong_places: &'static [Place],
}

// Three tasks, all up after eight events.
const CALLERS: &[u8] = b"main: create S under main E
main: create C under main
main: create D under main
main: activate S C D
S: up
C: up
D: up
C: call S E
D: call S E
";

// The younger call came first.
const CALLERS_BACK: &[u8] = b"main: create S under main E
main: create C under main
main: create D under main
main: activate S C D
S: up
C: up
D: up
D: call S E
C: call S E
";

const ALL: &[Option<TaskNo>] = &[
    Some(TaskNo(0)),
    Some(TaskNo(1)),
    Some(TaskNo(2)),
    Some(TaskNo(3)),
];

const CALLS_BACK: Case = Case {
    old: CALLERS,
    right: CALLERS,
    wrong: CALLERS_BACK,
    tasks: ALL,
    right_places: &[Place { old: 9, new: 9 }, Place { old: 10, new: 10 }],
    wrong_places: &[Place { old: 9, new: 10 }, Place { old: 10, new: 9 }],
};

const DUE_AT_5: &[u8] = b"main: create S under main E
main: activate S
S: up
main: call S E within 5
";

const DUE_AT_6: &[u8] = b"main: create S under main E
main: activate S
S: up
main: call S E within 6
";

const DUE_LATER: Case = Case {
    old: DUE_AT_5,
    right: DUE_AT_5,
    wrong: DUE_AT_6,
    tasks: &[Some(TaskNo(0)), Some(TaskNo(1))],
    right_places: &[Place { old: 5, new: 5 }],
    wrong_places: &[Place { old: 5, new: 5 }],
};

// X failed in its activation, and is gone; Y is still in its own.
const ONE_FAILED: &[u8] = b"main: create X under main
main: create Y under main
main: activate X Y
X: fail
";

// A helper fails in X's stead.
const HELPER_FAILED: &[u8] = b"main: create Y under main
main: create H under main
main: activate Y H
H: fail
";

const NONE_FAILED: &[u8] = b"main: create Y under main
main: activate Y
";

const FAILURE_FORGOTTEN: Case = Case {
    old: ONE_FAILED,
    right: HELPER_FAILED,
    wrong: NONE_FAILED,
    tasks: &[Some(TaskNo(0)), None, Some(TaskNo(1))],
    right_places: &[Place { old: 3, new: 3 }],
    wrong_places: &[Place { old: 3, new: 2 }],
};

const OUTCOME_FORGOTTEN: Case = Case {
    old: b"main: delay 0
main: delay 0
",
    right: b"main: delay 0
",
    wrong: b"tick 0
",
    tasks: &[Some(TaskNo(0))],
    right_places: &[],
    wrong_places: &[],
};

// X depends on main's body, and was made within a block.
const UNDER_MAIN: &[u8] = b"main: open B
main: create X under main
main: activate X
X: up
";

const UNDER_BLOCK: &[u8] = b"main: open B
main: create X under B
main: activate X
X: up
";

const ANOTHER_MASTER: Case = Case {
    old: UNDER_MAIN,
    right: UNDER_MAIN,
    wrong: UNDER_BLOCK,
    tasks: &[Some(TaskNo(0)), Some(TaskNo(1))],
    right_places: &[Place { old: 1, new: 1 }],
    wrong_places: &[Place { old: 1, new: 1 }],
};

const IN_ACTIVATION: &[u8] = b"main: create X under main
main: activate X
";

const UP: &[u8] = b"main: create X under main
main: activate X
X: up
";

const ALL_UP: Case = Case {
    old: IN_ACTIVATION,
    right: IN_ACTIVATION,
    wrong: UP,
    tasks: &[Some(TaskNo(0)), Some(TaskNo(1))],
    right_places: &[Place { old: 2, new: 2 }],
    wrong_places: &[Place { old: 2, new: 2 }],
};

// X is gone, and main, which made it, may still name it in an activation. In the wrong one a helper made it, and is
// gone too; X is task 2 there.
const NOT_TO_ACTIVATE: Case = Case {
    old: b"main: create H under main
main: activate H
H: up
H: complete
main: create X under main
main: abort X
main: delay 0
",
    right: b"main: create X under main
main: abort X
main: delay 0
",
    wrong: b"main: create H under main
main: activate H
H: up
H: create X under main
H: abort X
H: complete
main: delay 0
",
    tasks: &[Some(TaskNo(0)), None, Some(TaskNo(1))],
    right_places: &[],
    wrong_places: &[],
};

// Who stands for X in the wrong journal is task 2.
const GONE_TASKS: &[Option<TaskNo>] = &[Some(TaskNo(0)), None, Some(TaskNo(2))];

fn renaming<R: AllocGlobal>(
    rt: &R,
    tasks: &[Option<TaskNo>],
    places: &[Place],
) -> Result<Renaming, Fail> {
    let mut named = Vec::new(rt.alloc());
    for task in tasks {
        named.push(*task)?;
    }
    let mut placed = Vec::new(rt.alloc());
    for place in places {
        placed.push(*place)?;
    }
    match Renaming::new(named, placed) {
        Some(names) => Ok(names),
        None => Err(Fail::new("the places don't rise")),
    }
}

// Whether a short script stands in for a long one, with these names.
fn is_accepted<R: AllocGlobal>(
    rt: &R,
    old: &[u8],
    new: &[u8],
    tasks: &[Option<TaskNo>],
    places: &[Place],
) -> Result<bool, Fail> {
    let names = renaming(rt, tasks, places)?;
    let old = played(rt, old)?;
    let new = played(rt, new)?;
    Ok(stands_in(&old, &new, &names))
}

fn check<R: Abort + AllocGlobal>(rt: &R, case: Case, name: &str) -> Result<(), Fail> {
    let right = is_accepted(rt, case.old, case.right, case.tasks, case.right_places)?;
    assert!(rt; right, "{name}: the right one");
    let wrong = is_accepted(rt, case.old, case.wrong, case.tasks, case.wrong_places)?;
    assert!(rt; !wrong, "{name}: the wrong one");
    Ok(())
}

#[test]
fn the_check_refuses_what_forgets_too_much(rt: HostRuntime) -> Result<(), Fail> {
    check(&rt, CALLS_BACK, "calls back")?;
    check(&rt, DUE_LATER, "due later")?;
    check(&rt, FAILURE_FORGOTTEN, "a failure forgotten")?;
    check(&rt, OUTCOME_FORGOTTEN, "an outcome forgotten")?;
    check(&rt, ANOTHER_MASTER, "another master")?;
    check(&rt, ALL_UP, "up too early")?;
    check(&rt, NOT_TO_ACTIVATE, "not to be activated")
}

#[test]
fn who_made_a_task_that_may_be_activated_matters(rt: HostRuntime) -> Result<(), Fail> {
    let case = NOT_TO_ACTIVATE;
    let accepted = is_accepted(&rt, case.old, case.wrong, GONE_TASKS, &[])?;
    assert!(&rt; !accepted);
    Ok(())
}
