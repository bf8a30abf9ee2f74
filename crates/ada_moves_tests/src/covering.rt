//! Whether no schedule gets stuck.

use crate::{Bob, Plan};
use ada_behaviours::{Move, ObjectNo};
use ada_moves::Space;
use ada_search::{Halt, Unwatched, covered_by, follow, is_stuck};
use std::test::Fail;

fn move_of(object: u16) -> Move {
    Move::Go {
        object: ObjectNo(object),
        pick: 0,
    }
}

// Three states come one after another: the beginning, then main has made Ann, then Bob. Once it has started them, each
// of the two may be up before the other, and then have called, or wait: five states. Once both are up, main wants to
// complete or has completed, and each may have called or wait, before the other or with it: eight states. After the
// rendezvous each may have completed before the others: eight states.
#[test]
fn a_client_and_a_server_never_get_stuck(rt: HostRuntime) -> Result<(), Fail> {
    let plan = Plan { bob: Bob::Accepts };
    let space = Space {
        alloc: rt.alloc(),
        behaviour: &plan,
    };
    let found = covered_by(rt.alloc(), &space, 1000, &mut Unwatched)?;
    assert_eq!(&rt; found, Some(24));
    Ok(())
}

// As far as both are up the states are the same, but that Bob delays himself: sixteen. Time passes only where main has
// completed, Ann has called and Bob delays himself. Then Bob completes, Ann's call fails, and she completes: three
// more.
#[test]
fn time_passes_where_nobody_wants_anything(rt: HostRuntime) -> Result<(), Fail> {
    let plan = Plan { bob: Bob::Pauses };
    let space = Space {
        alloc: rt.alloc(),
        behaviour: &plan,
    };
    let found = covered_by(rt.alloc(), &space, 1000, &mut Unwatched)?;
    assert_eq!(&rt; found, Some(19));
    Ok(())
}

#[test]
fn two_that_call_each_other_get_stuck(rt: HostRuntime) -> Result<(), Fail> {
    let plan = Plan { bob: Bob::Calls };
    let space = Space {
        alloc: rt.alloc(),
        behaviour: &plan,
    };
    assert_eq!(&rt; covered_by(rt.alloc(), &space, 1000, &mut Unwatched)?, None);
    let mut path = Vec::new(rt.alloc());
    for object in [0, 0, 0, 1, 2, 0, 1, 2] {
        path.push(move_of(object))?;
    }
    let end = follow(rt.alloc(), &space, &path)?;
    assert!(&rt; is_stuck(&end.kernel));
    Ok(())
}

#[test]
fn who_wants_nothing_makes_no_move(rt: HostRuntime) -> Result<(), Fail> {
    let plan = Plan { bob: Bob::Calls };
    let space = Space {
        alloc: rt.alloc(),
        behaviour: &plan,
    };
    let unmade = follow(rt.alloc(), &space, &[move_of(1)]);
    assert!(&rt; matches!(unmade, Err(Halt::NoChoice)));
    let timeless = follow(rt.alloc(), &space, &[Move::Pass]);
    assert!(&rt; matches!(timeless, Err(Halt::NoChoice)));
    Ok(())
}
