//! Random requests of a kernel and of the plain one side by side.

use crate::mixes::MIXES;
use crate::requests::request;
use crate::scenes::JournalScene;
use crate::side_by_side::Both;
use crate::tally::Tally;
use ada_events::Request;
use ada_test_requests::{Dice, Mix};
use std::process::Abort;
use std::test::Fail;

/// How many runs there are of each mix.
const RUNS: u64 = 50;

/// How many requests there are in a run.
const LENGTH: u64 = 100;

/// The request that follows from the number of a die, as a journal stands.
fn next_request(both: &Both, mix: Mix, seed: u64) -> Request {
    let scene = JournalScene {
        journal: both.plain().journal(),
        tasks: both.tasks(),
    };
    request(scene, mix, &mut Dice::new(seed))
}

/// A run from two fresh kernels. What both answer and show is compared after each request.
fn play<R: Abort + AllocGlobal>(rt: &R, mix: Mix, run: u64, tally: &mut Tally) -> Result<(), Fail> {
    let mut both = Both::new(rt.alloc())?;
    for number in 0..LENGTH {
        let seed = run.wrapping_mul(LENGTH).wrapping_add(number);
        let before = both.plain().journal().len();
        let asked = next_request(&both, mix, seed);
        let again = next_request(&both, mix, seed);
        let answer = both.step(rt, asked, again);
        both.compare(rt);
        tally.note(answer, &both, before)?;
    }
    Ok(())
}

#[test]
fn random_requests(rt: HostRuntime) -> Result<(), Fail> {
    let mut tally = Tally::new(rt.alloc());
    for run in 0..RUNS {
        for (number, mix) in MIXES.iter().enumerate() {
            play(
                &rt,
                *mix,
                run.wrapping_mul(4).wrapping_add(number as u64),
                &mut tally,
            )?;
        }
    }
    tally.assert_all_came_up(&rt);
    Ok(())
}
