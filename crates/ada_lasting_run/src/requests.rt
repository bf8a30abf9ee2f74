//! Random requests, which mostly make sense.

use crate::both::Made;
use crate::scenes::PairScene;
use ada_events::{Families, Family};
use ada_lasting::{LastingRequest, LastingTasks};
use ada_test_requests::parts::{
    choices, entry, next_kind, patience, some_tasks, tail, to_activate,
};
use ada_test_requests::{Dice, Kind, Mix, Scene};

/// The most tasks that live beside one another.
const MOST_ALIVE: usize = 20;

/// A request of a run of this mix.
pub fn request(scene: PairScene<'_>, mix: Mix, dice: &mut Dice) -> LastingRequest {
    let by = scene.asker(dice);
    match next_kind(scene, mix, by, dice) {
        Kind::Create if scene.alive() >= MOST_ALIVE => of_kind(scene, Kind::Complete, by, dice),
        // The main program seldom completes: that is the end of its run.
        Kind::Complete if by == 0 && !dice.one_in(60) => of_kind(scene, Kind::Close, by, dice),
        kind => of_kind(scene, kind, by, dice),
    }
}

/// What a request makes, if it makes a task.
pub fn made(request: &LastingRequest) -> Option<Made> {
    match request {
        LastingRequest::Create {
            by,
            master,
            families,
        } => Some(Made {
            maker: *by,
            master: *master,
            families: families.len() as u8,
            low: first_low(families.as_slice()),
        }),
        _ => None,
    }
}

fn first_low(families: &[Family]) -> i32 {
    match families.first() {
        Some(family) => family.low,
        None => 0,
    }
}

/// A request of a kind, by a task.
fn of_kind(scene: PairScene<'_>, kind: Kind, by: u64, dice: &mut Dice) -> LastingRequest {
    match kind {
        Kind::Open => LastingRequest::Open { by },
        Kind::Create => LastingRequest::Create {
            by,
            master: scene.master(by, dice),
            families: families(scene, dice),
        },
        Kind::Activate => LastingRequest::Activate {
            by,
            tasks: to_activate(scene, by, dice),
        },
        Kind::Elaborated => LastingRequest::Elaborated {
            by,
            ok: !dice.one_in(8),
        },
        Kind::Call => call(scene, by, dice),
        Kind::Wait => wait(scene, by, dice),
        Kind::Delay => LastingRequest::Delay {
            by,
            duration: scene.duration(dice),
        },
        Kind::End => LastingRequest::End {
            by,
            raised: dice.one_in(3),
        },
        Kind::Close => LastingRequest::Close { by },
        Kind::Complete => LastingRequest::Complete { by },
        Kind::Abort => LastingRequest::Abort {
            by,
            tasks: aborted(scene, dice),
        },
        Kind::Tick => LastingRequest::Tick {
            now: scene.moment(dice),
        },
    }
}

fn call(scene: PairScene<'_>, by: u64, dice: &mut Dice) -> LastingRequest {
    let callee = scene.any_task(dice);
    LastingRequest::Call {
        by,
        callee,
        entry: entry(scene, callee, dice),
        patience: patience(scene, by, dice),
    }
}

fn wait(scene: PairScene<'_>, by: u64, dice: &mut Dice) -> LastingRequest {
    LastingRequest::Wait {
        by,
        choices: choices(scene, by, dice),
        tail: tail(scene, by, dice),
        pick: dice.of_any_size(),
    }
}

/// Up to three families of one entry or two, rarely of none, and more rarely of more than there is room for.
fn families(scene: PairScene<'_>, dice: &mut Dice) -> Families {
    let mut families = Families::new();
    let low = dice.below(9) as i32 - 4;
    for _ in 0..scene.how_many(dice).min(3) {
        if !families.is_full() {
            families.push(family(low, dice));
        }
    }
    families
}

fn family(low: i32, dice: &mut Dice) -> Family {
    match dice.below(200) {
        0 => Family {
            low: i32::MIN,
            high: i32::MAX,
        },
        1 => Family {
            low,
            high: low.wrapping_add(1024),
        },
        2..=4 => Family {
            low,
            high: low.wrapping_sub(1),
        },
        5..=80 => Family {
            low,
            high: low.wrapping_add(1),
        },
        _ => Family { low, high: low },
    }
}

/// Some tasks, mostly without the main program, whose abort is the end of its run.
fn aborted(scene: PairScene<'_>, dice: &mut Dice) -> LastingTasks {
    let some = some_tasks(scene, dice);
    let is_all = dice.one_in(20);
    let mut list = LastingTasks::new();
    for task in some.as_slice() {
        if !list.is_full() && (is_all || *task != 0) {
            list.push(*task);
        }
    }
    list
}
