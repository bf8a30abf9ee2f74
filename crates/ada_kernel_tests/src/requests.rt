//! Random requests, which mostly make sense.

use crate::scenes::JournalScene;
use ada_events::{Families, Family, Request, TaskNo};
use ada_test_requests::parts::{
    choices, entry, next_kind, patience, some_tasks, tail, to_activate,
};
use ada_test_requests::{Dice, Kind, Mix, Scene};

/// A request of a run of this mix.
pub fn request(scene: JournalScene<'_>, mix: Mix, dice: &mut Dice) -> Request {
    let by = scene.asker(dice);
    of_kind(scene, next_kind(scene, mix, by, dice), by, dice)
}

/// A request of a kind, by a task.
fn of_kind(scene: JournalScene<'_>, kind: Kind, by: TaskNo, dice: &mut Dice) -> Request {
    match kind {
        Kind::Open => Request::Open { by },
        Kind::Create => Request::Create {
            by,
            master: scene.master(by, dice),
            families: families(scene, dice),
        },
        Kind::Activate => Request::Activate {
            by,
            tasks: to_activate(scene, by, dice),
        },
        Kind::Elaborated => Request::Elaborated {
            by,
            ok: !dice.one_in(8),
        },
        Kind::Call => call(scene, by, dice),
        Kind::Wait => wait(scene, by, dice),
        Kind::Delay => Request::Delay {
            by,
            duration: scene.duration(dice),
        },
        Kind::End => Request::End {
            by,
            raised: dice.one_in(3),
        },
        Kind::Close => Request::Close { by },
        Kind::Complete => Request::Complete { by },
        Kind::Abort => Request::Abort {
            by,
            tasks: some_tasks(scene, dice),
        },
        Kind::Tick => Request::Tick {
            now: scene.moment(dice),
        },
    }
}

fn call(scene: JournalScene<'_>, by: TaskNo, dice: &mut Dice) -> Request {
    let callee = scene.callee(dice);
    Request::Call {
        by,
        callee,
        entry: entry(scene, callee, dice),
        patience: patience(scene, by, dice),
    }
}

fn wait(scene: JournalScene<'_>, by: TaskNo, dice: &mut Dice) -> Request {
    Request::Wait {
        by,
        choices: choices(scene, by, dice),
        tail: tail(scene, by, dice),
        pick: dice.of_any_size(),
    }
}

/// Up to three families of entries, most of one or three.
fn families(scene: JournalScene<'_>, dice: &mut Dice) -> Families {
    let mut families = Families::new();
    for _ in 0..scene.how_many(dice) {
        if !families.is_full() {
            families.push(family(dice));
        }
    }
    families
}

fn family(dice: &mut Dice) -> Family {
    let low = dice.below(9) as i32 - 4;
    match dice.below(60) {
        0 => Family {
            low: i32::MIN,
            high: i32::MAX,
        },
        1 => Family {
            low,
            high: low + 400,
        },
        2 => Family { low, high: low - 1 },
        3..=20 => Family { low, high: low + 2 },
        _ => Family { low: 0, high: 0 },
    }
}
