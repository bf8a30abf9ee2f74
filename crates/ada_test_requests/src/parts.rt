//! Parts of random requests, which mostly make sense.

use crate::dice::Dice;
use crate::kinds::{Kind, Mix};
use crate::scene::Scene;
use ada_events::limits::MOST_TASKS;
use ada_events::{Bounded, Choice, Choices, Entry, Member, Patience, Pause, Pauses, Tail};

/// The kind of what a task asks, in a run of this mix.
pub fn next_kind<S: Scene>(scene: S, mix: Mix, by: S::Task, dice: &mut Dice) -> Kind {
    match what_comes_next(scene, by, dice) {
        Some(kind) => kind,
        None => dice.pick(mix.kinds).unwrap_or(Kind::Tick),
    }
}

/// What a task would mostly do now, so that runs go on.
fn what_comes_next<S: Scene>(scene: S, by: S::Task, dice: &mut Dice) -> Option<Kind> {
    if !scene.is_running(by) && !dice.one_in(4) {
        return Some(Kind::Tick);
    }
    if scene.wants_tasks(dice) {
        return Some(Kind::Create);
    }
    if !dice.one_in(4) && scene.has_to_activate(by) {
        return Some(Kind::Activate);
    }
    match scene.innermost(by) {
        None if scene.is_activating(by) && !dice.one_in(3) => Some(Kind::Elaborated),
        Some(Member::Rendezvous(_)) if dice.one_in(4) => Some(Kind::End),
        Some(Member::Block(_)) if scene.wants_to_leave(dice) => Some(Kind::Close),
        _ => None,
    }
}

/// Up to three tasks, rarely none.
pub fn some_tasks<S: Scene>(scene: S, dice: &mut Dice) -> Bounded<S::Task, MOST_TASKS> {
    let mut list = Bounded::new();
    for _ in 0..scene.how_many(dice) {
        if !list.is_full() {
            list.push(scene.any_task(dice));
        }
    }
    list
}

/// Mostly what a task has yet to activate.
pub fn to_activate<S: Scene>(
    scene: S,
    by: S::Task,
    dice: &mut Dice,
) -> Bounded<S::Task, MOST_TASKS> {
    if dice.one_in(8) {
        some_tasks(scene, dice)
    } else {
        scene.to_activate(by)
    }
}

/// An entry of a task, and rarely one that it doesn't have.
pub fn entry<S: Scene>(scene: S, task: S::Task, dice: &mut Dice) -> Entry {
    let family = dice.below(u32::from(scene.families(task).max(1))) as u8;
    if dice.one_in(25) {
        return Entry {
            family: family.wrapping_add(dice.below(3) as u8),
            index: dice.any().cast_signed() >> dice.below(32),
        };
    }
    Entry {
        family,
        index: scene.index(task, family, dice),
    }
}

/// How long a call waits.
pub fn patience<S: Scene>(scene: S, by: S::Task, dice: &mut Dice) -> Patience {
    match dice.below(5) {
        0 => Patience::Conditional,
        1 => Patience::Timed(scene.duration(dice)),
        _ if scene.may_wait_long(by, dice) => Patience::Simple,
        _ => Patience::Timed(scene.duration(dice)),
    }
}

/// The accept alternatives of a wait.
pub fn choices<S: Scene>(scene: S, by: S::Task, dice: &mut Dice) -> Choices {
    let mut choices = Choices::new();
    for _ in 0..scene.how_many(dice) {
        if !choices.is_full() {
            choices.push(Choice {
                guard: !dice.one_in(5),
                entry: entry(scene, by, dice),
            });
        }
    }
    choices
}

/// What a wait has beside its accept alternatives.
pub fn tail<S: Scene>(scene: S, by: S::Task, dice: &mut Dice) -> Tail {
    match dice.below(7) {
        0 => Tail::Otherwise,
        1 => Tail::Delays(pauses(scene, dice)),
        2 | 3 => Tail::Terminate(!dice.one_in(4)),
        _ if scene.may_wait_long(by, dice) => Tail::Nothing,
        _ => Tail::Delays(pauses(scene, dice)),
    }
}

fn pauses<S: Scene>(scene: S, dice: &mut Dice) -> Pauses {
    let mut pauses = Pauses::new();
    for _ in 0..scene.how_many(dice) {
        if !pauses.is_full() {
            pauses.push(Pause {
                guard: !dice.one_in(4),
                duration: scene.duration(dice),
            });
        }
    }
    pauses
}
