//! What random requests are about: who may ask what, as a kernel that keeps everything tells.

use crate::both::Both;
use crate::plainly::plain_task;
use ada_events::{Master, Member};
use ada_lasting::{LastingMaster, LastingTasks};
use ada_test_requests::{Dice, Scene};

/// The kernels, and what is known of their tasks.
#[derive(Clone, Copy)]
pub struct PairScene<'a> {
    pub both: &'a Both,
}

impl Scene for PairScene<'_> {
    type Task = u64;

    // Mostly a task that isn't terminated; any other that was made, and rarely one that never was.
    fn any_task(self, dice: &mut Dice) -> u64 {
        match dice.below(60) {
            0 => u64::from(dice.of_any_size()),
            1 => u64::MAX.wrapping_sub(u64::from(dice.below(3))),
            2 => self.tasks(),
            3..=7 => self.any_made(dice),
            _ => dice.pick(self.both.live.as_slice()).unwrap_or(0),
        }
    }

    fn wants_tasks(self, dice: &mut Dice) -> bool {
        self.alive() < 5 && !dice.one_in(4)
    }

    fn is_running(self, task: u64) -> bool {
        self.both.plain.running(plain_task(task)) == Some(true)
    }

    fn is_activating(self, task: u64) -> bool {
        match self.both.plain.record(plain_task(task)) {
            Some(record) => !record.stage.elaborated,
            None => false,
        }
    }

    fn innermost(self, task: u64) -> Option<Member> {
        let task = plain_task(task);
        if task.0 < self.both.plain.tasks() {
            self.both.plain.view().innermost(task)
        } else {
            None
        }
    }

    fn wants_to_leave(self, dice: &mut Dice) -> bool {
        dice.one_in(12)
    }

    // The main program mostly doesn't: it is the one that goes on when others are stuck.
    fn may_wait_long(self, task: u64, dice: &mut Dice) -> bool {
        task != 0 || dice.one_in(10)
    }

    fn has_to_activate(self, by: u64) -> bool {
        let live = self.both.live.as_slice();
        live.iter().any(|task| self.may_activate(by, *task))
    }

    fn to_activate(self, by: u64) -> LastingTasks {
        let mut list = LastingTasks::new();
        for task in self.both.live.as_slice() {
            if self.may_activate(by, *task) && !list.is_full() {
                list.push(*task);
            }
        }
        list
    }

    fn families(self, task: u64) -> u8 {
        match self.both.made.get(task as usize) {
            Some(made) => made.families,
            None => 0,
        }
    }

    fn index(self, task: u64, _family: u8, dice: &mut Dice) -> i32 {
        let low = match self.both.made.get(task as usize) {
            Some(made) => made.low,
            None => 0,
        };
        low.wrapping_add(dice.below(2) as i32)
    }

    fn how_many(self, dice: &mut Dice) -> u32 {
        match dice.below(400) {
            0 => 256,
            1..=12 => 0,
            _ => 1 + dice.below(3),
        }
    }

    fn duration(self, dice: &mut Dice) -> i64 {
        dice.duration(60)
    }
}

impl PairScene<'_> {
    /// How many tasks were made.
    pub fn tasks(self) -> u64 {
        self.both.made.len() as u64
    }

    /// How many tasks aren't terminated.
    pub fn alive(self) -> usize {
        self.both.live.len()
    }

    /// Any task that was made.
    pub fn any_made(self, dice: &mut Dice) -> u64 {
        dice.among(self.both.made.len()) as u64
    }

    /// A task that runs, and rarely any task.
    pub fn asker(self, dice: &mut Dice) -> u64 {
        if dice.one_in(25) {
            return self.any_task(dice);
        }
        let live = self.both.live.as_slice();
        let first = dice.among(live.len());
        for step in 0..live.len() {
            let place = first.wrapping_add(step) % live.len().max(1);
            let task = live.get(place).copied().unwrap_or(0);
            if self.is_running(task) {
                return task;
            }
        }
        self.any_task(dice)
    }

    /// Whether any task runs.
    pub fn is_anybody_running(self) -> bool {
        let live = self.both.live.as_slice();
        live.iter().any(|task| self.is_running(*task))
    }

    /// The body or the innermost block that a task is in.
    fn frame(self, task: u64) -> LastingMaster {
        let plain = plain_task(task);
        if plain.0 >= self.both.plain.tasks() {
            return LastingMaster::Body(task);
        }
        match self.both.plain.view().frame(plain) {
            Master::Body(_) => LastingMaster::Body(task),
            Master::Block(position) => LastingMaster::Block(u64::from(position)),
        }
    }

    /// The master of a new task: mostly what its maker is in, or what that depends on.
    pub fn master(self, by: u64, dice: &mut Dice) -> LastingMaster {
        match dice.below(24) {
            0 => LastingMaster::Body(self.any_task(dice)),
            1 => LastingMaster::Block(u64::from(dice.below(
                self.both.plain.journal().len().max(1),
            ))),
            2 => LastingMaster::Block(u64::from(dice.any()) << dice.below(32)),
            3..=5 => LastingMaster::Body(by),
            6..=9 => self.outer(by),
            _ => self.frame(by),
        }
    }

    // What a task depends on.
    fn outer(self, task: u64) -> LastingMaster {
        match self.both.made.get(task as usize) {
            Some(made) => made.master,
            None => LastingMaster::Body(task),
        }
    }

    fn may_activate(self, by: u64, task: u64) -> bool {
        let is_named = match self.both.plain.record(plain_task(task)) {
            Some(record) => record.stage.named,
            None => true,
        };
        match self.both.made.get(task as usize) {
            Some(made) => task != 0 && made.maker == by && !is_named,
            None => false,
        }
    }

    /// A moment to tick to: mostly soon, rarely of any size.
    pub fn moment(self, dice: &mut Dice) -> i64 {
        dice.moment(self.both.plain.view().moment(), 8)
    }
}
