//! Random runs of a kernel that lives on and of one that keeps everything, side by side.

use crate::both::Both;
use crate::mixes::MIXES;
use crate::requests::{made, request};
use crate::scenes::PairScene;
use crate::unlike::Unlike;
use ada_lasting::LastingRequest;
use ada_test_requests::{Dice, Mix, Scene};
use std::alloc::Global;

/// The numbers of events from which on the present journal is made shorter.
const THRESHOLDS: [u32; 5] = [30, 100, 400, 0, 30];

/// A run ends before the kernel that keeps everything has no room for more.
const MOST_TASKS: u16 = 250;

const MOST_SLOTS: u16 = 1000;

const MOST_EVENTS: u32 = 60_000;

/// How many requests in turn may find nobody who runs, before the run ends.
const STANDSTILLS: u32 = 12;

/// A run: its number, its mix, its threshold and how many requests it has at most.
#[derive(Clone, Copy)]
pub struct Run {
    pub number: u64,
    pub mix: Mix,
    pub threshold: u32,
    pub length: u64,
}

/// What came up in runs.
#[derive(Clone, Copy, Debug, Default)]
pub struct Sum {
    pub runs: u64,
    pub asked: u64,
    pub accepted: u64,
    pub events: u64,
    pub tasks: u64,
    pub given_up: u64,
    /// Compactions that found no room for helpers.
    pub crowded: u64,
    /// The kinds of events that came up, a bit for each: bits 1 to 22.
    pub kinds: u64,
}

/// The bits of all kinds of events.
pub const ALL_KINDS: u64 = (1 << 23) - 2;

/// Where a run found a difference: after so many requests of it.
#[derive(Clone, Copy, Debug)]
pub struct Found {
    pub request: u64,
    pub unlike: Unlike,
}

impl Run {
    /// The run of a number, with up to so many requests and a sixteenth to two of them.
    pub fn new(number: u64, length: u64) -> Run {
        let mix = MIXES[(number % 4) as usize];
        let threshold = THRESHOLDS[(number / 4 % 5) as usize];
        let length = (length / 16).saturating_mul(1 + number % 31);
        Run {
            number,
            mix,
            threshold,
            length,
        }
    }

    /// The request that follows as the kernels stand.
    pub fn request(&self, both: &Both, number: u64) -> LastingRequest {
        request(
            PairScene { both },
            self.mix,
            &mut self.dice(number.wrapping_mul(2)),
        )
    }

    fn dice(&self, number: u64) -> Dice {
        Dice::new(self.number.wrapping_mul(1 << 20).wrapping_add(number))
    }

    /// Plays the run from two fresh kernels. What both answer and append is compared after each request, and what they
    /// show after each tenth.
    pub fn play(&self, alloc: Global, sum: &mut Sum) -> Result<(), Found> {
        let mut both = match Both::new(alloc, self.threshold) {
            Ok(both) => both,
            Err(unlike) => return Err(Found { request: 0, unlike }),
        };
        self.play_on(&mut both, sum)?;
        sum.runs = sum.runs.wrapping_add(1);
        sum.tasks = sum.tasks.wrapping_add(both.tasks());
        sum.events = sum
            .events
            .wrapping_add(u64::from(both.plain.journal().len()));
        sum.given_up = sum.given_up.wrapping_add(both.how_many_given_up());
        sum.crowded = sum.crowded.wrapping_add(both.crowded);
        sum.kinds |= both.kinds;
        Ok(())
    }

    fn play_on(&self, both: &mut Both, sum: &mut Sum) -> Result<(), Found> {
        let mut still = 0u32;
        for number in 0..self.length {
            if !has_room(both) || still > STANDSTILLS {
                break;
            }
            match self.play_one(both, number) {
                Ok(accepted) => sum.accepted = sum.accepted.wrapping_add(u64::from(accepted)),
                Err(unlike) => {
                    return Err(Found {
                        request: number,
                        unlike,
                    });
                }
            }
            sum.asked = sum.asked.wrapping_add(1);
            still = if is_anybody_running(both) {
                0
            } else {
                still.wrapping_add(1)
            };
        }
        Ok(())
    }

    /// One request, and what comes after it. Whether it was accepted.
    pub fn play_one(&self, both: &mut Both, number: u64) -> Result<bool, Unlike> {
        let asked = self.request(both, number);
        let again = self.request(both, number);
        let made = made(&again);
        let accepted = both.step(asked, &again, made)?;
        if number % 10 == 9 {
            both.compare()?;
        }
        disturb(both, &mut self.dice(number.wrapping_mul(2).wrapping_add(1)))?;
        Ok(accepted)
    }
}

fn is_anybody_running(both: &Both) -> bool {
    let scene = PairScene { both };
    scene.is_anybody_running()
}

fn has_room(both: &Both) -> bool {
    both.plain.tasks() < MOST_TASKS
        && slots(both) < MOST_SLOTS
        && both.plain.journal().len() < MOST_EVENTS
}

// How many entries all tasks have.
fn slots(both: &Both) -> u16 {
    both.plain.view().tables().slots()
}

// What comes between two requests, now and then.
fn disturb(both: &mut Both, dice: &mut Dice) -> Result<(), Unlike> {
    if dice.one_in(40) {
        both.compact()?;
        both.compare()?;
    }
    if dice.one_in(15) {
        let task = to_release(both, dice);
        both.release(task)?;
    }
    Ok(())
}

// Mostly any task that was made.
fn to_release(both: &Both, dice: &mut Dice) -> u64 {
    let scene = PairScene { both };
    if dice.one_in(3) {
        scene.any_task(dice)
    } else {
        scene.any_made(dice)
    }
}
