//! What random requests are about: who may ask what, as a journal stands.

use ada_events::limits::MOST_FAMILIES;
use ada_events::{Family, Journal, Master, Member, TaskNo, Tasks};
use ada_reference::{
    families, frame, has_start, innermost, is_elaborated, is_running, making_of, moment,
};
use ada_test_requests::{Dice, SINGLE, Scene};

/// A journal, and how many tasks it has.
#[derive(Clone, Copy)]
pub struct JournalScene<'a> {
    pub journal: &'a Journal,
    pub tasks: u16,
}

impl Scene for JournalScene<'_> {
    type Task = TaskNo;

    fn any_task(self, dice: &mut Dice) -> TaskNo {
        if dice.one_in(40) {
            return TaskNo((dice.any() & 0xffff) as u16 >> dice.below(16));
        }
        TaskNo(dice.below(u32::from(self.tasks).max(1)) as u16)
    }

    fn wants_tasks(self, dice: &mut Dice) -> bool {
        self.tasks < 5 && !dice.one_in(10)
    }

    fn is_running(self, task: TaskNo) -> bool {
        is_running(self.journal.as_slice(), task)
    }

    fn is_activating(self, task: TaskNo) -> bool {
        !is_elaborated(self.journal.as_slice(), task)
    }

    fn innermost(self, task: TaskNo) -> Option<Member> {
        innermost(self.journal.as_slice(), task)
    }

    fn wants_to_leave(self, dice: &mut Dice) -> bool {
        dice.one_in(20)
    }

    fn may_wait_long(self, _task: TaskNo, _dice: &mut Dice) -> bool {
        true
    }

    fn has_to_activate(self, by: TaskNo) -> bool {
        !self.to_activate(by).is_empty()
    }

    fn to_activate(self, by: TaskNo) -> Tasks {
        let mut list = Tasks::new();
        for number in 0..self.tasks {
            let task = TaskNo(number);
            if self.may_activate(by, task) && !list.is_full() {
                list.push(task);
            }
        }
        list
    }

    fn families(self, task: TaskNo) -> u8 {
        let declared = families(self.journal.as_slice(), task);
        declared.len().min(MOST_FAMILIES) as u8
    }

    fn index(self, task: TaskNo, family: u8, dice: &mut Dice) -> i32 {
        let declared = families(self.journal.as_slice(), task).get(usize::from(family));
        index_in(declared.copied().unwrap_or(SINGLE), dice)
    }

    fn how_many(self, dice: &mut Dice) -> u32 {
        if dice.one_in(400) {
            return 256;
        }
        if dice.one_in(30) {
            return 0;
        }
        1 + dice.below(3)
    }

    fn duration(self, dice: &mut Dice) -> i64 {
        dice.duration(30)
    }
}

impl JournalScene<'_> {
    /// A task that runs, and rarely any task.
    pub fn asker(self, dice: &mut Dice) -> TaskNo {
        let first = self.any_task(dice);
        if dice.one_in(20) {
            return first;
        }
        for step in 0..self.tasks {
            let task = TaskNo(first.0.wrapping_add(step) % self.tasks.max(1));
            if self.is_running(task) {
                return task;
            }
        }
        first
    }

    /// A task that may have entries, and rarely any task.
    pub fn callee(self, dice: &mut Dice) -> TaskNo {
        let task = self.any_task(dice);
        if task.0 == 0 && self.tasks > 1 && !dice.one_in(8) {
            TaskNo(1)
        } else {
            task
        }
    }

    fn may_activate(self, by: TaskNo, task: TaskNo) -> bool {
        let events = self.journal.as_slice();
        match making_of(events, task) {
            Some(making) => making.by == by && !has_start(events, task),
            None => false,
        }
    }

    /// What a task is in, or what it may be in.
    pub fn master(self, by: TaskNo, dice: &mut Dice) -> Master {
        match dice.below(8) {
            0 => Master::Body(self.any_task(dice)),
            1 => Master::Block(dice.below(self.journal.len().max(1))),
            2 => Master::Body(by),
            _ => frame(self.journal.as_slice(), by),
        }
    }

    /// A moment to tick to: mostly soon, rarely of any size.
    pub fn moment(self, dice: &mut Dice) -> i64 {
        dice.moment(moment(self.journal.as_slice()), 6)
    }
}

/// One of the first three indices of a family.
fn index_in(family: Family, dice: &mut Dice) -> i32 {
    let index = family.low.wrapping_add(dice.below(3) as i32);
    if family.contains(index) {
        index
    } else {
        family.low
    }
}
