//! A kernel that lives on beside one that keeps everything: the same requests, and all that both answer compared.

use crate::lines::tells;
use crate::plainly::{listed, other, plain_master, plain_request, plain_task};
use crate::unlike::{Unlike, want};
use ada_border::events::plain_of;
use ada_compact::NotCompacted;
use ada_events::{Event, Master, Member, Refusal, TaskNo};
use ada_kernel::Kernel;
use ada_lasting::{LastingMaster, LastingRequest, LongKernel, NotDone};
use std::alloc::Global;

/// What is known of a task that was made: who made it, on whom it depends, how many families of entries it has, and the
/// low bound of each.
#[derive(Clone, Copy)]
pub struct Made {
    pub maker: u64,
    pub master: LastingMaster,
    pub families: u8,
    pub low: i32,
}

/// Both kernels.
#[derive(Drop)]
pub struct Both {
    pub(crate) plain: Kernel,
    pub(crate) long: LongKernel,
    // Every task that was made, the main program first, and whether it was given up.
    pub(crate) made: Vec<Made>,
    given_up: Vec<bool>,
    // The tasks that aren't terminated.
    pub(crate) live: Vec<u64>,
    // How many compactions found no room for helpers.
    pub(crate) crowded: u64,
    // The kinds of events that came up, a bit for each.
    pub(crate) kinds: u64,
}

const MAIN: Made = Made {
    maker: 0,
    master: LastingMaster::Body(0),
    families: 0,
    low: 0,
};

/// What the answer of a kernel that keeps everything is called by one that lives on.
fn as_lasting(answer: Result<u32, Refusal>) -> Result<u64, NotDone> {
    match answer {
        Ok(at) => Ok(u64::from(at)),
        Err(cause) => Err(NotDone::Refused(cause)),
    }
}

/// Whether a kernel that keeps everything says that a master is terminated or left.
fn is_gone(plain: &Kernel, master: LastingMaster) -> bool {
    match plain_master(master) {
        Master::Body(task) => plain.terminated(task) != Some(false),
        Master::Block(block) => match plain.journal().get(block) {
            Some(Event::Opened { by, .. }) => is_left(plain, *by, block),
            _ => true,
        },
    }
}

// Whether a block of a task is left, or its task terminated within it.
fn is_left(plain: &Kernel, by: TaskNo, block: u32) -> bool {
    if by.0 >= plain.tasks() || plain.terminated(by) != Some(false) {
        return true;
    }
    let view = plain.view();
    let nest = view.nest(by);
    !(0..nest.len()).any(|place| nest.get(place) == Some(Member::Block(block)))
}

impl Both {
    /// Both with empty journals.
    pub fn new(alloc: Global, threshold: u32) -> Result<Self, Unlike> {
        let Ok(plain) = Kernel::new(alloc) else {
            return Err(Unlike::OutOfMemory);
        };
        let Ok(long) = LongKernel::new(alloc, threshold) else {
            return Err(Unlike::OutOfMemory);
        };
        let mut both = Both {
            plain,
            long,
            made: Vec::new(alloc),
            given_up: Vec::new(alloc),
            live: Vec::new(alloc),
            crowded: 0,
            kinds: 0,
        };
        both.add(MAIN)?;
        Ok(both)
    }

    fn add(&mut self, made: Made) -> Result<(), Unlike> {
        self.live.push(self.made.len() as u64)?;
        self.given_up.push(false)?;
        self.made.push(made)?;
        Ok(())
    }

    /// How many tasks were made, the main program counted.
    pub fn tasks(&self) -> u64 {
        self.made.len() as u64
    }

    /// How many tasks and events the present journal has.
    pub fn present(&self) -> (u16, u32) {
        (self.long.kept_tasks(), self.long.kept())
    }

    /// How many tasks were given up.
    pub fn how_many_given_up(&self) -> u64 {
        self.given_up.iter().filter(|gone| **gone).count() as u64
    }

    pub(crate) fn is_given_up(&self, task: u64) -> bool {
        self.given_up.get(task as usize) == Some(&true)
    }

    fn give_up(&mut self, task: u64) {
        if let Some(gone) = self.given_up.get_mut(task as usize) {
            *gone = true;
        }
    }

    // Whether a request names a task that was given up.
    fn names_given_up(&self, request: &LastingRequest) -> bool {
        self.is_one_given_up(request.by())
            || self.is_one_given_up(other(request))
            || listed(request).iter().any(|task| self.is_given_up(*task))
    }

    fn is_one_given_up(&self, task: Option<u64>) -> bool {
        match task {
            Some(task) => self.is_given_up(task),
            None => false,
        }
    }

    /// Makes a request of both, which is given twice, and compares what they answer and append. What it makes is known
    /// before. Whether it was accepted.
    pub fn step(
        &mut self,
        request: LastingRequest,
        again: &LastingRequest,
        made: Option<Made>,
    ) -> Result<bool, Unlike> {
        let answer = self.long.step(request);
        self.note_given_up()?;
        if self.names_given_up(again) {
            want(self.is_given_up_answer(again, answer), Unlike::Answer)?;
            return Ok(false);
        }
        let before = self.plain.journal().len();
        let wanted = as_lasting(self.plain.step(plain_request(again)));
        want(answer == wanted, Unlike::Answer)?;
        if wanted.is_err() {
            return Ok(false);
        }
        self.compare_events(before as usize)?;
        if let Some(made) = made {
            self.add(made)?;
        }
        let plain = &self.plain;
        self.live
            .retain(|task| plain.terminated(plain_task(*task)) == Some(false));
        Ok(true)
    }

    // Whether the answer is that a task was given up which the request names, and which was.
    fn is_given_up_answer(&self, request: &LastingRequest, answer: Result<u64, NotDone>) -> bool {
        match answer {
            Err(NotDone::GivenUp(task)) => {
                let is_named = request.by() == Some(task)
                    || other(request) == Some(task)
                    || listed(request).contains(&task);
                is_named && self.is_given_up(task)
            }
            _ => false,
        }
    }

    // Whether a compaction may give a task up: it is terminated, and its master is terminated or left.
    fn may_be_given_up(&self, task: u64) -> bool {
        let ended = self.plain.terminated(plain_task(task)) == Some(true);
        match self.made.get(task as usize) {
            Some(made) => task != 0 && ended && is_gone(&self.plain, made.master),
            None => false,
        }
    }

    // Notes which tasks have no names any more, before the kernel that keeps everything is asked.
    fn note_given_up(&mut self) -> Result<(), Unlike> {
        for task in 0..self.made.len() as u64 {
            if !self.is_given_up(task) && self.long.terminated(task).is_none() {
                want(self.may_be_given_up(task), Unlike::GivenUp(task))?;
                self.give_up(task);
            }
        }
        Ok(())
    }

    // The events of the last group are told alike.
    fn compare_events(&mut self, before: usize) -> Result<(), Unlike> {
        let wanted = self.plain.journal().as_slice().get(before..).unwrap_or(&[]);
        want(self.long.events() == wanted.len(), Unlike::Length)?;
        for (at, event) in wanted.iter().enumerate() {
            self.kinds |= 1 << (plain_of(event).kind % 64);
            want(tells(&self.long, at, event), Unlike::Event(at))?;
        }
        Ok(())
    }

    /// Makes the present journal shorter: who is given up then is exactly who may be.
    pub fn compact(&mut self) -> Result<(), Unlike> {
        match self.long.compact() {
            Ok(()) => {}
            Err(NotDone::NotCompacted(NotCompacted::NoRoom(_))) => {
                self.crowded = self.crowded.wrapping_add(1);
                return Ok(());
            }
            Err(_) => return Err(Unlike::Compaction),
        }
        self.note_given_up()?;
        for task in 0..self.made.len() as u64 {
            let is_right = self.is_given_up(task) || !self.may_be_given_up(task);
            want(is_right, Unlike::Kept(task))?;
        }
        want(self.long.events() == 0, Unlike::Length)
    }

    // What the answer to a release is to be.
    fn wanted_release(&self, task: u64) -> Result<(), NotDone> {
        if task == 0 {
            return Err(NotDone::Refused(Refusal::MainTask));
        }
        if self.is_given_up(task) {
            return Err(NotDone::GivenUp(task));
        }
        match self.plain.terminated(plain_task(task)) {
            Some(true) => Ok(()),
            Some(false) => Err(NotDone::NotTerminated(task)),
            None => Err(NotDone::Refused(Refusal::UnknownTask)),
        }
    }

    /// Gives a task up, or is told why not.
    pub fn release(&mut self, task: u64) -> Result<(), Unlike> {
        let wanted = self.wanted_release(task);
        let answer = self.long.release(task);
        want(answer == wanted, Unlike::Release(task))?;
        if answer.is_ok() {
            self.give_up(task);
        }
        Ok(())
    }
}
