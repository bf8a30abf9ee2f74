//! Trials of a kernel that lives on beside 256 tasks that live, where no compaction finds room.

use crate::lasting::{
    CLIENT, LAST, SERVER, activate, are_alike, call_of, create, show_the_same, up,
};
use crate::trial::{Answer, Trial};
use ada_events::limits::MOST_TASKS;
use ada_events::{Patience, Refusal};
use ada_lasting::{LastingRequest, LongKernel, NotDone};
use std::alloc::Global;

/// A request to such a kernel.
#[derive(Clone, Copy, Debug, PartialEq, Eq)]
pub enum CrowdCall {
    /// The first creation for which there is no room. A compaction is tried.
    First,
    /// One that follows another and a tick. A compaction is tried again.
    Later,
    /// One that follows another. None is tried.
    Again,
    /// A tick that follows one before which a compaction was due. None is tried.
    Tick,
}

impl CrowdCall {
    /// Its name.
    pub fn name(self) -> &'static str {
        match self {
            CrowdCall::First => "LongKernel::step:crowded",
            CrowdCall::Later => "LongKernel::step:crowded_later",
            CrowdCall::Again => "LongKernel::step:crowded_again",
            CrowdCall::Tick => "LongKernel::step:put_off",
        }
    }

    /// The number of events at which the present journal is due to be made shorter: soon, or in no trial.
    fn threshold(self) -> u32 {
        match self {
            CrowdCall::Tick => SOON,
            _ => LATE,
        }
    }
}

const SOON: u32 = 300;

const LATE: u32 = 60_000;

/// A kernel that lives on beside 256 tasks that live.
#[derive(Drop)]
pub struct Crowd {
    call: CrowdCall,
    kernel: Option<LongKernel>,
}

impl Crowd {
    /// Before a call.
    pub fn prepare(alloc: Global, call: CrowdCall) -> Crowd {
        let mut crowd = Crowd {
            call,
            kernel: LongKernel::new(alloc, call.threshold()).ok(),
        };
        crowd.fill();
        crowd.lead();
        crowd
    }

    // There are as many tasks as there may be. The outcome of a call that was cancelled would take one more.
    fn fill(&mut self) {
        for _ in 1..MOST_TASKS {
            self.ask(create());
        }
        self.ask(activate());
        self.ask(up(SERVER));
        self.ask(up(CLIENT));
        self.ask(up(LAST));
        self.ask(call_of(CLIENT, Patience::Conditional));
    }

    // What comes between that and the call.
    fn lead(&mut self) {
        match self.call {
            CrowdCall::First => {}
            CrowdCall::Later => {
                self.create();
                self.tick();
            }
            CrowdCall::Again => {
                self.create();
            }
            CrowdCall::Tick => self.pass_due(),
        }
    }

    // Ticks until one came at which a compaction was due.
    fn pass_due(&mut self) {
        for _ in 0..SOON {
            if self.events() <= SOON {
                self.tick();
            }
        }
    }

    // How many events the present journal has.
    fn events(&self) -> u32 {
        match &self.kernel {
            Some(kernel) => kernel.kept(),
            None => 0,
        }
    }

    fn ask(&mut self, request: LastingRequest) -> Answer {
        let Some(kernel) = &mut self.kernel else {
            return Answer::Failed;
        };
        match kernel.step(request) {
            Ok(_) => Answer::Done,
            Err(_) => Answer::Failed,
        }
    }

    fn tick(&mut self) -> Answer {
        self.ask(LastingRequest::Tick { now: 0 })
    }

    // A creation, which is refused: for want of memory too, if its name finds no room.
    fn create(&mut self) -> Answer {
        let Some(kernel) = &mut self.kernel else {
            return Answer::Failed;
        };
        match kernel.step(create()) {
            Err(NotDone::Refused(Refusal::TooManyTasks)) => Answer::Done,
            Err(NotDone::Refused(Refusal::OutOfMemory)) => Answer::Refused,
            _ => Answer::Failed,
        }
    }
}

impl Trial for Crowd {
    fn call(&mut self) -> Answer {
        match self.call {
            CrowdCall::Tick => self.tick(),
            _ => self.create(),
        }
    }

    fn go_on(&mut self) {
        self.tick();
        self.create();
    }

    fn is_like(&self, other: &Crowd) -> bool {
        match (&self.kernel, &other.kernel) {
            (Some(kernel), Some(other)) => {
                are_alike(kernel, other)
                    && show_the_same(kernel, other)
                    && kernel.keeps_the_same(other)
            }
            _ => false,
        }
    }
}
