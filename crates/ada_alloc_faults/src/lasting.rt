//! Trials of a kernel that lives on.

use crate::trial::{Answer, Trial};
use ada_compact::NotCompacted;
use ada_events::{Choice, Choices, Entry, Families, Family, Patience, Refusal, Tail};
use ada_lasting::{LastingMaster, LastingRequest, LastingTasks, LongKernel, NotDone};
use std::alloc::Global;

/// A call of a kernel that lives on.
#[derive(Clone, Copy, Debug, PartialEq, Eq)]
pub enum LastingCall {
    New,
    /// A creation.
    Create,
    /// A tick and a creation before which the present journal is due to be made shorter.
    DueTick,
    DueCreate,
    /// The making of a shorter journal alone.
    Compact,
}

impl LastingCall {
    /// Its name.
    pub fn name(self) -> &'static str {
        match self {
            LastingCall::New => "LongKernel::new",
            LastingCall::Create => "LongKernel::step:create",
            LastingCall::DueTick => "LongKernel::step:due_tick",
            LastingCall::DueCreate => "LongKernel::step:due_create",
            LastingCall::Compact => "LongKernel::compact",
        }
    }

    fn is_due(self) -> bool {
        matches!(self, LastingCall::DueTick | LastingCall::DueCreate)
    }

    /// The number of events at which the present journal is made shorter: soon, or in no trial.
    fn threshold(self) -> u32 {
        if self.is_due() { SOON } else { LATE }
    }
}

const MAIN: u64 = 0;

pub const SERVER: u64 = 1;

pub const CLIENT: u64 = 2;

pub const LAST: u64 = 3;

const ENTRY: Entry = Entry {
    family: 0,
    index: 0,
};

const SOON: u32 = 64;

const LATE: u32 = 60_000;

/// A kernel that lives on.
#[derive(Drop)]
pub struct Living {
    alloc: Global,
    call: LastingCall,
    kernel: Option<LongKernel>,
    /// The position that the last accepted request was answered.
    at: u64,
    moment: i64,
}

pub fn create() -> LastingRequest {
    LastingRequest::Create {
        by: MAIN,
        master: LastingMaster::Body(MAIN),
        families: Families::from_slice(&[Family { low: 0, high: 0 }]),
    }
}

pub fn activate() -> LastingRequest {
    LastingRequest::Activate {
        by: MAIN,
        tasks: LastingTasks::from_slice(&[SERVER, CLIENT, LAST]),
    }
}

pub fn up(by: u64) -> LastingRequest {
    LastingRequest::Elaborated { by, ok: true }
}

pub fn call_of(by: u64, patience: Patience) -> LastingRequest {
    LastingRequest::Call {
        by,
        callee: SERVER,
        entry: ENTRY,
        patience,
    }
}

fn accept() -> LastingRequest {
    LastingRequest::Wait {
        by: SERVER,
        choices: Choices::from_slice(&[Choice {
            guard: true,
            entry: ENTRY,
        }]),
        tail: Tail::Nothing,
        pick: 0,
    }
}

fn end() -> LastingRequest {
    LastingRequest::End {
        by: SERVER,
        raised: false,
    }
}

impl Living {
    /// Before a call, with so many tasks.
    pub fn prepare(alloc: Global, call: LastingCall, tasks: usize) -> Living {
        let mut living = Living {
            alloc,
            call,
            kernel: None,
            at: 0,
            moment: 0,
        };
        if call != LastingCall::New {
            living.make();
            living.begin();
            for _ in 1..tasks {
                living.ask(create());
            }
            living.fill();
        }
        living
    }

    fn make(&mut self) -> Answer {
        match LongKernel::new(self.alloc, self.call.threshold()) {
            Ok(kernel) => {
                self.kernel = Some(kernel);
                Answer::Done
            }
            Err(cause) => answer_of(cause),
        }
    }

    fn ask(&mut self, request: LastingRequest) -> Answer {
        let Some(kernel) = &mut self.kernel else {
            return Answer::Failed;
        };
        match kernel.step(request) {
            Ok(at) => {
                self.at = at;
                Answer::Done
            }
            Err(cause) => answer_of(cause),
        }
    }

    // A server, a client, and a task that terminates, and may still be named; a block; a call that is cancelled; one
    // that is served; and one that is queued while the server is delayed.
    fn begin(&mut self) {
        for _ in 0..3 {
            self.ask(create());
        }
        self.ask(activate());
        self.ask(up(SERVER));
        self.ask(up(CLIENT));
        self.ask(up(LAST));
        self.ask(LastingRequest::Complete { by: LAST });
        self.ask(LastingRequest::Open { by: CLIENT });
        self.ask(call_of(CLIENT, Patience::Conditional));
        self.meet();
        self.ask(LastingRequest::Delay {
            by: SERVER,
            duration: 5,
        });
        self.ask(call_of(CLIENT, Patience::Timed(100)));
    }

    fn meet(&mut self) {
        self.ask(call_of(CLIENT, Patience::Simple));
        self.ask(accept());
        self.ask(end());
    }

    // Ticks until the present journal is due to be made shorter.
    fn fill(&mut self) {
        for _ in 0..SOON {
            if self.events() < SOON {
                self.tick();
            }
        }
    }

    fn tick(&mut self) -> Answer {
        self.ask(LastingRequest::Tick { now: self.moment })
    }

    // How many events the present journal has.
    fn events(&self) -> u32 {
        match &self.kernel {
            Some(kernel) => kernel.kept(),
            None => 0,
        }
    }

    // A due request is accepted though there is no memory for a shorter journal: the present one grows. It is refused
    // only if it needs memory of its own.
    fn ask_due(&mut self, request: LastingRequest) -> Answer {
        let before = self.events();
        match self.ask(request) {
            Answer::Done if self.events() > before => Answer::Behind,
            Answer::Refused if self.call == LastingCall::DueTick => Answer::Failed,
            answer => answer,
        }
    }

    fn compact(&mut self) -> Answer {
        match &mut self.kernel {
            Some(kernel) => match kernel.compact() {
                Ok(()) => Answer::Done,
                Err(cause) => answer_of(cause),
            },
            None => Answer::Failed,
        }
    }

    fn release(&mut self, task: u64) {
        if let Some(kernel) = &mut self.kernel {
            let _ = kernel.release(task);
        }
    }
}

fn answer_of(cause: NotDone) -> Answer {
    match cause {
        NotDone::Refused(Refusal::OutOfMemory) | NotDone::NotCompacted(NotCompacted::OutOfMemory) =>
            Answer::Refused,
        _ => Answer::Failed,
    }
}

impl Trial for Living {
    fn call(&mut self) -> Answer {
        match self.call {
            LastingCall::New => self.make(),
            LastingCall::Create => self.ask(create()),
            LastingCall::DueTick => self.ask_due(LastingRequest::Tick { now: self.moment }),
            LastingCall::DueCreate => self.ask_due(create()),
            LastingCall::Compact => self.compact(),
        }
    }

    // Time passes, in which a due journal is made shorter; the queued call is served; a task is given up.
    fn go_on(&mut self) {
        self.moment = self.moment.wrapping_add(10);
        for _ in 0..SOON {
            self.tick();
        }
        self.ask(accept());
        self.ask(end());
        self.ask(create());
        self.ask(LastingRequest::Close { by: CLIENT });
        self.ask(LastingRequest::Complete { by: CLIENT });
        self.release(CLIENT);
        if !self.call.is_due() {
            self.compact();
        }
        self.ask(create());
    }

    fn is_like(&self, other: &Living) -> bool {
        self.at == other.at
            && match (&self.kernel, &other.kernel) {
                (Some(kernel), Some(other_kernel)) if self.call.is_due() => {
                    are_alike(kernel, other_kernel) && is_short(kernel)
                }
                (Some(kernel), Some(other_kernel)) => {
                    are_alike(kernel, other_kernel)
                        && show_the_same(kernel, other_kernel)
                        && kernel.keeps_the_same(other_kernel)
                }
                (None, None) => true,
                _ => false,
            }
    }
}

// Whether the present journal was made shorter, or is due for the first time.
fn is_short(kernel: &LongKernel) -> bool {
    kernel.kept() < 2 * SOON
}

// Whether two kernels follow as many events and tasks, and tell the same of each task by its lasting name.
pub fn are_alike(kernel: &LongKernel, other: &LongKernel) -> bool {
    kernel.tasks() == other.tasks()
        && kernel.length() == other.length()
        && (0..kernel.tasks()).all(|task| tell_the_same(kernel, other, task))
}

// Whether two kernels show the same events of their last request.
pub fn show_the_same(kernel: &LongKernel, other: &LongKernel) -> bool {
    kernel.events() == other.events()
        && (0..kernel.events()).all(|at| kernel.event(at) == other.event(at))
}

fn tell_the_same(kernel: &LongKernel, other: &LongKernel, task: u64) -> bool {
    kernel.terminated(task) == other.terminated(task)
        && kernel.callable(task) == other.callable(task)
        && kernel.running(task) == other.running(task)
        && kernel.count(task, ENTRY) == other.count(task, ENTRY)
}
