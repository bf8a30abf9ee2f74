//! The requests of some work, to a kernel that has so many tasks more, which have nothing to do.

ghost use Rattle.std.specs.Prelude.{◌≤◌, ◌+◌};

use crate::jobs::{Plan, Taker};
use crate::works::Work;
use ada_events::{
    Bounded, Choice, Choices, Entry, Families, Family, Master, Patience, Request, Tail, TaskNo,
    Tasks,
};

/// Some work of a size, beside so many idle tasks, of which as many are left out as there is no room for.
#[derive(Clone, Copy, Debug)]
pub struct Beside {
    pub work: Work,
    pub size: usize,
    pub idle: u16,
}

const MAIN: TaskNo = TaskNo(0);

/// The most tasks beside the main program.
const MOST: u16 = 255;

/// The events of a rendezvous: its call, the wait for it, their meeting, and its end.
const ROUND: usize = 4;

/// How many rendezvous a late thousand of events has.
const LATE_ROUNDS: usize = 250;

/// The one entry of each task.
const ENTRY: Entry = Entry {
    family: 0,
    index: 0,
};

impl Beside {
    /// How many tasks have something to do, at most 255.
    fn busy(self) -> u16
        ensures { result ≤ 255 }
    {
        match self.work {
            Work::PingPong | Work::Late => 2,
            Work::Abort | Work::Quit | Work::Call => self.size.min(usize::from(MOST)) as u16,
            Work::Tick => 0,
        }
    }

    /// How many tasks have nothing to do, beside so many that have.
    fn idle_beside(self, busy: u16) -> u16
        requires { busy ≤ 255 }
        ensures { result + busy ≤ 255 }
    {
        self.idle.min(MOST - busy)
    }
}

impl Plan for Beside {
    fn prepare<T: Taker>(&self, taker: &mut T) {
        let busy = self.busy();
        let idle = self.idle_beside(busy);
        match self.work {
            Work::Quit => wait_to_quit(taker, idle, busy),
            _ => make_tasks(taker, Master::Body(MAIN), 1, busy + idle),
        }
        match self.work {
            Work::Abort => chain(taker, busy),
            Work::Late => rounds(taker, self.size / ROUND),
            _ => {}
        }
    }

    fn measured<T: Taker>(&self, taker: &mut T) {
        match self.work {
            Work::PingPong => rounds(taker, self.size),
            Work::Late => rounds(taker, LATE_ROUNDS),
            Work::Abort => taker.take(Request::Abort {
                by: MAIN,
                tasks: tasks(1, self.busy()),
            }),
            Work::Quit => taker.take(Request::Close { by: MAIN }),
            Work::Tick => ticks(taker, self.size),
            Work::Call => calls(taker, self.busy()),
        }
    }
}

/// So many rendezvous between tasks 1 and 2.
fn rounds<T: Taker>(taker: &mut T, count: usize) {
    for _ in 0..count {
        meet(taker, TaskNo(1), TaskNo(2));
        taker.take(Request::End {
            by: TaskNo(2),
            raised: false,
        });
    }
}

/// Rendezvous within one another: each of so many tasks calls the next within its own.
fn chain<T: Taker>(taker: &mut T, last: u16) {
    for task in 1..last {
        meet(taker, TaskNo(task), TaskNo(task + 1));
    }
}

/// A call of task 1 by each task behind it up to this one.
fn calls<T: Taker>(taker: &mut T, last: u16) {
    for caller in 1..last {
        call(taker, TaskNo(caller + 1), TaskNo(1));
    }
}

/// So many ticks, each to the next moment.
fn ticks<T: Taker>(taker: &mut T, count: usize) {
    for now in 0..count.min(65_536) as i64 {
        taker.take(Request::Tick { now });
    }
}

/// Servers in a block of the main program's own, each at an open terminate alternative.
fn wait_to_quit<T: Taker>(taker: &mut T, idle: u16, servers: u16)
    requires { idle + servers ≤ 255 }
{
    make_tasks(taker, Master::Body(MAIN), 1, idle);
    taker.take(Request::Open { by: MAIN });
    // The events before it: two for each idle task, and the beginning and the end of their activation.
    let block = if idle == 0 {
        1
    } else {
        2 * u32::from(idle) + 3
    };
    make_tasks(taker, Master::Block(block), idle + 1, servers);
    for task in 0..servers {
        taker.take(Request::Wait {
            by: TaskNo(idle + 1 + task),
            choices: choices(),
            tail: Tail::Terminate(true),
            pick: 0,
        });
    }
}

/// Makes so many tasks with one entry, and activates them. The first has this number.
fn make_tasks<T: Taker>(taker: &mut T, master: Master, first: u16, count: u16)
    requires { first + count ≤ 256 }
{
    for _ in 0..count {
        taker.take(Request::Create {
            by: MAIN,
            master,
            families: Families::from_slice(&[Family { low: 0, high: 0 }]),
        });
    }
    if count == 0 {
        return;
    }
    taker.take(Request::Activate {
        by: MAIN,
        tasks: tasks(first, count),
    });
    for task in 0..count {
        taker.take(Request::Elaborated {
            by: TaskNo(first + task),
            ok: true,
        });
    }
}

/// A call and its acceptance.
fn meet<T: Taker>(taker: &mut T, caller: TaskNo, callee: TaskNo) {
    call(taker, caller, callee);
    taker.take(Request::Wait {
        by: callee,
        choices: choices(),
        tail: Tail::Nothing,
        pick: 0,
    });
}

/// A simple call.
fn call<T: Taker>(taker: &mut T, by: TaskNo, callee: TaskNo) {
    taker.take(Request::Call {
        by,
        callee,
        entry: ENTRY,
        patience: Patience::Simple,
    });
}

/// The one open accept alternative.
fn choices() -> Choices {
    Choices::from_slice(&[Choice {
        guard: true,
        entry: ENTRY,
    }])
}

/// The tasks of these numbers, at most 256 of them.
fn tasks(first: u16, count: u16) -> Tasks
    requires { first + count ≤ 256 }
{
    let mut tasks = Bounded::new();
    for task in 0..count {
        if !tasks.is_full() {
            tasks.push(TaskNo(first + task));
        }
    }
    tasks
}
