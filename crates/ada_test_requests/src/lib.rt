//! Requests to a kernel: in few words, as the tests of kernels, boards and halls ask them, and what random ones are
//! made of, whatever a kernel calls its tasks.
#![tactic(auto)]

pub mod dice;
pub mod kinds;
pub mod parts;
pub mod scene;

use ada_events::{
    Bounded, Choice, Entry, Families, Family, Master, Patience, Request, Tail, TaskNo, Tasks,
};
pub use dice::Dice;
pub use kinds::{Kind, Mix};
pub use scene::Scene;

/// The main program's body, as a master (9.4).
pub const MAIN: Master = Master::Body(TaskNo(0));

/// A single entry.
pub const SINGLE: Family = Family { low: 0, high: 0 };

/// A creation by a task, under a master, with these families of entries, of which the first 16 are taken (9.3).
pub fn create(by: u16, master: Master, families: &[Family]) -> Request {
    let mut list = Families::new();
    for family in families {
        if !list.is_full() {
            list.push(*family);
        }
    }
    Request::Create {
        by: TaskNo(by),
        master,
        families: list,
    }
}

/// The tasks `first` to `last`, of which the first 256 are taken.
pub fn tasks(first: u16, last: u16) -> Tasks {
    let mut list: Tasks = Bounded::new();
    for task in first..=last {
        if !list.is_full() {
            list.push(TaskNo(task));
        }
    }
    list
}

/// The entry of a family with index 0.
pub fn entry(family: u8) -> Entry {
    Entry { family, index: 0 }
}

/// A simple call of an entry with index 0 (9.5).
pub fn call(by: u16, callee: u16, family: u8) -> Request {
    Request::Call {
        by: TaskNo(by),
        callee: TaskNo(callee),
        entry: entry(family),
        patience: Patience::Simple,
    }
}

/// A timed call of an entry with index 0, which waits so many milliseconds (9.7.3).
pub fn timed_call(by: u16, callee: u16, family: u8, limit: i64) -> Request {
    Request::Call {
        by: TaskNo(by),
        callee: TaskNo(callee),
        entry: entry(family),
        patience: Patience::Timed(limit),
    }
}

/// A plain accept of an entry with index 0 (9.5).
pub fn accept(by: u16, family: u8) -> Request {
    let mut choices = Bounded::new();
    choices.push(Choice {
        guard: true,
        entry: entry(family),
    });
    Request::Wait {
        by: TaskNo(by),
        choices,
        tail: Tail::Nothing,
        pick: 0,
    }
}

/// The end of a task's activation (9.3).
pub fn up(by: u16) -> Request {
    Request::Elaborated {
        by: TaskNo(by),
        ok: true,
    }
}

/// The start of the activation of the tasks `first` to `last` (9.3).
pub fn activate(by: u16, first: u16, last: u16) -> Request {
    Request::Activate {
        by: TaskNo(by),
        tasks: tasks(first, last),
    }
}

/// An abort of the tasks `first` to `last` (9.10).
pub fn abort(by: u16, first: u16, last: u16) -> Request {
    Request::Abort {
        by: TaskNo(by),
        tasks: tasks(first, last),
    }
}

/// The end of a rendezvous, plain or by an exception (9.5, 11.5).
pub fn end(by: u16, raised: bool) -> Request {
    Request::End {
        by: TaskNo(by),
        raised,
    }
}

/// A completion (9.4).
pub fn complete(by: u16) -> Request {
    Request::Complete { by: TaskNo(by) }
}
