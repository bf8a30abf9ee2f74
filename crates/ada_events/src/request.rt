//! What a task may ask of the kernel.

use crate::{Choices, Entry, Families, Master, Patience, Pauses, TaskNo, Tasks};

/// The last part of a selective wait (9.7.1), behind its accept alternatives.
#[derive(Debug, Drop, PartialEq, Eq)]
pub enum Tail {
    /// There is nothing behind the accept alternatives.
    Nothing,
    /// An else part.
    Otherwise,
    /// Delay alternatives.
    Delays(Pauses),
    /// A terminate alternative, open where its guard is true.
    Terminate(bool),
}

/// A request to the kernel. `by` is the task that asks.
#[derive(Debug, Drop, PartialEq, Eq)]
pub enum Request {
    /// Opens a block within what the task is in (5.6, 9.4).
    Open {
        by: TaskNo,
    },
    /// Makes a task that depends on `master` (9.1, 9.4), with these families of entries.
    Create {
        by: TaskNo,
        master: Master,
        families: Families,
    },
    /// Starts the activation of tasks, and waits for its end (9.3).
    Activate {
        by: TaskNo,
        tasks: Tasks,
    },
    /// Ends the task's own activation, by an exception where `ok` is false (9.3).
    Elaborated {
        by: TaskNo,
        ok: bool,
    },
    /// Calls an entry (9.5, 9.7.2, 9.7.3).
    Call {
        by: TaskNo,
        callee: TaskNo,
        entry: Entry,
        patience: Patience,
    },
    /// Waits selectively (9.7.1). Of `k` selectable alternatives number `pick % k` is taken. A plain
    /// accept (9.5) is one open choice with no tail.
    Wait {
        by: TaskNo,
        choices: Choices,
        tail: Tail,
        pick: u32,
    },
    /// Delays the task by a duration in milliseconds (9.6). A negative one counts as 0.
    Delay {
        by: TaskNo,
        duration: i64,
    },
    /// Ends the innermost accept statement (9.5), by an exception where `raised` is true (11.5).
    End {
        by: TaskNo,
        raised: bool,
    },
    /// Leaves the innermost block, once the tasks that depend on it are terminated (9.4).
    Close {
        by: TaskNo,
    },
    /// Completes the task's body (9.4).
    Complete {
        by: TaskNo,
    },
    /// Makes tasks and their dependents abnormal (9.10).
    Abort {
        by: TaskNo,
        tasks: Tasks,
    },
    /// Moves the moment, in milliseconds from the beginning.
    Tick {
        now: i64,
    },
}
