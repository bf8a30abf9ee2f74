//! What a journal is made of: the twelve kinds of events that tasks ask for, and the ten that they
//! force.

use crate::{ChoiceList, DueList, Entry, FamilyList, Master, Patience, TaskList, TaskNo};
use std::mem::size_of;

/// The last part of a wait (9.7.1), with the moments at which its delay alternatives are due.
#[derive(Debug, Drop, PartialEq, Eq)]
pub enum EventTail {
    Nothing,
    Otherwise,
    Delays(DueList),
    Terminate(bool),
}

/// The way in which a selective wait ended without a rendezvous (9.7.1).
#[derive(Clone, Copy, Debug, PartialEq, Eq)]
pub enum Way {
    /// By the else part.
    Otherwise,
    /// By a delay alternative, counted over all of the wait's from 0.
    Delay(u8),
    /// By PROGRAM_ERROR, since no alternative was open and there was no else part.
    ProgramError,
}

/// An event of the journal. A call, wait, pause, start, close or block is named by the position of
/// its event, from 1. Moments are in milliseconds.
#[derive(Debug, Drop, PartialEq, Eq)]
pub enum Event {
    /// A block was opened; `under` is what the task was in, its body or a block.
    Opened {
        by: TaskNo,
        under: Master,
    },
    /// A task was made; `under` is what its maker was in, and `master` what it depends on (9.4).
    Created {
        by: TaskNo,
        under: Master,
        master: Master,
        families: FamilyList,
    },
    /// The activation of tasks started (9.3).
    Started {
        by: TaskNo,
        tasks: TaskList,
    },
    /// A task ended its own activation, by an exception where `ok` is false (9.3).
    Elaborated {
        by: TaskNo,
        ok: bool,
    },
    /// An entry was called (9.5); `due` is the moment at which a timed call ends (9.7.3).
    Called {
        by: TaskNo,
        callee: TaskNo,
        entry: Entry,
        patience: Patience,
        due: Option<i64>,
    },
    /// A task waits selectively (9.7.1).
    Waiting {
        by: TaskNo,
        pick: u32,
        choices: ChoiceList,
        tail: EventTail,
    },
    /// A task is delayed until a moment (9.6).
    Paused {
        by: TaskNo,
        due: i64,
    },
    /// A rendezvous ended (9.5), by an exception where `raised` is true (11.5).
    Ended {
        by: TaskNo,
        call: u32,
        raised: bool,
    },
    /// A task came to the end of a block, and waits for the tasks that depend on it (9.4).
    Closed {
        by: TaskNo,
        block: u32,
    },
    /// A task completed (9.4).
    Completed {
        by: TaskNo,
    },
    /// Tasks were aborted (9.10).
    Aborted {
        by: TaskNo,
        tasks: TaskList,
    },
    /// The moment moved.
    Ticked {
        now: i64,
    },
    /// An abnormal task completed (9.10).
    Halted {
        task: TaskNo,
    },
    /// A call ended with TASKING_ERROR (9.5, 9.10).
    Failed {
        call: u32,
    },
    /// A rendezvous began (9.5, 9.7.1).
    Met {
        call: u32,
        wait: u32,
    },
    /// A conditional or timed call was cancelled (9.7.2, 9.7.3).
    Cancelled {
        call: u32,
    },
    /// A selective wait ended without a rendezvous (9.7.1).
    Passed {
        wait: u32,
        way: Way,
    },
    /// A delay ended (9.6).
    Woken {
        pause: u32,
    },
    /// An activation ended, with TASKING_ERROR where `ok` is false (9.3).
    Activated {
        start: u32,
        ok: bool,
    },
    /// A task terminated (9.3, 9.4).
    Gone {
        task: TaskNo,
    },
    /// All that depend on a master terminated together (9.4).
    Quit {
        master: Master,
    },
    /// A task left the block that it had closed (9.4).
    Left {
        close: u32,
    },
}

// What a journal costs is its events' size: more than this, and their memory is the price of a request.
const _: () = prove!(size_of::<Event>() <= 64);
