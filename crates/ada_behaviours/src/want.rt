//! What a task object wants next.

use ada_events::limits::MOST_TASKS;
use ada_events::{Bounded, Choices, Entry, Families, Patience, Tail};

/// The number of a task object (9.2) of a program: the main program is 0.
#[derive(Clone, Copy, Debug, Default, PartialEq, Eq)]
pub struct ObjectNo(pub u16);

/// The task objects that an activation or an abort names, at most 256.
pub type Objects = Bounded<ObjectNo, MOST_TASKS>;

/// A request of a task object to the kernel. Other task objects go by their numbers.
#[derive(Debug, Drop, PartialEq, Eq)]
pub enum Action {
    /// Opens a block (5.6, 9.4).
    Open,
    /// Makes the task of an object (9.1), within the innermost block that the task is in, or its body.
    Create {
        object: ObjectNo,
        families: Families,
    },
    /// Starts the activation of the tasks of objects (9.3).
    Activate {
        objects: Objects,
    },
    /// Ends its own activation, by an exception if `ok` is false (9.3).
    Elaborated {
        ok: bool,
    },
    /// Calls an entry (9.5, 9.7.2, 9.7.3).
    Call {
        callee: ObjectNo,
        entry: Entry,
        patience: Patience,
    },
    /// Waits selectively (9.7.1), or accepts a call (9.5).
    Wait {
        choices: Choices,
        tail: Tail,
    },
    /// Delays itself by a duration in milliseconds (9.6).
    Delay {
        duration: i64,
    },
    /// Ends the innermost accept statement (9.5), by an exception if `raised` is true (11.5).
    End {
        raised: bool,
    },
    /// Leaves the innermost block (9.4).
    Close,
    /// Completes its body (9.4).
    Complete,
    /// Aborts the tasks of objects (9.10).
    Abort {
        objects: Objects,
    },
}

/// What a task object asks before it goes on.
#[derive(Clone, Copy, Debug, PartialEq, Eq)]
pub enum Question {
    /// Nothing: it goes on alone.
    Nothing,
    /// The attribute CALLABLE of an object's task (9.9).
    Callable(ObjectNo),
    /// The attribute TERMINATED of an object's task (9.9).
    Terminated(ObjectNo),
    /// The attribute COUNT of an entry of its own (9.9).
    Count(Entry),
}

/// What a task object wants next.
#[derive(Debug, Drop, PartialEq, Eq)]
pub enum Want {
    /// Nothing: it waits for an answer of the kernel, or has come to its end.
    Nothing,
    /// A request.
    Act(Action),
    /// The answer to a question.
    Ask(Question),
}

/// One step of a program: a task object does what it wants, with a pick if that is a selective wait; or time passes, to
/// the first moment for which a task waits (9.6).
#[derive(Clone, Copy, Debug, PartialEq, Eq)]
pub enum Move {
    Go { object: ObjectNo, pick: u32 },
    Pass,
}
