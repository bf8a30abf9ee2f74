//! What one line of a script says.

ghost use Rattle.std.specs.Prelude.{◌≡◌};

use crate::Name;
use ada_events::limits::{MOST_CHOICES, MOST_FAMILIES, MOST_TASKS};
use ada_events::{Family, SmallList, Stored, Tail};

/// An entry as a statement names it: the name of its family, and an index where one is written. An
/// index that is left out stands for 0.
#[derive(Debug, Drop, Default, PartialEq, Eq)]
pub struct EntryName {
    pub family: Name,
    pub index: Option<i32>,
}

/// A family of entries as a task declares it (9.5): its name, and its bounds where they are written.
/// Bounds that are left out stand for 0 and 0.
#[derive(Debug, Drop, Default, PartialEq, Eq)]
pub struct Declaration {
    pub name: Name,
    pub bounds: Option<Family>,
}

/// An accept alternative of a selective wait (9.7.1): open where `guard` is true.
#[derive(Debug, Drop, Default, PartialEq, Eq)]
pub struct Alternative {
    pub guard: bool,
    pub entry: EntryName,
}

/// The tasks that an activation or an abort names, at most 256.
pub type TaskNames = SmallList<Name, 3, MOST_TASKS>;

/// The families of entries that a task declares, at most 16.
pub type Declarations = SmallList<Declaration, 0, MOST_FAMILIES>;

/// The accept alternatives of a selective wait, at most 16.
pub type Alternatives = SmallList<Alternative, 1, MOST_CHOICES>;

/// A statement of a script. `by` is the task that makes the request.
#[derive(Debug, Drop, PartialEq, Eq)]
pub enum Statement {
    /// Moves the moment.
    Tick {
        now: i64,
    },
    /// Opens a block of this name (5.6).
    Open {
        by: Name,
        block: Name,
    },
    /// Makes a task of this name, which depends on the body of the task `under`, or on the block
    /// `under` (9.1, 9.4).
    Create {
        by: Name,
        task: Name,
        under: Name,
        families: Declarations,
    },
    /// Activates tasks (9.3).
    Activate {
        by: Name,
        tasks: TaskNames,
    },
    /// Ends the task's own activation (9.3).
    Up {
        by: Name,
    },
    /// Ends the task's own activation by an exception (9.3).
    Fail {
        by: Name,
    },
    /// Calls an entry (9.5).
    Call {
        by: Name,
        callee: Name,
        entry: EntryName,
    },
    /// Calls an entry, and waits for a limited time (9.7.3).
    CallWithin {
        by: Name,
        callee: Name,
        entry: EntryName,
        duration: i64,
    },
    /// Calls an entry, if it is accepted at once (9.7.2).
    Try {
        by: Name,
        callee: Name,
        entry: EntryName,
    },
    /// Waits for a call of one entry (9.5).
    Accept {
        by: Name,
        entry: EntryName,
    },
    /// Waits selectively (9.7.1).
    Select {
        by: Name,
        pick: u32,
        choices: Alternatives,
        tail: Stored<Tail>,
    },
    /// Ends the innermost accept statement (9.5).
    End {
        by: Name,
    },
    /// Ends the innermost accept statement by an exception (11.5).
    Raise {
        by: Name,
    },
    /// Leaves the innermost block (9.4).
    Close {
        by: Name,
    },
    /// Delays the task (9.6).
    Delay {
        by: Name,
        duration: i64,
    },
    /// Completes the task's body (9.4).
    Complete {
        by: Name,
    },
    /// Aborts tasks (9.10).
    Abort {
        by: Name,
        tasks: TaskNames,
    },
    /// Shows the attribute CALLABLE of a task (9.9).
    ShowCallable {
        by: Name,
        task: Name,
    },
    /// Shows the attribute TERMINATED of a task (9.9).
    ShowTerminated {
        by: Name,
        task: Name,
    },
    /// Shows the attribute COUNT of an entry of the speaker (9.9).
    ShowCount {
        by: Name,
        entry: EntryName,
    },
}

impl Statement {
    ghost use Rattle.ada_statements.specs.Binding.{is_show};

    /// Whether the statement shows an attribute (9.9).
    pub fn is_show(&self) -> bool
        ensures { result ≡ is_show self.now }
    {
        matches!(
            self,
            Statement::ShowCallable { .. }
                | Statement::ShowTerminated { .. }
                | Statement::ShowCount { .. }
        )
    }
}
