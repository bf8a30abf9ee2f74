//! What a task may ask of a kernel that lives on, in names that last.

ghost use Rattle.std.specs.Prelude.{◌≡◌};
ghost use Rattle.ada_events.specs.Asks.{asker};
ghost use Rattle.ada_lasting.specs.Meaning.{meant};

use ada_events::limits::MOST_TASKS;
use ada_events::{Bounded, Choices, Entry, Families, Patience, Tail};

/// What a task may depend on (9.4): the body of a task, or a block by the position of its opening.
#[derive(Clone, Copy, Debug, PartialEq, Eq)]
pub enum LastingMaster {
    Body(u64),
    Block(u64),
}

/// Tasks by their numbers, at most 256.
pub type LastingTasks = Bounded<u64, MOST_TASKS>;

/// A request to the kernel, as [`Request`](ada_events::Request), with tasks by the number of their creation and blocks
/// by the position of their opening among all there ever were. `by` is the task that asks.
#[derive(Debug, Drop, PartialEq, Eq)]
pub enum LastingRequest {
    /// Opens a block within what the task is in (5.6, 9.4).
    Open {
        by: u64,
    },
    /// Makes a task that depends on `master` (9.1, 9.4), with these families of entries.
    Create {
        by: u64,
        master: LastingMaster,
        families: Families,
    },
    /// Starts the activation of tasks, and waits for its end (9.3).
    Activate {
        by: u64,
        tasks: LastingTasks,
    },
    /// Ends the task's own activation, by an exception where `ok` is false (9.3).
    Elaborated {
        by: u64,
        ok: bool,
    },
    /// Calls an entry (9.5, 9.7.2, 9.7.3).
    Call {
        by: u64,
        callee: u64,
        entry: Entry,
        patience: Patience,
    },
    /// Waits selectively (9.7.1). Of `k` selectable alternatives number `pick % k` is taken.
    Wait {
        by: u64,
        choices: Choices,
        tail: Tail,
        pick: u32,
    },
    /// Delays the task by a duration in milliseconds (9.6). A negative one counts as 0.
    Delay {
        by: u64,
        duration: i64,
    },
    /// Ends the innermost accept statement (9.5), by an exception where `raised` is true (11.5).
    End {
        by: u64,
        raised: bool,
    },
    /// Leaves the innermost block, once the tasks that depend on it are terminated (9.4).
    Close {
        by: u64,
    },
    /// Completes the task's body (9.4).
    Complete {
        by: u64,
    },
    /// Makes tasks and their dependents abnormal (9.10).
    Abort {
        by: u64,
        tasks: LastingTasks,
    },
    /// Moves the moment, in milliseconds from the beginning.
    Tick {
        now: i64,
    },
}

impl LastingRequest {
    /// The task that asks; a tick has none.
    #[tactic(auto, unfolding(crate::specs::Meaning::meant, ada_events::specs::Asks::asker))]
    #[inline(always)]
    pub fn by(&self) -> Option<u64>
        ensures { result ≡ asker (meant self.now) }
    {
        match self {
            LastingRequest::Open { by }
            | LastingRequest::Create { by, .. }
            | LastingRequest::Activate { by, .. }
            | LastingRequest::Elaborated { by, .. }
            | LastingRequest::Call { by, .. }
            | LastingRequest::Wait { by, .. }
            | LastingRequest::Delay { by, .. }
            | LastingRequest::End { by, .. }
            | LastingRequest::Close { by }
            | LastingRequest::Complete { by }
            | LastingRequest::Abort { by, .. } => Some(*by),
            LastingRequest::Tick { .. } => None,
        }
    }
}
