//! The thread of a task.

ghost use Rattle.std.specs.Prelude.{◌≡◌};
ghost use Rattle.ada_threads.specs.Table.{thread_of};

use ada_lasting::LastingMaster;

/// What is kept of a task's thread.
#[derive(Clone, Copy, Debug, PartialEq, Eq)]
pub struct Thread {
    /// The number of the task's creation.
    pub task: u64,
    /// The master on which the task depends (9.4); none if nobody awaits its thread.
    pub on: Option<LastingMaster>,
    /// Whether there is a thread, which isn't over.
    pub has_thread: bool,
    /// Whether the thread waits to be let go on.
    pub is_parked: bool,
    /// Whether the kernel held the task up when its thread began to wait, and wasn't seen to let it go on since.
    pub is_held: bool,
    /// Whether it leaves the master that it is within, and awaits the threads of those that depend on that.
    pub leaves: bool,
}

impl Thread {
    /// A task of which there is no thread yet.
    pub(crate) fn of(task: u64, on: Option<LastingMaster>) -> Self
        ensures { result ≡ thread_of task on }
    {
        Thread {
            task,
            on,
            has_thread: false,
            is_parked: false,
            is_held: false,
            leaves: false,
        }
    }
}
