//! Who may go on.
ghost use Rattle.std.specs.Prelude.{◌≡◌, ◌==◌, true};
ghost use Rattle.ada_hall.specs.Going.{may_play};
ghost use Rattle.ada_hall.specs.Turns.{changed, first_turns, left, passed, waited};

use ada_events::{Outcome, TaskNo};
use ada_kernel::Kernel;

/// Whose turn it is, who waits, and whether anybody is to go on: what threads look at under the lock before
/// they play a line.
#[derive(Clone, Copy, Debug, PartialEq, Eq)]
pub struct Turns {
    /// The place whose line goes next, where lines go in the order of the script.
    turn: u32,
    /// Whether no further line is to be played.
    stopped: bool,
    /// Whether all threads that weren't done waited for one another. Nobody waits any more then.
    stuck: bool,
    /// How often something changed for which a thread may wait.
    changes: u64,
    /// How many threads have looked since the last change, and couldn't go.
    waiting: u32,
    /// How many threads aren't done.
    working: u32,
}

impl Turns {
    /// The first place's turn, with so many threads that aren't done.
    pub(crate) fn new(working: u32) -> Turns
        ensures { result ≡ first_turns working }
    {
        Turns {
            turn: 0,
            stopped: false,
            stuck: false,
            changes: 0,
            waiting: 0,
            working,
        }
    }

    /// Whether it is this place's turn.
    pub fn is_turn_of(&self, place: u32) -> bool
        ensures { result ≡ (self.now.turn == place) }
    {
        self.turn == place
    }

    /// Whether no further line is to be played.
    pub fn is_stopped(&self) -> bool
        ensures { result ≡ self.now.stopped }
    {
        self.stopped
    }

    /// Whether nobody waits any more.
    pub fn is_stuck(&self) -> bool
        ensures { result ≡ self.now.stuck }
    {
        self.stuck
    }

    /// From now on no further line is played.
    pub(crate) fn stop(&mut self)
        ensures { self.new ≡ record self.old { stopped = true } }
    {
        self.stopped = true;
    }

    /// A line was played: it is the next one's turn, and threads that wait have to look again.
    pub(crate) fn pass(&mut self, place: u32)
        ensures { self.new ≡ passed place self.old }
    {
        self.turn = place.wrapping_add(1);
        self.change();
    }

    /// A thread is done.
    pub(crate) fn leave(&mut self)
        ensures { self.new ≡ left self.old }
    {
        self.working = self.working.saturating_sub(1);
        self.change();
    }

    fn change(&mut self)
        ensures { self.new ≡ changed self.old }
    {
        self.changes = self.changes.wrapping_add(1);
        self.waiting = 0;
    }

    /// A thread that can't go waits for a change: `seen` is the change that it waited for already. The answer
    /// is the change that it has seen now. Where no thread is left that could bring one about, nobody waits any
    /// more.
    pub(crate) fn wait(&mut self, seen: Option<u64>) -> u64
        ensures change { result ≡ self.old.changes }
        ensures turns { self.new ≡ waited seen self.old }
    {
        if seen != Some(self.changes) {
            self.waiting = self.waiting.saturating_add(1);
        }
        if self.waiting >= self.working {
            self.stuck = true;
        }
        self.changes
    }
}

/// Whether the line of a task needn't wait: the task runs, or its statements are over.
pub fn may_play(kernel: &Kernel, task: TaskNo) -> bool
    ensures { result ≡ may_play kernel.now task.0 }
{
    let is_over = matches!(kernel.outcome(task), Some(Outcome::Done | Outcome::Dead));
    is_over || kernel.running(task) == Some(true)
}
