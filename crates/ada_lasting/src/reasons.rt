//! Why a task of a kernel that lives on doesn't go on by itself, in names that last.

ghost use Rattle.std.specs.Prelude.{◌≡◌, ℕ, List};
ghost use Rattle.std.specs.Option.{option_and_then, option_map};
ghost use Rattle.ada_events.specs.declared.event.Event.{Event as Happening};
ghost use Rattle.ada_waiting.specs.Reasons as reasons;
ghost use Rattle.ada_lasting.specs.Following.{Follows};
ghost use Rattle.ada_lasting.specs.Meaning.{meant_reason};
ghost use Rattle.ada_lasting.specs.Naming.{found};
ghost use Rattle.ada_lasting.specs.internal.Reasons as lasting;

use crate::LongKernel;
use crate::names::Names;
use ada_waiting::{Reason, reason_in};

/// Why a task that isn't terminated doesn't run: what it waits for, as [`Reason`](ada_waiting::Reason), with the
/// position at which it began to among all events there ever were.
#[derive(Clone, Copy, Debug, PartialEq, Eq)]
pub enum LastingReason {
    /// It was made and not started (9.3).
    NotStarted,
    /// It started the activation of other tasks, which hasn't ended (9.3).
    Activating { start: u64 },
    /// Its call stands in the queue of an entry (9.5).
    Queued { call: u64 },
    /// Its call is being served (9.5).
    InRendezvous { call: u64 },
    /// It waits for a call, or for what else its wait may take (9.5, 9.7.1).
    Waiting { wait: u64 },
    /// It is delayed (9.6).
    Delayed { pause: u64 },
    /// It came to the end of a block, of which a dependent isn't terminated (9.4).
    Leaving { close: u64 },
    /// It is completed, and a dependent isn't terminated (9.4).
    Completed,
}

impl Names {
    // A reason of the present journal in names that last; none if its position has none.
    #[tactic(auto, unfolding(crate::specs::Meaning::meant_reason, crate::specs::internal::Reasons::lasting_reason))]
    fn lasting_reason(&self, reason: Reason) -> Option<LastingReason>
        ensures { option_map meant_reason result ≡ lasting.lasting_reason self.now reason }
    {
        Some(match reason {
            Reason::NotStarted => LastingReason::NotStarted,
            Reason::Activating { start } => LastingReason::Activating {
                start: self.lasting_position(start)?,
            },
            Reason::Queued { call } => LastingReason::Queued {
                call: self.lasting_position(call)?,
            },
            Reason::InRendezvous { call } => LastingReason::InRendezvous {
                call: self.lasting_position(call)?,
            },
            Reason::Waiting { wait } => LastingReason::Waiting {
                wait: self.lasting_position(wait)?,
            },
            Reason::Delayed { pause } => LastingReason::Delayed {
                pause: self.lasting_position(pause)?,
            },
            Reason::Leaving { close } => LastingReason::Leaving {
                close: self.lasting_position(close)?,
            },
            Reason::Completed => LastingReason::Completed,
        })
    }
}

impl LongKernel {
    /// Why a task doesn't go on by itself; none if it runs, is terminated, was never made or given up.
    pub fn reason(&self, task: u64) -> Option<LastingReason>
        ensures { (journal : List Happening) → Follows journal self.now
            → option_map meant_reason result ≡ option_and_then
            (λ (v : ℕ). reasons.reason_of journal task) (found self.now.names.tasks task) }
    {
        self.known();
        let names = self.names();
        let present = names.task(task)?;
        names.lasting_reason(reason_in(self.present(), present)?)
    }
}
