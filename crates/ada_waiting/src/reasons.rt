//! Why a task doesn't go on by itself, by what a kernel keeps of it.
ghost use Rattle.std.specs.Prelude.{◌≡◌};
ghost use Rattle.ada_waiting.specs.Reasons as reasons;
ghost use Rattle.ada_waiting.specs.internal.Kept as kept_of;

use ada_events::{Event, TaskNo};
use ada_kernel::Kernel;
use ada_records::Record;

/// Why a task that isn't terminated doesn't run: what it waits for, with the position at which it began to.
#[derive(Clone, Copy, Debug, PartialEq, Eq)]
pub enum Reason {
    /// It was made and not started (9.3).
    NotStarted,
    /// It started the activation of other tasks, which hasn't ended (9.3).
    Activating { start: u32 },
    /// Its call stands in the queue of an entry (9.5).
    Queued { call: u32 },
    /// Its call is being served (9.5).
    InRendezvous { call: u32 },
    /// It waits for a call, or for what else its wait may take (9.5, 9.7.1).
    Waiting { wait: u32 },
    /// It is delayed (9.6).
    Delayed { pause: u32 },
    /// It came to the end of a block, of which a dependent isn't terminated (9.4).
    Leaving { close: u32 },
    /// It is completed, and a dependent isn't terminated (9.4).
    Completed,
}

#[tactic(auto, unfolding(crate::specs::Reasons::reason_by))]
fn reason_by(is_met: bool, position: u32, event: &Event) -> Option<Reason>
    ensures { result ≡ reasons.reason_by is_met position event.now }
{
    match event {
        Event::Called { .. } if is_met => Some(Reason::InRendezvous { call: position }),
        Event::Called { .. } => Some(Reason::Queued { call: position }),
        Event::Waiting { .. } => Some(Reason::Waiting { wait: position }),
        Event::Paused { .. } => Some(Reason::Delayed { pause: position }),
        Event::Started { .. } => Some(Reason::Activating { start: position }),
        Event::Closed { .. } => Some(Reason::Leaving { close: position }),
        _ => None,
    }
}

// Why a task doesn't go on that hasn't ended, by its record.
fn live_reason(kernel: &Kernel, kept: &Record) -> Option<Reason>
    ensures { result ≡ kept_of.live_reason kernel.now kept.now }
{
    let at = kept.suspension.at;
    if at > 0 {
        let event = kernel.journal().get(at)?;
        reason_by(kept.suspension.joined, at, event)
    } else if kept.stage.started {
        None
    } else {
        Some(Reason::NotStarted)
    }
}

// Why a task doesn't go on, by its record.
fn kept_reason(kernel: &Kernel, kept: &Record) -> Option<Reason>
    ensures { result ≡ kept_of.kept_reason kernel.now kept.now }
{
    if kept.stage.terminated {
        None
    } else if kept.stage.completed {
        Some(Reason::Completed)
    } else {
        live_reason(kernel, kept)
    }
}

/// Why a task of a kernel doesn't go on by itself; none if it runs, is terminated, or doesn't exist. Nothing is
/// searched.
pub fn reason_in(kernel: &Kernel, task: TaskNo) -> Option<Reason>
    ensures { result ≡ reasons.reason_of kernel.now task.0 }
{
    let _journal = kernel.journal();
    match kernel.record(task) {
        Some(kept) => kept_reason(kernel, &kept),
        None => None,
    }
}
