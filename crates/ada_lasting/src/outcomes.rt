//! What became of the latest doing of a task of a kernel that lives on, in names that last.

ghost use Rattle.std.specs.Prelude.{◌≡◌, ℕ, List};
ghost use Rattle.std.specs.Bool.{then_some};
ghost use Rattle.std.specs.Option.{option_map};
ghost use Rattle.ada_events.specs.declared.event.Event.{Event as Happening};
ghost use Rattle.ada_events.specs.declared.names.TaskNo.{TaskNo as Task};
ghost use Rattle.ada_events.specs.Outcomes.{outcome_of};
ghost use Rattle.ada_events.specs.Says.{Call, call_in};
ghost use Rattle.ada_waiting.specs.Reasons.{reason_of};
ghost use Rattle.ada_lasting.specs.Following.{Follows};
ghost use Rattle.ada_lasting.specs.Naming.{found};
ghost use Rattle.ada_lasting.specs.Outcomes as told;
ghost use Rattle.ada_lasting.specs.internal.Outcomes as lasting;

use crate::LongKernel;
use crate::names::Names;
use ada_events::{Event, Outcome, TaskNo};
use ada_kernel::Kernel;
use ada_waiting::{Reason, reason_in};

/// The outcome of a task, as [`Outcome`](ada_events::Outcome), with a call by its position among all events there ever
/// were, and its caller by the number of its creation.
#[derive(Clone, Copy, Debug, PartialEq, Eq)]
pub enum LastingOutcome {
    /// The task is terminated (9.4).
    Dead,
    /// The task is completed (9.4).
    Done,
    /// It is still held up.
    Held,
    /// Its call was accepted and served (9.5).
    Served,
    /// Its call ended by TASKING_ERROR (9.5, 9.10).
    TaskingError,
    /// Its call was cancelled (9.7.2, 9.7.3).
    Cancelled,
    /// Its wait accepted the call at this position, by this choice, counted from 0 (9.7.1). The task that made the call
    /// is told while it is suspended in the rendezvous (9.5), and none afterwards.
    Accepted {
        call: u64,
        choice: u8,
        caller: Option<u64>,
    },
    /// Its wait took the else part (9.7.1).
    TookElse,
    /// Its wait took this delay alternative, counted from 0 (9.7.1).
    TookDelay(u8),
    /// Its wait ended by PROGRAM_ERROR (9.7.1).
    ProgramError,
    /// Its delay ended (9.6).
    Awake,
    /// Its activation of other tasks ended without an exception (9.3).
    ActivationOk,
    /// Its activation of other tasks ended by TASKING_ERROR (9.3).
    ActivationFailed,
    /// It left a block (9.4).
    BlockLeft,
    /// An exception ended a rendezvous that it served, or its own call (11.5).
    Raised,
    /// It has done nothing yet.
    Nothing,
}

// Whether a task waits in the rendezvous that began with the call at a position.
#[tactic(auto, unfolding(crate::specs::Outcomes::is_in_rendezvous))]
fn is_in_rendezvous(reason: Option<Reason>, at: u32) -> bool
    ensures { result ≡ told.is_in_rendezvous reason at }
{
    match reason {
        Some(Reason::InRendezvous { call }) => call == at,
        _ => false,
    }
}

// The caller, if the event is a call.
#[tactic(auto, unfolding(ada_events::specs::Says::call_in))]
fn caller(event: &Event) -> Option<TaskNo>
    ensures { option_map (λ (t : Task). t.0) result
        ≡ option_map (λ (c : Call). c.by) (call_in event.now) }
{
    match event {
        Event::Called { by, .. } => Some(*by),
        _ => None,
    }
}

// The task, while it waits in the rendezvous that began with the call at a position.
fn if_in_rendezvous(kernel: &Kernel, task: TaskNo, call: u32) -> Option<TaskNo>
    ensures { option_map (λ (t : Task). t.0) result
        ≡ then_some (told.is_in_rendezvous (reason_of kernel.now task.0) call) task.0 }
{
    if is_in_rendezvous(reason_in(kernel, task), call) {
        Some(task)
    } else {
        None
    }
}

/// The caller of the call at a position of a kernel's journal, while its rendezvous lasts (9.5).
pub fn caller_in(kernel: &Kernel, call: u32) -> Option<TaskNo>
    ensures { option_map (λ (t : Task). t.0) result ≡ told.caller_of kernel.now call }
{
    let event = kernel.journal().get(call)?;
    let by = caller(event)?;
    if_in_rendezvous(kernel, by, call)
}

impl Names {
    // The lasting name of the caller.
    fn lasting_caller(&self, kernel: &Kernel, call: u32) -> Option<u64>
        ensures { result ≡ lasting.lasting_caller self.now kernel.now call }
    {
        self.lasting_task(caller_in(kernel, call)?)
    }

    // An outcome of the present journal in names that last; none if its call has no name.
    #[tactic(auto, unfolding(crate::specs::Outcomes::told_outcome, crate::specs::internal::Outcomes::lasting_outcome))]
    fn lasting_outcome(&self, kernel: &Kernel, outcome: Outcome) -> Option<LastingOutcome>
        ensures { result ≡ lasting.lasting_outcome self.now kernel.now outcome }
    {
        Some(match outcome {
            Outcome::Dead => LastingOutcome::Dead,
            Outcome::Done => LastingOutcome::Done,
            Outcome::Held => LastingOutcome::Held,
            Outcome::Served => LastingOutcome::Served,
            Outcome::TaskingError => LastingOutcome::TaskingError,
            Outcome::Cancelled => LastingOutcome::Cancelled,
            Outcome::Accepted { call, choice } => LastingOutcome::Accepted {
                call: self.lasting_position(call)?,
                choice,
                caller: self.lasting_caller(kernel, call),
            },
            Outcome::TookElse => LastingOutcome::TookElse,
            Outcome::TookDelay(number) => LastingOutcome::TookDelay(number),
            Outcome::ProgramError => LastingOutcome::ProgramError,
            Outcome::Awake => LastingOutcome::Awake,
            Outcome::ActivationOk => LastingOutcome::ActivationOk,
            Outcome::ActivationFailed => LastingOutcome::ActivationFailed,
            Outcome::BlockLeft => LastingOutcome::BlockLeft,
            Outcome::Raised => LastingOutcome::Raised,
            Outcome::Nothing => LastingOutcome::Nothing,
        })
    }
}

impl LongKernel {
    /// The outcome of a task; none if the task was never made or given up.
    pub fn outcome(&self, task: u64) -> Option<LastingOutcome>
        ensures { (journal : List Happening) → Follows journal self.now → result ≡ option_map
            (λ (v : ℕ). told.told_outcome journal (outcome_of journal task))
            (found self.now.names.tasks task) }
    {
        self.known();
        let names = self.names();
        let kernel = self.present();
        let present = names.task(task)?;
        let outcome = kernel.outcome(present)?;
        names.lasting_outcome(kernel, outcome)
    }
}
