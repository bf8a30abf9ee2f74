//! Which threads may go on.

ghost use Rattle.std.specs.Prelude.{◌≡◌, ℕ, if◌then◌else◌, true, false, IfNone, IfSome, List, Some, slice_get};
ghost use Rattle.std.specs.List.{list_any};
ghost use Rattle.std.specs.Option.{option_map, unwrap_or};
ghost use Rattle.ada_events.specs.Phases as phases;
ghost use Rattle.ada_events.specs.declared.event.Event.{Event as Happening};
ghost use Rattle.ada_lasting.specs.Following.{Follows};
ghost use Rattle.ada_lasting.specs.Naming.{found};
ghost use Rattle.ada_threads.specs.Going as going;
ghost use Rattle.ada_threads.specs.internal.Settling as settling;
ghost use Rattle.ada_threads.specs.Table.{with_changed};

use crate::entered::has_thread_on;
use crate::serving::is_served;
use crate::{Thread, Threads};
use ada_lasting::{LastingReason, LongKernel};

/// Why a thread has to stay where it is.
#[derive(Clone, Copy, Debug, PartialEq, Eq)]
pub struct Stay {
    /// The kernel holds its task up.
    pub is_held_up: bool,
    /// A thread is within the accept statement that began with its call (9.5).
    pub is_served: bool,
    /// Threads of tasks that depend on the master that it leaves aren't over (9.4).
    pub awaits_threads: bool,
}

#[tactic(auto, unfolding(crate::specs::internal::Settling::is_completed_reason))]
fn is_completed(reason: Option<LastingReason>) -> bool
    ensures { result ≡ settling.is_completed_reason reason }
{
    matches!(reason, Some(LastingReason::Completed))
}

// Whether a task that has a name is completed or terminated.
#[tactic(auto, using(crate::proofs::Ended::ended_if_terminated, crate::proofs::Ended::ended_if_completed))]
fn has_ended(kernel: &LongKernel, task: u64) -> bool
    ensures { (journal : List Happening) (v : ℕ) → Follows journal kernel.now
        → found kernel.now.names.tasks task ≡ Some v
        → result ≡ phases.has_ended journal task }
{
    kernel.terminated(task).unwrap_or(false) || is_completed(kernel.reason(task))
}

/// Whether the kernel holds a task up: it doesn't run, and hasn't ended (9.3 to 9.7, 9.10).
#[tactic(auto, using(crate::proofs::Ended::free_if, crate::proofs::Ended::held_if))]
pub(crate) fn is_held_up(kernel: &LongKernel, task: u64) -> bool
    ensures { (journal : List Happening) → Follows journal kernel.now
        → result ≡ going.is_held_up journal task }
{
    !kernel.running(task).unwrap_or(true) && !has_ended(kernel, task)
}

impl Threads {
    // Whether the thread at a place leaves a master of whose dependents a thread isn't over.
    fn awaits_threads(&self, place: u32, thread: Thread) -> bool
        ensures { result ≡ going.awaits_threads self.now place thread }
    {
        thread.leaves && has_thread_on(&self.threads, self.innermost_master(place))
    }

    // Whether the thread at a place may go on.
    fn may_go_on(&self, kernel: &LongKernel, place: u32, thread: Thread) -> bool
        ensures { (journal : List Happening) → Follows journal kernel.now
            → result ≡ going.may_go_on journal self.now place thread }
    {
        !is_served(&self.servings, place)
            && !self.awaits_threads(place, thread)
            && !is_held_up(kernel, thread.task)
    }

    /// Why the thread at a place has to stay.
    pub fn why(&self, kernel: &LongKernel, place: u32) -> Option<Stay>
        ensures { (journal : List Happening) → Follows journal kernel.now
            → result ≡ option_map (going.stay_of journal self.now place)
            (slice_get self.now.threads place) }
    {
        let thread = self.thread(place)?;
        Some(Stay {
            is_held_up: is_held_up(kernel, thread.task),
            is_served: is_served(&self.servings, place),
            awaits_threads: self.awaits_threads(place, thread),
        })
    }

    /// Has the thread at a place wait, unless it may go on: whether it does. There is no answer for a place without a
    /// thread.
    pub fn stay(&mut self, kernel: &LongKernel, place: u32) -> Option<bool>
        ensures goes { (journal : List Happening) → Follows journal kernel.now
            → result ≡ option_map (going.may_go_on journal self.old place)
            (slice_get self.old.threads place) }
        ensures parks { (journal : List Happening) → Follows journal kernel.now
            → self.new ≡ (if unwrap_or result true then self.old else
            with_changed place (λ t. record t {
              is_parked = true;
              is_held = going.is_held_up journal t.task;
            }) self.old) }
        ensures marks { (journal : List Happening) → Follows journal kernel.now
            → going.AreHeldRightly journal self.old.threads
            → going.AreHeldRightly journal self.new.threads }
    {
        let thread = self.thread(place)?;
        let is_held = is_held_up(kernel, thread.task);
        if !is_held && !is_served(&self.servings, place) && !self.awaits_threads(place, thread) {
            return Some(true);
        }
        self.set(
            place,
            Thread {
                is_parked: true,
                is_held,
                ..thread
            },
        );
        Some(false)
    }

    // Whether the thread at a place waits and may go on.
    fn is_to_wake(&self, kernel: &LongKernel, place: u32) -> bool
        ensures yes { result ≡ true → (journal : List Happening) → Follows journal kernel.now
            → going.IsFreed journal self.now place }
        ensures no { result ≡ false → (journal : List Happening) → Follows journal kernel.now
            → going.AreHeldRightly journal self.now.threads
            → settling.Stays journal self.now place }
    {
        match self.thread(place) {
            Some(thread) if thread.is_parked && !thread.is_held => {
                self.may_go_on(kernel, place, thread)
            }
            _ => false,
        }
    }

    // The first place of a thread that waits and may go on.
    fn first_to_wake(&self, kernel: &LongKernel) -> Option<u32>
        ensures yes { IfSome result (λ place. (journal : List Happening)
            → Follows journal kernel.now → going.IsFreed journal self.now place) }
        ensures no { IfNone result ((journal : List Happening) → Follows journal kernel.now
            → going.AreHeldRightly journal self.now.threads
            → going.AllStay journal self.now) }
    {
        for place in 0..self.threads.len() {
            if self.is_to_wake(kernel, place as u32) {
                return Some(place as u32);
            }
        }
        None
    }

    /// Lets a thread go on that waits and may: its place. None if no thread that waits may go on, of which `settle` was
    /// asked after each request.
    pub fn next_to_wake(&mut self, kernel: &LongKernel) -> Option<u32>
        ensures yes { IfSome result (λ place. (journal : List Happening)
            → Follows journal kernel.now → going.IsFreed journal self.old place) }
        ensures woken { IfSome result (λ place. self.new
            ≡ with_changed place (λ t. record t { is_parked = false }) self.old) }
        ensures no { IfNone result ((journal : List Happening) → Follows journal kernel.now
            → going.AreHeldRightly journal self.old.threads
            → going.AllStay journal self.old) }
        ensures unchanged { IfNone result (self.new ≡ self.old) }
        ensures marks { going.KeepsMarks self.old self.new }
    {
        let place = self.first_to_wake(kernel)?;
        let thread = self.thread(place)?;
        self.set(
            place,
            Thread {
                is_parked: false,
                ..thread
            },
        );
        Some(place)
    }

    /// Whether a thread isn't over and doesn't wait.
    pub fn anyone_goes(&self) -> bool
        ensures { result ≡ list_any going.goes self.now.threads }
    {
        self.threads
            .iter()
            .any(|thread| thread.has_thread && !thread.is_parked)
    }
}
