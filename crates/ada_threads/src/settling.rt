//! Whom the last request to the kernel let go on.

ghost use Rattle.std.specs.Prelude.{◌≡◌, ℕ, true, false, List, map};
ghost use Rattle.std.specs.Option.{option_map, unwrap_or};
ghost use Rattle.std.specs.List.{list_any};
ghost use Rattle.ada_events.specs.declared.event.Event.{Event as Happening};
ghost use Rattle.ada_events.specs.declared.request.Request.{Request as Asked};
ghost use Rattle.ada_lasting.specs.Events.{shown};
ghost use Rattle.ada_lasting.specs.Following.{Follows, IsStepped, before_shown};
ghost use Rattle.ada_threads.specs.Going as going;
ghost use Rattle.ada_threads.specs.internal.Settling as settling;

use crate::going::is_held_up;
use crate::{Thread, Threads};
use ada_border::events::PlainEvent;
use ada_lasting::LongKernel;

// Whether an event of a kind ends tasks: an elaboration that failed, a completion, and what an abort or the end of all
// dependents forces.
fn is_end(event: &PlainEvent) -> bool
    ensures { result ≡ settling.is_plain_end event.now }
{
    match event.kind {
        4 => event.form == 0,
        10 | 13 | 20 | 21 => true,
        _ => false,
    }
}

// Whether there is an event, and it ends tasks.
fn is_some_end(event: Option<PlainEvent>) -> bool
    ensures { result ≡ unwrap_or (option_map settling.is_plain_end event) false }
{
    match event {
        Some(event) => is_end(&event),
        None => false,
    }
}

// Whether the event at a place, among those of the last request, ends tasks.
#[tactic(auto, using(crate::proofs::Ending::ends_told))]
fn ends_at(kernel: &LongKernel, at: usize) -> bool
    ensures { (journal : List Happening) → Follows journal kernel.now
        → result ≡ settling.is_end_at journal kernel.now at }
{
    is_some_end(kernel.event(at))
}

// Whether the last request ended any task.
fn has_ended_any(kernel: &LongKernel) -> bool
    ensures { (journal : List Happening) → Follows journal kernel.now
        → result ≡ list_any settling.ends (shown journal kernel.now) }
{
    for at in 0..kernel.events() {
        if ends_at(kernel, at) {
            return true;
        }
    }
    false
}

// The thread, without the mark if it is one of the task.
fn unmarked_of(thread: Thread, task: u64) -> Thread
    ensures { result ≡ settling.unmarked_of task thread }
{
    Thread {
        is_held: thread.is_held && thread.task != task,
        ..thread
    }
}

// Takes the mark from the threads of a task.
fn unmark(threads: &mut [Thread], task: u64)
    ensures { threads.new ≡ map (settling.unmarked_of task) threads.old }
{
    for thread in threads.iter_mut() {
        *thread = unmarked_of(*thread, task);
    }
}

// The thread, marked only if its task is held up.
fn marked_anew(thread: Thread, kernel: &LongKernel) -> Thread
    ensures mark { (journal : List Happening) → Follows journal kernel.now
        → result ≡ settling.marked_anew journal thread }
    ensures other { going.unmarked result ≡ going.unmarked thread }
{
    Thread {
        is_held: thread.is_held && is_held_up(kernel, thread.task),
        ..thread
    }
}

// Takes the mark from whoever isn't held up.
fn mark_anew(threads: &mut [Thread], kernel: &LongKernel)
    ensures marks { (journal : List Happening) → Follows journal kernel.now
        → threads.new ≡ map (settling.marked_anew journal) threads.old }
    ensures others { map going.unmarked threads.new ≡ map going.unmarked threads.old }
{
    for thread in threads.iter_mut() {
        *thread = marked_anew(*thread, kernel);
    }
}

// Takes the mark from whoever began to run by the last request: whether all of them were found.
fn unmark_begun(threads: &mut [Thread], kernel: &LongKernel) -> bool
    ensures begun { result ≡ true → (journal : List Happening) → Follows journal kernel.now
        → settling.AreUnmarked (settling.has_begun journal kernel.now) threads.new }
    ensures marks { (journal : List Happening) → going.AreHeldRightly journal threads.old
        → going.AreHeldRightly journal threads.new }
    ensures others { map going.unmarked threads.new ≡ map going.unmarked threads.old }
{
    let mut from = 0;
    for _ in 0..=threads.len() {
        let Some(task) = kernel.first_runnable(from) else {
            return true;
        };
        if task == u64::MAX {
            return false;
        }
        unmark(threads, task);
        from = task + 1;
    }
    false
}

// Takes the mark from whoever isn't held up any more.
fn settle(threads: &mut [Thread], kernel: &LongKernel)
    ensures marks { (journal : List Happening) → Follows journal kernel.now
        → going.AreHeldRightly (before_shown journal kernel.now) threads.old
        → going.AreHeldRightly journal threads.new }
    ensures others { map going.unmarked threads.new ≡ map going.unmarked threads.old }
{
    if has_ended_any(kernel) || !unmark_begun(threads, kernel) {
        mark_anew(threads, kernel);
    }
}

impl Threads {
    /// Takes the mark from whoever isn't held up any more, after a request to the kernel.
    pub fn settle(&mut self, kernel: &LongKernel)
        ensures marks { (journal : List Happening) → Follows journal kernel.now
            → going.AreHeldRightly (before_shown journal kernel.now) self.old.threads
            → going.AreHeldRightly journal self.new.threads }
        ensures stepped { (journal : List Happening) (request : Asked) (at : ℕ)
            → going.AreHeldRightly journal self.old.threads
            → (stepped : IsStepped journal request at kernel.now)
            → going.AreHeldRightly stepped.grown self.new.threads }
        ensures others { going.DifferInMarks self.old self.new }
    {
        settle(&mut self.threads, kernel);
    }
}
