//! The masters that threads are within (9.4).

ghost use Rattle.std.specs.Prelude.{◌≡◌, ◌≤◌, ◌^◌, ◌∷◌, true, false, length, OnErr, OnOk, position, slice_get};
ghost use Rattle.std.specs.List.{list_any};
ghost use Rattle.std.specs.Option.{option_and_then};
ghost use Rattle.ada_threads.specs.Going.{KeepsMarks};
ghost use Rattle.ada_threads.specs.Table as table;

use crate::{Thread, Threads};
use ada_lasting::LastingMaster;
use std::alloc::AllocError;

/// The thread at a place has entered a master, of a level of its compiler's.
#[derive(Clone, Copy, Debug, PartialEq, Eq)]
pub struct Entered {
    pub by: u32,
    pub level: u32,
    /// The kernel's name of it; none if the kernel doesn't know it.
    pub master: Option<LastingMaster>,
}

// Where the last one stands that a thread entered.
fn latest_at(entered: &[Entered], place: u32) -> Option<usize>
    ensures { result ≡ position (table.is_within place) entered.now }
{
    entered.iter().position(|entered| entered.by == place)
}

// Where the last one stands of a level or a lower one.
fn latest_up_to_at(entered: &[Entered], place: u32, level: u32) -> Option<usize>
    ensures { result ≡ position (table.is_within_level place level) entered.now }
{
    entered
        .iter()
        .position(|entered| entered.by == place && entered.level <= level)
}

// The one that stands at a place, if any does.
fn entered_at(entered: &[Entered], at: Option<usize>) -> Option<Entered>
    ensures { result ≡ option_and_then (slice_get entered.now) at }
{
    match at {
        Some(at) => entered.get(at).copied(),
        None => None,
    }
}

#[tactic(auto, unfolding(crate::specs::Table::is_master))]
fn is_master(master: LastingMaster, other: LastingMaster) -> bool
    ensures { result ≡ table.is_master master other }
{
    match (master, other) {
        (LastingMaster::Body(task), LastingMaster::Body(other)) => task == other,
        (LastingMaster::Block(position), LastingMaster::Block(other)) => position == other,
        _ => false,
    }
}

#[tactic(auto, unfolding(crate::specs::Table::depends_on))]
fn depends_on(master: Option<LastingMaster>, on: Option<LastingMaster>) -> bool
    ensures { result ≡ table.depends_on master on }
{
    match (master, on) {
        (Some(master), Some(on)) => is_master(master, on),
        _ => false,
    }
}

/// Whether a thread isn't over whose task depends on a master.
pub(crate) fn has_thread_on(threads: &[Thread], master: Option<LastingMaster>) -> bool
    ensures { result ≡ list_any (table.is_thread_on master) threads.now }
{
    threads.iter().any(|thread| thread.has_thread && depends_on(master, thread.on))
}

// Where the first thread stands of a task that depends on a master.
fn dependent_at(threads: &[Thread], master: Option<LastingMaster>) -> Option<usize>
    ensures { result ≡ position (table.is_on master) threads.now }
{
    threads
        .iter()
        .position(|thread| depends_on(master, thread.on))
}

// The first place, of one or more, of a task that depends on a master.
fn dependent_from(threads: &[Thread], master: Option<LastingMaster>, from: u32) -> Option<u32>
    requires { length threads.now ≤ 2 ^ 32 }
    ensures { result ≡ table.dependent_from threads.now master from }
{
    let from = from as usize;
    if from >= threads.len() {
        return None;
    }
    let at = dependent_at(&threads[from..], master)?;
    Some((from + at) as u32)
}

impl Threads {
    // The kernel's name of what was entered.
    #[tactic(auto, unfolding(crate::specs::Table::master_of))]
    fn master_of(&self, place: u32, entered: Option<Entered>) -> Option<LastingMaster>
        ensures { result ≡ table.master_of self.now.threads place entered }
    {
        match entered {
            Some(entered) => entered.master,
            None => Some(LastingMaster::Body(self.thread(place)?.task)),
        }
    }

    /// The kernel's name of the master that the thread at a place entered last and didn't leave; its body if there is
    /// none. None if the kernel doesn't know it.
    pub fn innermost_master(&self, place: u32) -> Option<LastingMaster>
        ensures { result ≡ table.innermost_master self.now place }
    {
        let at = latest_at(&self.entered, place);
        self.master_of(place, entered_at(&self.entered, at))
    }

    /// The kernel's name of the last one of those of a level or a lower one.
    pub fn master_at(&self, place: u32, level: u32) -> Option<LastingMaster>
        ensures { result ≡ table.master_at self.now place level }
    {
        let at = latest_up_to_at(&self.entered, place, level);
        self.master_of(place, entered_at(&self.entered, at))
    }

    /// The first place, of one or more, of a task that depends on the master that the thread at a place entered last
    /// and didn't leave (9.4).
    pub fn dependent(&self, place: u32, from: u32) -> Option<u32>
        ensures { result ≡ table.dependent_from self.now.threads
            (table.innermost_master self.now place) from }
    {
        dependent_from(&self.threads, self.innermost_master(place), from)
    }

    /// The thread at a place enters a master (9.4). Fails for want of memory alone.
    pub fn enter(
        &mut self,
        place: u32,
        level: u32,
        master: Option<LastingMaster>,
    ) -> Result<(), AllocError>
        ensures ok { OnOk result (self.new ≡ record self.old {
          entered = record { by = place; level = level; master = master } ∷ self.old.entered;
        }) }
        ensures err { OnErr result (self.new ≡ self.old) }
        ensures marks { KeepsMarks self.old self.new }
    {
        self.entered.insert(
            0,
            Entered {
                by: place,
                level,
                master,
            },
        )?;
        Ok(())
    }

    /// The thread at a place begins to leave the master that it is within: it stays until the threads of all that
    /// depend on it are over (9.4).
    pub fn leave(&mut self, place: u32)
        ensures leaving { self.new
            ≡ table.with_changed place (λ t. record t { leaves = true }) self.old }
        ensures marks { KeepsMarks self.old self.new }
    {
        if let Some(thread) = self.thread(place) {
            self.set(
                place,
                Thread {
                    leaves: true,
                    ..thread
                },
            );
        }
    }

    // Forgets the master that a thread entered last.
    fn forget_latest(&mut self, place: u32)
        ensures { self.new ≡ record self.old {
          entered = table.without_first (table.is_within place) self.old.entered;
        } }
    {
        if let Some(at) = latest_at(&self.entered, place) {
            self.entered.remove(at);
        }
    }

    /// The thread at a place has left the master that it entered last.
    pub fn left(&mut self, place: u32)
        ensures left { self.new ≡ table.with_changed place (λ t. record t { leaves = false })
            (record self.old {
              entered = table.without_first (table.is_within place) self.old.entered;
            }) }
        ensures marks { KeepsMarks self.old self.new }
    {
        self.forget_latest(place);
        if let Some(thread) = self.thread(place) {
            self.set(
                place,
                Thread {
                    leaves: false,
                    ..thread
                },
            );
        }
    }
}
