//! The table of threads.

ghost use Rattle.std.specs.Prelude.{◌≡◌, ◌≤◌, [], length, slice_get, OnErr, OnOk};
ghost use Rattle.std.specs.Prelude.{None, true, false};
ghost use Rattle.ada_threads.specs.Going.{KeepsMarks};
ghost use Rattle.ada_threads.specs.Table.{thread_of, with_changed, with_thread};

use crate::{Entered, Serving, Thread};
use ada_lasting::LastingMaster;
use std::alloc::{AllocError, Global};
use std::marker::Model;

/// The threads of tasks by their places, which whoever makes them chooses.
#[derive(Drop)]
pub struct Threads {
    pub(crate) threads: Vec<Thread>,
    // The latest first, as the next.
    pub(crate) servings: Vec<Serving>,
    pub(crate) entered: Vec<Entered>,
}

impl Model for Threads {
    ghost use Rattle.std.specs.Prelude.{◌≤◌, ◌^◌, length};
    ghost use Rattle.ada_threads.specs.Table.{Table};

    ghost Value = { Table };

    ghost view = { λ t. record {
      threads = t.threads.items;
      servings = t.servings.items;
      entered = t.entered.items;
    } };

    ghost invariant = { λ t. length t.threads.items ≤ 2 ^ 32 };
}

impl Threads {
    /// No threads.
    pub fn new(alloc: Global) -> Self
        ensures { result ≡ record { threads = []; servings = []; entered = [] } }
    {
        Threads {
            threads: Vec::new(alloc),
            servings: Vec::new(alloc),
            entered: Vec::new(alloc),
        }
    }

    /// How many places there are; the next thread of a place of its own has this one.
    pub fn places(&self) -> usize
        ensures { result ≡ length self.now.threads }
    {
        self.threads.len()
    }

    /// The thread at a place.
    pub fn thread(&self, place: u32) -> Option<Thread>
        ensures { result ≡ slice_get self.now.threads place }
    {
        self.threads.get(place as usize).copied()
    }

    /// Keeps a task of which there is no thread yet, at a new place or in the place of another task. Fails for want of
    /// memory alone.
    pub fn put(
        &mut self,
        place: u32,
        task: u64,
        on: Option<LastingMaster>,
    ) -> Result<(), AllocError>
        requires { place ≤ length self.old.threads }
        ensures ok { OnOk result (self.new ≡ record self.old {
          threads = with_thread place (thread_of task on) self.old.threads;
        }) }
        ensures err { OnErr result (self.new ≡ self.old) }
        ensures marks { KeepsMarks self.old self.new }
    {
        let thread = Thread::of(task, on);
        match self.threads.get_mut(place as usize) {
            Some(there) => *there = thread,
            None => self.threads.push(thread)?,
        }
        Ok(())
    }

    /// Changes the thread at a place.
    pub(crate) fn set(&mut self, place: u32, thread: Thread)
        ensures { self.new ≡ with_changed place (λ _. thread) self.old }
    {
        if let Some(there) = self.threads.get_mut(place as usize) {
            *there = thread;
        }
    }

    /// A thread of the task is there from now on (9.3).
    pub fn begin(&mut self, place: u32)
        ensures begun { self.new
            ≡ with_changed place (λ t. record t { has_thread = true }) self.old }
        ensures marks { KeepsMarks self.old self.new }
    {
        if let Some(thread) = self.thread(place) {
            self.set(
                place,
                Thread {
                    has_thread: true,
                    ..thread
                },
            );
        }
    }

    /// The thread of the task is over.
    pub fn end(&mut self, place: u32)
        ensures ended { self.new ≡ with_changed place
            (λ t. record t { has_thread = false; is_parked = false }) self.old }
        ensures marks { KeepsMarks self.old self.new }
    {
        if let Some(thread) = self.thread(place) {
            self.set(
                place,
                Thread {
                    has_thread: false,
                    is_parked: false,
                    ..thread
                },
            );
        }
    }

    /// Nobody awaits the thread of the task from now on.
    pub fn detach(&mut self, place: u32)
        ensures detached { self.new ≡ with_changed place (λ t. record t { on = None }) self.old }
        ensures marks { KeepsMarks self.old self.new }
    {
        if let Some(thread) = self.thread(place) {
            self.set(place, Thread { on: None, ..thread });
        }
    }
}
