//! Accept statements that threads are within (9.5).

ghost use Rattle.std.specs.Prelude.{◌≡◌, ◌∷◌, OnErr, OnOk, position};
ghost use Rattle.ada_threads.specs.Going.{KeepsMarks};
ghost use Rattle.ada_threads.specs.Table as table;

use crate::Threads;
use std::alloc::AllocError;

/// The thread at one place is within the accept statement that began with the call of the task at another.
#[derive(Clone, Copy, Debug, PartialEq, Eq)]
pub struct Serving {
    pub server: u32,
    pub caller: u32,
}

// Where the innermost one of a server stands.
fn innermost_at(servings: &[Serving], server: u32) -> Option<usize>
    ensures { result ≡ position (table.is_by server) servings.now }
{
    servings.iter().position(|serving| serving.server == server)
}

// The caller of the one at a depth.
#[tactic(auto, unfolding(crate::specs::Table::caller_at))]
fn caller_at(servings: &[Serving], server: u32, depth: usize) -> Option<u32>
    ensures { result ≡ table.caller_at servings.now server depth }
{
    let mut depth = depth;
    for serving in servings {
        if serving.server == server {
            if depth == 0 {
                return Some(serving.caller);
            }
            depth -= 1;
        }
    }
    None
}

/// Whether a thread is within the accept statement that began with the call of the task at a place.
pub(crate) fn is_served(servings: &[Serving], place: u32) -> bool
    ensures { result ≡ table.is_served servings.now place }
{
    servings.iter().any(|serving| serving.caller == place)
}

impl Threads {
    /// The thread at one place begins the accept statement that the call of the task at another begins (9.5). Fails
    /// for want of memory alone.
    pub fn serve(&mut self, server: u32, caller: u32) -> Result<(), AllocError>
        ensures ok { OnOk result (self.new ≡ record self.old {
          servings = record { server = server; caller = caller } ∷ self.old.servings;
        }) }
        ensures err { OnErr result (self.new ≡ self.old) }
        ensures marks { KeepsMarks self.old self.new }
    {
        self.servings.insert(0, Serving { server, caller })?;
        Ok(())
    }

    /// The thread at a place has left its innermost accept statement (9.5): the place of whose call began it.
    pub fn serve_no_more(&mut self, server: u32) -> Option<u32>
        ensures caller { result ≡ table.innermost_caller self.old.servings server }
        ensures left { self.new ≡ record self.old {
          servings = table.without_first (table.is_by server) self.old.servings;
        } }
        ensures marks { KeepsMarks self.old self.new }
    {
        let at = innermost_at(&self.servings, server)?;
        Some(self.servings.remove(at).caller)
    }

    /// The place of whose call began the accept statement that the thread at a place is within, by its depth: that of
    /// the innermost one is 0 (9.5).
    pub fn caller(&self, server: u32, depth: usize) -> Option<u32>
        ensures { result ≡ table.caller_at self.now.servings server depth }
    {
        caller_at(&self.servings, server, depth)
    }
}
