//! A handle to a table of threads, which C keeps as a pointer.
ghost use Rattle.std.specs.Prelude.{◌≡◌};
ghost use Rattle.ada_threads.specs.Table.{Table};
ghost use Rattle.ada_embed.specs.SealedThreads.{threads_owned};
ghost use Rattle.ada_embed.specs.internal.CodedThreads.{threads_coded};

use crate::parts::Parts;
use ada_threads::Threads;
use std::alloc::Global;
use std::marker::{Model, Send};

/// A table that lies in memory of its own. C has the pointer `ptr`, and gives it with each call.
#[repr(C)]
#[derive(Drop)]
pub struct ThreadsHandle {
    ptr: *mut u8,
    alloc: Global,
    pub ghost home: { Table } by { threads_coded },
}

impl Model for ThreadsHandle {
    ghost also_owns = { λ s. threads_owned s.alloc s.ptr s.home };
}

// C may use a handle from several threads, one at a time.
unsafe impl Send for ThreadsHandle {}

impl ThreadsHandle {
    ghost use types.Logic.{sem};
    ghost use Rattle.ada_embed.specs.internal.FollowsThreads.{threads_follow};

    /// What the handle owns, for the last time.
    pub fn into_parts(self) -> Parts<Threads, Global>
        ensures { result.value ≡ self.home }
    {
        let ThreadsHandle { ptr, alloc } = self;
        Parts {
            ptr: ptr as *mut Threads,
            alloc,
        }
    }

    /// The table behind the handle.
    pub fn threads(&mut self) -> &mut Threads
        ensures* writes_back { sem 𝓛 (threads_follow self.entry result) }
        ensures value { result.now ≡ self.old.home }
    {
        unsafe { &mut *(self.ptr as *mut Threads) }
    }
}
