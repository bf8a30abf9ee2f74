//! A handle to a kernel, which C keeps as a pointer.
ghost use Rattle.std.specs.Prelude.{◌≡◌};
ghost use Rattle.ada_embed.specs.declared.host_kernel.HostKernel.{HostKernel};
ghost use Rattle.ada_embed.specs.Sealed.{handle_owns};
ghost use Rattle.ada_embed.specs.internal.Coded.{kernel_coded};

use crate::host_kernel::HostKernel;
use crate::parts::Parts;
use std::alloc::Global;
use std::marker::{Model, Send};

/// A kernel that lies in memory of its own. C has the pointer `ptr`, and gives it with each call.
#[repr(C)]
#[derive(Drop)]
pub struct Handle {
    ptr: *mut u8,
    alloc: Global,
    pub ghost home: { HostKernel } by { kernel_coded },
}

impl Model for Handle {
    ghost also_owns = { λ s. handle_owns s.alloc s.ptr s.home };
}

// C may use a handle from several threads, one at a time.
unsafe impl Send for Handle {}

impl Handle {
    ghost use types.Logic.{sem};
    ghost use Rattle.ada_embed.specs.internal.Follows.{handle_follows};

    /// What the handle owns, for the last time.
    pub fn into_parts(self) -> Parts<HostKernel, Global>
        ensures { result.value ≡ self.home }
    {
        let Handle { ptr, alloc } = self;
        Parts {
            ptr: ptr as *mut HostKernel,
            alloc,
        }
    }

    /// The kernel behind the handle.
    pub fn kernel(&mut self) -> &mut HostKernel
        ensures* writes_back { sem 𝓛 (handle_follows self.entry result) }
        ensures value { result.now ≡ self.old.home }
    {
        unsafe { &mut *(self.ptr as *mut HostKernel) }
    }
}
