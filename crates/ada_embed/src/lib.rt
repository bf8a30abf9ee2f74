//! The kernel for programs in C and Ada: its requests and questions in numbers. A kernel is of one of two kinds: it
//! keeps everything, or it lives on.
#![tactic(auto)]

ghost use Rattle.std.specs.Prelude.{◌≡◌, ◌⊎◌, pos};
ghost use Rattle.ada_border.specs.Codes.{refusal_code as code_of_refusal};
ghost use Rattle.ada_embed.specs.Answers.{IsChangedBy};
ghost use Rattle.ada_embed.specs.Lasting.{IsCompacted, IsReleased};

pub mod answering;
pub mod codes;
pub mod events;
pub mod going_on;
pub mod handle;
pub mod host_kernel;
pub mod lasting;
pub mod parts;
pub mod questions;
pub mod reasons;
pub mod requests;
pub mod threads;
pub mod threads_handle;
pub mod whole;

use ada_border::codes::{ACCEPTED, refusal_code};
use ada_events::Refusal;
use ada_kernel::Kernel;
use ada_lasting::LongKernel;
use codes::{KEEPS_ALL, lasting_code};
use handle::Handle;
use host_kernel::HostKernel;
use std::alloc::Global;

// Puts a kernel where C keeps it.
fn give(kernel: Box<HostKernel>, out: &mut *mut u8) {
    *out = Box::into_raw(kernel) as *mut u8;
}

// Puts a kernel into memory of its own.
fn keep(alloc: Global, kernel: HostKernel, out: &mut *mut u8) -> i32
    ensures { (result ≡ pos 0)
        ⊎ ((result ≡ code_of_refusal Refusal.OutOfMemory) × (out.new ≡ out.old)) }
{
    match Box::new(alloc, kernel) {
        Ok(kernel) => {
            give(kernel, out);
            ACCEPTED
        }
        Err(_) => refusal_code(Refusal::OutOfMemory),
    }
}

/// Makes a kernel that keeps everything, or finds no memory. C keeps the pointer that is written, and passes it as a
/// `Handle`.
#[unsafe(no_mangle)]
pub extern "C" fn adatask_kernel_new(alloc: Global, out: &mut *mut u8) -> i32
    ensures { (result ≡ pos 0)
        ⊎ ((result ≡ code_of_refusal Refusal.OutOfMemory) × (out.new ≡ out.old)) }
{
    match Kernel::new(alloc) {
        Ok(kernel) => keep(alloc, HostKernel::Whole(kernel), out),
        Err(cause) => refusal_code(cause),
    }
}

/// Makes a kernel that lives on, or finds no memory. Its present journal is made shorter when it has so many events.
#[unsafe(no_mangle)]
pub extern "C" fn adatask_kernel_new_lasting(
    alloc: Global,
    threshold: u32,
    out: &mut *mut u8,
) -> i32
    ensures { (result ≡ pos 0)
        ⊎ ((result ≡ code_of_refusal Refusal.OutOfMemory) × (out.new ≡ out.old)) }
{
    match LongKernel::new(alloc, threshold) {
        Ok(kernel) => keep(alloc, HostKernel::Lasting(kernel), out),
        Err(cause) => lasting_code(cause),
    }
}

/// Gives up a kernel.
#[unsafe(no_mangle)]
pub extern "C" fn adatask_kernel_drop(h: Handle) {
    drop(h.into_parts().into_box());
}

/// Gives a terminated task of a kernel that lives on up: it may not be named any more. All others keep their names.
#[unsafe(no_mangle)]
pub extern "C" fn adatask_release(h: &mut Handle, task: u64) -> i32
    ensures { IsChangedBy h.old.home (IsReleased task) result h.new.home }
{
    let code = match h.kernel() {
        HostKernel::Whole(_) => KEEPS_ALL,
        HostKernel::Lasting(kernel) => lasting::questions::release(kernel, task),
    };
    code
}

/// Makes the present journal of a kernel that lives on shorter.
#[unsafe(no_mangle)]
pub extern "C" fn adatask_compact(h: &mut Handle) -> i32
    ensures { IsChangedBy h.old.home IsCompacted result h.new.home }
{
    let code = match h.kernel() {
        HostKernel::Whole(_) => KEEPS_ALL,
        HostKernel::Lasting(kernel) => lasting::questions::compact(kernel),
    };
    code
}
