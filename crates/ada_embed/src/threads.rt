//! What C calls for the threads of tasks. A table is used as a kernel is, by one thread at a time. A function answers
//! 0, or the code of what is wrong with the numbers, of wanting memory, or of a kernel that keeps everything. It writes
//! only where it answers 0, and changes the table only then.

ghost use Rattle.std.specs.Prelude.{◌≡◌, ◌⊎◌, None, OnErr, OnOk, false, option_map, pos, true};
ghost use Rattle.std.specs.List.{list_any};
ghost use Rattle.ada_border.specs.Codes.{bad_code as code_of_bad, refusal_code as code_of_refusal};
ghost use Rattle.ada_border.specs.Events.{flag as flag_of};
ghost use Rattle.ada_threads.specs.Going as going;
ghost use Rattle.ada_threads.specs.Going.{KeepsMarks};
ghost use Rattle.ada_embed.specs.Lasting.{IsToldOr, or_code as code_or};
ghost use Rattle.ada_embed.specs.Threads as spec;
ghost use Rattle.ada_embed.specs.Threads.{IsGrownOr};

use crate::answering::tell_or;
use crate::codes::KEEPS_ALL;
use crate::handle::Handle;
use crate::host_kernel::HostKernel;
use crate::threads_handle::ThreadsHandle;
use ada_border::Bad;
use ada_border::codes::{ACCEPTED, bad_code, refusal_code};
use ada_border::events::flag;
use ada_events::Refusal;
use ada_lasting::LastingMaster;
use ada_threads::{Stay, Threads};
use std::alloc::{AllocError, Global};

/// Why a thread stays where it is, each 0 or 1.
#[repr(C)]
#[derive(Clone, Copy, Debug, PartialEq, Eq)]
pub struct PlainStay {
    pub is_held_up: u32,
    pub is_served: u32,
    pub awaits_threads: u32,
}

// ---- A table.

// Puts a table where C keeps it.
fn give(threads: Box<Threads>, out: &mut *mut u8) {
    *out = Box::into_raw(threads) as *mut u8;
}

/// Makes a table without threads, or finds no memory. C keeps the pointer that is written, and passes it as a
/// `ThreadsHandle`.
#[unsafe(no_mangle)]
pub extern "C" fn adatask_threads_new(alloc: Global, out: &mut *mut u8) -> i32
    ensures { (result ≡ pos 0)
        ⊎ ((result ≡ code_of_refusal Refusal.OutOfMemory) × (out.new ≡ out.old)) }
{
    match Box::new(alloc, Threads::new(alloc)) {
        Ok(threads) => {
            give(threads, out);
            ACCEPTED
        }
        Err(_) => refusal_code(Refusal::OutOfMemory),
    }
}

/// Gives up a table.
#[unsafe(no_mangle)]
pub extern "C" fn adatask_threads_drop(t: ThreadsHandle) {
    drop(t.into_parts().into_box());
}

// Whether a table has a place.
fn has(threads: &Threads, place: u32) -> bool
    ensures { result ≡ spec.has_place threads.now place }
{
    (place as usize) < threads.places()
}

// Whether what grows found memory.
fn grown(done: Result<(), AllocError>) -> i32
    ensures ok { OnOk done (result ≡ pos 0) }
    ensures err { OnErr done (result ≡ code_of_refusal Refusal.OutOfMemory) }
{
    if done.is_ok() {
        ACCEPTED
    } else {
        refusal_code(Refusal::OutOfMemory)
    }
}

// The master of a kind: 0 for a task's body, 1 for a block by the position of its opening, 2 for one that the kernel
// doesn't know.
fn master_in(kind: u32, number: u64) -> Result<Option<LastingMaster>, i32>
    ensures { result ≡ spec.master_in kind number }
{
    match kind {
        0 => Ok(Some(LastingMaster::Body(number))),
        1 => Ok(Some(LastingMaster::Block(number))),
        2 => Ok(None),
        _ => Err(bad_code(Bad::NoSuchKind)),
    }
}

/// Keeps a task of which there is no thread yet, by its number and the master on which it depends. Its place leaves no
/// place out.
#[unsafe(no_mangle)]
pub extern "C" fn adatask_threads_put(
    t: &mut ThreadsHandle,
    place: u32,
    task: u64,
    master_kind: u32,
    master: u64,
) -> i32
    ensures put { IsGrownOr (spec.with_put t.old.home place task master_kind master)
        result t.old.home t.new.home }
    ensures marks { KeepsMarks t.old.home t.new.home }
{
    let threads = t.threads();
    if place as usize > threads.places() {
        return bad_code(Bad::OutOfRange);
    }
    let code = match master_in(master_kind, master) {
        Ok(on) => grown(threads.put(place, task, on)),
        Err(code) => code,
    };
    code
}

/// A thread of the task at a place is there from now on (9.3).
#[unsafe(no_mangle)]
pub extern "C" fn adatask_threads_begin(t: &mut ThreadsHandle, place: u32) -> i32
    ensures begun { IsToldOr
        (spec.with_changed_at t.old.home place (λ t. record t { has_thread = true }))
        result t.old.home t.new.home }
    ensures marks { KeepsMarks t.old.home t.new.home }
{
    let threads = t.threads();
    if !has(threads, place) {
        return bad_code(Bad::NoSuchTask);
    }
    threads.begin(place);
    ACCEPTED
}

/// The thread of the task at a place is over.
#[unsafe(no_mangle)]
pub extern "C" fn adatask_threads_end(t: &mut ThreadsHandle, place: u32) -> i32
    ensures ended { IsToldOr
        (spec.with_changed_at t.old.home place
        (λ t. record t { has_thread = false; is_parked = false }))
        result t.old.home t.new.home }
    ensures marks { KeepsMarks t.old.home t.new.home }
{
    let threads = t.threads();
    if !has(threads, place) {
        return bad_code(Bad::NoSuchTask);
    }
    threads.end(place);
    ACCEPTED
}

/// Nobody awaits the thread of the task at a place from now on.
#[unsafe(no_mangle)]
pub extern "C" fn adatask_threads_detach(t: &mut ThreadsHandle, place: u32) -> i32
    ensures detached { IsToldOr
        (spec.with_changed_at t.old.home place (λ t. record t { on = None }))
        result t.old.home t.new.home }
    ensures marks { KeepsMarks t.old.home t.new.home }
{
    let threads = t.threads();
    if !has(threads, place) {
        return bad_code(Bad::NoSuchTask);
    }
    threads.detach(place);
    ACCEPTED
}

// ---- Masters.

/// The thread at a place enters a master of a level (9.4).
#[unsafe(no_mangle)]
pub extern "C" fn adatask_threads_enter(
    t: &mut ThreadsHandle,
    place: u32,
    level: u32,
    master_kind: u32,
    master: u64,
) -> i32
    ensures entered { IsGrownOr (spec.with_entered t.old.home place level master_kind master)
        result t.old.home t.new.home }
    ensures marks { KeepsMarks t.old.home t.new.home }
{
    let threads = t.threads();
    if !has(threads, place) {
        return bad_code(Bad::NoSuchTask);
    }
    let code = match master_in(master_kind, master) {
        Ok(master) => grown(threads.enter(place, level, master)),
        Err(code) => code,
    };
    code
}

/// The thread at a place begins to leave the master that it entered last, or its body (9.4).
#[unsafe(no_mangle)]
pub extern "C" fn adatask_threads_leave(t: &mut ThreadsHandle, place: u32) -> i32
    ensures leaving { IsToldOr
        (spec.with_changed_at t.old.home place (λ t. record t { leaves = true }))
        result t.old.home t.new.home }
    ensures marks { KeepsMarks t.old.home t.new.home }
{
    let threads = t.threads();
    if !has(threads, place) {
        return bad_code(Bad::NoSuchTask);
    }
    threads.leave(place);
    ACCEPTED
}

/// The thread at a place has left the master that it entered last (9.4).
#[unsafe(no_mangle)]
pub extern "C" fn adatask_threads_left(t: &mut ThreadsHandle, place: u32) -> i32
    ensures left { IsToldOr (spec.with_left t.old.home place) result t.old.home t.new.home }
    ensures marks { KeepsMarks t.old.home t.new.home }
{
    let threads = t.threads();
    if !has(threads, place) {
        return bad_code(Bad::NoSuchTask);
    }
    threads.left(place);
    ACCEPTED
}

// The kind of a master and its number.
fn plain_master(master: Option<LastingMaster>) -> (u32, u64)
    ensures { result ≡ (spec.kind_of master, spec.number_of master) }
{
    match master {
        Some(LastingMaster::Body(task)) => (0, task),
        Some(LastingMaster::Block(position)) => (1, position),
        None => (2, 0),
    }
}

/// The master that the thread at a place entered last of those of a level or a lower one, or its body (9.4).
#[unsafe(no_mangle)]
pub extern "C" fn adatask_threads_master(
    t: &mut ThreadsHandle,
    place: u32,
    level: u32,
    master_kind: &mut u32,
    master: &mut u64,
) -> i32
    ensures kind { IsToldOr (spec.kind_told t.old.home place level)
        result master_kind.old master_kind.new }
    ensures number { IsToldOr (spec.number_told t.old.home place level)
        result master.old master.new }
    ensures same { t.new.home ≡ t.old.home }
{
    let threads = t.threads();
    if !has(threads, place) {
        return bad_code(Bad::NoSuchTask);
    }
    let (kind, number) = plain_master(threads.master_at(place, level));
    *master_kind = kind;
    *master = number;
    ACCEPTED
}

// What was found about a thread, or that there is none.
fn found(found: Option<u32>) -> Result<u32, i32>
    ensures { result ≡ code_or found (code_of_bad Bad.NoSuchItem) }
{
    match found {
        Some(found) => Ok(found),
        None => Err(bad_code(Bad::NoSuchItem)),
    }
}

/// The first place, of one or more, of a task that depends on the master that the thread at a place entered last, or on
/// its body (9.4).
#[unsafe(no_mangle)]
pub extern "C" fn adatask_threads_dependent(
    t: &mut ThreadsHandle,
    place: u32,
    from: u32,
    out: &mut u32,
) -> i32
    ensures told { IsToldOr (spec.dependent_told t.old.home place from) result out.old out.new }
    ensures same { t.new.home ≡ t.old.home }
{
    let threads = t.threads();
    if !has(threads, place) {
        return bad_code(Bad::NoSuchTask);
    }
    tell_or(found(threads.dependent(place, from)), out)
}

// ---- Accept statements.

/// The thread of a server begins the accept statement that the call of the task at another place begins (9.5).
#[unsafe(no_mangle)]
pub extern "C" fn adatask_threads_serve(t: &mut ThreadsHandle, server: u32, caller: u32) -> i32
    ensures served { IsGrownOr (spec.with_serving t.old.home server caller)
        result t.old.home t.new.home }
    ensures marks { KeepsMarks t.old.home t.new.home }
{
    let threads = t.threads();
    if !has(threads, server) || !has(threads, caller) {
        return bad_code(Bad::NoSuchTask);
    }
    grown(threads.serve(server, caller))
}

/// The thread of a server has left its innermost accept statement: whose call began that (9.5).
#[unsafe(no_mangle)]
pub extern "C" fn adatask_threads_serve_no_more(
    t: &mut ThreadsHandle,
    server: u32,
    caller: &mut u32,
) -> i32
    ensures told { IsToldOr (spec.innermost_told t.old.home server)
        result caller.old caller.new }
    ensures left { IsToldOr (spec.without_serving t.old.home server)
        result t.old.home t.new.home }
    ensures marks { KeepsMarks t.old.home t.new.home }
{
    let threads = t.threads();
    if !has(threads, server) {
        return bad_code(Bad::NoSuchTask);
    }
    tell_or(found(threads.serve_no_more(server)), caller)
}

/// Whose call began the accept statement at a depth that the thread of a server is within; the innermost one has the
/// depth 0 (9.5).
#[unsafe(no_mangle)]
pub extern "C" fn adatask_threads_caller(
    t: &mut ThreadsHandle,
    server: u32,
    depth: u32,
    caller: &mut u32,
) -> i32
    ensures told { IsToldOr (spec.caller_told t.old.home server depth)
        result caller.old caller.new }
    ensures same { t.new.home ≡ t.old.home }
{
    let threads = t.threads();
    if !has(threads, server) {
        return bad_code(Bad::NoSuchTask);
    }
    tell_or(found(threads.caller(server, depth as usize)), caller)
}

// ---- Who goes on.

// Why a kernel that keeps everything tells nothing of the thread at a place.
fn untold(threads: &Threads, place: u32) -> i32
    ensures { result ≡ spec.untold threads.now place }
{
    if has(threads, place) {
        KEEPS_ALL
    } else {
        bad_code(Bad::NoSuchTask)
    }
}

/// Looks whom the last request to a kernel that lives on let go on.
#[unsafe(no_mangle)]
pub extern "C" fn adatask_threads_settle(t: &mut ThreadsHandle, h: &mut Handle) -> i32
    ensures settled { spec.IsSettledBy h.old.home result t.old.home t.new.home }
    ensures same { h.new.home ≡ h.old.home }
{
    let code = match h.kernel() {
        HostKernel::Whole(_) => KEEPS_ALL,
        HostKernel::Lasting(kernel) => {
            t.threads().settle(kernel);
            ACCEPTED
        }
    };
    code
}

// Whether the thread at a place goes on, or that there is none.
fn goes(goes: Option<bool>) -> Result<u32, i32>
    ensures { result ≡ spec.or_no_task (option_map flag_of goes) }
{
    match goes {
        Some(goes) => Ok(flag(goes)),
        None => Err(bad_code(Bad::NoSuchTask)),
    }
}

/// Whether the thread at a place may go on; if it may not it waits from now on.
#[unsafe(no_mangle)]
pub extern "C" fn adatask_threads_stay(
    t: &mut ThreadsHandle,
    h: &mut Handle,
    place: u32,
    goes_on: &mut u32,
) -> i32
    ensures goes { spec.IsToldOfThread h.old.home t.old.home place
        (spec.goes_told t.old.home place) result goes_on.old goes_on.new }
    ensures parks { spec.IsToldOfThread h.old.home t.old.home place
        (spec.with_parked t.old.home place) result t.old.home t.new.home }
    ensures marks { spec.KeepsMarksBy h.old.home t.old.home t.new.home }
    ensures same { h.new.home ≡ h.old.home }
{
    let threads = t.threads();
    let code = match h.kernel() {
        HostKernel::Whole(_) => untold(threads, place),
        HostKernel::Lasting(kernel) => tell_or(goes(threads.stay(kernel, place)), goes_on),
    };
    code
}

/// Lets a thread go on that waits and may: its place.
#[unsafe(no_mangle)]
pub extern "C" fn adatask_threads_next(
    t: &mut ThreadsHandle,
    h: &mut Handle,
    place: &mut u32,
) -> i32
    ensures next { spec.IsNextBy h.old.home result place.old place.new t.old.home t.new.home }
    ensures marks { KeepsMarks t.old.home t.new.home }
    ensures same { h.new.home ≡ h.old.home }
{
    let threads = t.threads();
    let code = match h.kernel() {
        HostKernel::Whole(_) => KEEPS_ALL,
        HostKernel::Lasting(kernel) => match threads.next_to_wake(kernel) {
            Some(woken) => {
                *place = woken;
                ACCEPTED
            }
            None => bad_code(Bad::NoSuchItem),
        },
    };
    code
}

// Why the thread at a place stays, in numbers, or that there is none.
fn plain_stay(stay: Option<Stay>) -> Result<PlainStay, i32>
    ensures { result ≡ spec.or_no_task (option_map spec.plain_stay stay) }
{
    match stay {
        Some(stay) => Ok(PlainStay {
            is_held_up: flag(stay.is_held_up),
            is_served: flag(stay.is_served),
            awaits_threads: flag(stay.awaits_threads),
        }),
        None => Err(bad_code(Bad::NoSuchTask)),
    }
}

/// Why the thread at a place stays where it is, or would have to.
#[unsafe(no_mangle)]
pub extern "C" fn adatask_threads_why(
    t: &mut ThreadsHandle,
    h: &mut Handle,
    place: u32,
    out: &mut PlainStay,
) -> i32
    ensures told { spec.IsToldOfThread h.old.home t.old.home place
        (spec.why_told t.old.home place) result out.old out.new }
    ensures unchanged { t.new.home ≡ t.old.home }
    ensures same { h.new.home ≡ h.old.home }
{
    let threads = t.threads();
    let code = match h.kernel() {
        HostKernel::Whole(_) => untold(threads, place),
        HostKernel::Lasting(kernel) => tell_or(plain_stay(threads.why(kernel, place)), out),
    };
    code
}

/// Whether any thread isn't over and doesn't wait.
#[unsafe(no_mangle)]
pub extern "C" fn adatask_threads_anyone_goes(t: &mut ThreadsHandle) -> u32
    ensures told { result ≡ flag_of (list_any going.goes t.old.home.threads) }
    ensures same { t.new.home ≡ t.old.home }
{
    let told = flag(t.threads().anyone_goes());
    told
}
