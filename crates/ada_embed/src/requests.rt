//! Requests of tasks. `now` is the moment of the host's clock, in milliseconds from the beginning, or negative if it
//! has none. Accepted, the position of the request's event is written to `at`.
//!
//! A function answers 0, or a code: below 100 that of a cause of a refusal, and from 100 that of what is wrong with the
//! numbers, or that of what a kernel that lives on can't do. It writes only where it answers 0.

ghost use Rattle.ada_embed.specs.Answers.{IsAnsweredBy};
ghost use Rattle.ada_embed.specs.Requests as asked;

use crate::handle::Handle;
use crate::host_kernel::HostKernel;
use crate::{lasting, whole};
use ada_border::parts::{PlainChoice, PlainFamily, PlainPause};
use ada_border::requests;
use ada_events::Request;

/// Opens a block within what the task is in (5.6, 9.4).
pub fn open(h: &mut Handle, now: i64, by: u64, at: &mut u64) -> i32
    ensures { IsAnsweredBy h.old.home (asked.open_in by) now
        result at.old at.new h.new.home }
{
    let code = match h.kernel() {
        HostKernel::Whole(kernel) => whole::answer(kernel, now, requests::open_in(by), at),
        HostKernel::Lasting(kernel) if now >= 0 => { lasting::clocked::open(kernel, now, by, at) }
        HostKernel::Lasting(kernel) => lasting::answer(kernel, lasting::open_in(by), at),
    };
    code
}

/// Makes a task that depends on a master, a body (0) or a block (1), with these families of entries (9.1, 9.4, 9.5).
pub fn create(
    h: &mut Handle,
    now: i64,
    by: u64,
    master_kind: u32,
    master: u64,
    families: &[PlainFamily],
    at: &mut u64,
) -> i32
    ensures { IsAnsweredBy h.old.home (asked.create_in by master_kind master families.now) now
        result at.old at.new h.new.home }
{
    let code = match h.kernel() {
        HostKernel::Whole(kernel) => whole::answer(
            kernel,
            now,
            requests::create_in(by, master_kind, master, families),
            at,
        ),
        HostKernel::Lasting(kernel) if now >= 0 => {
            lasting::clocked::create(kernel, now, by, master_kind, master, families, at)
        }
        HostKernel::Lasting(kernel) => lasting::answer(
            kernel,
            lasting::create_in(by, master_kind, master, families),
            at,
        ),
    };
    code
}

/// Starts the activation of tasks (9.3).
pub fn activate(h: &mut Handle, now: i64, by: u64, tasks: &[u64], at: &mut u64) -> i32
    ensures { IsAnsweredBy h.old.home (asked.activate_in by tasks.now) now
        result at.old at.new h.new.home }
{
    let code = match h.kernel() {
        HostKernel::Whole(kernel) => whole::answer(
            kernel,
            now,
            requests::activate_in(by, tasks),
            at,
        ),
        HostKernel::Lasting(kernel) if now >= 0 => {
            lasting::clocked::activate(kernel, now, by, tasks, at)
        }
        HostKernel::Lasting(kernel) => lasting::answer(kernel, lasting::activate_in(by, tasks), at),
    };
    code
}

/// Ends the task's own activation, by an exception if `ok` is 0 (9.3).
pub fn elaborated(h: &mut Handle, now: i64, by: u64, ok: u32, at: &mut u64) -> i32
    ensures { IsAnsweredBy h.old.home (asked.elaborated_in by ok) now
        result at.old at.new h.new.home }
{
    let code = match h.kernel() {
        HostKernel::Whole(kernel) => whole::answer(
            kernel,
            now,
            requests::elaborated_in(by, ok),
            at,
        ),
        HostKernel::Lasting(kernel) if now >= 0 => {
            lasting::clocked::elaborated(kernel, now, by, ok, at)
        }
        HostKernel::Lasting(kernel) => lasting::answer(kernel, lasting::elaborated_in(by, ok), at),
    };
    code
}

/// Calls an entry: simply (0), conditionally (1), or for a duration (2) (9.5, 9.7.2, 9.7.3).
pub fn call(
    h: &mut Handle,
    now: i64,
    by: u64,
    callee: u64,
    family: u32,
    index: i32,
    patience: u32,
    duration: i64,
    at: &mut u64,
) -> i32
    ensures { IsAnsweredBy h.old.home (asked.call_in by callee family index patience duration) now
        result at.old at.new h.new.home }
{
    let code = match h.kernel() {
        HostKernel::Whole(kernel) => whole::answer(
            kernel,
            now,
            requests::call_in(by, callee, family, index, patience, duration),
            at,
        ),
        HostKernel::Lasting(kernel) if now >= 0 => {
            lasting::clocked::call(
                kernel, now, by, callee, family, index, patience, duration, at,
            )
        }
        HostKernel::Lasting(kernel) => lasting::answer(
            kernel,
            lasting::call_in(by, callee, family, index, patience, duration),
            at,
        ),
    };
    code
}

/// Waits selectively (9.7.1). The last part is nothing (0), an else part (1), delay alternatives (2), a terminate
/// alternative (3) or a closed one (4).
pub fn wait(
    h: &mut Handle,
    now: i64,
    by: u64,
    choices: &[PlainChoice],
    tail: u32,
    delays: &[PlainPause],
    pick: u32,
    at: &mut u64,
) -> i32
    ensures { IsAnsweredBy h.old.home (asked.wait_in by choices.now tail delays.now pick) now
        result at.old at.new h.new.home }
{
    let code = match h.kernel() {
        HostKernel::Whole(kernel) => {
            whole::wait(kernel, now, by, choices, tail, delays, pick, at)
        }
        HostKernel::Lasting(kernel) if now >= 0 => {
            lasting::clocked::wait(kernel, now, by, choices, tail, delays, pick, at)
        }
        HostKernel::Lasting(kernel) => {
            lasting::wait(kernel, by, choices, tail, delays, pick, at)
        }
    };
    code
}

/// Delays the task by a duration (9.6).
pub fn delay(h: &mut Handle, now: i64, by: u64, duration: i64, at: &mut u64) -> i32
    ensures { IsAnsweredBy h.old.home (asked.delay_in by duration) now
        result at.old at.new h.new.home }
{
    let code = match h.kernel() {
        HostKernel::Whole(kernel) => whole::answer(
            kernel,
            now,
            requests::delay_in(by, duration),
            at,
        ),
        HostKernel::Lasting(kernel) if now >= 0 => {
            lasting::clocked::delay(kernel, now, by, duration, at)
        }
        HostKernel::Lasting(kernel) => lasting::answer(kernel, lasting::delay_in(by, duration), at),
    };
    code
}

/// Ends the innermost accept statement, by an exception if `raised` is 1 (9.5, 11.5).
pub fn end(h: &mut Handle, now: i64, by: u64, raised: u32, at: &mut u64) -> i32
    ensures { IsAnsweredBy h.old.home (asked.end_in by raised) now
        result at.old at.new h.new.home }
{
    let code = match h.kernel() {
        HostKernel::Whole(kernel) => whole::answer(kernel, now, requests::end_in(by, raised), at),
        HostKernel::Lasting(kernel) if now >= 0 => {
            lasting::clocked::end(kernel, now, by, raised, at)
        }
        HostKernel::Lasting(kernel) => lasting::answer(kernel, lasting::end_in(by, raised), at),
    };
    code
}

/// Leaves the innermost block, once its dependents are terminated (9.4).
pub fn close(h: &mut Handle, now: i64, by: u64, at: &mut u64) -> i32
    ensures { IsAnsweredBy h.old.home (asked.close_in by) now
        result at.old at.new h.new.home }
{
    let code = match h.kernel() {
        HostKernel::Whole(kernel) => whole::answer(kernel, now, requests::close_in(by), at),
        HostKernel::Lasting(kernel) if now >= 0 => { lasting::clocked::close(kernel, now, by, at) }
        HostKernel::Lasting(kernel) => lasting::answer(kernel, lasting::close_in(by), at),
    };
    code
}

/// Completes the task's body (9.4).
pub fn complete(h: &mut Handle, now: i64, by: u64, at: &mut u64) -> i32
    ensures { IsAnsweredBy h.old.home (asked.complete_in by) now
        result at.old at.new h.new.home }
{
    let code = match h.kernel() {
        HostKernel::Whole(kernel) => whole::answer(kernel, now, requests::complete_in(by), at),
        HostKernel::Lasting(kernel) if now >= 0 => {
            lasting::clocked::complete(kernel, now, by, at)
        }
        HostKernel::Lasting(kernel) => lasting::answer(kernel, lasting::complete_in(by), at),
    };
    code
}

/// Aborts tasks (9.10).
pub fn abort(h: &mut Handle, now: i64, by: u64, tasks: &[u64], at: &mut u64) -> i32
    ensures { IsAnsweredBy h.old.home (asked.abort_in by tasks.now) now
        result at.old at.new h.new.home }
{
    let code = match h.kernel() {
        HostKernel::Whole(kernel) => whole::answer(kernel, now, requests::abort_in(by, tasks), at),
        HostKernel::Lasting(kernel) if now >= 0 => {
            lasting::clocked::abort(kernel, now, by, tasks, at)
        }
        HostKernel::Lasting(kernel) => lasting::answer(kernel, lasting::abort_in(by, tasks), at),
    };
    code
}

/// Moves the moment, in milliseconds from the beginning.
#[unsafe(no_mangle)]
pub extern "C" fn adatask_tick(h: &mut Handle, now: i64, moment: i64, at: &mut u64) -> i32
    ensures { IsAnsweredBy h.old.home (asked.tick_to moment) now
        result at.old at.new h.new.home }
{
    let code = match h.kernel() {
        HostKernel::Whole(kernel) => whole::answer(
            kernel,
            now,
            Ok(Request::Tick { now: moment }),
            at,
        ),
        HostKernel::Lasting(kernel) if now >= 0 => {
            lasting::clocked::tick(kernel, now, moment, at)
        }
        HostKernel::Lasting(kernel) => lasting::answer(kernel, lasting::tick_to(moment), at),
    };
    code
}
