//! What C calls to make a request: that of `requests`, and after it whether its task goes on.
//!
//! Accepted, `goes_on` is 1 if the task is running then, and 0 if it isn't, as it is held up or has ended.

ghost use Rattle.std.specs.Prelude.{◌≡◌};
ghost use Rattle.ada_embed.specs.Answers.{IsAnsweredBy, IsGoingOn};
ghost use Rattle.ada_embed.specs.Requests as asked;

use crate::handle::Handle;
use crate::questions::adatask_running;
use crate::requests;
use ada_border::codes::ACCEPTED;
use ada_border::parts::{PlainChoice, PlainFamily, PlainPause};

// Writes whether a task goes on, if its request was accepted.
fn tell_going(h: &mut Handle, by: u64, code: i32, goes_on: &mut u32)
    ensures told { IsGoingOn h.old.home by code goes_on.old goes_on.new }
    ensures same { h.new.home ≡ h.old.home }
{
    if code == ACCEPTED {
        *goes_on = 0;
        let _code = adatask_running(h, by, goes_on);
    }
}

/// Opens a block within what the task is in (5.6, 9.4).
#[unsafe(no_mangle)]
pub extern "C" fn adatask_open(
    h: &mut Handle,
    now: i64,
    by: u64,
    at: &mut u64,
    goes_on: &mut u32,
) -> i32
    ensures answered { IsAnsweredBy h.old.home (asked.open_in by) now
        result at.old at.new h.new.home }
    ensures goes_on { IsGoingOn h.new.home by result goes_on.old goes_on.new }
{
    let code = requests::open(h, now, by, at);
    tell_going(h, by, code, goes_on);
    code
}

/// Makes a task that depends on a master, a body (0) or a block (1), with these families of entries (9.1, 9.4, 9.5).
#[unsafe(no_mangle)]
pub extern "C" fn adatask_create(
    h: &mut Handle,
    now: i64,
    by: u64,
    master_kind: u32,
    master: u64,
    families: &[PlainFamily],
    at: &mut u64,
    goes_on: &mut u32,
) -> i32
    ensures answered { IsAnsweredBy h.old.home
        (asked.create_in by master_kind master families.now)
        now result at.old at.new h.new.home }
    ensures goes_on { IsGoingOn h.new.home by result goes_on.old goes_on.new }
{
    let code = requests::create(h, now, by, master_kind, master, families, at);
    tell_going(h, by, code, goes_on);
    code
}

/// Starts the activation of tasks (9.3).
#[unsafe(no_mangle)]
pub extern "C" fn adatask_activate(
    h: &mut Handle,
    now: i64,
    by: u64,
    tasks: &[u64],
    at: &mut u64,
    goes_on: &mut u32,
) -> i32
    ensures answered { IsAnsweredBy h.old.home (asked.activate_in by tasks.now) now
        result at.old at.new h.new.home }
    ensures goes_on { IsGoingOn h.new.home by result goes_on.old goes_on.new }
{
    let code = requests::activate(h, now, by, tasks, at);
    tell_going(h, by, code, goes_on);
    code
}

/// Ends the task's own activation, by an exception if `ok` is 0 (9.3).
#[unsafe(no_mangle)]
pub extern "C" fn adatask_elaborated(
    h: &mut Handle,
    now: i64,
    by: u64,
    ok: u32,
    at: &mut u64,
    goes_on: &mut u32,
) -> i32
    ensures answered { IsAnsweredBy h.old.home (asked.elaborated_in by ok) now
        result at.old at.new h.new.home }
    ensures goes_on { IsGoingOn h.new.home by result goes_on.old goes_on.new }
{
    let code = requests::elaborated(h, now, by, ok, at);
    tell_going(h, by, code, goes_on);
    code
}

/// Calls an entry: simply (0), conditionally (1), or for a duration (2) (9.5, 9.7.2, 9.7.3).
#[unsafe(no_mangle)]
pub extern "C" fn adatask_call(
    h: &mut Handle,
    now: i64,
    by: u64,
    callee: u64,
    family: u32,
    index: i32,
    patience: u32,
    duration: i64,
    at: &mut u64,
    goes_on: &mut u32,
) -> i32
    ensures answered { IsAnsweredBy h.old.home
        (asked.call_in by callee family index patience duration)
        now result at.old at.new h.new.home }
    ensures goes_on { IsGoingOn h.new.home by result goes_on.old goes_on.new }
{
    let code = requests::call(h, now, by, callee, family, index, patience, duration, at);
    tell_going(h, by, code, goes_on);
    code
}

/// Waits selectively (9.7.1). The last part is nothing (0), an else part (1), delay alternatives (2), a terminate
/// alternative (3) or a closed one (4).
#[unsafe(no_mangle)]
pub extern "C" fn adatask_wait(
    h: &mut Handle,
    now: i64,
    by: u64,
    choices: &[PlainChoice],
    tail: u32,
    delays: &[PlainPause],
    pick: u32,
    at: &mut u64,
    goes_on: &mut u32,
) -> i32
    ensures answered { IsAnsweredBy h.old.home
        (asked.wait_in by choices.now tail delays.now pick)
        now result at.old at.new h.new.home }
    ensures goes_on { IsGoingOn h.new.home by result goes_on.old goes_on.new }
{
    let code = requests::wait(h, now, by, choices, tail, delays, pick, at);
    tell_going(h, by, code, goes_on);
    code
}

/// Delays the task by a duration (9.6).
#[unsafe(no_mangle)]
pub extern "C" fn adatask_delay(
    h: &mut Handle,
    now: i64,
    by: u64,
    duration: i64,
    at: &mut u64,
    goes_on: &mut u32,
) -> i32
    ensures answered { IsAnsweredBy h.old.home (asked.delay_in by duration) now
        result at.old at.new h.new.home }
    ensures goes_on { IsGoingOn h.new.home by result goes_on.old goes_on.new }
{
    let code = requests::delay(h, now, by, duration, at);
    tell_going(h, by, code, goes_on);
    code
}

/// Ends the innermost accept statement, by an exception if `raised` is 1 (9.5, 11.5).
#[unsafe(no_mangle)]
pub extern "C" fn adatask_end(
    h: &mut Handle,
    now: i64,
    by: u64,
    raised: u32,
    at: &mut u64,
    goes_on: &mut u32,
) -> i32
    ensures answered { IsAnsweredBy h.old.home (asked.end_in by raised) now
        result at.old at.new h.new.home }
    ensures goes_on { IsGoingOn h.new.home by result goes_on.old goes_on.new }
{
    let code = requests::end(h, now, by, raised, at);
    tell_going(h, by, code, goes_on);
    code
}

/// Leaves the innermost block, once its dependents are terminated (9.4).
#[unsafe(no_mangle)]
pub extern "C" fn adatask_close(
    h: &mut Handle,
    now: i64,
    by: u64,
    at: &mut u64,
    goes_on: &mut u32,
) -> i32
    ensures answered { IsAnsweredBy h.old.home (asked.close_in by) now
        result at.old at.new h.new.home }
    ensures goes_on { IsGoingOn h.new.home by result goes_on.old goes_on.new }
{
    let code = requests::close(h, now, by, at);
    tell_going(h, by, code, goes_on);
    code
}

/// Completes the task's body (9.4).
#[unsafe(no_mangle)]
pub extern "C" fn adatask_complete(
    h: &mut Handle,
    now: i64,
    by: u64,
    at: &mut u64,
    goes_on: &mut u32,
) -> i32
    ensures answered { IsAnsweredBy h.old.home (asked.complete_in by) now
        result at.old at.new h.new.home }
    ensures goes_on { IsGoingOn h.new.home by result goes_on.old goes_on.new }
{
    let code = requests::complete(h, now, by, at);
    tell_going(h, by, code, goes_on);
    code
}

/// Aborts tasks (9.10).
#[unsafe(no_mangle)]
pub extern "C" fn adatask_abort(
    h: &mut Handle,
    now: i64,
    by: u64,
    tasks: &[u64],
    at: &mut u64,
    goes_on: &mut u32,
) -> i32
    ensures answered { IsAnsweredBy h.old.home (asked.abort_in by tasks.now) now
        result at.old at.new h.new.home }
    ensures goes_on { IsGoingOn h.new.home by result goes_on.old goes_on.new }
{
    let code = requests::abort(h, now, by, tasks, at);
    tell_going(h, by, code, goes_on);
    code
}
