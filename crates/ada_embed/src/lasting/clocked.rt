//! Requests to a kernel that lives on at a moment of the host's clock. Each is a function of its own, out of the way of
//! hosts without a clock: such a request is laid into memory, and that would be cleared for those too.
ghost use Rattle.std.specs.Prelude.{List};
ghost use Rattle.ada_events.specs.declared.event.Event.{Event as Happening};
ghost use Rattle.ada_lasting.specs.Following.{Follows};
ghost use Rattle.ada_embed.specs.Answers.{IsAnsweredLasting};
ghost use Rattle.ada_embed.specs.Requests as asked;

use crate::lasting::answers::answer_at;
use crate::lasting::requests;
use ada_border::parts::{PlainChoice, PlainFamily, PlainPause};
use ada_lasting::LongKernel;

/// Opens a block (5.6, 9.4).
#[inline(never)]
pub fn open(kernel: &mut LongKernel, now: i64, by: u64, at: &mut u64) -> i32
    ensures { (journal : List Happening) → Follows journal kernel.old → IsAnsweredLasting journal
        (asked.open_in by).lasting now
        result at.old at.new kernel.old kernel.new }
{
    answer_at(kernel, now, requests::open_in(by), at)
}

/// Makes a task under a master (9.1, 9.4, 9.5).
#[inline(never)]
pub fn create(
    kernel: &mut LongKernel,
    now: i64,
    by: u64,
    master_kind: u32,
    master: u64,
    families: &[PlainFamily],
    at: &mut u64,
) -> i32
    ensures { (journal : List Happening) → Follows journal kernel.old → IsAnsweredLasting journal
        (asked.create_in by master_kind master families.now).lasting now
        result at.old at.new kernel.old kernel.new }
{
    answer_at(
        kernel,
        now,
        requests::create_in(by, master_kind, master, families),
        at,
    )
}

/// Starts the activation of tasks (9.3).
#[inline(never)]
pub fn activate(kernel: &mut LongKernel, now: i64, by: u64, tasks: &[u64], at: &mut u64) -> i32
    ensures { (journal : List Happening) → Follows journal kernel.old → IsAnsweredLasting journal
        (asked.activate_in by tasks.now).lasting now
        result at.old at.new kernel.old kernel.new }
{
    answer_at(kernel, now, requests::activate_in(by, tasks), at)
}

/// Ends the task's own activation (9.3).
#[inline(never)]
pub fn elaborated(kernel: &mut LongKernel, now: i64, by: u64, ok: u32, at: &mut u64) -> i32
    ensures { (journal : List Happening) → Follows journal kernel.old → IsAnsweredLasting journal
        (asked.elaborated_in by ok).lasting now
        result at.old at.new kernel.old kernel.new }
{
    answer_at(kernel, now, requests::elaborated_in(by, ok), at)
}

/// Calls an entry (9.5, 9.7.2, 9.7.3).
#[inline(never)]
pub fn call(
    kernel: &mut LongKernel,
    now: i64,
    by: u64,
    callee: u64,
    family: u32,
    index: i32,
    patience: u32,
    duration: i64,
    at: &mut u64,
) -> i32
    ensures { (journal : List Happening) → Follows journal kernel.old → IsAnsweredLasting journal
        (asked.call_in by callee family index patience duration).lasting now
        result at.old at.new kernel.old kernel.new }
{
    answer_at(
        kernel,
        now,
        requests::call_in(by, callee, family, index, patience, duration),
        at,
    )
}

/// Waits selectively (9.7.1).
#[inline(never)]
pub fn wait(
    kernel: &mut LongKernel,
    now: i64,
    by: u64,
    choices: &[PlainChoice],
    tail: u32,
    delays: &[PlainPause],
    pick: u32,
    at: &mut u64,
) -> i32
    ensures { (journal : List Happening) → Follows journal kernel.old → IsAnsweredLasting journal
        (asked.wait_in by choices.now tail delays.now pick).lasting now
        result at.old at.new kernel.old kernel.new }
{
    answer_at(
        kernel,
        now,
        requests::wait_in(by, choices, tail, delays, pick),
        at,
    )
}

/// Delays the task (9.6).
#[inline(never)]
pub fn delay(kernel: &mut LongKernel, now: i64, by: u64, duration: i64, at: &mut u64) -> i32
    ensures { (journal : List Happening) → Follows journal kernel.old → IsAnsweredLasting journal
        (asked.delay_in by duration).lasting now
        result at.old at.new kernel.old kernel.new }
{
    answer_at(kernel, now, requests::delay_in(by, duration), at)
}

/// Ends the innermost accept statement (9.5, 11.5).
#[inline(never)]
pub fn end(kernel: &mut LongKernel, now: i64, by: u64, raised: u32, at: &mut u64) -> i32
    ensures { (journal : List Happening) → Follows journal kernel.old → IsAnsweredLasting journal
        (asked.end_in by raised).lasting now
        result at.old at.new kernel.old kernel.new }
{
    answer_at(kernel, now, requests::end_in(by, raised), at)
}

/// Leaves the innermost block (9.4).
#[inline(never)]
pub fn close(kernel: &mut LongKernel, now: i64, by: u64, at: &mut u64) -> i32
    ensures { (journal : List Happening) → Follows journal kernel.old → IsAnsweredLasting journal
        (asked.close_in by).lasting now
        result at.old at.new kernel.old kernel.new }
{
    answer_at(kernel, now, requests::close_in(by), at)
}

/// Completes the task's body (9.4).
#[inline(never)]
pub fn complete(kernel: &mut LongKernel, now: i64, by: u64, at: &mut u64) -> i32
    ensures { (journal : List Happening) → Follows journal kernel.old → IsAnsweredLasting journal
        (asked.complete_in by).lasting now
        result at.old at.new kernel.old kernel.new }
{
    answer_at(kernel, now, requests::complete_in(by), at)
}

/// Aborts tasks (9.10).
#[inline(never)]
pub fn abort(kernel: &mut LongKernel, now: i64, by: u64, tasks: &[u64], at: &mut u64) -> i32
    ensures { (journal : List Happening) → Follows journal kernel.old → IsAnsweredLasting journal
        (asked.abort_in by tasks.now).lasting now
        result at.old at.new kernel.old kernel.new }
{
    answer_at(kernel, now, requests::abort_in(by, tasks), at)
}

/// Moves the moment.
#[inline(never)]
pub fn tick(kernel: &mut LongKernel, now: i64, moment: i64, at: &mut u64) -> i32
    ensures { (journal : List Happening) → Follows journal kernel.old → IsAnsweredLasting journal
        (asked.tick_to moment).lasting now
        result at.old at.new kernel.old kernel.new }
{
    answer_at(kernel, now, requests::tick_to(moment), at)
}
