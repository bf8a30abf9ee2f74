//! Answers of a kernel that lives on, in numbers.
ghost use Rattle.std.specs.Prelude.{◌≡◌, ℤ, false, IfErr, IfOk, List};
ghost use Rattle.ada_events.specs.declared.event.Event.{Event as Happening};
ghost use Rattle.ada_lasting.specs.Following.{Follows};
ghost use Rattle.ada_lasting.specs.Meaning.{meant};
ghost use Rattle.ada_embed.specs.Answers.{IsAnsweredLasting, IsRefusedNow, IsSteppedNow};
ghost use Rattle.ada_embed.specs.Answers.{has_clock};
ghost use Rattle.ada_embed.specs.Requests.{read_as, wait_in};

use crate::codes::lasting_code;
use crate::lasting::requests::{accept_in, wait_in};
use ada_border::Bad;
use ada_border::codes::{ACCEPTED, bad_code};
use ada_border::parts::{PlainChoice, PlainPause};
use ada_lasting::{LastingRequest, LongKernel, NotDone};

// Asks at a moment of the host's clock, if it has one.
fn ask(kernel: &mut LongKernel, now: i64, request: LastingRequest) -> Result<u64, NotDone>
    ensures ok { IfOk result (λ at. (journal : List Happening) → Follows journal kernel.old
        → IsSteppedNow journal now (meant request) kernel.old at kernel.new) }
    ensures err { IfErr result (λ cause. (journal : List Happening) → Follows journal kernel.old
        → IsRefusedNow journal now (meant request) cause kernel.old kernel.new) }
{
    if now >= 0 {
        kernel.step_at(now, request)
    } else {
        kernel.step(request)
    }
}

/// Makes the request that numbers are at a moment of the host's clock, if it has one, and writes the position of its
/// event, if it is accepted.
#[inline(never)]
pub fn answer_at(
    kernel: &mut LongKernel,
    now: i64,
    request: Result<LastingRequest, Bad>,
    at: &mut u64,
) -> i32
    ensures { (journal : List Happening) → Follows journal kernel.old
        → IsAnsweredLasting journal (read_as meant request) now result at.old at.new
        kernel.old kernel.new }
{
    match request {
        Ok(request) => match ask(kernel, now, request) {
            Ok(position) => {
                *at = position;
                ACCEPTED
            }
            Err(cause) => lasting_code(cause),
        },
        Err(bad) => bad_code(bad),
    }
}

/// Makes the request that numbers are for a host without a clock, and writes the position of its event, if it is
/// accepted.
// Inlined, so that a request isn't copied on its way to who answers it.
#[inline(always)]
pub fn answer(kernel: &mut LongKernel, request: Result<LastingRequest, Bad>, at: &mut u64) -> i32
    ensures { (now : ℤ) → has_clock now ≡ false
        → (journal : List Happening) → Follows journal kernel.old
        → IsAnsweredLasting journal (read_as meant request) now result at.old at.new
        kernel.old kernel.new }
{
    match request {
        Ok(request) => match kernel.step(request) {
            Ok(position) => {
                *at = position;
                ACCEPTED
            }
            Err(cause) => lasting_code(cause),
        },
        Err(bad) => bad_code(bad),
    }
}

/// Waits selectively (9.7.1), for a host without a clock.
// An accept statement has a path of its own, since it is most of what is asked.
#[inline(always)]
pub fn wait(
    kernel: &mut LongKernel,
    by: u64,
    choices: &[PlainChoice],
    tail: u32,
    delays: &[PlainPause],
    pick: u32,
    at: &mut u64,
) -> i32
    ensures { (now : ℤ) → has_clock now ≡ false
        → (journal : List Happening) → Follows journal kernel.old
        → IsAnsweredLasting journal (wait_in by choices.now tail delays.now pick).lasting
        now result at.old at.new kernel.old kernel.new }
{
    if choices.len() == 1 && tail == 0 && delays.is_empty() {
        return answer(kernel, accept_in(by, choices[0], pick), at);
    }
    answer(kernel, wait_in(by, choices, tail, delays, pick), at)
}
