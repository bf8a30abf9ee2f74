//! Answers of a kernel that keeps everything, in numbers.
ghost use Rattle.ada_events.specs.Lawful.{IsLawful, IsSettled};
ghost use Rattle.ada_border.specs.Requests as border;
ghost use Rattle.ada_embed.specs.Answers.{IsAnsweredWhole};

use crate::codes::KEEPS_ALL;
use ada_border::codes::{ACCEPTED, bad_code, refusal_code};
use ada_border::parts::{PlainChoice, PlainPause};
use ada_border::{Bad, requests};
use ada_events::Request;
use ada_kernel::Kernel;

/// Makes the request that numbers are, and writes the position of its event, if it is accepted.
// Inlined, so that a request isn't copied on its way to who answers it.
#[inline(always)]
pub fn answer(kernel: &mut Kernel, now: i64, request: Result<Request, Bad>, at: &mut u64) -> i32
    ensures answer { IsAnsweredWhole kernel.old request now result at.old at.new kernel.new }
    ensures lawful { IsLawful kernel.new }
    ensures settled { IsSettled kernel.new }
{
    let _journal = kernel.journal();
    if now >= 0 {
        return KEEPS_ALL;
    }
    match request {
        Ok(request) => match kernel.step(request) {
            Ok(position) => {
                *at = u64::from(position);
                ACCEPTED
            }
            Err(cause) => refusal_code(cause),
        },
        Err(bad) => bad_code(bad),
    }
}

/// Waits selectively (9.7.1).
// An accept statement has a path of its own, since it is most of what is asked.
#[inline(always)]
pub fn wait(
    kernel: &mut Kernel,
    now: i64,
    by: u64,
    choices: &[PlainChoice],
    tail: u32,
    delays: &[PlainPause],
    pick: u32,
    at: &mut u64,
) -> i32
    ensures answer { IsAnsweredWhole kernel.old
        (border.wait_in by choices.now tail delays.now pick) now
        result at.old at.new kernel.new }
    ensures lawful { IsLawful kernel.new }
    ensures settled { IsSettled kernel.new }
{
    if choices.len() == 1 && tail == 0 && delays.is_empty() {
        return answer(kernel, now, requests::accept_in(by, choices[0], pick), at);
    }
    answer(
        kernel,
        now,
        requests::wait_in(by, choices, tail, delays, pick),
        at,
    )
}
