//! Refusing and accepting requests.

ghost use Rattle.std.specs.Prelude.{◌≡◌, ◌≤◌, IfOk, IfErr, OnOk};
ghost use Rattle.ada_events.specs.Lawful.{IsLawful, IsSettled, Forces};
ghost use Rattle.ada_events.specs.Steps.{IsAccepted, IsRefused};
ghost use Rattle.ada_laws.specs.Work.{work_left};

use crate::Engine;
use ada_events::{Journal, Refusal, Request};

/// How many events find room before a request changes anything: more than one request appends.
const ROOM: u32 = 1024;

/// Makes room in a journal for all that one request appends, at most 769 events, and for more. Fails with `OutOfMemory`
/// alone, and then changes nothing.
pub fn make_room(journal: &mut Journal) -> Result<(), Refusal>
    requires { IsLawful journal.old.events }
    ensures events { journal.new.events ≡ journal.old.events }
    ensures ok { OnOk result (1024 ≤ journal.new.spare) }
    ensures err { IfErr result (λ cause. cause ≡ Refusal.OutOfMemory) }
{
    journal.reserve(ROOM)
}

// Appends the steps that the journal forces, until it forces none. Inlined, since mostly it forces none, which is told
// with less than a call.
#[inline(always)]
fn settle<A: Engine>(engine: &mut A, journal: &mut Journal)
    requires stands { A.stands engine.old journal.old.events }
    requires lawful { IsLawful journal.old.events }
    requires room { work_left journal.old.events ≤ journal.old.spare }
    ensures forces { Forces journal.old.events journal.new.events }
    ensures lawful { IsLawful journal.new.events }
    ensures settled { IsSettled journal.new.events }
    ensures stands { A.stands engine.new journal.new.events }
{
    while engine.advance(journal) {}
}

/// Answers a request: appends its event and the steps that it forces, and gives the event's position; or
/// refuses it for the first cause that applies, and changes nothing. `OutOfMemory` is answered where a growth
/// was refused and no other cause applies.
// Inlined, so that a request whose kind is known there needn't lie in memory.
#[inline(always)]
pub fn step<A: Engine>(
    engine: &mut A,
    journal: &mut Journal,
    request: &Request,
) -> Result<u32, Refusal>
    requires stands { A.stands engine.old journal.old.events }
    requires lawful { IsLawful journal.old.events }
    requires settled { IsSettled journal.old.events }
    ensures ok { IfOk result (λ at.
        IsAccepted journal.old.events request.now at journal.new.events) }
    ensures err { IfErr result (λ cause.
        IsRefused journal.old.events request.now cause journal.new.events) }
    ensures lawful { IsLawful journal.new.events }
    ensures settled { IsSettled journal.new.events }
    ensures stands { A.stands engine.new journal.new.events }
{
    let at = journal.len() + 1;
    engine.begin(journal, request)?;
    settle(engine, journal);
    Ok(at)
}
