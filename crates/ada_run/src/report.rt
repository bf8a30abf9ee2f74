//! What a thread has done.
ghost use Rattle.std.specs.Prelude.{◌≡◌, ◌==◌, ◌+◌, ◌<◌, ◌≤◌, ◌^◌, ◌&&◌, OnOk, OnErr, IfErr, cond};
ghost use Rattle.ada_hall.specs.Counting.{asked_count};
ghost use Rattle.ada_hall.specs.Halls.{AnswersPlace};
ghost use Rattle.ada_run.specs.Reports.{is_newly_refused};

use ada_events::Refusal;
use ada_hall::{Answer, Hall, Session};
use std::sync::Wait;
use std::sync::ledger::Share;

/// How many requests of a speaker were accepted, and how many were refused. Lines that show attributes aren't
/// counted.
#[derive(Drop)]
pub struct Report<J: Session> {
    pub accepted: u32,
    pub refused: u32,
    /// A part of the hall's total, which is worth what was accepted. It takes no bytes.
    pub share: Share<J>,
    ghost one_part: { share.parts ≡ 1 },
    ghost counted: { share.amount ≡ accepted },
}

impl<J: Session> Report<J> {
    /// Nothing was asked yet.
    pub fn new(share: Share<J>) -> Report<J>
        requires { (share.parts ≡ 1) × (share.amount ≡ 0) }
        ensures { (result.accepted ≡ 0) × (result.refused ≡ 0) }
    {
        Report {
            accepted: 0,
            refused: 0,
            share,
        }
    }

    /// Plays the request at a place of a hall, and counts its answer. Fails with `OutOfMemory` alone, and changes
    /// nothing then.
    pub fn say<R: Wait>(
        &mut self,
        rt: &R,
        hall: &mut Hall<'_, J>,
        place: u32,
    ) -> Result<(), Refusal>
        requires room { self.old.accepted + self.old.refused + 1 < 2 ^ 32 }
        ensures ok { OnOk result (AnswersPlace J.script place hall.old hall.new) }
        ensures err { IfErr result (λ cause. cause ≡ Refusal.OutOfMemory) }
        ensures unchanged { OnErr result ((self.new.accepted ≡ self.old.accepted)
            × (self.new.refused ≡ self.old.refused) × (hall.new ≡ hall.old)) }
        ensures accepted { self.new.accepted + asked_count hall.old.showing.journal
            ≡ self.old.accepted + asked_count hall.new.showing.journal }
        ensures refused { OnOk result (self.new.refused ≡ self.old.refused
            + cond (is_newly_refused hall.old.answers hall.new.answers place
            && self.new.accepted == self.old.accepted) 1 0) }
        ensures one { self.new.accepted + self.new.refused
            ≤ self.old.accepted + self.old.refused + 1 }
    {
        let Report {
            accepted,
            refused,
            share,
        } = self;
        let answered = hall.answer(place).is_some();
        let before = hall.total();
        hall.say(rt, share, place)?;
        let gained = hall.total() - before;
        *accepted += gained;
        let is_refused = matches!(hall.answer(place), Some(Answer::Refused(_)));
        if is_refused && !answered && gained == 0 {
            *refused += 1;
        }
        Ok(())
    }
}
