//! The answers to the lines of a script.
ghost use Rattle.std.specs.Prelude.{◌≡◌, ◌+◌, ℕ, false, List, IfOk, IfErr, OnErr};
ghost use Rattle.std.specs.Option.{option_copied};
ghost use Rattle.ada_events.specs.Lawful.{IsLawful};
ghost use Rattle.ada_statements.specs.Binding.{is_show};
ghost use Rattle.ada_replay.specs.Ends.{state};
ghost use Rattle.ada_hall.specs.History.{IsAnswerTo};
ghost use Rattle.ada_hall.specs.PublishedKernels.{ShowsAnswer};
ghost use Rattle.ada_hall.specs.Counting.{asked_count};
ghost use Rattle.ada_hall.specs.Halls.{open_line, gained};

use crate::answers::Answers;
use crate::published::PublishedKernel;
use ada_board::Naming;
use ada_events::Refusal;
use ada_replay::Answer;
use ada_replay::play::next_task;
use ada_script::{Line, Names, Script, request_of};
use std::sync::Wait;

// The line at a place, if it has no answer yet.
pub(crate) fn open_line<'s>(script: &'s Script, answers: &Answers, place: u32) -> Option<&'s Line>
    ensures { option_copied result ≡ open_line script.now answers.now.kept place }
{
    if answers.get(place).is_some() {
        return None;
    }
    script.lines().get(place as usize)
}

// Makes the request of a line, and binds its name. Refused for want of memory, nothing is changed.
pub(crate) fn answer_request<J: Naming, R: Wait>(
    rt: &R,
    published: &mut PublishedKernel<J>,
    names: &mut Names,
    line: &Line,
) -> Result<Answer, Refusal>
    requires request { is_show line.now.statement ≡ false }
    ensures ok { IfOk result (λ answer. (text : List ℕ)
        × IsAnswerTo line.now (state published.old.journal names.old) answer text
        (state published.new.journal names.new)) }
    ensures showing { IfOk result (λ answer. ShowsAnswer answer published.old published.new) }
    ensures counted { IfOk result (λ answer.
        asked_count published.new.journal ≡ asked_count published.old.journal + gained answer) }
    ensures err { IfErr result (λ cause. cause ≡ Refusal.OutOfMemory) }
    ensures lawful { IsLawful published.new.journal }
    ensures unchanged { OnErr result ((published.new ≡ published.old) × (names.new ≡ names.old)) }
{
    let request = request_of(&line.statement, names);
    let made = next_task(published.kernel());
    match published.step(rt, request) {
        Ok(told) => {
            names.bind(&line.statement, told.at, made);
            let last = published.kernel().journal().len();
            Ok(Answer::Group {
                first: told.at,
                last,
            })
        }
        Err(Refusal::OutOfMemory) => Err(Refusal::OutOfMemory),
        Err(cause) => Ok(Answer::Refused(cause)),
    }
}
