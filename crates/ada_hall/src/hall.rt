//! The value under the lock.
ghost use Rattle.std.specs.Prelude.{◌≡◌, ◌==◌, ◌+◌, ◌<◌, ◌≤◌, true, Err, [], IsTrue, IfOk, IfErr, OnOk, OnErr, MatchOption, length, slice_get};
ghost use Rattle.ada_events.specs.Lawful.{IsLawful, IsSettled};
ghost use Rattle.ada_events.specs.Steps.{IsAccepted, IsRefused};
ghost use Rattle.ada_script.specs.Script.{scope_of};
ghost use Rattle.ada_hall.specs.Answers.{answer_at, AreAll, AnswerNoPlaceTwice};
ghost use Rattle.ada_hall.specs.Asking.{Asks};
ghost use Rattle.ada_hall.specs.Counting.{asked_count};
ghost use Rattle.ada_replay.specs.Play.{shown as shown_of};
ghost use Rattle.ada_replay.specs.Replay.{Tells};
ghost use Rattle.ada_hall.specs.Going.{may_go};
ghost use Rattle.ada_hall.specs.Halls.{state_of, IsHistory, AnswersPlace, noted, opening};
ghost use Rattle.ada_hall.specs.internal.Halls.{IsOfShow};
ghost use Rattle.ada_hall.specs.PublishedKernels.{Publishes, IsTied};
ghost use Rattle.ada_hall.specs.Turns.{left, passed, waited};

use crate::answer::KeptAnswer;
use crate::answers::Answers;
use crate::asking::{Asked, asking_of};
use crate::published::{PublishedKernel, Told};
use crate::saying::{answer_request, open_line};
use crate::session::Session;
use crate::speakers::{speaker, speakers};
use crate::tally::Tally;
use crate::turns::{Turns, may_play};
use ada_board::BoardWriter;
use ada_events::{Journal, Refusal, Request};
use ada_kernel::Kernel;
use ada_replay::replaying::ending_of;
use ada_replay::{Answer, Ending};
use ada_script::{Names, Script, Value};
use std::alloc::Global;
use std::marker::Model;
use std::sync::Wait;
use std::sync::ledger::{Book, Share};

/// A kernel, the writer of its board, and the answers to the lines of a script: the value that threads share
/// under one lock. Contracts see the kernel's journal with what is published of it, what names are bound to,
/// the answers in the order in which they were given, and who may go on. It is not `Drop`: end it by
/// [`close`](Hall::close).
pub struct Hall<'s, J: Session> {
    script: &'s Script,
    published: PublishedKernel<J>,
    names: Names,
    answers: Answers,
    tally: Tally<J>,
    turns: Turns,
}

impl<'s, J: Session> Model for Hall<'s, J> {
    ghost use Rattle.std.specs.Prelude.{◌≡◌, ◌==◌};
    ghost use Rattle.ada_hall.specs.Halls.{Held, hall_of};
    ghost use Rattle.ada_hall.specs.internal.Halls.{IsHall};

    ghost Value = { Held };

    ghost view = { λ h. hall_of h.published h.names h.answers.kept h.turns };

    ghost invariant = { λ h. (h.script.now ≡ J.script)
        × IsHall J.script h.answers.places h.tally h.published h.names h.answers.kept };
}

// The names of a script, a new kernel, and room for an answer to each line.
fn beginnings(alloc: Global, script: &Script) -> Result<(Names, Kernel, Answers), Refusal>
    ensures names { IfOk result (λ parts. parts.0 ≡ scope_of script.now) }
    ensures kernel { IfOk result (λ parts. parts.1 ≡ []) }
    ensures answers { IfOk result (λ parts.
        parts.2 ≡ record { places = length script.now; kept = [] }) }
    ensures err { IfErr result (λ cause. cause ≡ Refusal.OutOfMemory) }
{
    let names = script.names().map_err(|_| Refusal::OutOfMemory)?;
    let room = Answers::new(alloc, script.lines().len());
    let answers = room.map_err(|_| Refusal::OutOfMemory)?;
    let kernel = Kernel::new(alloc)?;
    Ok((names, kernel, answers))
}

impl<'s, J: Session> Hall<'s, J> {
    /// A hall with an empty journal and no answers, of a writer to which nothing was ever offered. Refused
    /// for want of memory, it gives the writer and the book back, so that it may be tried again.
    pub fn new(
        alloc: Global,
        script: &'s Script,
        writer: BoardWriter<J>,
        book: Book<J>,
    ) -> Result<Hall<'s, J>, (Refusal, BoardWriter<J>, Book<J>)>
        requires script { script.now ≡ J.script }
        requires writer { writer ≡ record { published = []; offered = [] } }
        requires book { book.total ≡ 0 }
        ensures ok { IfOk result (λ hall. hall ≡ opening J.script) }
        ensures err { IfErr result (λ refused. (refused.0 ≡ Refusal.OutOfMemory)
            × (refused.1 ≡ writer) × (refused.2 ≡ book)) }
    {
        match beginnings(alloc, script) {
            Ok((names, kernel, answers)) => Ok(Hall {
                script,
                published: PublishedKernel::new(kernel, writer),
                names,
                answers,
                tally: Tally::new(book),
                turns: Turns::new(speakers(script.lines())),
            }),
            Err(cause) => Err((cause, writer, book)),
        }
    }

    /// The kernel's step, which answers no line of the script, and then the publication of its board. Accepted,
    /// it adds one to the total and to the share of the one who asks. Refused, nothing is changed.
    pub fn step<R: Wait>(
        &mut self,
        rt: &R,
        share: &mut Share<J>,
        request: Request,
    ) -> Result<Told<J>, Refusal>
        requires { 0 < share.old.parts }
        ensures ok { IfOk result (λ told.
            IsAccepted self.old.showing.journal request told.at self.new.showing.journal) }
        ensures published { IfOk result (λ told.
            Publishes self.old.showing self.new.showing told.mark) }
        ensures answers { (self.new.answers ≡ self.old.answers)
            × (self.new.names ≡ self.old.names) × (self.new.turns ≡ self.old.turns) }
        ensures err { IfErr result (λ cause.
            IsRefused self.old.showing.journal request cause self.new.showing.journal) }
        ensures unchanged { OnErr result (self.new ≡ self.old) }
        ensures share { share.new.amount + asked_count self.old.showing.journal
            ≡ share.old.amount + asked_count self.new.showing.journal }
        ensures parts { share.new.parts ≡ share.old.parts }
    {
        let told = self.published.step(rt, request)?;
        self.tally.add(share);
        Ok(told)
    }

    /// Plays the request at a place of the script, counted from 0, and keeps its answer. Where there is none,
    /// or it has an answer, nothing is changed. Fails with `OutOfMemory` alone, and changes nothing then.
    pub fn say<R: Wait>(&mut self, rt: &R, share: &mut Share<J>, place: u32) -> Result<(), Refusal>
        requires { 0 < share.old.parts }
        ensures ok { OnOk result (AnswersPlace J.script place self.old self.new) }
        ensures err { IfErr result (λ cause. cause ≡ Refusal.OutOfMemory) }
        ensures unchanged { OnErr result (self.new ≡ self.old) }
        ensures share { share.new.amount + asked_count self.old.showing.journal
            ≡ share.old.amount + asked_count self.new.showing.journal }
        ensures one { (share.old.amount ≤ share.new.amount)
            × (share.new.amount ≤ share.old.amount + 1) }
        ensures parts { share.new.parts ≡ share.old.parts }
    {
        let script = self.script;
        let Some(line) = open_line(script, &self.answers, place) else {
            return Ok(());
        };
        if line.statement.is_show() {
            return Ok(());
        }
        let events = self.published.kernel().journal().len();
        let tasks = self.published.kernel().tasks();
        let answer = answer_request(rt, &mut self.published, &mut self.names, line)?;
        self.tally.count(share, answer);
        self.answers.keep(KeptAnswer {
            place,
            events,
            tasks,
            answer,
        });
        Ok(())
    }

    /// What the line at a place asks of a reader, with a mark of what was published last. Refused for the
    /// causes for which the line isn't answered a value (9.9), and as `UnknownTask` where the place holds no
    /// line that shows an attribute. It takes no memory.
    pub fn ask(&self, place: u32) -> Result<Asked<J>, Refusal>
        ensures ok { IfOk result (λ asked. MatchOption (slice_get J.script place) ⊥ (λ line.
            Asks self.now.names self.now.showing.journal line.statement asked.what)) }
        ensures mark { IfOk result (λ asked. asked.mark ≡ self.now.showing.published) }
        ensures err { IfErr result (λ cause. MatchOption (slice_get J.script place)
            (cause ≡ Refusal.UnknownTask)
            (λ line. shown_of self.now.names self.now.showing.journal line.statement ≡ Err cause)) }
    {
        let script = self.script;
        let Some(line) = script.lines().get(place as usize) else {
            return Err(Refusal::UnknownTask);
        };
        let what = asking_of(self.published.kernel(), &self.names, &line.statement)?;
        Ok(Asked {
            what,
            mark: self.published.mark(),
        })
    }

    /// Keeps the value that was read for a place. Where its line shows no attribute, or has an answer, nothing
    /// is changed. It takes no memory.
    pub fn note(&mut self, place: u32, value: Value)
        ensures { self.new ≡ noted J.script place (Answer.Shown value) self.old }
    {
        self.keep_shown(place, Answer::Shown(value));
    }

    /// Keeps the cause for which a place isn't answered a value. Where its line shows no attribute, or has an
    /// answer, nothing is changed. It takes no memory.
    pub fn note_refusal(&mut self, place: u32, cause: Refusal)
        ensures { self.new ≡ noted J.script place (Answer.Refused cause) self.old }
    {
        self.keep_shown(place, Answer::Refused(cause));
    }

    // Keeps the answer to a line that shows an attribute.
    fn keep_shown(&mut self, place: u32, answer: Answer)
        requires { IsOfShow answer }
        ensures { self.new ≡ noted J.script place answer self.old }
    {
        let script = self.script;
        let Some(line) = open_line(script, &self.answers, place) else {
            return;
        };
        if line.statement.is_show() {
            let events = self.published.kernel().journal().len();
            let tasks = self.published.kernel().tasks();
            self.answers.keep(KeptAnswer {
                place,
                events,
                tasks,
                answer,
            });
        }
    }

    /// The answer that is kept at a place, if there is one.
    pub fn answer(&self, place: u32) -> Option<Answer>
        ensures { result ≡ answer_at self.now.answers place }
    {
        self.answers.get(place)
    }

    /// Whether what is published is behind: its board isn't the journal's. What is published is true of the
    /// journal.
    pub fn behind(&self) -> bool
        ensures behind { result ≡ self.now.showing.behind }
        ensures tied { let showing = self.now.showing in
            IsTied showing.journal showing.published showing.behind }
    {
        self.published.is_behind()
    }

    /// The journal, which is lawful and settled.
    pub fn journal(&self) -> &Journal
        ensures events { result.now.events ≡ self.now.showing.journal }
        ensures lawful { IsLawful self.now.showing.journal }
        ensures settled { IsSettled self.now.showing.journal }
    {
        self.published.kernel().journal()
    }

    /// The answers in the order in which they were given: each of its own line, over the journal and the
    /// bindings that the answers before it left, and no two of one place.
    pub fn answers(&self) -> &[KeptAnswer]
        ensures answers { result.now ≡ self.now.answers }
        ensures history { IsHistory J.script self.now.answers (state_of self.now) }
        ensures apart { AnswerNoPlaceTwice self.now.answers }
    {
        let _script = self.script;
        self.answers.as_slice()
    }

    /// Whether each line of the script has its answer.
    pub fn is_answered(&self) -> bool
        ensures all { IsTrue result → AreAll (length J.script) self.now.answers }
        ensures as_many { result ≡ (length self.now.answers == length J.script) }
    {
        let _script = self.script;
        self.answers.is_full()
    }

    /// Whether the main program is terminated.
    pub fn ending(&self) -> Ending
        ensures { Tells result self.now.showing.journal }
    {
        ending_of(self.published.kernel())
    }

    /// How many requests were accepted: the number of asked events in the journal.
    pub fn total(&self) -> u32
        ensures { result ≡ asked_count self.now.showing.journal }
    {
        self.tally.total()
    }

    /// Shows that the whole share has for its amount the number of requests that were accepted.
    pub fn audit(&mut self, whole: &mut Share<J>)
        requires { whole.old.parts ≡ J.parts }
        ensures amount { whole.old.amount ≡ asked_count self.old.showing.journal }
        ensures same { self.new ≡ self.old }
        ensures share { (whole.new.amount ≡ whole.old.amount)
            × (whole.new.parts ≡ whole.old.parts) }
    {
        self.tally.audit(whole);
    }

    /// Who may go on.
    pub fn turns(&self) -> Turns
        ensures { result ≡ self.now.turns }
    {
        self.turns
    }

    /// A line was played: it is the next one's turn, and threads that wait have to look again.
    pub fn pass(&mut self, place: u32)
        ensures { self.new ≡ record self.old { turns = passed place self.old.turns } }
    {
        self.turns.pass(place);
    }

    /// A thread is done.
    pub fn leave(&mut self)
        ensures { self.new ≡ record self.old { turns = left self.old.turns } }
    {
        self.turns.leave();
    }

    /// A thread that can't go waits for a change: `seen` is the change that it waited for already. The answer
    /// is the change that it has seen now. Where no thread is left that could bring one about, nobody waits any
    /// more.
    pub fn wait(&mut self, seen: Option<u64>) -> u64
        ensures change { result ≡ self.old.turns.changes }
        ensures turns { self.new ≡ record self.old { turns = waited seen self.old.turns } }
    {
        self.turns.wait(seen)
    }

    /// From now on no further line is played.
    pub fn stop(&mut self)
        ensures { self.new ≡ record self.old {
          turns = record self.old.turns { stopped = true };
        } }
    {
        self.turns.stop();
    }

    /// Whether the task of the line at a place runs, or has completed: then the line needn't wait. A tick never
    /// waits, and a place without a line doesn't.
    pub fn may_go(&self, place: u32) -> bool
        ensures { result ≡ may_go J.script self.now place }
    {
        let script = self.script;
        let Some(line) = script.lines().get(place as usize) else {
            return true;
        };
        match speaker(&line.statement) {
            Some(name) => may_play(self.published.kernel(), self.names.task(name)),
            None => true,
        }
    }

    /// Ends the hall, and closes its writer. It may wait for readers that are looking to leave.
    pub fn close<R: Wait>(self, rt: &R) {
        let Hall {
            script: _,
            published,
            names: _names,
            answers: _answers,
            tally: _tally,
            turns: _,
        } = self;
        published.close(rt);
    }
}
