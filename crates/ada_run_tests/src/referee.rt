//! A kernel that plays a script in the order in which its lines were answered.

use crate::moment::Moment;
use crate::speakers::last_of;
use ada_events::{Event, Refusal, TaskNo};
use ada_hall::{Answer, KeptAnswer};
use ada_kernel::Kernel;
use ada_script::{Line, Names, Script, request_of, write_event, write_refusal};
use std::alloc::Global;
use std::test::Fail;

/// Appends the lines of the events from one position to another.
fn print_events(
    events: &[Event],
    first: u32,
    last: u32,
    names: &Names,
    out: &mut Vec<u8>,
) -> Result<(), Fail> {
    for at in first..=last {
        let Some(event) = events.get((at as usize).saturating_sub(1)) else {
            return Err("an event".into());
        };
        write_event(at, event, names, out)?;
    }
    Ok(())
}

/// A kernel that plays the lines of a script in the order of their answers.
#[derive(Drop)]
struct Referee {
    kernel: Kernel,
    names: Names,
    /// The moment before the first line, and that after each.
    moments: Vec<Moment>,
}

impl Referee {
    fn new(alloc: Global, script: &Script) -> Result<Referee, Fail> {
        let names = script.names()?;
        let mut moments = Vec::new(alloc);
        moments.push(Moment::first(alloc, &names, script.lines())?)?;
        let kernel = Kernel::new(alloc)?;
        Ok(Referee {
            kernel,
            names,
            moments,
        })
    }

    /// Whether each answer may be given, in their order.
    fn judges_all(
        &mut self,
        alloc: Global,
        text: &[u8],
        lines: &[Line],
        answers: &[KeptAnswer],
        events: &[Event],
    ) -> Result<bool, Fail> {
        for at in 0..answers.len() {
            let kept = &answers[at];
            let Some(line) = lines.get(kept.place as usize) else {
                return Ok(false);
            };
            let Some(since) = last_of(text, lines, &answers[..at], kept, line.line) else {
                return Ok(false);
            };
            if !self.judges(alloc, line, kept.answer, events, since)? {
                return Ok(false);
            }
            self.keep_moment(alloc, lines)?;
        }
        Ok(answers.len() == lines.len() && self.kernel.journal().as_slice() == events)
    }

    /// Makes the requests of all lines.
    fn say_all(&mut self, alloc: Global, lines: &[Line]) -> Result<(), Fail> {
        let mut text = Vec::new(alloc);
        for line in lines {
            self.say(line, &mut text)?;
        }
        Ok(())
    }

    /// Makes the request of a line, and appends what it prints.
    fn say(&mut self, line: &Line, text: &mut Vec<u8>) -> Result<(), Fail> {
        if line.statement.is_show() {
            return Err("a request".into());
        }
        let request = request_of(&line.statement, &self.names);
        let made = TaskNo(self.kernel.tasks());
        match self.kernel.step(request) {
            Ok(at) => {
                self.names.bind(&line.statement, at, made);
                let journal = self.kernel.journal();
                print_events(journal.as_slice(), at, journal.len(), &self.names, text)?;
            }
            Err(Refusal::OutOfMemory) => return Err("memory".into()),
            Err(cause) => write_refusal(line.line, cause, text)?,
        }
        Ok(())
    }

    /// Whether the kernel answers a request as it was answered: both print the same.
    fn agrees(
        &mut self,
        alloc: Global,
        line: &Line,
        answer: Answer,
        events: &[Event],
    ) -> Result<bool, Fail> {
        let mut mine = Vec::new(alloc);
        let mut theirs = Vec::new(alloc);
        self.say(line, &mut mine)?;
        match answer {
            Answer::Group { first, last } => {
                print_events(events, first, last, &self.names, &mut theirs)?;
            }
            Answer::Refused(cause) => write_refusal(line.line, cause, &mut theirs)?,
            Answer::Shown(_) => return Ok(false),
        }
        Ok(mine.as_slice() == theirs.as_slice())
    }

    /// Whether a value was shown, or the attribute refused, at a moment since so many lines were answered.
    fn has_shown(&self, line: &Line, answer: Answer, since: usize) -> bool {
        self.moments.iter().skip(since).any(|moment| moment.shows(
            &self.kernel,
            &self.names,
            line,
            answer,
        ))
    }

    /// Whether a line may be answered so, where its speaker's last line was answered as the one before `since`.
    fn judges(
        &mut self,
        alloc: Global,
        line: &Line,
        answer: Answer,
        events: &[Event],
        since: usize,
    ) -> Result<bool, Fail> {
        if line.statement.is_show() {
            Ok(self.has_shown(line, answer, since))
        } else {
            self.agrees(alloc, line, answer, events)
        }
    }

    /// Keeps the moment after a line.
    fn keep_moment(&mut self, alloc: Global, lines: &[Line]) -> Result<(), Fail> {
        let moment = Moment::of(alloc, &self.kernel, &self.names, lines)?;
        self.moments.push(moment)?;
        Ok(())
    }
}

/// Whether the answers are those of all lines of the script, each speaker's in their order, and each is the one
/// that the kernel gives for the order of them all. A value that is shown, or the cause for which it is refused,
/// is that of some moment since the speaker's line before.
pub fn is_legal(
    alloc: Global,
    text: &[u8],
    script: &Script,
    answers: &[KeptAnswer],
    events: &[Event],
) -> Result<bool, Fail> {
    let mut referee = Referee::new(alloc, script)?;
    referee.judges_all(alloc, text, script.lines(), answers, events)
}

/// A kernel that has played the lines of a script in their order.
pub fn replayed(alloc: Global, script: &Script) -> Result<Kernel, Fail> {
    let mut referee = Referee::new(alloc, script)?;
    referee.say_all(alloc, script.lines())?;
    let Referee {
        kernel,
        names: _names,
        moments: _moments,
    } = referee;
    Ok(kernel)
}
