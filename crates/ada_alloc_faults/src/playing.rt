//! Trials of replays, and of runs with a thread for each task, in turn. Each call has a reader and a writer of its own.

use crate::scenario::Scene;
use crate::trial::{Answer, Reach, Seen};
use ada_run::{Ending, InTurn, RunFault, read_and_run, replay, run};
use ada_script::{Script, read};
use std::alloc::{AllocError, Global};
use std::sync::Wait;
use std::thread::Threads;

/// A call that plays a script to its end, and writes what the lines print.
#[derive(Clone, Copy, Debug, PartialEq, Eq)]
pub enum Playing {
    Replay,
    Run,
    ReadAndRun,
}

impl Playing {
    /// Its name.
    pub fn name(self) -> &'static str {
        match self {
            Playing::Replay => "replay",
            Playing::Run => "run",
            Playing::ReadAndRun => "read_and_run",
        }
    }
}

/// How many bytes a writer has room for, so that it takes no memory itself.
const ROOM: usize = 4096;

fn writer(alloc: Global) -> Result<Vec<u8>, AllocError> {
    Vec::with_capacity(alloc, ROOM)
}

/// What a call plays.
#[derive(Drop)]
struct Given {
    scene: Scene,
    script: Script,
}

// The first script leads to each kind of event; in the second, lines between the requests show attributes.
fn prepare(alloc: Global, number: usize) -> anyhow::Result<Given> {
    let scene = if number == 1 {
        Scene::EachEvent
    } else {
        Scene::Abort
    };
    let script = read(alloc, scene.script())?;
    Ok(Given { scene, script })
}

/// What a call answered, and what it wrote.
#[derive(Drop)]
struct Played {
    answer: Answer,
    ending: Option<Ending>,
    written: Vec<u8>,
}

impl Played {
    // Refused, it wrote whole lines of what a call writes that isn't refused, or none; and none without a thread.
    fn left_as_promised(&self, twin: &Played) -> bool {
        let written = self.written.as_slice();
        match self.answer {
            Answer::NoThread => written.is_empty(),
            Answer::Refused => {
                let ends_a_line = written.last().copied().unwrap_or(b'\n') == b'\n';
                ends_a_line && twin.written.starts_with(written)
            }
            _ => true,
        }
    }

    // It came to the end, as another call did.
    fn is_like(&self, twin: &Played) -> bool {
        self.answer == Answer::Done
            && twin.answer == Answer::Done
            && self.ending == twin.ending
            && self.written.as_slice() == twin.written.as_slice()
    }

    // It wrote just what the script prints, where that is known.
    fn wrote(&self, scene: Scene) -> bool {
        match scene.printed() {
            Some(text) => self.written.as_slice() == text,
            None => true,
        }
    }
}

fn answer_of(fault: &RunFault) -> Answer {
    match fault {
        RunFault::Memory => Answer::Refused,
        RunFault::Threads => Answer::NoThread,
        _ => Answer::Failed,
    }
}

// Makes the call, with a new reader and this writer.
fn play<R: Threads + Wait + Sync + AllocGlobal>(
    rt: &R,
    call: Playing,
    given: &Given,
    mut written: Vec<u8>,
) -> Played {
    let mut reader = given.scene.script();
    let outcome = match call {
        Playing::Replay => replay(rt.alloc(), &mut reader, &mut written),
        Playing::Run => run(rt, &given.script, &InTurn, &mut written),
        Playing::ReadAndRun => read_and_run(rt, &mut reader, &InTurn, &mut written),
    };
    let (answer, ending) = match outcome {
        Ok(ending) => (Answer::Done, Some(ending)),
        Err(fault) => (answer_of(&fault), None),
    };
    Played {
        answer,
        ending,
        written,
    }
}

/// Plays the script of this number, 1 or 2, so far as it is asked.
pub fn try_playing<R: Threads + Wait + Sync + AllocGlobal>(
    rt: &R,
    call: Playing,
    number: usize,
    reach: Reach,
) -> anyhow::Result<Option<Seen>> {
    let given = prepare(rt.alloc(), number)?;
    let written = writer(rt.alloc())?;
    if reach == Reach::Before {
        return Ok(None);
    }
    let first = play(rt, call, &given, written);
    if reach == Reach::Call {
        return Ok(None);
    }
    let seen = look(rt, call, &given, &first)?;
    Ok(Some(seen))
}

// What is seen of a call that left this: it is made again, and once more for a twin that isn't refused.
fn look<R: Threads + Wait + Sync + AllocGlobal>(
    rt: &R,
    call: Playing,
    given: &Given,
    first: &Played,
) -> anyhow::Result<Seen> {
    let again = play(rt, call, given, writer(rt.alloc())?);
    let twin = play(rt, call, given, writer(rt.alloc())?);
    let last = if first.answer.is_refused() {
        &again
    } else {
        first
    };
    Ok(Seen {
        answer: first.answer,
        unchanged: first.left_as_promised(&twin),
        again: last.is_like(&twin) && twin.wrote(given.scene),
    })
}
