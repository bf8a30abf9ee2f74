//! Trials of scripts: reading one, copying its names, spelling and printing.

use crate::kernels::Play;
use crate::scenario::{REQUESTS, SCRIPT, Scene};
use crate::trial::{Answer, Trial};
use ada_events::Refusal;
use ada_script::{
    Cause, Names, Script, Value, Word, read, words, write_event, write_refusal, write_shown,
};
use std::alloc::Global;

/// The answer of a call that failed for a cause, or didn't.
fn answer_of(cause: Option<Cause>) -> Answer {
    match cause {
        None => Answer::Done,
        Some(Cause::OutOfMemory) => Answer::Refused,
        Some(_) => Answer::Failed,
    }
}

/// The reading of the script.
#[derive(Drop)]
pub struct Reading {
    alloc: Global,
    script: Option<Script>,
}

impl Reading {
    pub fn prepare(alloc: Global) -> Reading {
        Reading {
            alloc,
            script: None,
        }
    }
}

impl Trial for Reading {
    fn call(&mut self) -> Answer {
        match read(self.alloc, SCRIPT) {
            Ok(script) => {
                self.script = Some(script);
                Answer::Done
            }
            Err(fault) => answer_of(Some(fault.cause)),
        }
    }

    fn go_on(&mut self) {}

    fn is_like(&self, other: &Reading) -> bool {
        match (&self.script, &other.script) {
            (Some(script), Some(other)) => are_same_scripts(script, other),
            (None, None) => true,
            _ => false,
        }
    }
}

fn are_same_scripts(script: &Script, other: &Script) -> bool {
    let same = match (script.names(), other.names()) {
        (Ok(names), Ok(others)) => Scene::EachEvent.has_same_names(&names, &others),
        _ => false,
    };
    same && script.lines() == other.lines()
}

/// The names of the script, which the call copies.
#[derive(Drop)]
pub struct Copying {
    script: Script,
    names: Option<Names>,
}

impl Copying {
    pub fn prepare(alloc: Global) -> anyhow::Result<Copying> {
        Ok(Copying {
            script: read(alloc, SCRIPT)?,
            names: None,
        })
    }
}

impl Trial for Copying {
    fn call(&mut self) -> Answer {
        match self.script.names() {
            Ok(names) => {
                self.names = Some(names);
                Answer::Done
            }
            Err(cause) => answer_of(Some(cause)),
        }
    }

    fn go_on(&mut self) {}

    fn is_like(&self, other: &Copying) -> bool {
        let same = match (&self.names, &other.names) {
            (Some(names), Some(others)) => Scene::EachEvent.has_same_names(names, others),
            (None, None) => true,
            _ => false,
        };
        same && are_same_scripts(&self.script, &other.script)
    }
}

/// The spelling of a line of the script.
#[derive(Drop)]
pub struct Spelling {
    alloc: Global,
    script: Script,
    /// The number of the line, from 1.
    number: usize,
    words: Vec<Word>,
}

impl Spelling {
    pub fn prepare(alloc: Global, number: usize) -> anyhow::Result<Spelling> {
        Ok(Spelling {
            alloc,
            script: read(alloc, SCRIPT)?,
            number,
            words: Vec::new(alloc),
        })
    }
}

impl Trial for Spelling {
    fn call(&mut self) -> Answer {
        let Some(line) = self.script.lines().get(self.number.saturating_sub(1)) else {
            return Answer::Failed;
        };
        match words(self.alloc, &line.statement) {
            Ok(words) => {
                self.words = words;
                Answer::Done
            }
            Err(cause) => answer_of(Some(cause)),
        }
    }

    fn go_on(&mut self) {}

    fn is_like(&self, other: &Spelling) -> bool {
        self.words.as_slice() == other.words.as_slice()
    }
}

/// What is printed.
#[derive(Clone, Copy, Debug, PartialEq, Eq)]
pub enum Printed {
    /// The event at a position.
    Event(usize),
    Refusal,
    Truth,
    Number,
}

/// The printing of a line, after another.
#[derive(Drop)]
pub struct Printing {
    printed: Printed,
    play: Play,
    out: Vec<u8>,
}

impl Printing {
    pub fn prepare(alloc: Global, printed: Printed) -> anyhow::Result<Printing> {
        let out = Vec::from_slice(alloc, b"before\n")?;
        let mut play = Play::new(alloc, Scene::EachEvent)?;
        play.play_to(REQUESTS);
        Ok(Printing { printed, play, out })
    }
}

impl Trial for Printing {
    fn call(&mut self) -> Answer {
        let out = &mut self.out;
        let written = match self.printed {
            Printed::Event(number) => {
                let at = u32::try_from(number).unwrap_or(0);
                match self.play.kernel().journal().get(at) {
                    Some(event) => write_event(at, event, self.play.names(), out),
                    None => return Answer::Failed,
                }
            }
            Printed::Refusal => write_refusal(4096, Refusal::DuringActivation, out),
            Printed::Truth => write_shown(4096, Value::Truth(true), out),
            Printed::Number => write_shown(4096, Value::Number(256), out),
        };
        answer_of(written.err())
    }

    fn go_on(&mut self) {}

    fn is_like(&self, other: &Printing) -> bool {
        self.out.as_slice() == other.out.as_slice()
    }
}
