//! Trials of the kernel.

use crate::scenario::Scene;
use crate::trial::{Answer, Trial};
use ada_events::{Entry, Refusal, Request, TaskNo};
use ada_kernel::Kernel;
use ada_replay::shows::shown;
use ada_script::{Names, Script, Statement, Value, read, request_of};
use std::alloc::Global;

/// The answer of a call that the kernel or its tables refused, or didn't.
pub fn answer_of(refusal: Option<Refusal>) -> Answer {
    match refusal {
        None => Answer::Done,
        Some(cause) => Answer::from(cause),
    }
}

/// The making of a kernel.
#[derive(Drop)]
pub struct Making {
    alloc: Global,
    kernel: Option<Kernel>,
}

impl Making {
    pub fn prepare(alloc: Global) -> Making {
        Making {
            alloc,
            kernel: None,
        }
    }
}

impl Trial for Making {
    fn call(&mut self) -> Answer {
        match Kernel::new(self.alloc) {
            Ok(kernel) => {
                self.kernel = Some(kernel);
                Answer::Done
            }
            Err(cause) => Answer::from(cause),
        }
    }

    fn go_on(&mut self) {}

    fn is_like(&self, other: &Making) -> bool {
        match (&self.kernel, &other.kernel) {
            (Some(kernel), Some(other)) => are_same(kernel, other),
            (None, None) => true,
            _ => false,
        }
    }
}

/// From here on a request takes memory for the journal, which doubles what it has.
const FULL: u32 = 1025;

/// There is room for what so many lines show.
const SHOWS: usize = 3;

/// A script's play on a kernel. The call is the next request of it, with the lines after it up to the next request,
/// which show attributes.
#[derive(Drop)]
pub struct Play {
    scene: Scene,
    script: Script,
    names: Names,
    kernel: Kernel,
    /// How many lines were played.
    played: usize,
    /// What they showed.
    shown: Vec<Option<Value>>,
    /// The moment, and the position of the last request's event.
    moment: i64,
    at: u32,
}

impl Play {
    /// The script on a new kernel.
    pub fn new(alloc: Global, scene: Scene) -> anyhow::Result<Play> {
        let script = read(alloc, scene.script())?;
        let names = script.names()?;
        let kernel = Kernel::new(alloc)?;
        Ok(Play {
            scene,
            script,
            names,
            kernel,
            played: 0,
            shown: Vec::with_capacity(alloc, SHOWS)?,
            moment: 0,
            at: 0,
        })
    }

    /// Before the request of this number, from 1.
    pub fn before(alloc: Global, scene: Scene, number: usize) -> anyhow::Result<Play> {
        let mut play = Play::new(alloc, scene)?;
        play.play_to(number.saturating_sub(1));
        Ok(play)
    }

    /// Before the request of this number, from 1, with no room for it in the journal.
    pub fn prepare(alloc: Global, scene: Scene, number: usize) -> anyhow::Result<Play> {
        let mut play = Play::before(alloc, scene, number)?;
        play.fill();
        Ok(play)
    }

    /// Plays so many requests.
    pub fn play_to(&mut self, requests: usize) {
        for _ in 0..requests {
            let _ = self.call();
        }
    }

    // Fills the journal with ticks.
    fn fill(&mut self) {
        for _ in 0..FULL {
            if self.kernel.journal().len() < FULL {
                let _ = self.kernel.step(Request::Tick { now: self.moment });
            }
        }
    }

    // Plays the next lines that show attributes.
    fn show(&mut self) {
        for _ in 0..SHOWS {
            let Some(line) = self.script.lines().get(self.played) else {
                return;
            };
            if !line.statement.is_show() {
                return;
            }
            let value = shown(&self.kernel, &self.names, &line.statement).ok();
            let _ = self.shown.push(value);
            self.played = self.played.saturating_add(1);
        }
    }

    pub fn script(&self) -> &Script {
        &self.script
    }

    pub fn names(&self) -> &Names {
        &self.names
    }

    pub fn kernel(&self) -> &Kernel {
        &self.kernel
    }
}

impl Trial for Play {
    fn call(&mut self) -> Answer {
        let Some(line) = self.script.lines().get(self.played) else {
            return Answer::Failed;
        };
        if line.statement.is_show() {
            return Answer::Failed;
        }
        let made = TaskNo(self.kernel.tasks());
        match self.kernel.step(request_of(&line.statement, &self.names)) {
            Ok(at) => {
                self.names.bind(&line.statement, at, made);
                self.played = self.played.saturating_add(1);
                self.at = at;
                if let Statement::Tick { now } = line.statement {
                    self.moment = now;
                }
                self.show();
                Answer::Done
            }
            Err(cause) => Answer::from(cause),
        }
    }

    fn go_on(&mut self) {
        self.play_to(self.scene.requests());
    }

    fn is_like(&self, other: &Play) -> bool {
        self.played == other.played
            && self.at == other.at
            && self.shown.as_slice() == other.shown.as_slice()
            && self.scene.has_same_names(&self.names, &other.names)
            && are_same(&self.kernel, &other.kernel)
    }
}

/// Whether two kernels have the same journal, and answer every query alike.
fn are_same(kernel: &Kernel, other: &Kernel) -> bool {
    kernel.journal().as_slice() == other.journal().as_slice()
        && kernel.tasks() == other.tasks()
        && kernel.finished() == other.finished()
        && kernel.board() == other.board()
        && (0..kernel.tasks().saturating_add(1)).all(|task| is_same_task(
            kernel,
            other,
            TaskNo(task),
        ))
}

fn is_same_task(kernel: &Kernel, other: &Kernel, task: TaskNo) -> bool {
    kernel.outcome(task) == other.outcome(task)
        && kernel.callable(task) == other.callable(task)
        && kernel.terminated(task) == other.terminated(task)
        && kernel.running(task) == other.running(task)
        && (0..3).all(|family| is_same_family(kernel, other, task, family))
}

fn is_same_family(kernel: &Kernel, other: &Kernel, task: TaskNo, family: u8) -> bool {
    (0..5).all(|index| {
        let entry = Entry { family, index };
        kernel.slot(task, entry) == other.slot(task, entry)
            && kernel.count(task, entry) == other.count(task, entry)
    })
}
