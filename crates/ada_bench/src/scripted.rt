//! A script that was played once: what it asked, and what came of it.

use crate::jobs::{Plan, Taker};
use ada_events::TaskNo;
use ada_kernel::Kernel;
use ada_script::{Names, Script, Statement, request_of};
use std::alloc::Global;

/// A script, and its names as its play has bound them.
#[derive(Drop)]
pub struct Scripted {
    pub script: Script,
    pub names: Names,
    pub kernel: Kernel,
}

impl Scripted {
    /// Plays a script on a kernel of its own.
    pub fn play(alloc: Global, script: Script) -> anyhow::Result<Scripted> {
        let mut names = script.names()?;
        let mut kernel = Kernel::new(alloc)?;
        play_lines(&script, &mut kernel, &mut names);
        Ok(Scripted {
            script,
            names,
            kernel,
        })
    }
}

fn play_lines(script: &Script, kernel: &mut Kernel, names: &mut Names) {
    for line in script.lines() {
        play_line(&line.statement, kernel, names);
    }
}

// Plays a line that makes a request.
fn play_line(statement: &Statement, kernel: &mut Kernel, names: &mut Names) {
    if statement.is_show() {
        return;
    }
    let made = TaskNo(kernel.tasks());
    if let Ok(at) = kernel.step(request_of(statement, names)) {
        names.bind(statement, at, made);
    }
}

impl Plan for Scripted {
    fn prepare<T: Taker>(&self, _taker: &mut T) {}

    fn measured<T: Taker>(&self, taker: &mut T) {
        for line in self.script.lines() {
            if !line.statement.is_show() {
                taker.take(request_of(&line.statement, &self.names));
            }
        }
    }
}
