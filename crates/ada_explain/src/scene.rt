//! A journal as its reader sees it.
ghost use Rattle.std.specs.Prelude.{◌<◌, ◌^◌, length};

use ada_events::{Entry, Event, Family, Master, TaskNo};
use ada_kernel::Kernel;
use ada_replay::Account;
use ada_statements::{Bound, Names};
use std::alloc::AllocError;
use std::fmt;

/// A kernel, the events of its journal in the order in which they came, and the names of its script.
#[derive(Clone, Copy)]
pub struct Scene<'a> {
    pub kernel: &'a Kernel,
    pub events: &'a [Event],
    pub names: &'a Names,
    ghost short: { length events.now < 2 ^ 32 },
}

impl<'a> Scene<'a> {
    /// The journal of a kernel as it stands, with the names of its script.
    pub fn of(kernel: &'a Kernel, names: &'a Names) -> Self {
        Scene {
            kernel,
            events: kernel.journal().as_slice(),
            names,
        }
    }

    /// The journal at the end of a play.
    pub fn at_end(account: &'a Account) -> Self {
        Scene::of(&account.kernel, &account.names)
    }

    /// The name of a task.
    pub fn task(self, task: TaskNo) -> &'a str {
        name_of(self.names, Bound::Task(task))
    }

    /// The name of the block that was opened at a position.
    pub fn block(self, opened: u32) -> &'a str {
        name_of(self.names, Bound::Opened(opened))
    }

    /// The name of a master: that of a task, or of a block.
    pub fn master(self, master: Master) -> &'a str {
        match master {
            Master::Body(task) => self.task(task),
            Master::Block(opened) => self.block(opened),
        }
    }

    /// The name of a family of a task's entries.
    pub fn family_name(self, task: TaskNo, family: u8) -> &'a str {
        let families = self.names.families(Bound::Task(task));
        match families.get(usize::from(family)) {
            Some(name) => name.as_str(),
            None => "?",
        }
    }

    /// The family of that number among those that a task declares (9.5); none where there is no such task.
    pub fn declared(self, task: TaskNo, family: u8) -> Option<Family> {
        let view = self.kernel.view();
        let tables = view.tables();
        if task.0 >= tables.tasks() {
            return None;
        }
        let families = tables.families(task);
        families.as_slice().get(usize::from(family)).copied()
    }

    /// A task's entry; with an index only where its family has several.
    pub fn entry(self, task: TaskNo, entry: Entry) -> EntryText<'a> {
        let index = match self.declared(task, entry.family) {
            Some(Family { low: 0, high: 0 }) => None,
            _ => Some(entry.index),
        };
        EntryText {
            task: self.task(task),
            family: self.family_name(task, entry.family),
            index,
        }
    }

    /// A family of a task's entries.
    pub fn family(self, task: TaskNo, family: u8) -> EntryText<'a> {
        EntryText {
            task: self.task(task),
            family: self.family_name(task, family),
            index: None,
        }
    }

    /// Appends the names of tasks, as `A, B and C`.
    pub fn write_tasks(self, text: &mut String, tasks: &[TaskNo]) -> Result<(), AllocError> {
        for (i, task) in tasks.iter().enumerate() {
            let before = match tasks.len() - i {
                _ if i == 0 => "",
                1 => " and ",
                _ => ", ",
            };
            write!(text, "{before}{}", self.task(*task))?;
        }
        Ok(())
    }
}

// The name that is bound so. Whatever an event of a script's play names was declared by it.
fn name_of(names: &Names, bound: Bound) -> &str {
    match names.bound_to(bound) {
        Some((name, _)) => name.as_str(),
        None => "?",
    }
}

/// An entry of a task, printed as `S.E`, or as `S.J(2)` where its family has several.
#[derive(Clone, Copy, Drop)]
pub struct EntryText<'a> {
    task: &'a str,
    family: &'a str,
    index: Option<i32>,
}

impl fmt::Display for EntryText<'_> {
    fn fmt<W: fmt::Write>(&self, f: &mut fmt::Formatter<W>) -> fmt::Result {
        write!(f, "{}.{}", self.task, self.family)?;
        match self.index {
            Some(index) => write!(f, "({index})"),
            None => Ok(()),
        }
    }
}
