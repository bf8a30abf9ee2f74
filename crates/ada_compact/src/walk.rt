//! A new kernel is asked for what still matters of an old one. No clause says what comes of that: what is made is
//! checked.

pub mod acting;
pub mod ending;
pub mod entering;
pub mod fresh;
pub mod helpers;
pub mod items;
pub mod making;
pub mod names;
pub mod posts;
pub mod source;
pub mod suspending;

use crate::failure::NotCompacted;
use ada_events::TaskNo;
use ada_kernel::Kernel;
use ada_standing::Renaming;
use fresh::Fresh;
use items::{Item, Items};
use names::Names;
use posts::Posts;
use source::{MAIN, Source};
use std::alloc::Global;

/// A kernel with a shorter journal, and the names that lead to it from the old one.
#[derive(Drop)]
pub struct Compacted {
    pub kernel: Kernel,
    pub names: Renaming,
}

/// How far the walk has come with a task of the old kernel.
#[derive(Clone, Copy)]
pub(crate) struct Progress {
    /// Whether the task may still be named, though it may be terminated.
    pub(crate) is_kept: bool,
    /// The helper whose call it accepts for its outcome.
    pub(crate) caller: Option<TaskNo>,
    /// Up to which place of its nest the rendezvous have begun.
    pub(crate) accepted: usize,
    /// Whether it has its outcome already.
    pub(crate) has_acted: bool,
}

impl Progress {
    const NONE: Progress = Progress {
        is_kept: false,
        caller: None,
        accepted: 0,
        has_acted: false,
    };
}

/// A walk through what still matters of an old kernel, in the order of its journal, which asks a new kernel for it.
/// What the tasks that are gone did is done by helpers.
#[derive(Drop)]
pub(crate) struct Walk<'a> {
    pub(crate) old: Source<'a>,
    pub(crate) new: Fresh,
    pub(crate) names: Names,
    pub(crate) posts: Posts,
    /// By number: one for each task of the old kernel.
    pub(crate) progress: Vec<Progress>,
    /// The helper under main's body, with one entry.
    pub(crate) server: Option<TaskNo>,
    /// A terminated helper, to be called in vain.
    pub(crate) dead: Option<TaskNo>,
    /// The other helpers that run, in the order in which they were made.
    pub(crate) helpers: Vec<TaskNo>,
    /// Helpers that activate a task and have to be halted.
    pub(crate) activators: Vec<TaskNo>,
}

fn no_progress(alloc: Global, tasks: u16) -> Result<Vec<Progress>, NotCompacted> {
    let mut progress = Vec::new(alloc);
    for _ in 0..tasks {
        progress.push(Progress::NONE)?;
    }
    Ok(progress)
}

impl<'a> Walk<'a> {
    // At the beginning, with a new kernel.
    fn new(alloc: Global, old: Source<'a>) -> Result<Self, NotCompacted> {
        let progress = no_progress(alloc, old.tasks())?;
        let names = Names::new(alloc, old.tasks())?;
        let posts = Posts::new(alloc, old)?;
        let new = Fresh::new(alloc)?;
        Ok(Walk {
            old,
            new,
            names,
            posts,
            progress,
            server: None,
            dead: None,
            helpers: Vec::new(alloc),
            activators: Vec::new(alloc),
        })
    }
}

impl Walk<'_> {
    /// How far it has come with a task.
    pub(crate) fn progress(&self, task: TaskNo) -> Progress {
        match self.progress.get(usize::from(task.0)) {
            Some(progress) => *progress,
            None => Progress::NONE,
        }
    }

    // Marks the tasks that may still be named.
    fn keep(&mut self, kept: &[TaskNo]) {
        for task in kept {
            if let Some(progress) = self.progress.get_mut(usize::from(task.0)) {
                progress.is_kept = true;
            }
        }
    }

    /// Whether the task is terminated, and may still be named.
    pub(crate) fn is_kept_dead(&self, task: TaskNo) -> bool {
        self.progress(task).is_kept && !self.old.is_live(task)
    }

    fn add_items(&self, items: &mut Items<'_>) -> Result<(), NotCompacted> {
        for number in 0..self.old.tasks() {
            if self.old.is_live(TaskNo(number)) {
                items.add_live(TaskNo(number))?;
            } else if self.is_kept_dead(TaskNo(number)) {
                items.add_dead(TaskNo(number))?;
            }
        }
        items.sort();
        Ok(())
    }

    fn take(&mut self, item: Item) -> Result<(), NotCompacted> {
        match item {
            Item::Made(task) => self.make(task),
            Item::MadeDead(task) => self.make_dead(task),
            Item::Opened { task, place } => self.open(task, place),
            Item::Suspended(task) => self.suspend(task),
            Item::Called(task) => self.call_again(task),
        }
    }

    fn take_all(&mut self, items: &Items<'_>) -> Result<(), NotCompacted> {
        for placed in items.as_slice() {
            self.take(placed.item)?;
        }
        Ok(())
    }

    fn walk(&mut self, alloc: Global) -> Result<(), NotCompacted> {
        let mut items = Items::new(alloc, self.old);
        self.add_items(&mut items)?;
        self.make_server()?;
        self.make_callers()?;
        self.take_all(&items)?;
        self.accept_all()?;
        self.act_all()?;
        self.finish(alloc)
    }

    fn run(&mut self, alloc: Global, kept: &[TaskNo]) -> Result<(), NotCompacted> {
        self.keep(kept);
        if self.old.is_live(MAIN) {
            self.walk(alloc)
        } else {
            self.finish_main()
        }
    }

    fn into_compacted(self) -> Result<Compacted, NotCompacted> {
        let Walk { new, names, .. } = self;
        let names = names.into_renaming()?;
        Ok(Compacted {
            kernel: new.into_kernel(),
            names,
        })
    }
}

/// A second kernel that is asked for what still matters of a first one, and the names that lead to it. That it stands
/// in for the first one is left to a check.
///
/// # Errors
///
/// [`NotCompacted::NoRoom`] where there is no room for helpers: up to three for a live task, and two more.
pub(crate) fn shorten(
    alloc: Global,
    old: &Kernel,
    kept: &[TaskNo],
) -> Result<Compacted, NotCompacted> {
    let mut walk = Walk::new(alloc, Source::new(old))?;
    walk.run(alloc, kept)?;
    walk.into_compacted()
}
