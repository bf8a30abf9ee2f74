//! What the names of a script stand for.

ghost use Rattle.std.specs.Prelude.{◌≡◌, false, IfOk};

use crate::Name;
use ada_events::limits::MOST_FAMILIES;
use ada_events::{SmallList, TaskNo};
use std::alloc::{AllocError, Global};

/// The names of a task's entries, in the order of its declaration, at most 16. One lies in place, and
/// more in memory.
pub type EntryNames = SmallList<Name, 1, MOST_FAMILIES>;

/// A task that was made: its number, and the position of the event that made it, 0 for the main
/// program.
#[derive(Clone, Copy, Debug, PartialEq, Eq)]
pub struct Made {
    pub task: TaskNo,
    pub at: u32,
}

/// What a name may be bound to.
#[derive(Clone, Copy, Debug, PartialEq, Eq)]
pub enum Bound {
    /// The task of this number.
    Task(TaskNo),
    /// The task that was made at this position.
    Made(u32),
    /// The block that was opened at this position.
    Opened(u32),
}

/// What a name is bound to when its statement is accepted.
#[derive(Clone, Copy)]
pub(crate) enum Binding {
    /// A task that was made.
    Made(Made),
    /// A block that was opened at this position.
    Opened(u32),
}

/// What a name of a script stands for: a task, with the names of its entries, or a block. A name is
/// bound once its statement is accepted.
#[derive(Debug, Drop, PartialEq, Eq)]
pub enum Meaning {
    /// A task, and which it is once it is made.
    Task {
        entries: EntryNames,
        made: Option<Made>,
    },
    /// A block, and the position of its opening once it is open.
    Block {
        opened: Option<u32>,
    },
}

impl Meaning {
    ghost use Rattle.ada_statements.specs.internal.Places.{bound_by};
    ghost use Rattle.ada_statements.specs.Binding.{is_bound_to};

    /// Binds a task or a block. A task stays as it is where a block is opened, and a block where a
    /// task is made.
    pub(crate) fn bind(&mut self, binding: Binding)
        ensures { self.new ≡ bound_by binding self.old }
    {
        match (self, binding) {
            (Meaning::Task { made, .. }, Binding::Made(task)) => *made = Some(task),
            (Meaning::Block { opened }, Binding::Opened(at)) => *opened = Some(at),
            _ => {}
        }
    }

    /// Whether this is bound.
    pub(crate) fn is_bound(&self) -> bool
        ensures { (result ≡ false) → (bound : Bound) → is_bound_to bound self.now ≡ false }
    {
        match self {
            Meaning::Task { made, .. } => made.is_some(),
            Meaning::Block { opened } => opened.is_some(),
        }
    }

    /// Another meaning of the same value.
    pub(crate) fn copy(&self, alloc: Global) -> Result<Self, AllocError>
        ensures { IfOk result (λ meaning. meaning ≡ self.now) }
    {
        match self {
            Meaning::Task { entries, made } => Ok(Meaning::Task {
                entries: copy_of(alloc, entries)?,
                made: *made,
            }),
            Meaning::Block { opened } => Ok(Meaning::Block { opened: *opened }),
        }
    }

    /// Whether this is bound so.
    pub(crate) fn is_bound_to(&self, bound: Bound) -> bool
        ensures { result ≡ is_bound_to bound self.now }
    {
        match (self, bound) {
            (
                Meaning::Task {
                    made: Some(made),
                    ..
                },
                Bound::Task(task),
            ) => made.task == task,
            (
                Meaning::Task {
                    made: Some(made),
                    ..
                },
                Bound::Made(at),
            ) => made.at == at,
            (
                Meaning::Block {
                    opened: Some(opened),
                },
                Bound::Opened(at),
            ) => *opened == at,
            _ => false,
        }
    }
}

/// Other names of the same bytes.
fn copy_of(alloc: Global, names: &EntryNames) -> Result<EntryNames, AllocError>
    ensures { IfOk result (λ copy. copy ≡ names.now) }
{
    let mut copy = EntryNames::new(alloc);
    for name in names.as_slice() {
        copy.push(name.copy())?;
    }
    Ok(copy)
}
