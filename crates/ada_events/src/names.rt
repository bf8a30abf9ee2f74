//! What requests and events name: tasks, masters, entries, and the parts of a selective wait.

ghost use Rattle.std.specs.Prelude.{◌≡◌, ◌^◌, ◌-◌, ◌-ℤ◌, min, nat_lt, not, true, unsigned_abs};
ghost use Rattle.std.specs.List.{list_any};
ghost use Rattle.std.specs.Option.{option_map_or};
ghost use Rattle.ada_events.specs.Asks.{body_task};
ghost use Rattle.ada_events.specs.declared.names.TaskNo.{TaskNo as Task};
ghost use Rattle.ada_events.specs.Entries as entries;
ghost use Rattle.ada_events.specs.Phases.{lists_task};
ghost use Rattle.ada_events.specs.Refusals.{is_rendezvous};
ghost use Rattle.ada_events.specs.Search.{is_some_and};

use crate::limits::{MOST_CHOICES, MOST_DELAYS, MOST_FAMILIES, MOST_TASKS};
use crate::{Bounded, SmallList, Stored};

/// A task by its number, 0 to 255: 0 is the main program, and task `k` was made by the `k`-th
/// creation. A larger number names no task.
#[derive(Clone, Copy, Debug, Default, PartialEq, Eq)]
pub struct TaskNo(pub u16);

impl TaskNo {
    /// Whether the number is that of one of `count` tasks.
    pub fn is_known(self, count: u64) -> bool
        ensures { result ≡ nat_lt self.0 count }
    {
        u64::from(self.0) < count
    }

    /// Whether a list names the task.
    pub fn is_listed(self, tasks: &[TaskNo]) -> bool
        ensures { result ≡ lists_task self.0 tasks.now }
    {
        tasks.iter().any(|task| task.0 == self.0)
    }

    /// Whether a list names a task that isn't one of `count` tasks.
    pub fn lists_unknown(tasks: &[TaskNo], count: u64) -> bool
        ensures { result ≡ list_any (λ (t : Task). not (nat_lt t.0 count)) tasks.now }
    {
        tasks.iter().any(|task| !task.is_known(count))
    }
}

/// What a task may depend on (9.4): the body of a task, or a block by the position of its opening.
#[derive(Clone, Copy, Debug, PartialEq, Eq)]
pub enum Master {
    Body(TaskNo),
    Block(u32),
}

impl Master {
    /// Whether it is the body of a task that isn't one of `count` tasks.
    pub fn is_unknown_body(self, count: u64) -> bool
        ensures { result ≡ list_any (λ (t : Task). not (nat_lt t.0 count)) (body_task self) }
    {
        match self {
            Master::Body(task) => !task.is_known(count),
            Master::Block(_) => false,
        }
    }
}

/// What a task is within: a block by the position of its opening, or a rendezvous by the position of
/// its call.
#[derive(Clone, Copy, Debug, PartialEq, Eq)]
pub enum Member {
    Block(u32),
    Rendezvous(u32),
}

impl Member {
    /// Whether it is a rendezvous.
    pub fn is_rendezvous(self) -> bool
        ensures { result ≡ is_rendezvous self }
    {
        matches!(self, Member::Rendezvous(_))
    }

    /// Whether the innermost member of a nest is a rendezvous, so that its accept statement may end (9.5).
    pub fn is_in_accept(innermost: Option<Member>) -> bool
        ensures { result ≡ is_some_and innermost is_rendezvous }
    {
        match innermost {
            Some(member) => member.is_rendezvous(),
            None => false,
        }
    }

    /// Whether the innermost member of a nest isn't a block that may be closed: it is a rendezvous, or there is none.
    pub fn has_no_block(innermost: Option<Member>) -> bool
        ensures { result ≡ option_map_or is_rendezvous innermost true }
    {
        match innermost {
            Some(member) => member.is_rendezvous(),
            None => true,
        }
    }
}

/// A family of entries (9.5) with the index range `low..high`. A single entry is the family `0..0`,
/// and a family whose low bound is above its high one has no entry.
#[derive(Clone, Copy, Debug, Default, PartialEq, Eq)]
pub struct Family {
    pub low: i32,
    pub high: i32,
}

impl Family {
    /// Whether an index lies in the range.
    pub fn contains(self, index: i32) -> bool
        ensures { result ≡ entries.is_in_range self index }
    {
        self.low <= index && index <= self.high
    }

    /// How many entries the family has, at most 2^32.
    #[tactic(auto, unfolding(crate::specs::Entries::entry_count))]
    pub fn entry_count(self) -> u64
        ensures { result ≡ entries.entry_count self }
    {
        if self.low <= self.high {
            (i64::from(self.high) - i64::from(self.low)).unsigned_abs() + 1
        } else {
            0
        }
    }

    /// How far an index is from the low bound, at most 2^32 - 1.
    pub fn offset(self, index: i32) -> u64
        ensures { result ≡ unsigned_abs (index -ℤ self.low) }
    {
        (i64::from(index) - i64::from(self.low)).unsigned_abs()
    }

    /// How many entries some families have, at most 2^64 - 1.
    #[tactic(auto, unfolding(crate::specs::Entries::entries_in), using(crate::proofs::Entries::entries_in_more))]
    pub fn entries_in(families: &[Family]) -> u64
        ensures { result ≡ min (entries.entries_in families.now) (2 ^ 64 - 1) }
    {
        let mut total = 0u64;
        for family in families {
            total = total.saturating_add(family.entry_count());
        }
        total
    }
}

/// An entry of a task (9.5): the place of its family in the task's declaration, from 0, and its
/// index, 0 for a single entry.
#[derive(Clone, Copy, Debug, Default, PartialEq, Eq)]
pub struct Entry {
    pub family: u8,
    pub index: i32,
}

/// How long an entry call waits for its acceptance (9.5, 9.7.2, 9.7.3). A duration is in
/// milliseconds, and a negative one counts as 0.
#[derive(Clone, Copy, Debug, PartialEq, Eq)]
pub enum Patience {
    Simple,
    Conditional,
    Timed(i64),
}

/// An accept alternative of a selective wait (9.7.1): open where its guard is true.
#[derive(Clone, Copy, Debug, Default, PartialEq, Eq)]
pub struct Choice {
    pub guard: bool,
    pub entry: Entry,
}

/// A delay alternative of a selective wait (9.7.1), open where its guard is true, with its duration
/// in milliseconds.
#[derive(Clone, Copy, Debug, Default, PartialEq, Eq)]
pub struct Pause {
    pub guard: bool,
    pub duration: i64,
}

/// The tasks that an activation or an abort names, at most 256.
pub type Tasks = Bounded<TaskNo, MOST_TASKS>;

/// The families of entries that a task declares, at most 16.
pub type Families = Bounded<Family, MOST_FAMILIES>;

/// The accept alternatives of a wait in text order, at most 16.
pub type Choices = Bounded<Choice, MOST_CHOICES>;

/// The delay alternatives of a wait in text order, at most 8.
pub type Pauses = Bounded<Pause, MOST_DELAYS>;

/// The moments at which the delay alternatives of a wait are due, in text order, at most 8. A closed
/// alternative has none.
pub type Dues = Bounded<Option<i64>, MOST_DELAYS>;

/// The tasks that an activation or an abort named, as its event keeps them.
pub type TaskList = SmallList<TaskNo, 8, MOST_TASKS>;

/// The families of entries that a task declared, as its creation keeps them.
pub type FamilyList = SmallList<Family, 2, MOST_FAMILIES>;

/// The accept alternatives of a wait, as its event keeps them.
pub type ChoiceList = SmallList<Choice, 2, MOST_CHOICES>;

/// The moments at which the delay alternatives of a wait are due, as its event keeps them.
pub type DueList = Stored<Dues>;
