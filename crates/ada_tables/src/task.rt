//! The record of one task.
ghost use Rattle.std.specs.Prelude.{◌≡◌, true, false};
ghost use Rattle.ada_tables.specs.Layers.{members};
ghost use Rattle.ada_events.specs.Holders.{holds, encloses};
ghost use Rattle.ada_tables.specs.Dependents.{parent_within};
ghost use Rattle.ada_tables.specs.internal.Counts.{recounted, made};

use crate::change::Change;
use crate::{Layers, Phase};
use ada_events::{Families, Master, TaskNo};
use std::mem::size_of;

/// What is kept of a task. What passes over all tasks look at comes first, so that it lies in one line of the cache.
#[derive(Drop)]
pub(crate) struct Task {
    /// The master that it was made under; none for the main program. Set by its creation.
    pub(crate) master: Option<Master>,
    /// How many live dependents its body has. A creation raises it, a termination lowers it.
    pub(crate) live: u16,
    /// The number of the task that holds its master; of the main program it says nothing. Set by its creation.
    pub(crate) holder: u16,
    /// The slot of its first entry: how many entries the tasks before it have. Set by its creation.
    pub(crate) first_slot: u16,
    /// Set by each event that starts, suspends, releases, completes or terminates the task.
    pub(crate) phase: Phase,
    /// What it is in. An opening and a meeting put a member in; a leaving, an end and a failure take it out.
    pub(crate) nest: Layers,
    /// Its entries. Set by its creation.
    pub(crate) families: Families,
}

impl Task {
    // A task that has just been made under a master, which the task of that number holds. Its entries begin at a slot.
    pub(crate) fn of(
        master: Option<Master>,
        holder: u16,
        first_slot: u16,
        families: Families,
    ) -> Task
        ensures { result ≡ made master holder first_slot families }
    {
        Task {
            master,
            live: 0,
            holder,
            first_slot,
            phase: Phase::Unstarted,
            nest: Layers::new(),
            families,
        }
    }

    // A copy of the record.
    pub(crate) fn copy(&self) -> Task
        ensures { result ≡ self.now }
    {
        Task {
            master: self.master,
            live: self.live,
            holder: self.holder,
            first_slot: self.first_slot,
            phase: self.phase,
            nest: self.nest.copy(),
            families: Families::from_slice(self.families.as_slice()),
        }
    }
}

// Of two masters that the task of that number holds, whether the second is the first or stands outside it.
#[tactic(auto, using(crate::proofs::Nests::has_block_within))]
pub(crate) fn encloses(number: u16, nest: &Layers, from: Master, to: Master) -> bool
    requires { holds number (members nest.now) from ≡ true }
    ensures { result ≡ encloses number (members nest.now) from to }
{
    match (from, to) {
        (_, Master::Body(TaskNo(task))) => task == number,
        (Master::Body(_), Master::Block(_)) => false,
        (Master::Block(inner), Master::Block(block)) => {
            inner == block || nest.encloses(inner, block)
        }
    }
}

// Changes the counts of the masters that the task holds, from one of them outwards.
pub(crate) fn count(task: &mut Task, from: Master, change: Change)
    ensures { task.new ≡ recounted change from task.old }
{
    task.live = change.of(task.live);
    if let Master::Block(block) = from {
        task.nest.count_to(block, change);
    }
}

// The parent of a block that stands in the nest of the task of that number.
pub(crate) fn parent_within(number: u16, nest: &Layers, block: u32) -> Master
    ensures { result ≡ parent_within number (members nest.now) block }
{
    match nest.outside(block) {
        Some(outer) => Master::Block(outer),
        None => Master::Body(TaskNo(number)),
    }
}

const _: () = prove!(size_of::<Task>() <= 424);
