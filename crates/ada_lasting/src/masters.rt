//! On whom the tasks depend that may still be named, so that a task is given up when its master is gone (9.4).

ghost use Rattle.std.specs.Prelude.{◌≡◌, ◌&&◌, ◌++◌, ℕ, [], ◌∷◌, List, true, is_some, IfErr, IfOk, IfNone, IfSome, OnErr, OnOk, Some};
ghost use Rattle.std.specs.List.{All, list_any};
ghost use Rattle.ada_events.specs.declared.names.Master.TheVariants.{Block as BlockMaster};
ghost use Rattle.ada_events.specs.Nests.{nest};
ghost use Rattle.ada_lasting.specs.GivingUp.{IsGone};
ghost use Rattle.ada_lasting.specs.Meaning.{meant_master};
ghost use Rattle.ada_lasting.specs.Naming.{Naming, found, renaming_of};
ghost use Rattle.ada_lasting.specs.declared.masters.Dependent.{Dependent as DependentValue};
ghost use Rattle.ada_lasting.specs.internal.Causes.{IsUnnamed};
ghost use Rattle.ada_lasting.specs.internal.Mastering.{IsKeptOrGone, masters_next, named_masters};
ghost use Rattle.ada_lasting.specs.internal.Present.{named_next};
ghost use Rattle.ada_standing.specs.Renaming.{renamed_master};
ghost use Rattle.ada_events.specs.Holders.{is_block};
ghost use Rattle.ada_standing.specs.StandsIn.{is_live};

use crate::failure::NotDone;
use crate::names::Names;
use crate::requests::LastingMaster;
use ada_events::{Master, Refusal, TaskNo};
use ada_view::{View, queries};
use std::alloc::{AllocError, Global};
use std::marker::Model;

/// A task, and the master that it depends on.
#[derive(Clone, Copy, Debug, PartialEq, Eq)]
pub struct Dependent {
    pub task: u64,
    pub master: LastingMaster,
}

/// The masters of tasks, in the order of the tasks.
#[derive(Drop)]
pub(crate) struct Masters {
    dependents: Vec<Dependent>,
}

impl Model for Masters {
    ghost use Rattle.std.specs.Prelude.{List};
    ghost use Rattle.ada_lasting.specs.declared.masters.Dependent.{Dependent};

    ghost Value = { List Dependent };

    ghost view = { λ m. m.dependents.items };
}

// Whether the task lives.
fn is_live(view: &View, task: TaskNo) -> bool
    ensures { result ≡ is_live view.now task.0 }
{
    task.0 < queries::tasks(view) && !view.record(task).stage.terminated
}

// Whether the task lives, and is within the block.
fn is_within(view: &View, task: TaskNo, block: u32) -> bool
    ensures { result ≡ (is_live view.now task.0
        && list_any (is_block block) (nest view.now task.0)) }
{
    is_live(view, task) && view.nest(task).has_block(block)
}

// Whether no task that lives is within the block, since it is left, or its task terminated in it (9.10).
fn is_left(view: &View, block: u32) -> bool
    ensures { result ≡ true → IsGone view.now (BlockMaster block) }
{
    match view.opener(block) {
        Some(task) => !is_within(view, task, block),
        None => true,
    }
}

// Whether a master of the present journal is gone.
fn is_gone(view: &View, master: Master) -> bool
    ensures { result ≡ true → IsGone view.now master }
{
    match master {
        Master::Body(task) => view.record(task).stage.terminated,
        Master::Block(block) => is_left(view, block),
    }
}

impl Names {
    // The master that has the name in the present journal.
    #[tactic(auto, unfolding(ada_standing::specs::Renaming::renamed_master))]
    fn master(&self, lasting: LastingMaster) -> Option<Master>
        ensures { result ≡ renamed_master (renaming_of self.now) (meant_master lasting) }
    {
        match lasting {
            LastingMaster::Body(task) => match self.task(task) {
                Some(task) => Some(Master::Body(task)),
                None => None,
            },
            LastingMaster::Block(position) => match self.position(position) {
                Some(block) => Some(Master::Block(block)),
                None => None,
            },
        }
    }

    // The task in the present journal, if it has a name there, is terminated, and its master isn't gone.
    fn kept_task(&self, view: &View, dependent: Dependent) -> Option<TaskNo>
        ensures gone { IfNone result (IsKeptOrGone view.now self.now [] dependent) }
        ensures named { IfSome result (λ task.
            found self.now.tasks dependent.task ≡ Some task.0) }
    {
        let task = self.task(dependent.task)?;
        if !view.record(task).stage.terminated {
            return None;
        }
        match self.master(dependent.master) {
            Some(master) if !is_gone(view, master) => Some(task),
            _ => None,
        }
    }
}

fn are_same(dependents: &[Dependent], others: &[Dependent]) -> bool
    ensures { result ≡ true → dependents.now ≡ others.now }
{
    dependents == others
}

impl Masters {
    pub(crate) fn new(alloc: Global) -> Self
        ensures { result ≡ [] }
    {
        Masters {
            dependents: Vec::new(alloc),
        }
    }

    // Adds a task, which is made last.
    fn add(&mut self, task: u64, master: LastingMaster) -> Result<(), AllocError>
        ensures ok { OnOk result (self.new
            ≡ self.old ++ (record { task = task; master = master } ∷ [])) }
        ensures err { OnErr result (self.new ≡ self.old) }
    {
        self.dependents.push(Dependent { task, master })?;
        Ok(())
    }

    /// Names the task that a request makes, if it makes one, which will have this number in the present journal, and
    /// remembers its master.
    #[inline(always)]
    pub(crate) fn name_next(
        &mut self,
        names: &mut Names,
        present: TaskNo,
        master: Option<LastingMaster>,
    ) -> Result<(), NotDone>
        ensures named { OnOk result (names.new ≡ named_next (is_some master) names.old present.0) }
        ensures added { OnOk result (self.new ≡ masters_next master names.old.made self.old) }
        ensures unnamed { OnErr result (names.new ≡ names.old) }
        ensures unchanged { OnErr result (self.new ≡ self.old) }
        ensures why { IfErr result (λ cause. IsUnnamed master names.old cause) }
    {
        let Some(master) = master else {
            return Ok(());
        };
        let task = names.made();
        if task == u64::MAX {
            return Err(NotDone::NoMoreNames);
        }
        if names.add_task(present).is_err() {
            return Err(NotDone::Refused(Refusal::OutOfMemory));
        }
        if self.add(task, master).is_err() {
            names.take_back();
            return Err(NotDone::Refused(Refusal::OutOfMemory));
        }
        Ok(())
    }

    /// Takes back the name that a request was given, and the master, since the task wasn't made.
    #[inline(always)]
    pub(crate) fn unname_next(&mut self, names: &mut Names, master: Option<LastingMaster>)
        ensures names { (before : Naming) (present : ℕ)
            → names.old ≡ named_next (is_some master) before present → names.new ≡ before }
        ensures masters { (task : ℕ) (before : List DependentValue)
            → self.old ≡ masters_next master task before → self.new ≡ before }
        ensures until { names.new.until ≡ names.old.until }
    {
        if master.is_some() {
            names.take_back();
            let _ = self.dependents.pop();
        }
    }

    /// The terminated tasks that have names, and whose masters aren't gone.
    pub(crate) fn kept(
        &self,
        alloc: Global,
        view: &View,
        names: &Names,
    ) -> Result<Vec<TaskNo>, AllocError>
        ensures { IfOk result (λ kept.
            All (IsKeptOrGone view.now names.now kept.items) self.now) }
    {
        let mut kept = Vec::new(alloc);
        for dependent in &self.dependents {
            if let Some(task) = names.kept_task(view, *dependent) {
                kept.push(task)?;
            }
        }
        Ok(kept)
    }

    /// Whether these are the same masters of the same tasks.
    pub(crate) fn are_same(&self, other: &Masters) -> bool
        ensures { result ≡ true → self.now ≡ other.now }
    {
        are_same(&self.dependents, &other.dependents)
    }

    /// Forgets the tasks that have no names any more.
    pub(crate) fn retain(&mut self, names: &Names)
        ensures { self.new ≡ named_masters names.now self.old }
    {
        self.dependents
            .retain(|dependent| names.task(dependent.task).is_some());
    }
}
