//! What has lasting names in the present journal.

ghost use Rattle.std.specs.Prelude.{◌≡◌, ◌≤◌, ◌<◌, ◌+◌, ◌-◌, ◌^◌, ℕ, IfOk, OnErr, OnOk};
ghost use Rattle.std.specs.Option.{option_map};
ghost use Rattle.ada_events.specs.declared.names.TaskNo.{TaskNo as Number};
ghost use Rattle.ada_lasting.specs.Naming.{Naming, found, length_of, position_of};
ghost use Rattle.ada_lasting.specs.internal.Keeping.{AreInOrder, first_names, grown_to, with_task};
ghost use Rattle.ada_lasting.specs.internal.NamesBack.{lasting_of, named_by};

use crate::rows::{Row, find, find_near, name_of};
use ada_events::TaskNo;
use std::alloc::{AllocError, Global};
use std::marker::Model;

/// What has lasting names in the present journal, for the tasks and positions that may still be named.
#[derive(Drop)]
pub(crate) struct Names {
    pub(crate) tasks: Vec<Row>,
    // Of positions that were before the present journal.
    pub(crate) places: Vec<Row>,
    // How many tasks were made ever.
    pub(crate) made: u64,
    // How long the lasting journal was when the present one took its place, and how long the present one.
    pub(crate) since: u64,
    pub(crate) from: u32,
    // How long the present journal is now.
    pub(crate) until: u32,
}

impl Model for Names {
    ghost use Rattle.std.specs.Prelude.{◌≡◌, ◌≤◌, ◌<◌, ◌+◌, ◌^◌, suc, true};
    ghost use Rattle.ada_lasting.specs.Naming.{Naming};
    ghost use Rattle.ada_lasting.specs.internal.Keeping.{name_tasks, rises_between};

    ghost Value = { Naming };

    ghost view = { λ n. record {
      tasks = n.tasks.items;
      places = n.places.items;
      made = n.made;
      since = n.since;
      from = n.from;
      until = n.until;
    } };

    ghost invariant = { λ n. (rises_between 0 n.made n.tasks.items ≡ true)
        × (name_tasks n.tasks.items ≡ true)
        × (rises_between 0 (suc n.since) n.places.items ≡ true)
        × (n.from ≤ n.until) × (n.until < 2 ^ 32) × (n.since + 2 ^ 33 ≤ 2 ^ 64)
        × (n.made < 2 ^ 64) };
}

impl Names {
    /// The main program's name alone.
    pub(crate) fn new(alloc: Global) -> Result<Self, AllocError>
        ensures { IfOk result (λ names. names ≡ first_names) }
    {
        let mut tasks = Vec::new(alloc);
        tasks.push(Row {
            lasting: 0,
            present: 0,
        })?;
        Ok(Names {
            tasks,
            places: Vec::new(alloc),
            made: 1,
            since: 0,
            from: 0,
            until: 0,
        })
    }

    /// How many tasks were made ever, the main program counted.
    pub(crate) fn made(&self) -> u64
        ensures made { result ≡ self.now.made }
        ensures order { AreInOrder self.now }
    {
        self.made
    }

    /// The lasting position of the next event.
    pub(crate) fn next_position(&self) -> u64
        ensures { result ≡ length_of self.now + 1 }
    {
        self.since + u64::from(self.until - self.from) + 1
    }

    /// The task that has a lasting name in the present journal.
    pub(crate) fn task(&self, lasting: u64) -> Option<TaskNo>
        ensures { option_map (λ (t : Number). t.0) result ≡ found self.now.tasks lasting }
    {
        match find_near(&self.tasks, self.likely_row(lasting), lasting) {
            Some(present) => Some(TaskNo(present as u16)),
            None => None,
        }
    }

    // Where the row of a task is if none was given up that was made after it.
    #[inline(always)]
    fn likely_row(&self, lasting: u64) -> usize {
        let later = self.made.wrapping_sub(lasting);
        (self.tasks.len() as u64).wrapping_sub(later) as usize
    }

    /// The position that has a lasting name in the present journal.
    pub(crate) fn position(&self, lasting: u64) -> Option<u32>
        ensures { result ≡ position_of self.now lasting }
    {
        if lasting <= self.since {
            return find(&self.places, lasting);
        }
        let later = lasting - self.since;
        if later <= u64::from(self.until - self.from) {
            Some(self.from + later as u32)
        } else {
            None
        }
    }

    /// The lasting name of a task of the present journal.
    pub(crate) fn lasting_task(&self, task: TaskNo) -> Option<u64>
        ensures { result ≡ named_by self.now.tasks task.0 }
    {
        name_of(&self.tasks, u32::from(task.0))
    }

    /// The lasting name of a position of the present journal.
    pub(crate) fn lasting_position(&self, position: u32) -> Option<u64>
        ensures { result ≡ lasting_of self.now position }
    {
        if position <= self.from {
            name_of(&self.places, position)
        } else if position <= self.until {
            Some(self.since + u64::from(position - self.from))
        } else {
            None
        }
    }

    /// Names one more task, which will have this number in the present journal.
    pub(crate) fn add_task(&mut self, task: TaskNo) -> Result<(), AllocError>
        requires { self.old.made < 2 ^ 64 - 1 }
        ensures ok { OnOk result (self.new ≡ with_task self.old task.0) }
        ensures err { OnErr result (self.new ≡ self.old) }
    {
        self.tasks.push(Row {
            lasting: self.made,
            present: u32::from(task.0),
        })?;
        self.made += 1;
        Ok(())
    }

    /// Takes the name back that was given last.
    pub(crate) fn take_back(&mut self)
        ensures names { (names : Naming) (task : ℕ) → self.old ≡ with_task names task
            → self.new ≡ names }
        ensures until { self.new.until ≡ self.old.until }
    {
        if let Some(row) = self.tasks.pop() {
            self.made = row.lasting;
        }
    }

    /// Follows the present journal, which has grown.
    pub(crate) fn grow(&mut self, until: u32)
        requires { self.old.until ≤ until }
        ensures { self.new ≡ grown_to self.old until }
    {
        self.until = until;
    }
}
