//! What has lasting names, where a shorter present journal takes the place of the present one.

ghost use Rattle.std.specs.Prelude.{◌≡◌, ◌+◌, ◌++◌, IfErr, IfOk, OnOk, true};
ghost use Rattle.ada_lasting.specs.internal.Keeping.{name_tasks};
ghost use Rattle.ada_lasting.specs.internal.Moving.{IsUnmoved, later, moved, moved_names};
ghost use Rattle.ada_standing.specs.Names.{named, placed};

use crate::names::Names;
use crate::rows::Row;
use ada_events::TaskNo;
use ada_standing::{Place, Renaming};
use std::alloc::{AllocError, AllocFailed, Global};
use thiserror::Error;

/// The greatest length of a lasting journal when a present one takes its place: 2^33 more are below 2^64.
const MOST_LASTING: u64 = 0xFFFF_FFFE_0000_0000;

/// Why names weren't moved to a shorter present journal. The old ones are as they were.
#[derive(Clone, Copy, Debug, PartialEq, Eq, Error)]
pub enum NotMoved {
    /// A growth was refused.
    #[error("out of memory")]
    OutOfMemory,
    /// The lasting journal would get too long for positions below 2^64.
    #[error("no more names")]
    NoMoreNames,
}

impl From<AllocError> for NotMoved {
    ghost use Rattle.std.specs.Prelude.{◌≡◌};
    ghost use Rattle.ada_lasting.specs.declared.moving.NotMoved.TheVariants.{OutOfMemory};

    ghost from_gives = { λ _ why. why ≡ OutOfMemory };

    fn from(_: AllocError) -> Self {
        NotMoved::OutOfMemory
    }
}

impl<T: Drop> From<AllocFailed<T>> for NotMoved {
    ghost use Rattle.std.specs.Prelude.{◌≡◌};
    ghost use Rattle.ada_lasting.specs.declared.moving.NotMoved.TheVariants.{OutOfMemory};

    ghost from_gives = { λ _ why. why ≡ OutOfMemory };

    fn from(_: AllocFailed<T>) -> Self {
        NotMoved::OutOfMemory
    }
}

// The rows of the tasks that are named in the new present journal.
fn moved_tasks(alloc: Global, rows: &[Row], renaming: &Renaming) -> Result<Vec<Row>, AllocError>
    requires { name_tasks rows.now ≡ true }
    ensures rows { IfOk result (λ out. out.items ≡ moved (named renaming.now.tasks) rows.now) }
    ensures small { IfOk result (λ out. name_tasks out.items ≡ true) }
{
    let mut out = Vec::new(alloc);
    for row in rows {
        if let Some(task) = renaming.task(TaskNo(row.present as u16)) {
            out.push(Row {
                lasting: row.lasting,
                present: u32::from(task.0),
            })?;
        }
    }
    Ok(out)
}

// The rows of the old places that are named in the new present journal.
fn moved_rows(alloc: Global, rows: &[Row], renaming: &Renaming) -> Result<Vec<Row>, AllocError>
    ensures { IfOk result (λ out. out.items ≡ moved (placed renaming.now.places) rows.now) }
{
    let mut out = Vec::new(alloc);
    for row in rows {
        if let Some(present) = renaming.position(row.present) {
            out.push(Row {
                lasting: row.lasting,
                present,
            })?;
        }
    }
    Ok(out)
}

impl Names {
    // Adds the rows of what came after the present journal took its place, where the new one names it.
    fn add_later(&self, places: &[Place], out: &mut Vec<Row>) -> Result<(), AllocError>
        ensures { OnOk result (out.new.items ≡ out.old.items
            ++ later self.now.since self.now.from self.now.until places.now) }
    {
        for place in places {
            if self.from < place.old && place.old <= self.until {
                out.push(Row {
                    lasting: self.since + u64::from(place.old - self.from),
                    present: place.new,
                })?;
            }
        }
        Ok(())
    }

    /// The names, where the present journal is replaced by one of the length `until`, in which the renaming tells what
    /// stands for what; none where the lasting journal gets within 2^33 of 2^64.
    pub(crate) fn moved(
        &self,
        alloc: Global,
        renaming: &Renaming,
        until: u32,
    ) -> Result<Names, NotMoved>
        ensures ok { IfOk result (λ names. names ≡ moved_names self.now renaming.now until) }
        ensures err { IfErr result (λ why. IsUnmoved self.now why) }
    {
        let since = self.since + u64::from(self.until - self.from);
        if since > MOST_LASTING {
            return Err(NotMoved::NoMoreNames);
        }
        let tasks = moved_tasks(alloc, &self.tasks, renaming)?;
        let mut places = moved_rows(alloc, &self.places, renaming)?;
        self.add_later(renaming.places(), &mut places)?;
        Ok(Names {
            tasks,
            places,
            made: self.made,
            since,
            from: until,
            until,
        })
    }
}
