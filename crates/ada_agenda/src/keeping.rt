//! Keeps an agenda up with its journal: puts in what an event adds, for the kinds of events of which no tables are
//! needed to know it. Each call looks at a few words, and takes no memory.

ghost use Rattle.std.specs.Prelude.{◌<◌};
ghost use Rattle.ada_agenda.specs.declared.numbers.TheConstants.{MOST_KEYS};
ghost use Rattle.ada_agenda.specs.Keeping.{Puts, AsKey, When};
ghost use Rattle.ada_agenda.specs.Keeping.{KeepsUpWithStart, KeepsUpWithDelay, KeepsUpWithCreation, KeepsUpWithCall};

use crate::Agenda;
use ada_step_laws::Row;

/// Puts a key, below `MOST_KEYS`, into a row.
#[tactic(auto, using(crate::proofs::Noting::key_put))]
pub fn put(agenda: &mut Agenda, row: Row, key: usize)
    requires { key < MOST_KEYS }
    ensures { Puts agenda.old agenda.new (AsKey row key) }
{
    agenda.insert(row, key);
}

/// Puts a key, below `MOST_KEYS`, into a row, if that is so.
#[tactic(auto, using(crate::proofs::Noting::so_put, crate::proofs::Noting::not_put))]
pub fn put_if(agenda: &mut Agenda, row: Row, key: usize, so: bool)
    requires { key < MOST_KEYS }
    ensures { Puts agenda.old agenda.new (When so (AsKey row key)) }
{
    if so {
        put(agenda, row, key);
    }
}

/// Notes that an activation starts at a position (9.3): that it ends may be forced.
#[tactic(auto, using(crate::proofs::Noting::start_noted))]
pub fn put_start_keys(agenda: &mut Agenda, at: u32)
    requires { at < MOST_KEYS }
    ensures { KeepsUpWithStart at agenda.old agenda.new }
{
    put(agenda, Row::Activating, at as usize);
}

/// Notes that a task is delayed at a position (9.6): that it wakes may be forced.
#[tactic(auto, using(crate::proofs::Noting::delay_noted))]
pub fn put_delay_keys(agenda: &mut Agenda, at: u32)
    requires { at < MOST_KEYS }
    ensures { KeepsUpWithDelay at agenda.old agenda.new }
{
    put(agenda, Row::Waking, at as usize);
}

/// Notes that a task is made (9.3), where there were so many before: that it goes may be forced.
#[tactic(auto, using(crate::proofs::Noting::creation_noted))]
pub fn put_creation_keys(agenda: &mut Agenda, tasks: usize)
    requires { tasks < MOST_KEYS }
    ensures { KeepsUpWithCreation tasks agenda.old agenda.new }
{
    put(agenda, Row::Terminating, tasks);
}

/// Notes that an entry is called at a position (9.5), of a task that is suspended at the wait, or at none if that is 0:
/// that the call fails, if the task has ended or is abnormal, that it is cancelled, if it is given up, and that the
/// wait takes it, may be forced.
#[inline(always)]
pub fn put_call_keys(agenda: &mut Agenda, call: u32, wait: u32, lost: bool, immediate: bool)
    requires call { call < MOST_KEYS }
    requires wait { wait < MOST_KEYS }
    ensures { KeepsUpWithCall call wait lost immediate agenda.old agenda.new }
{
    put_if(agenda, Row::Failing, call as usize, lost);
    put_if(agenda, Row::Cancelling, call as usize, immediate);
    put_if(agenda, Row::Meeting, wait as usize, wait != 0);
}
