//! What a line that shows an attribute asks of a reader of the board (9.9).
ghost use Rattle.std.specs.Prelude.{◌≡◌, Some, Err, IsOk, IfOk, IfErr};
ghost use Rattle.ada_events.specs.Attributes.{own_count};
ghost use Rattle.ada_events.specs.Slots.{slot_of};
ghost use Rattle.ada_replay.specs.Play.{shown as shown_of};
ghost use Rattle.ada_hall.specs.Asking.{Asks};

use crate::Session;
use ada_board::Mark;
use ada_events::{Entry, Refusal, TaskNo};
use ada_kernel::Kernel;
use ada_replay::shows::shown;
use ada_script::{Names, Statement};

/// What is read of a board.
#[derive(Clone, Copy, Debug, PartialEq, Eq)]
pub enum Asking {
    /// CALLABLE of a task.
    Callable(TaskNo),
    /// TERMINATED of a task.
    Terminated(TaskNo),
    /// COUNT of the entry at a slot.
    Count(u16),
}

/// What is to be read, and a mark of what was published last, for the reader to learn before.
#[derive(Drop)]
pub struct Asked<J: Session> {
    pub what: Asking,
    pub mark: Mark<J>,
}

// The slot of an entry of which a task may ask for COUNT.
#[tactic(auto, using(crate::proofs::Slots::counted_entries_have_slots))]
fn counted_slot(kernel: &Kernel, by: TaskNo, entry: Entry) -> u16
    requires { IsOk (own_count kernel.now by.0 entry) }
    ensures { slot_of kernel.now by.0 entry ≡ Some result }
{
    match kernel.slot(by, entry) {
        Some(slot) => slot,
        None => unreachable!(),
    }
}

/// What a statement asks, or the cause for which its attribute isn't shown.
pub fn asking_of(kernel: &Kernel, names: &Names, statement: &Statement) -> Result<Asking, Refusal>
    ensures ok { IfOk result (λ asking. Asks names.now kernel.now statement.now asking) }
    ensures err { IfErr result (λ cause.
        shown_of names.now kernel.now statement.now ≡ Err cause) }
{
    shown(kernel, names, statement)?;
    match statement {
        Statement::ShowCallable { task, .. } => Ok(Asking::Callable(names.task(task))),
        Statement::ShowTerminated { task, .. } => Ok(Asking::Terminated(names.task(task))),
        Statement::ShowCount { by, entry } => {
            let slot = counted_slot(kernel, names.task(by), names.entry(by, entry));
            Ok(Asking::Count(slot))
        }
        _ => Err(Refusal::UnknownTask),
    }
}
