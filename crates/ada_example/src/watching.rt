//! A reader looks for the end of a task, without a lock.
ghost use Rattle.std.specs.Prelude.{◌≡◌, true, Some};
ghost use Rattle.ada_board.specs.Answers.{latest, terminated_on};
ghost use Rattle.ada_board.specs.Sights.{Reads};

use ada_board::{BoardReader, Naming};
use ada_events::TaskNo;

/// Whether the board that is read now shows the task as terminated (9.9). The reader's boards never go back, so a
/// thread that asks again and again loses nothing.
pub fn is_gone<J: Naming>(reader: &mut BoardReader<J>, task: TaskNo) -> bool
    ensures reads { Reads reader.old reader.new }
    ensures gone { result ≡ true → terminated_on (latest reader.new.seen) task.0 ≡ Some true }
    ensures seen { terminated_on (latest reader.new.seen) task.0 ≡ Some true → result ≡ true }
{
    reader.terminated(task) == Some(true)
}
