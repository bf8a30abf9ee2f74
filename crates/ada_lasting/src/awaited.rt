//! Which tasks a task of a kernel that lives on waits for, by numbers that last.

ghost use Rattle.std.specs.Prelude.{◌≡◌, ℕ, List};
ghost use Rattle.std.specs.Option.{option_and_then};
ghost use Rattle.ada_events.specs.declared.event.Event.{Event as Happening};
ghost use Rattle.ada_waiting.specs.Awaited as awaited;
ghost use Rattle.ada_lasting.specs.Following.{Follows};
ghost use Rattle.ada_lasting.specs.Naming.{found};
ghost use Rattle.ada_lasting.specs.internal.Awaiting.{first_there};

use crate::LongKernel;
use crate::names::Names;
use crate::rows::first_name;
use ada_events::TaskNo;

impl Names {
    // The task of the present journal from whose number on tasks stand for those from a lasting number on.
    pub(crate) fn first_there(&self, from: u64, tasks: u16) -> TaskNo
        ensures { result.0 ≡ first_there self.now.tasks from tasks }
    {
        let first = match first_name(&self.tasks, from) {
            Some(name) => self.task(name),
            None => None,
        };
        match first {
            Some(task) => task,
            None => TaskNo(tasks),
        }
    }
}

impl LongKernel {
    /// The first task of a number or more for which a task waits (9.3, 9.4, 9.5); none if there is no such task, or if
    /// the one that is asked about was never made or given up.
    pub fn first_awaited(&self, task: u64, from: u64) -> Option<u64>
        ensures { (journal : List Happening) → Follows journal self.now → result
            ≡ option_and_then (λ (v : ℕ). awaited.first_awaited journal task from)
            (found self.now.names.tasks task) }
    {
        self.known();
        let names = self.names();
        let kernel = self.present();
        let asked = names.task(task)?;
        let there = names.first_there(from, kernel.tasks());
        names.lasting_task(ada_waiting::first_awaited(kernel, asked, there)?)
    }
}
