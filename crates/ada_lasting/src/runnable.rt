//! Which tasks of a kernel that lives on began to run by the last request, by numbers that last.

ghost use Rattle.std.specs.Prelude.{◌≡◌, List};
ghost use Rattle.ada_events.specs.declared.event.Event.{Event as Happening};
ghost use Rattle.ada_lasting.specs.Following.{Follows};
ghost use Rattle.ada_lasting.specs.LastRequest.{first_began};

use crate::LongKernel;

impl LongKernel {
    /// The first task of a number or more that runs and didn't before the last accepted request (9.3 to 9.7); none if
    /// there is no such task. None after a release, and none once the journal was made shorter since that request.
    pub fn first_runnable(&self, from: u64) -> Option<u64>
        ensures { (journal : List Happening) → Follows journal self.now
            → result ≡ first_began journal self.now from }
    {
        self.known();
        if self.group().is_empty() {
            return None;
        }
        let names = self.names();
        let kernel = self.present();
        let there = names.first_there(from, kernel.tasks());
        names.lasting_task(ada_waiting::first_runnable(kernel, there)?)
    }
}
