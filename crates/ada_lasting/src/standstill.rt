//! What can let a kernel that lives on go on, and from when on.

ghost use Rattle.std.specs.Prelude.{◌≡◌, List};
ghost use Rattle.ada_events.specs.declared.event.Event.{Event as Happening};
ghost use Rattle.ada_events.specs.Tasks.{moment};
ghost use Rattle.ada_waiting.specs.Standstill as standstill;
ghost use Rattle.ada_lasting.specs.Following.{Follows};

use crate::LongKernel;
use ada_waiting::Verdict;

impl LongKernel {
    /// The moment, in milliseconds from the beginning, to which the last tick moved it (9.6).
    pub fn moment(&self) -> i64
        ensures { (journal : List Happening) → Follows journal self.now → result ≡ moment journal }
    {
        self.known();
        self.present().view().moment()
    }

    /// The first moment, in milliseconds, for which any task waits; none if none does (9.6, 9.7.1, 9.7.3).
    pub fn next_due(&self) -> Option<i64>
        ensures { (journal : List Happening) → Follows journal self.now
            → result ≡ standstill.first_due journal }
    {
        self.known();
        ada_waiting::next_due(self.present())
    }

    /// What can let the kernel go on: a task that runs, a tick, or nothing, if it's stuck or has finished.
    pub fn verdict(&self) -> Verdict
        ensures { (journal : List Happening) → Follows journal self.now
            → result ≡ standstill.verdict_of journal }
    {
        self.known();
        ada_waiting::verdict_in(self.present())
    }
}
