//! How many tasks and events there ever were, and how many are kept.

ghost use Rattle.std.specs.Prelude.{◌≡◌, List, length};
ghost use Rattle.ada_events.specs.declared.event.Event.{Event as Happening};
ghost use Rattle.ada_events.specs.Tasks.{task_count};
ghost use Rattle.ada_lasting.specs.Following.{Follows, LivesOn};
ghost use Rattle.ada_lasting.specs.Naming.{AreOneToOne};

use crate::LongKernel;

impl LongKernel {
    /// How many tasks were made ever, the main program counted: the number of the next one.
    ///
    /// There is a journal without an end that the kernel follows, of which each clause tells that begins with one; and
    /// no two names lead to the same.
    pub fn tasks(&self) -> u64
        ensures made { (journal : List Happening) → Follows journal self.now
            → result ≡ task_count journal }
        ensures follows { LivesOn self.now }
        ensures one { AreOneToOne self.now.names }
    {
        // It tells that there is such a journal.
        let _ = self.present();
        self.names().made()
    }

    /// How many events there ever were: the position of the latest one.
    pub fn length(&self) -> u64
        ensures { (journal : List Happening) → Follows journal self.now
            → result ≡ length journal }
    {
        self.names().next_position() - 1
    }

    /// How many events the present journal has.
    pub fn kept(&self) -> u32
        ensures { result ≡ length self.now.present }
    {
        self.present().journal().len()
    }

    /// How many tasks the present journal has, at most 256: the main program, all that live, all that are terminated
    /// and weren't given up before it was made shorter last, and helpers, which did in it what tasks did that are gone.
    /// `TooManyTasks` counts these.
    pub fn kept_tasks(&self) -> u16
        ensures { result ≡ task_count self.now.present }
    {
        self.present().tasks()
    }
}
