//! The step that a row of the forced steps gives at a key, and the key that gives none any more.

ghost use Rattle.std.specs.Prelude.{◌<◌};
ghost use Rattle.ada_kernel.specs.internal.Stepping.{HasDropped, MayTake, Takes};
ghost use Rattle.ada_agenda.specs.declared.numbers.TheConstants.{MOST_KEYS};

use crate::index::Index;
use ada_events::Journal;
use ada_step_laws::Row;

impl Index {
    // Drops a key at which its row gives nothing any more.
    #[inline(always)]
    pub(crate) fn drop_key(&mut self, row: Row, key: u32)
        requires { key < MOST_KEYS }
        ensures { HasDropped row key self.old self.new }
    {
        self.agenda.remove(row, key as usize);
    }

    // Takes the step that a row gives at a key, if it gives one, and says so.
    #[inline(never)]
    fn take(&mut self, journal: &mut Journal, row: Row, key: u32) -> bool
        requires { MayTake self.old journal.old row key }
        ensures { Takes self.old journal.old row key result self.new journal.new }
    {
        match row {
            Row::Halting => self.halt(journal, key),
            Row::Failing => self.fail(journal, key),
            Row::Meeting => self.meet(journal, key),
            Row::Cancelling => self.cancel(journal, key),
            Row::Passing => self.pass(journal, key),
            Row::Waking => self.wake(journal, key),
            Row::Activating => self.activate(journal, key),
            Row::Terminating => self.terminate(journal, key),
            Row::QuittingBody => self.quit_body(journal, key),
            Row::QuittingBlock => self.quit_block(journal, key),
            Row::Leaving => self.leave(journal, key),
        }
    }

    /// Takes the step that a row gives at a key, if it gives one, and says so. The key is the agenda's first.
    // Inlined, so that the beginning of a rendezvous, which is mostly what is forced, is one call away.
    #[inline(always)]
    pub(crate) fn take_first(&mut self, journal: &mut Journal, row: Row, key: usize) -> bool
        requires key { key < MOST_KEYS }
        requires first { MayTake self.old journal.old row key }
        ensures { Takes self.old journal.old row key result self.new journal.new }
    {
        match row {
            Row::Meeting => self.meet(journal, key as u32),
            _ => self.take(journal, row, key as u32),
        }
    }
}
