//! Lasting names that are given up.

ghost use Rattle.std.specs.Prelude.{◌≡◌};
ghost use Rattle.ada_lasting.specs.internal.Moving.{without_task};

use crate::names::Names;

impl Names {
    /// Gives the name of a task up, if there is one.
    pub(crate) fn forget(&mut self, lasting: u64)
        ensures { self.new ≡ without_task self.old lasting }
    {
        self.tasks.retain(|row| row.lasting != lasting);
    }
}
