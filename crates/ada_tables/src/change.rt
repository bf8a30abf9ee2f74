//! How a count of live dependents changes.
ghost use Rattle.std.specs.Prelude.{◌≡◌};
ghost use Rattle.ada_tables.specs.internal.Changes.{changed};

/// What happened to a dependent.
#[derive(Clone, Copy)]
pub(crate) enum Change {
    Added,
    Ended,
}

impl Change {
    // The count afterwards.
    pub(crate) fn of(self, count: u16) -> u16
        ensures { result ≡ changed self count }
    {
        match self {
            Change::Added => count.saturating_add(1),
            Change::Ended => count.saturating_sub(1),
        }
    }
}
