//! The next moment for which a task is suspended. A tick that doesn't reach it makes nothing due.

ghost use Rattle.std.specs.Prelude.{◌≡◌, None, []};
ghost use Rattle.ada_events.specs.Waits as waits;
ghost use Rattle.ada_triggers.specs.Bounds.{IsDueBound};

use ada_events::waits::{earlier, is_due};
use std::marker::Model;

/// A moment, in milliseconds, that bounds those after the journal's own for which a task is suspended (9.6), or none
/// where no task is suspended until such a moment. Contracts see it as an optional moment.
#[derive(Clone, Copy)]
pub struct NextDue(Option<i64>);

impl Model for NextDue {
    ghost use Rattle.std.specs.Prelude.{Option, ℤ};

    ghost Value = { Option ℤ };

    ghost view = { λ next. next.0 };

    ghost inverse = { λ moment. record { 0 = moment } };
}

impl NextDue {
    /// No moment: nobody is suspended in the empty journal.
    #[tactic(auto, using(crate::proofs::Bounds::nobody_waits))]
    pub fn new() -> Self
        ensures none { result ≡ None }
        ensures bound { IsDueBound [] result }
    {
        NextDue(None)
    }

    // Whether there is such a moment, and it has come at `now`.
    pub(crate) fn is_reached_by(self, now: i64) -> bool
        ensures { result ≡ waits.is_due now self }
    {
        is_due(now, self.0)
    }

    /// The earlier of this moment and another, where there are two.
    pub fn with(self, due: Option<i64>) -> Self
        ensures { result ≡ waits.earlier self due }
    {
        NextDue(earlier(self.0, due))
    }
}
