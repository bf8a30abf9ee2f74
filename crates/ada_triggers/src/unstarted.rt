//! Tasks that were made and never started, and aren't terminated, in a pass that begins behind others.

ghost use Rattle.std.specs.Prelude.{◌≡◌, []};
ghost use Rattle.ada_events.specs.Lawful.{IsLawful};
ghost use Rattle.ada_events.specs.Tasks.{task_count};
ghost use Rattle.ada_triggers.specs.Bounds.{IsStartBound};
ghost use Rattle.ada_agenda.specs.Keeping.{Puts};
ghost use Rattle.ada_triggers.specs.internal.Keys as keys;
ghost use Rattle.ada_triggers.specs.internal.Keys.{OfFirst, AsUnstarted};

use ada_agenda::Agenda;
use ada_agenda::keeping::put_if;
use ada_events::TaskNo;
use ada_step_laws::Row;
use ada_view::View;
use std::marker::Model;

/// The number of a task below which each task, but the main program, was started, or is terminated (9.3). Contracts see
/// it as that number.
#[derive(Clone, Copy)]
pub struct FirstUnstarted(u16);

impl Model for FirstUnstarted {
    ghost use Rattle.std.specs.Prelude.{ℕ};

    ghost Value = { ℕ };

    ghost view = { λ first. first.0 };

    ghost inverse = { λ number. record { 0 = number } };
}

impl FirstUnstarted {
    /// The first task that may be made: in the empty journal there is the main program alone.
    #[tactic(auto, using(crate::proofs::Starts::main_alone))]
    pub fn new() -> Self
        ensures first { result ≡ 1 }
        ensures bound { IsStartBound [] result }
    {
        FirstUnstarted(1)
    }

    // The number.
    fn number(self) -> u16
        ensures { result ≡ self }
    {
        self.0
    }

    /// Goes past the tasks that were started since, or are terminated.
    pub fn advance(&mut self, view: &View)
        requires { IsStartBound view.now self.old }
        ensures { IsStartBound view.now self.new }
    {
        *self = FirstUnstarted(first_unstarted(view, self.number()));
    }
}

// The first task from a number on that no start names, and that isn't terminated.
#[tactic(auto, using(crate::proofs::Starts::bound_past))]
fn first_unstarted(view: &View, from: u16) -> u16
    requires { IsStartBound view.now from }
    ensures { IsStartBound view.now result }
{
    let tasks = view.tables().tasks();
    let mut number = from;
    while number < tasks && !may_be_abandoned(view, TaskNo(number)) {
        number += 1;
    }
    number
}

// Whether the task was never started, and isn't terminated: no other goes without having run (9.3).
fn may_be_abandoned(view: &View, task: TaskNo) -> bool
    ensures { result ≡ keys.may_be_abandoned view.now task.0 }
{
    let stage = view.record(task).stage;
    !stage.named && !stage.terminated
}

// Puts a task that was made and never started, unless it is terminated, into the row of those that go.
fn put_unstarted(agenda: &mut Agenda, view: &View, task: TaskNo)
    ensures { Puts agenda.old agenda.new (AsUnstarted view.now task.0) }
{
    let waits = may_be_abandoned(view, task);
    put_if(agenda, Row::Terminating, task.0 as usize, waits);
}

// Puts those that were never started, and aren't terminated, of the tasks from a number on, into the row of those that
// go.
fn put_unstarted_from(agenda: &mut Agenda, view: &View, from: u16)
    requires { IsStartBound view.now from }
    ensures put { Puts agenda.old agenda.new
        (OfFirst (AsUnstarted view.now) (task_count view.now)) }
    ensures lawful { IsLawful view.now }
{
    for number in from..view.tables().tasks() {
        put_unstarted(agenda, view, TaskNo(number));
    }
}

/// Puts the tasks that were made and never started, and aren't terminated, into the row of those that go.
pub(crate) fn put_all_unstarted(agenda: &mut Agenda, first: &mut FirstUnstarted, view: &View)
    requires { IsStartBound view.now first.old }
    ensures put { Puts agenda.old agenda.new
        (OfFirst (AsUnstarted view.now) (task_count view.now)) }
    ensures bound { IsStartBound view.now first.new }
    ensures lawful { IsLawful view.now }
{
    first.advance(view);
    put_unstarted_from(agenda, view, first.number());
}
