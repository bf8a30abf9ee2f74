//! What holds up two tasks: a call, a wait, a delay, a start or a close of each.

ghost use Rattle.std.specs.Prelude.{◌≡◌, true, false, Some};
ghost use Rattle.std.specs.List.{list_any};
ghost use Rattle.ada_events.specs.declared.names.TaskNo.{TaskNo as Number};
ghost use Rattle.ada_events.specs.Calls.{is_met};
ghost use Rattle.ada_events.specs.Forced.{is_conditional, is_done_activating};
ghost use Rattle.ada_events.specs.Phases.{has_failed};
ghost use Rattle.ada_standing.specs.Holds.{IsSameHold};
ghost use Rattle.ada_standing.specs.Names.{renaming_of};
ghost use Rattle.ada_standing.specs.StandsIn.{IsSameActive};
ghost use Rattle.ada_standing.specs.internal.Suspending.{IsHeldTheSame};
ghost use Rattle.ada_compact.specs.internal.Starting.{IsListedAlike, AreListedAlike};

use crate::comparison::Comparison;
use ada_events::{ChoiceList, DueList, Event, EventTail, Patience, TaskNo};
use ada_view::View;

fn is_conditional(patience: Patience) -> bool
    ensures { result ≡ is_conditional patience }
{
    matches!(patience, Patience::Conditional)
}

// Whether two waits have the same accept alternatives.
fn are_same_choices(old: &ChoiceList, new: &ChoiceList) -> bool
    ensures { result ≡ true → new.now ≡ old.now }
{
    old == new
}

// Whether two waits have the same delay alternatives.
fn are_same_dues(old: &DueList, new: &DueList) -> bool
    ensures { result ≡ true → new.now ≡ old.now }
{
    old == new
}

// Whether two waits have the same last part.
fn is_same_tail(old: &EventTail, new: &EventTail) -> bool
    ensures { result ≡ true → new.now ≡ old.now }
{
    match (old, new) {
        (EventTail::Nothing, EventTail::Nothing) => true,
        (EventTail::Otherwise, EventTail::Otherwise) => true,
        (EventTail::Delays(dues), EventTail::Delays(others)) => are_same_dues(dues, others),
        (EventTail::Terminate(guard), EventTail::Terminate(other)) => guard == other,
        _ => false,
    }
}

// Whether the activation of one of the tasks ended by an exception (9.3).
fn has_failure(view: &View, tasks: &[TaskNo]) -> bool
    ensures { result ≡ list_any (λ (t : Number). has_failed view.now t.0) tasks.now }
{
    tasks.iter().any(|task| view.record(*task).stage.failed)
}

impl Comparison<'_> {
    // Whether a task that may be in its activation is in the one list as in the other.
    fn is_listed_alike(&self, task: TaskNo, old: &[TaskNo], new: &[TaskNo]) -> bool
        ensures { result ≡ true
            → IsListedAlike self.now.old (renaming_of self.now.names.now) old.now new.now task.0 }
    {
        match self.names.task(task) {
            Some(named) => {
                self.old.is_done_activating(task) || named.is_listed(new) == task.is_listed(old)
            }
            None => true,
        }
    }

    // Whether the same tasks of two lists are still in their activation.
    fn are_listed_alike(&self, old: &[TaskNo], new: &[TaskNo]) -> bool
        ensures { result ≡ true
            → AreListedAlike self.now.old (renaming_of self.now.names.now) old.now new.now }
    {
        for number in 0..self.names.tasks() {
            if !self.is_listed_alike(TaskNo(number), old, new) {
                return false;
            }
        }
        true
    }

    // Whether both are calls that hold up alike; in a rendezvous or not is known to be alike.
    #[tactic(auto, unfolding(ada_events::specs::Says::call_in))]
    fn is_same_call(&self, old: &Event, new: &Event, at: u32, to: u32, met: bool) -> bool
        requires met { met ≡ is_met self.now.old at }
        requires alike { is_met self.now.new to ≡ met }
        ensures { result ≡ true → IsSameHold self.now.old self.now.new
            (renaming_of self.now.names.now) at to old.now new.now }
    {
        match (old, new) {
            (
                Event::Called {
                    callee,
                    entry,
                    patience,
                    due,
                    ..
                },
                Event::Called {
                    callee: server,
                    entry: same,
                    patience: other,
                    due: moment,
                    ..
                },
            ) => {
                if !self.is_named(*callee, *server) || entry != same {
                    return false;
                }
                met || is_conditional(*patience) == is_conditional(*other) && due == moment
            }
            _ => false,
        }
    }

    // Whether both are waits that hold up alike.
    #[tactic(auto, unfolding(ada_events::specs::Says::wait_in))]
    fn is_same_wait(&self, old: &Event, new: &Event, at: u32, to: u32) -> bool
        ensures { result ≡ true → IsSameHold self.now.old self.now.new
            (renaming_of self.now.names.now) at to old.now new.now }
    {
        match (old, new) {
            (
                Event::Waiting {
                    pick,
                    choices,
                    tail,
                    ..
                },
                Event::Waiting {
                    pick: other,
                    choices: alternatives,
                    tail: end,
                    ..
                },
            ) => {
                if pick != other || !are_same_choices(choices, alternatives) {
                    return false;
                }
                is_same_tail(tail, end)
            }
            _ => false,
        }
    }

    // Whether both are delays, starts or closes that hold up alike.
    #[tactic(auto, unfolding(ada_events::specs::Says::delay_in, ada_events::specs::Says::start_in, ada_events::specs::Says::closing_in))]
    fn is_same_other_hold(&self, old: &Event, new: &Event, at: u32, to: u32) -> bool
        ensures { result ≡ true → IsSameHold self.now.old self.now.new
            (renaming_of self.now.names.now) at to old.now new.now }
    {
        match (old, new) {
            (Event::Paused { due, .. }, Event::Paused { due: moment, .. }) => due == moment,
            (Event::Closed { block, .. }, Event::Closed { block: other, .. }) => {
                self.is_placed(*block, *other)
            }
            (Event::Started { tasks, .. }, Event::Started { tasks: others, .. }) => {
                has_failure(&self.old, tasks.as_slice())
                    == has_failure(&self.new, others.as_slice())
                    && self.are_listed_alike(tasks.as_slice(), others.as_slice())
            }
            _ => false,
        }
    }

    // Whether two events hold up alike.
    fn is_same_hold(&self, old: &Event, new: &Event, at: u32, to: u32, met: bool) -> bool
        requires met { met ≡ is_met self.now.old at }
        requires alike { is_met self.now.new to ≡ met }
        ensures { result ≡ true → IsSameHold self.now.old self.now.new
            (renaming_of self.now.names.now) at to old.now new.now }
    {
        if self.is_same_call(old, new, at, to, met) {
            return true;
        }
        if self.is_same_wait(old, new, at, to) {
            return true;
        }
        self.is_same_other_hold(old, new, at, to)
    }

    // Whether two tasks that are suspended are held up alike.
    fn is_held_alike(&self, old: TaskNo, new: TaskNo) -> bool
        ensures { result ≡ true → IsHeldTheSame self.now.old self.now.new
            (renaming_of self.now.names.now) old.0 new.0 }
    {
        let held = self.old.record(old).suspension;
        let other = self.new.record(new).suspension;
        if held.at == 0 || other.at == 0 || held.joined != other.joined {
            return false;
        }
        if !self.is_placed(held.at, other.at) {
            return false;
        }
        match (self.old.event(held.at), self.new.event(other.at)) {
            (Some(event), Some(copy)) => {
                self.is_same_hold(event, copy, held.at, other.at, held.joined)
            }
            _ => false,
        }
    }

    // Whether neither of two tasks is suspended.
    fn is_neither_held(&self, old: TaskNo, new: TaskNo) -> bool
        ensures { result ≡ true → IsHeldTheSame self.now.old self.now.new
            (renaming_of self.now.names.now) old.0 new.0 }
    {
        self.old.record(old).suspension.at == 0 && self.new.record(new).suspension.at == 0
    }

    /// Whether a task stands for another one that hasn't ended: it is started, elaborated and abnormal or not, and held
    /// up alike.
    pub(crate) fn is_same_active(&self, old: TaskNo, new: TaskNo) -> bool
        ensures { result ≡ true → IsSameActive self.now.old self.now.new
            (renaming_of self.now.names.now) old.0 new.0 }
    {
        let stage = self.old.record(old).stage;
        let other = self.new.record(new).stage;
        if stage.started != other.started || stage.elaborated != other.elaborated {
            return false;
        }
        if stage.abnormal != other.abnormal {
            return false;
        }
        self.is_neither_held(old, new) || self.is_held_alike(old, new)
    }
}
