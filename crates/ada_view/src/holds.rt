//! The rows of delays and of activations: what wakes, and what ends its activation.

ghost use Rattle.std.specs.Prelude.{◌≡◌, Some};
ghost use Rattle.std.specs.Bool.{then_some};
ghost use Rattle.std.specs.List.{list_all, list_any};
ghost use Rattle.std.specs.Option.{option_map};
ghost use Rattle.ada_events.specs.Forced.{is_done_activating};
ghost use Rattle.ada_events.specs.Phases.{has_failed};
ghost use Rattle.ada_events.specs.Search.{event_at};
ghost use Rattle.ada_events.specs.declared.event.Event.TheVariants as step;
ghost use Rattle.ada_events.specs.declared.names.TaskNo.{TaskNo as Number};
ghost use Rattle.ada_step_laws.specs.Rows.{at_event, step_at};
ghost use Rattle.ada_step_laws.specs.declared.row.Row.TheVariants as row;
ghost use Rattle.ada_view.specs.internal.Deciding.{is_done_by as done};

use crate::view::View;
use ada_events::{Event, TaskNo};
use ada_records::Record;

// Whether the task of this record has ended its activation, or has ended.
fn is_done_by(kept: &Record) -> bool
    ensures { result ≡ done kept.now }
{
    kept.stage.elaborated || kept.has_ended()
}

impl<'a> View<'a> {
    // Whether the event is a delay that ends.
    #[tactic(auto, unfolding(ada_events::specs::Forced::is_to_wake, ada_events::specs::Says::delay_in, ada_events::specs::Says::held_in))]
    fn is_to_wake(&self, at: u32, event: &Event) -> bool
        requires { event_at self.now at ≡ Some event.now }
        ensures { then_some result (step.Woken at) ≡ at_event self.now row.Waking at event.now }
    {
        match event {
            Event::Paused { by, due } => {
                let pending = self.is_pending(at, *by);
                *due <= self.moment() && pending
            }
            _ => false,
        }
    }

    /// Whether there is a delay at the position that ends (9.6): its moment has come.
    #[tactic(auto, unfolding(ada_step_laws::specs::Rows::step_at))]
    pub fn wakes(&self, at: u32) -> bool
        ensures { step_at self.now row.Waking at ≡ then_some result (step.Woken at) }
    {
        match self.event(at) {
            Some(event) => self.is_to_wake(at, event),
            None => false,
        }
    }

    /// Whether the task has ended its activation (9.3), or has ended: who activates it no longer waits for it.
    #[tactic(auto, using(crate::proofs::Deciding::done_told))]
    pub fn is_done_activating(&self, task: TaskNo) -> bool
        ensures { result ≡ is_done_activating self.now task }
    {
        is_done_by(&self.record(task))
    }

    // Whether the task's activation ended by an exception.
    fn has_failed(&self, task: TaskNo) -> bool
        ensures { result ≡ has_failed self.now task.0 }
    {
        self.record(task).stage.failed
    }

    // Whether each of the tasks has ended its activation, or has ended.
    fn are_all_done(&self, tasks: &[TaskNo]) -> bool
        ensures { result ≡ list_all (is_done_activating self.now) tasks.now }
    {
        tasks.iter().all(|task| self.is_done_activating(*task))
    }

    // The same, of which the last is asked first, since tasks mostly come up in the order in which they were started.
    fn are_done(&self, tasks: &[TaskNo]) -> bool
        ensures { result ≡ list_all (is_done_activating self.now) tasks.now }
    {
        match tasks.split_last() {
            Some((last, rest)) => self.is_done_activating(*last) && self.are_all_done(rest),
            None => true,
        }
    }

    // Whether the activation of one of the tasks ended by an exception.
    fn have_failed(&self, tasks: &[TaskNo]) -> bool
        ensures { result ≡ list_any (λ (t : Number). has_failed self.now t.0) tasks.now }
    {
        tasks.iter().any(|task| self.has_failed(*task))
    }

    // How the activation that the event starts ends, if it does.
    #[tactic(auto, unfolding(ada_events::specs::Forced::activated_at, ada_events::specs::Says::start_in, ada_events::specs::Says::held_in))]
    fn activation(&self, at: u32, event: &Event) -> Option<bool>
        requires { event_at self.now at ≡ Some event.now }
        ensures { option_map (step.Activated at) result
            ≡ at_event self.now row.Activating at event.now }
    {
        match event {
            Event::Started { by, tasks } => {
                if self.is_pending(at, *by) && self.are_done(tasks.as_slice()) {
                    Some(!self.have_failed(tasks.as_slice()))
                } else {
                    None
                }
            }
            _ => None,
        }
    }

    /// How the activation that was started at the position ends, if it does (9.3): whether each of its tasks was
    /// activated with no exception.
    #[tactic(auto, unfolding(ada_step_laws::specs::Rows::step_at))]
    pub fn activates(&self, at: u32) -> Option<bool>
        ensures { step_at self.now row.Activating at ≡ option_map (step.Activated at) result }
    {
        match self.event(at) {
            Some(event) => self.activation(at, event),
            None => None,
        }
    }
}
