//! The rows of abnormal tasks and of entry calls: what halts, and what fails.

ghost use Rattle.std.specs.Prelude.{◌≡◌, not, ◌&&◌, ◌||◌, Some, option_and_then};
ghost use Rattle.std.specs.Bool.{then_some};
ghost use Rattle.ada_events.specs.Calls.{is_pending, is_met};
ghost use Rattle.ada_events.specs.Forced as forced;
ghost use Rattle.ada_events.specs.Says.{held_in};
ghost use Rattle.ada_events.specs.Phases.{has_ended, is_abnormal};
ghost use Rattle.ada_events.specs.Search.{event_at};
ghost use Rattle.ada_events.specs.declared.event.Event.TheVariants as step;
ghost use Rattle.ada_step_laws.specs.Rows.{step_at};
ghost use Rattle.ada_step_laws.specs.declared.row.Row.TheVariants as row;
ghost use Rattle.ada_step_laws.specs.Kinds.{is_immediate_call};
ghost use Rattle.ada_view.specs.internal.Deciding.{is_to_halt_by, is_uncallable_by as lost, is_queued_by as queued};

use crate::view::View;
use ada_events::{Event, Patience, TaskNo, is_due};
use ada_records::Record;

// Whether the task of this record is to be halted.
fn is_to_halt(kept: &Record) -> bool
    ensures { result ≡ is_to_halt_by kept.now }
{
    let meets = kept.suspension.at != 0 && kept.suspension.joined;
    kept.stage.abnormal && !kept.has_ended() && !meets
}

// Whether no call to the task of this record can be served any more.
fn is_uncallable_by(kept: &Record) -> bool
    ensures { result ≡ lost kept.now }
{
    kept.has_ended() || kept.stage.abnormal
}

// Whether the task of this record is suspended at the position, and no rendezvous began with it.
fn is_queued_by(kept: &Record, at: u32) -> bool
    ensures { result ≡ queued kept.now at }
{
    kept.suspension.at == at && !kept.suspension.joined
}

// Whether the call is given up at once where it isn't served at once (9.7.2).
fn is_conditional(patience: Patience) -> bool
    ensures { result ≡ forced.is_conditional patience }
{
    matches!(patience, Patience::Conditional)
}

impl<'a> View<'a> {
    /// Whether the task is halted (9.10): it is abnormal, hasn't ended, and isn't the caller of a rendezvous.
    #[tactic(auto, using(crate::proofs::Deciding::halts_told))]
    pub fn halts(&self, task: TaskNo) -> bool
        ensures { step_at self.now row.Halting task.0 ≡ then_some result (step.Halted task) }
    {
        is_to_halt(&self.record(task))
    }

    /// Whether no call to the task can be served any more (9.5, 9.10): it has ended, or is abnormal.
    #[tactic(auto, using(crate::proofs::Deciding::lost_told))]
    pub fn is_uncallable(&self, task: TaskNo) -> bool
        ensures { result ≡ (has_ended self.now task.0 || is_abnormal self.now task.0) }
    {
        is_uncallable_by(&self.record(task))
    }

    /// Whether the task is abnormal (9.10).
    pub fn is_abnormal(&self, task: TaskNo) -> bool
        ensures { result ≡ is_abnormal self.now task.0 }
    {
        self.record(task).stage.abnormal
    }

    /// Whether the event is a call that is given up where it isn't served at once (9.7.2, 9.7.3): it is conditional, or
    /// its moment has come.
    #[tactic(auto, unfolding(ada_events::specs::Says::call_in))]
    pub fn is_immediate_call(&self, event: &Event) -> bool
        ensures { result ≡ is_immediate_call self.now event.now }
    {
        match event {
            Event::Called { patience, due, .. } => {
                is_conditional(*patience) || is_due(self.moment(), *due)
            }
            _ => false,
        }
    }

    // Whether the event is a call that fails.
    #[tactic(auto, unfolding(ada_events::specs::Forced::is_to_fail, ada_events::specs::Calls::is_open_at, ada_events::specs::Says::call_in, ada_events::specs::Says::held_in))]
    fn is_to_fail(&self, at: u32, event: &Event) -> bool
        requires { event_at self.now at ≡ Some event.now }
        ensures { result ≡ forced.is_to_fail self.now at event.now }
    {
        match event {
            Event::Called { by, callee, .. } => {
                let pending = self.is_pending(at, *by);
                self.is_uncallable(*callee) && pending
            }
            _ => false,
        }
    }

    /// Whether there is an open call at the position that fails (9.5, 9.7.2, 9.7.3, 9.10): the task called is
    /// completed, terminated or abnormal.
    #[tactic(auto, unfolding(ada_step_laws::specs::Rows::step_at))]
    pub fn fails(&self, at: u32) -> bool
        ensures { step_at self.now row.Failing at ≡ then_some result (step.Failed at) }
    {
        match self.event(at) {
            Some(event) => self.is_to_fail(at, event),
            None => false,
        }
    }

    // Whether a call is queued: it is open, and no rendezvous began with it.
    fn is_queued(&self, at: u32, by: TaskNo) -> bool
        requires { option_and_then held_in (event_at self.now at) ≡ Some by.0 }
        ensures { result ≡ (is_pending self.now at by.0 && not (is_met self.now at)) }
    {
        let kept = self.record(by);
        is_queued_by(&kept, at)
    }

    // Whether the event is a call that is cancelled.
    #[tactic(auto, unfolding(ada_events::specs::Forced::is_to_cancel, ada_events::specs::Calls::is_queued_at, ada_events::specs::Calls::is_open_at, ada_events::specs::Says::call_in, ada_events::specs::Says::held_in))]
    fn is_to_cancel(&self, at: u32, event: &Event) -> bool
        requires { event_at self.now at ≡ Some event.now }
        ensures { result ≡ forced.is_to_cancel self.now at event.now }
    {
        match event {
            Event::Called {
                by,
                patience,
                due,
                ..
            } => {
                let queued = self.is_queued(at, *by);
                (is_conditional(*patience) || is_due(self.moment(), *due)) && queued
            }
            _ => false,
        }
    }

    /// Whether there is a queued call at the position that is cancelled (9.7.2, 9.7.3): it is conditional, or its
    /// moment has come.
    #[tactic(auto, unfolding(ada_step_laws::specs::Rows::step_at))]
    pub fn cancels(&self, at: u32) -> bool
        ensures { step_at self.now row.Cancelling at ≡ then_some result (step.Cancelled at) }
    {
        match self.event(at) {
            Some(event) => self.is_to_cancel(at, event),
            None => false,
        }
    }
}
