//! The rows of terminations: what leaves its block, and what terminates together.

ghost use Rattle.std.specs.Prelude.{◌≡◌, ◌<◌, ◌&&◌, ◌||◌, not, true, Some};
ghost use Rattle.std.specs.Bool.{then_some};
ghost use Rattle.ada_events.specs.Forced as forced;
ghost use Rattle.ada_events.specs.Lawful.{IsLawful};
ghost use Rattle.ada_events.specs.Nests.{nest};
ghost use Rattle.ada_events.specs.Phases.{is_completed, is_terminated};
ghost use Rattle.ada_events.specs.Says.{Creation, creation_in};
ghost use Rattle.ada_events.specs.Search.{event_at, is_some_and};
ghost use Rattle.ada_events.specs.Termination as ending;
ghost use Rattle.ada_events.specs.declared.event.Event.TheVariants as step;
ghost use Rattle.ada_events.specs.declared.names.Master.TheVariants.{Body as BodyMaster, Block as BlockMaster};
ghost use Rattle.ada_step_laws.specs.Rows.{at_event, step_at};
ghost use Rattle.ada_step_laws.specs.declared.row.Row.TheVariants as row;
ghost use Rattle.ada_events.specs.Tasks.{task_count};
ghost use Rattle.ada_view.specs.internal.Ending.{IsOfOpener, closes_at};
ghost use Rattle.ada_view.specs.Views.{IsHeldBySome};
ghost use Rattle.ada_events.specs.Holders.{has_block};

use crate::view::View;
use ada_events::{Event, Master, TaskNo};
use ada_records::Record;

impl<'a> View<'a> {
    // Whether every dependent of a master is terminated (9.4). The master is a task's body, or a block that isn't left.
    fn are_all_terminated(&self, master: Master) -> bool
        requires { IsHeldBySome self.now master }
        ensures { result ≡ ending.all_terminated self.now master }
    {
        self.tables().live_dependents(master) == 0
    }

    /// Whether a dependent of a master isn't terminated (9.4). The master is a task's body, or a block that a task is
    /// within.
    pub fn has_live_dependents(&self, master: Master) -> bool
        requires { IsHeldBySome self.now master }
        ensures { result ≡ not (ending.all_terminated self.now master) }
    {
        !self.are_all_terminated(master)
    }

    // Whether the event is a close of a block that is left.
    #[tactic(auto, unfolding(ada_events::specs::Forced::is_to_leave, ada_events::specs::Says::closing_in, ada_events::specs::Says::held_in))]
    fn is_to_leave(&self, at: u32, event: &Event) -> bool
        requires { event_at self.now at ≡ Some event.now }
        ensures { then_some result (step.Left at) ≡ at_event self.now row.Leaving at event.now }
    {
        match event {
            Event::Closed { by, block } => {
                self.is_pending(at, *by) && self.are_all_terminated(Master::Block(*block))
            }
            _ => false,
        }
    }

    /// Whether there is a close at the position whose block is left (9.4): every dependent of the block is terminated.
    #[tactic(auto, unfolding(ada_step_laws::specs::Rows::step_at))]
    pub fn leaves(&self, at: u32) -> bool
        ensures { step_at self.now row.Leaving at ≡ then_some result (step.Left at) }
    {
        match self.event(at) {
            Some(event) => self.is_to_leave(at, event),
            None => false,
        }
    }

    // Whether all that depend on a master are to terminate together (9.4): it is complete, some of them live, and each
    // is terminated or ready to.
    fn is_to_quit(&self, master: Master, complete: bool) -> bool
        requires held { IsHeldBySome self.now master }
        requires complete { complete ≡ ending.is_complete self.now master }
        ensures { result ≡ forced.is_to_quit self.now master }
    {
        if !complete {
            return false;
        }
        let tables = self.tables();
        let live = tables.live_dependents(master);
        if live == 0 {
            return false;
        }
        live == tables.ready_dependents(master)
    }

    /// Whether all that depend on the task's body terminate together (9.4).
    pub fn quits_body(&self, task: TaskNo) -> bool
        ensures { step_at self.now row.QuittingBody task.0
            ≡ then_some result (step.Quit (BodyMaster task)) }
    {
        if task.0 >= self.tables().tasks() {
            return false;
        }
        self.is_to_quit(Master::Body(task), self.record(task).stage.completed)
    }

    // Whether the task is within the block.
    fn is_within(&self, by: TaskNo, block: u32) -> bool
        requires { by.0 < task_count self.now }
        ensures { result ≡ has_block block (nest self.now by.0) }
    {
        self.tables().nest(by).has_block(block)
    }

    // Whether a close of the block stands at the position.
    #[tactic(auto, unfolding(ada_events::specs::Says::closing_in))]
    fn is_closed_at(&self, block: u32, at: u32) -> bool
        ensures closes { result ≡ closes_at self.now block at }
        ensures lawful { IsLawful self.now }
    {
        match self.event(at) {
            Some(Event::Closed { block: closed, .. }) => *closed == block,
            _ => false,
        }
    }

    // Whether the block that the task of this record is within is complete (9.4): the task has ended, or is suspended
    // at a close of the block.
    fn is_complete_block(&self, block: u32, kept: &Record) -> bool
        requires { IsOfOpener self.now block kept.now }
        ensures { result ≡ ending.is_complete self.now (BlockMaster block) }
    {
        let closed = self.is_closed_at(block, kept.suspension.at);
        kept.has_ended() || closed
    }

    // Whether the event opened a block of which all dependents are to terminate together.
    #[tactic(auto, unfolding(ada_events::specs::Says::opening_in))]
    fn is_block_to_quit(&self, at: u32, event: &Event) -> bool
        requires { event_at self.now at ≡ Some event.now }
        ensures { then_some result (step.Quit (BlockMaster at))
            ≡ at_event self.now row.QuittingBlock at event.now }
    {
        match event {
            Event::Opened { by, .. } => {
                let kept = self.record(*by);
                if !self.is_within(*by, at) {
                    return false;
                }
                let complete = self.is_complete_block(at, &kept);
                self.is_to_quit(Master::Block(at), complete)
            }
            _ => false,
        }
    }

    /// Whether a block was opened at the position of which all dependents terminate together (9.4).
    #[tactic(auto, unfolding(ada_step_laws::specs::Rows::step_at))]
    pub fn quits_block(&self, at: u32) -> bool
        ensures { step_at self.now row.QuittingBlock at
            ≡ then_some result (step.Quit (BlockMaster at)) }
    {
        match self.event(at) {
            Some(event) => self.is_block_to_quit(at, event),
            None => false,
        }
    }

    // Whether the event opened a block that is complete: its task left it, or is within it and has closed it or ended.
    fn is_complete_at(&self, block: u32, event: &Event) -> bool
        requires lawful { IsLawful self.now }
        requires opened { event_at self.now block ≡ Some event.now }
        ensures { result ≡ ending.is_complete self.now (BlockMaster block) }
    {
        match event {
            Event::Opened { by, .. } => {
                if !self.is_within(*by, block) {
                    return true;
                }
                self.is_complete_block(block, &self.record(*by))
            }
            _ => false,
        }
    }

    /// Whether a master is complete (9.4): the task of a body is completed, a block is closed or its task has ended.
    pub fn is_complete(&self, master: Master) -> bool
        ensures { result ≡ ending.is_complete self.now master }
    {
        match master {
            Master::Body(task) => self.record(task).stage.completed,
            Master::Block(block) => match self.event(block) {
                Some(event) => self.is_complete_at(block, event),
                None => false,
            },
        }
    }

    // Whether what the event made a task within is complete, or its maker is terminated.
    #[tactic(auto, unfolding(ada_events::specs::Says::creation_in))]
    fn is_orphaned(&self, event: &Event) -> bool
        ensures { result ≡ is_some_and (creation_in event.now) (λ (c : Creation).
            ending.is_complete self.now c.under || is_terminated self.now c.by) }
    {
        match event {
            Event::Created { by, under, .. } => {
                let gone = self.record(*by).stage.terminated;
                self.is_complete(*under) || gone
            }
            _ => false,
        }
    }

    /// Whether the task will never be activated (9.3, 9.4).
    #[tactic(auto, unfolding(ada_events::specs::Termination::is_abandoned))]
    pub fn is_abandoned(&self, task: TaskNo) -> bool
        ensures { result ≡ ending.is_abandoned self.now task.0 }
    {
        let named = self.record(task).stage.named;
        match self.creation(task) {
            Some(event) => self.is_orphaned(event) && !named,
            None => false,
        }
    }

    // Whether the task is completed and its dependents are terminated (9.4).
    fn is_left_alone(&self, task: TaskNo) -> bool
        requires { task.0 < task_count self.now }
        ensures { result ≡ (is_completed self.now task.0
            && ending.all_terminated self.now (BodyMaster task)) }
    {
        self.record(task).stage.completed && self.are_all_terminated(Master::Body(task))
    }

    // Whether a task that is there is to terminate by itself.
    fn is_to_go(&self, task: TaskNo) -> bool
        requires { task.0 < task_count self.now }
        ensures { result ≡ forced.is_to_go self.now task.0 }
    {
        if self.record(task).stage.terminated {
            return false;
        }
        self.is_left_alone(task) || self.is_abandoned(task)
    }

    /// Whether the task terminates by itself (9.3, 9.4): it is completed and its dependents are terminated, or it will
    /// never be activated.
    pub fn terminates(&self, task: TaskNo) -> bool
        ensures { step_at self.now row.Terminating task.0 ≡ then_some result (step.Gone task) }
    {
        if task.0 >= self.tables().tasks() {
            return false;
        }
        self.is_to_go(task)
    }
}
