//! Masters that are put into an agenda: those that a task holds, and those on which it depends (9.4).

ghost use Rattle.std.specs.Prelude.{◌≡◌, ◌<◌, ℕ, false, Some, length};
ghost use Rattle.std.specs.Option.{option_map};
ghost use Rattle.ada_events.specs.Lawful.{IsLawful};
ghost use Rattle.ada_events.specs.Nests.{nest};
ghost use Rattle.ada_events.specs.Phases.{is_completed, is_terminated};
ghost use Rattle.ada_events.specs.Tasks.{task_count};
ghost use Rattle.ada_events.specs.declared.names.TaskNo.{TaskNo as Number};
ghost use Rattle.ada_events.specs.declared.names.Member.TheVariants.{Block as BlockMember};
ghost use Rattle.ada_triggers.specs.internal.Keys as keys;
ghost use Rattle.ada_agenda.specs.declared.numbers.TheConstants.{MOST_KEYS};
ghost use Rattle.ada_agenda.specs.Keeping.{Puts};
ghost use Rattle.ada_triggers.specs.internal.Keys.{OfFirst, AsMember, AsBlock, AsHolder, AsDependent, AsMaster};

use crate::sweeps::put_held;
use ada_agenda::Agenda;
use ada_agenda::keeping::{put, put_if};
use ada_events::{Master, Member, TaskNo};
use ada_step_laws::Row;
use ada_view::View;

// The task that holds a master.
fn holder_of(view: &View, master: Master) -> Option<TaskNo>
    ensures { option_map (λ (t : Number). t.0) result ≡ keys.holder_of view.now master }
{
    match master {
        Master::Body(task) => Some(task),
        Master::Block(block) => view.opener(block),
    }
}

// The task that holds what a task was made under; none for the main program.
fn holder_above(view: &View, task: TaskNo) -> Option<TaskNo>
    requires { task.0 < task_count view.now }
    ensures above { option_map (λ (t : Number). t.0) result ≡ keys.holder_above view.now task.0 }
    ensures lawful { IsLawful view.now }
{
    match view.tables().master(task) {
        Some(master) => holder_of(view, master),
        None => None,
    }
}

// Puts a member that is a block into the row in which blocks quit.
#[tactic(auto, using(crate::proofs::Holding::member_put, crate::proofs::Holding::rendezvous_put))]
fn put_member(agenda: &mut Agenda, member: Member)
    requires { (p : ℕ) → member ≡ BlockMember p → p < MOST_KEYS }
    ensures { Puts agenda.old agenda.new (AsMember (Some member)) }
{
    match member {
        Member::Block(position) => put(agenda, Row::QuittingBlock, position as usize),
        Member::Rendezvous(_) => (),
    }
}

// Puts the member, where there is one, so.
#[tactic(auto, using(crate::proofs::Holding::none_put))]
fn put_layer(agenda: &mut Agenda, member: Option<Member>)
    requires { (p : ℕ) → member ≡ Some (BlockMember p) → p < MOST_KEYS }
    ensures { Puts agenda.old agenda.new (AsMember member) }
{
    if let Some(member) = member {
        put_member(agenda, member);
    }
}

/// Puts the blocks that a task is within into the row in which blocks quit.
pub(crate) fn put_blocks(agenda: &mut Agenda, view: &View, task: TaskNo)
    requires { task.0 < task_count view.now }
    ensures { Puts agenda.old agenda.new
        (OfFirst (AsBlock (nest view.now task.0)) (length (nest view.now task.0))) }
{
    let layers = view.tables().nest(task);
    for place in 0..layers.len() {
        put_layer(agenda, layers.get(place));
    }
}

// Whether the task is completed (9.4).
fn is_completed(view: &View, task: TaskNo) -> bool
    ensures { result ≡ is_completed view.now task.0 }
{
    view.record(task).stage.completed
}

// Whether the task is completed, or was made and never started: no other goes (9.3, 9.4).
fn may_go(view: &View, task: TaskNo) -> bool
    ensures { result ≡ keys.may_go view.now task.0 }
{
    let stage = view.record(task).stage;
    stage.completed || !stage.named && task.0 != 0
}

// Puts what the masters that a task holds may force: that the dependents of each quit, that the task goes, and that it
// leaves the block at whose close it is suspended.
fn put_holder(agenda: &mut Agenda, view: &View, task: TaskNo)
    requires { task.0 < task_count view.now }
    ensures { Puts agenda.old agenda.new (AsHolder view.now task.0) }
{
    let key = task.0 as usize;
    put_if(agenda, Row::Terminating, key, may_go(view, task));
    put_if(agenda, Row::QuittingBody, key, is_completed(view, task));
    put_held(agenda, view, Row::Leaving, task);
    put_blocks(agenda, view, task);
}

// Puts what the masters may force on which a task depends that isn't terminated.
fn put_outward(agenda: &mut Agenda, view: &View, task: TaskNo)
    requires known { task.0 < task_count view.now }
    requires live { is_terminated view.now task.0 ≡ false }
    ensures { Puts agenda.old agenda.new (AsDependent view.now task.0) }
{
    let mut inner = task;
    while let Some(holder) = holder_above(view, inner) {
        put_holder(agenda, view, holder);
        inner = holder;
    }
}

/// Puts what the masters may force on which a task depends, unless it is terminated.
pub(crate) fn put_dependent(agenda: &mut Agenda, view: &View, task: TaskNo)
    ensures { Puts agenda.old agenda.new (AsDependent view.now task.0) }
{
    if task.0 >= view.tables().tasks() {
        return;
    }
    if !view.record(task).stage.terminated {
        put_outward(agenda, view, task);
    }
}

/// Puts what a master may force, and what those may on which the task depends that holds it.
pub(crate) fn put_master(agenda: &mut Agenda, view: &View, master: Master)
    requires { (task : ℕ) → keys.holder_of view.now master ≡ Some task
        → task < task_count view.now }
    ensures { Puts agenda.old agenda.new (AsMaster view.now master) }
{
    if let Some(holder) = holder_of(view, master) {
        put_holder(agenda, view, holder);
        put_dependent(agenda, view, holder);
    }
}
