//! The causes for which the requests of masters are refused: blocks, creations and completion (9.1, 9.4).

ghost use Rattle.std.specs.Prelude.{◌≡◌, ◌<◌, ◌==◌, false, not};
ghost use Rattle.std.specs.List.{list_any};
ghost use Rattle.ada_events.specs.declared.names.TaskNo.{TaskNo as Task};
ghost use Rattle.ada_events.specs.declared.request.Request.TheVariants as asked;
ghost use Rattle.ada_events.specs.Asks as asks;
ghost use Rattle.ada_events.specs.Masters as masters;
ghost use Rattle.ada_events.specs.Nests.{nest, frame};
ghost use Rattle.ada_events.specs.Phases as phases;
ghost use Rattle.ada_events.specs.Refusals as refusals;
ghost use Rattle.ada_events.specs.Tasks.{has_task, task_count};
ghost use Rattle.ada_events.specs.Holders.{holds};

use crate::limits::{has_most_tasks, is_full, passes_most_slots};
use crate::names::{is_elaborated, is_known, is_running};
use crate::nests::{has_most_members, is_within};
use ada_events::{Family, Master, Member, Refusal, TaskNo};
use ada_view::View;

/// The cause for which the opening of a block is refused, if there is one (9.4).
#[tactic(auto, unfolding(ada_events::specs::Refusals::first_cause), using(crate::proofs::Causes::open_causes))]
pub fn refusal_of_open(view: &View, by: TaskNo) -> Option<Refusal>
    ensures { result ≡ refusals.refusal view.now (asked.Open by) }
{
    if !is_known(view, by) {
        return Some(Refusal::UnknownTask);
    }
    if !is_running(view, by) {
        return Some(Refusal::NotRunning);
    }
    if has_most_members(view.nest(by)) {
        return Some(Refusal::TooDeep);
    }
    if is_full(view) {
        return Some(Refusal::JournalFull);
    }
    None
}

// Whether a master is the body of a task that doesn't exist.
fn is_unknown_body(view: &View, master: Master) -> bool
    ensures { result ≡ list_any (λ (t : Task). not (has_task view.now t.0))
        (asks.body_task master) }
{
    master.is_unknown_body(u64::from(view.tables().tasks()))
}

// Whether a task holds a master: its body, or a block that it is within.
fn holds(view: &View, by: TaskNo, master: Master) -> bool
    requires { by.0 < task_count view.now }
    ensures { result ≡ holds by.0 (nest view.now by.0) master }
{
    match master {
        Master::Body(task) => task.0 == by.0,
        Master::Block(block) => view.nest(by).has_block(block),
    }
}

// Whether a master is a task's frame or reached from it.
fn is_reached(view: &View, by: TaskNo, master: Master) -> bool
    requires known { by.0 < task_count view.now }
    requires live { phases.is_terminated view.now by.0 ≡ false }
    ensures { result ≡ masters.reaches view.now (frame view.now by.0) master }
{
    let tables = view.tables();
    holds(view, by, master) || tables.depends_on(by, master)
}

/// The cause for which the creation of a task is refused, if there is one (9.1, 9.4).
#[tactic(auto, unfolding(ada_events::specs::Refusals::first_cause), using(crate::proofs::Causes::create_causes))]
pub fn refusal_of_create(
    view: &View,
    by: TaskNo,
    master: Master,
    families: &[Family],
) -> Option<Refusal>
    ensures { result ≡ refusals.refusal view.now (asked.Create by master families.now) }
{
    if !is_known(view, by) || is_unknown_body(view, master) {
        return Some(Refusal::UnknownTask);
    }
    if !is_running(view, by) {
        return Some(Refusal::NotRunning);
    }
    if !is_reached(view, by, master) {
        return Some(Refusal::NotYourMaster);
    }
    if has_most_tasks(view) {
        return Some(Refusal::TooManyTasks);
    }
    if passes_most_slots(view, families) {
        return Some(Refusal::TooManySlots);
    }
    if is_full(view) {
        return Some(Refusal::JournalFull);
    }
    None
}

/// The cause for which the close of a block is refused, if there is one (9.4).
#[tactic(auto, unfolding(ada_events::specs::Refusals::first_cause), using(crate::proofs::Causes::close_causes))]
pub fn refusal_of_close(view: &View, by: TaskNo) -> Option<Refusal>
    ensures { result ≡ refusals.refusal view.now (asked.Close by) }
{
    if !is_known(view, by) {
        return Some(Refusal::UnknownTask);
    }
    if !is_running(view, by) {
        return Some(Refusal::NotRunning);
    }
    if Member::has_no_block(view.innermost(by)) {
        return Some(Refusal::NoBlock);
    }
    if is_full(view) {
        return Some(Refusal::JournalFull);
    }
    None
}

/// The cause for which a completion is refused, if there is one (9.4).
#[tactic(auto, unfolding(ada_events::specs::Refusals::first_cause), using(crate::proofs::Causes::complete_causes))]
pub fn refusal_of_complete(view: &View, by: TaskNo) -> Option<Refusal>
    ensures { result ≡ refusals.refusal view.now (asked.Complete by) }
{
    if !is_known(view, by) {
        return Some(Refusal::UnknownTask);
    }
    if !is_running(view, by) {
        return Some(Refusal::NotRunning);
    }
    if !is_elaborated(view, by) {
        return Some(Refusal::DuringActivation);
    }
    if is_within(view, by) {
        return Some(Refusal::StillNested);
    }
    if is_full(view) {
        return Some(Refusal::JournalFull);
    }
    None
}
