//! The causes for which a request is refused, each a test, and the first that applies.
ghost use Rattle.std.specs.Prelude.{◌≡◌, ◌<◌, ◌^◌, ◌+◌, ◌&&◌, ◌||◌, ◌==◌, nat_lt, not, false, length, reverse, is_none};
ghost use Rattle.std.specs.List.{list_any};
ghost use Rattle.std.specs.Option.{option_map};
ghost use Rattle.ada_events.specs.declared.names.TaskNo.{TaskNo as Task};
ghost use Rattle.ada_events.specs.declared.names.Choice.{Choice as ChoiceValue};
ghost use Rattle.ada_events.specs.Search.{is_some_and};
ghost use Rattle.ada_events.specs.Says as said;
ghost use Rattle.ada_events.specs.Phases as phases;
ghost use Rattle.ada_events.specs.Asks as asks;
ghost use Rattle.ada_events.specs.Refusals as refusals;
ghost use Rattle.ada_events.specs.Nests as nests;
ghost use Rattle.ada_events.specs.Tasks.{creation_of};

use crate::limits::{
    is_full, is_too_deep, is_too_late, makes_too_many_slots, makes_too_many_tasks, moves_back,
};
use crate::masters::reaches;
use crate::nests::{depth, frame, innermost, is_in_rendezvous, is_in_rendezvous_for};
use crate::phases::{has_start, is_elaborated, is_running};
use crate::tasks::{families, making_of, task_count};
use ada_events::{Choice, Entry, Event, Member, Refusal, Request, Tail, TaskNo};

/// The task that asks; a tick has none.
#[tactic(auto, unfolding(ada_events::specs::Asks::asker))]
pub fn asker(request: &Request) -> Option<TaskNo>
    ensures { option_map (λ (t : Task). t.0) result ≡ asks.asker request.now }
{
    match request {
        Request::Open { by }
        | Request::Create { by, .. }
        | Request::Activate { by, .. }
        | Request::Elaborated { by, .. }
        | Request::Call { by, .. }
        | Request::Wait { by, .. }
        | Request::Delay { by, .. }
        | Request::End { by, .. }
        | Request::Close { by }
        | Request::Complete { by }
        | Request::Abort { by, .. } => Some(*by),
        Request::Tick { .. } => None,
    }
}

#[tactic(auto, unfolding(ada_events::specs::Asks::named_tasks))]
fn names_unknown(count: u64, request: &Request) -> bool
    ensures { result ≡ list_any (λ (t : Task).
        not (nat_lt t.0 count)) (asks.named_tasks request.now) }
{
    match request {
        Request::Create { master, .. } => master.is_unknown_body(count),
        Request::Activate { tasks, .. } | Request::Abort { tasks, .. } => TaskNo::lists_unknown(
            tasks.as_slice(),
            count,
        ),
        Request::Call { callee, .. } => !callee.is_known(count),
        _ => false,
    }
}

fn is_unknown_asker(count: u64, asker: Option<TaskNo>) -> bool
    ensures { result ≡ is_some_and (option_map (λ (t : Task). t.0) asker) (λ t.
        not (nat_lt t count)) }
{
    match asker {
        Some(task) => !task.is_known(count),
        None => false,
    }
}

#[tactic(auto, unfolding(ada_events::specs::Refusals::names_unknown_task))]
fn names_unknown_task(events: &[Event], request: &Request) -> bool
    requires { length events.now < 2 ^ 32 }
    ensures { result ≡ refusals.names_unknown_task (reverse events.now) request.now }
{
    let count = task_count(events);
    is_unknown_asker(count, asker(request)) || names_unknown(count, request)
}

fn is_halted_asker(events: &[Event], asker: Option<TaskNo>) -> bool
    requires { length events.now < 2 ^ 32 }
    ensures { result ≡ is_some_and (option_map (λ (t : Task). t.0) asker) (λ t.
        not (phases.is_running (reverse events.now) t)) }
{
    match asker {
        Some(task) => !is_running(events, task),
        None => false,
    }
}

#[tactic(auto, unfolding(ada_events::specs::Refusals::asker_not_running))]
fn asker_not_running(events: &[Event], request: &Request) -> bool
    requires { length events.now < 2 ^ 32 }
    ensures { result ≡ refusals.asker_not_running (reverse events.now) request.now }
{
    is_halted_asker(events, asker(request))
}

#[tactic(auto, unfolding(ada_events::specs::Refusals::is_during_activation))]
fn is_during_activation(events: &[Event], request: &Request) -> bool
    ensures { result ≡ refusals.is_during_activation (reverse events.now) request.now }
{
    match request {
        Request::Wait { by, .. } | Request::End { by, .. } | Request::Complete { by } =>
            !is_elaborated(events, *by),
        _ => false,
    }
}

#[tactic(auto, unfolding(ada_events::specs::Refusals::is_not_activating))]
fn is_not_activating(events: &[Event], request: &Request) -> bool
    ensures { result ≡ refusals.is_not_activating (reverse events.now) request.now }
{
    match request {
        Request::Elaborated { by, .. } => is_elaborated(events, *by),
        _ => false,
    }
}

#[tactic(auto, unfolding(ada_events::specs::Refusals::is_not_your_master))]
fn is_not_your_master(events: &[Event], request: &Request) -> bool
    requires { length events.now < 2 ^ 32 }
    ensures { result ≡ refusals.is_not_your_master (reverse events.now) request.now }
{
    match request {
        Request::Create { by, master, .. } => !reaches(events, frame(events, *by), *master),
        _ => false,
    }
}

#[tactic(auto, unfolding(ada_events::specs::Refusals::has_empty_list))]
fn has_empty_list(request: &Request) -> bool
    ensures { result ≡ refusals.has_empty_list request.now }
{
    match request {
        Request::Activate { tasks, .. } | Request::Abort { tasks, .. } => tasks.is_empty(),
        Request::Wait {
            tail: Tail::Delays(pauses),
            ..
        } => pauses.is_empty(),
        _ => false,
    }
}

fn is_made_by(events: &[Event], by: TaskNo, task: TaskNo) -> bool
    requires { length events.now < 2 ^ 32 }
    ensures { result ≡ is_some_and (creation_of (reverse events.now) task.0)
        (λ (c : said.Creation). c.by == by.0) }
{
    match making_of(events, task) {
        Some(making) => making.by.0 == by.0,
        None => false,
    }
}

#[tactic(auto, unfolding(ada_events::specs::Refusals::may_activate))]
fn may_activate(events: &[Event], by: TaskNo, task: TaskNo) -> bool
    requires { length events.now < 2 ^ 32 }
    ensures { result ≡ refusals.may_activate (reverse events.now) by.0 task.0 }
{
    is_made_by(events, by, task) && !has_start(events, task)
}

fn lists_anothers(events: &[Event], by: TaskNo, tasks: &[TaskNo]) -> bool
    requires { length events.now < 2 ^ 32 }
    ensures { result ≡ list_any (λ (t : Task).
        not (refusals.may_activate (reverse events.now) by.0 t.0)) tasks.now }
{
    tasks.iter().any(|task| !may_activate(events, by, *task))
}

/// A task stands twice in a list.
#[tactic(auto, unfolding(ada_events::specs::Refusals::has_double_task), using(crate::proofs::Doubles::has_double_less, crate::proofs::Doubles::has_double_past))]
pub fn has_double_task(tasks: &[TaskNo]) -> bool
    ensures { result ≡ refusals.has_double_task tasks.now }
{
    let mut left = tasks.len();
    let mut double = false;
    while left > 0 {
        left -= 1;
        double = tasks[left].is_listed(&tasks[left + 1..]) || double;
    }
    double
}

fn is_not_to_activate(events: &[Event], by: TaskNo, tasks: &[TaskNo]) -> bool
    requires { length events.now < 2 ^ 32 }
    ensures { result ≡ (list_any (λ (t : Task).
        not (refusals.may_activate (reverse events.now) by.0 t.0)) tasks.now
        || refusals.has_double_task tasks.now) }
{
    lists_anothers(events, by, tasks) || has_double_task(tasks)
}

#[tactic(auto, unfolding(ada_events::specs::Refusals::is_not_your_task))]
fn is_not_your_task(events: &[Event], request: &Request) -> bool
    requires { length events.now < 2 ^ 32 }
    ensures { result ≡ refusals.is_not_your_task (reverse events.now) request.now }
{
    match request {
        Request::Activate { by, tasks } => is_not_to_activate(events, *by, tasks.as_slice()),
        _ => false,
    }
}

#[tactic(auto, unfolding(ada_events::specs::Refusals::has_no_accept))]
fn has_no_accept(request: &Request) -> bool
    ensures { result ≡ refusals.has_no_accept request.now }
{
    match request {
        Request::Wait { choices, .. } => choices.is_empty(),
        _ => false,
    }
}

/// The family of an entry isn't declared by the task (9.5).
#[tactic(auto, unfolding(ada_events::specs::Refusals::lacks_family))]
pub fn lacks_family(events: &[Event], task: TaskNo, entry: Entry) -> bool
    requires { length events.now < 2 ^ 32 }
    ensures { result ≡ refusals.lacks_family (reverse events.now) task.0 entry }
{
    families(events, task).get(entry.family as usize).is_none()
}

fn lacks_some_family(events: &[Event], by: TaskNo, choices: &[Choice]) -> bool
    requires { length events.now < 2 ^ 32 }
    ensures { result ≡ list_any (λ (c : ChoiceValue).
        refusals.lacks_family (reverse events.now) by.0 c.entry) choices.now }
{
    choices
        .iter()
        .any(|choice| lacks_family(events, by, choice.entry))
}

#[tactic(auto, unfolding(ada_events::specs::Refusals::names_no_family))]
fn names_no_family(events: &[Event], request: &Request) -> bool
    requires { length events.now < 2 ^ 32 }
    ensures { result ≡ refusals.names_no_family (reverse events.now) request.now }
{
    match request {
        Request::Call { callee, entry, .. } => lacks_family(events, *callee, *entry),
        Request::Wait { by, choices, .. } => lacks_some_family(events, *by, choices.as_slice()),
        _ => false,
    }
}

/// The index of an entry lies outside its family's range (9.5).
#[tactic(auto, unfolding(ada_events::specs::Refusals::is_outside))]
pub fn is_outside(events: &[Event], task: TaskNo, entry: Entry) -> bool
    requires { length events.now < 2 ^ 32 }
    ensures { result ≡ refusals.is_outside (reverse events.now) task.0 entry }
{
    match families(events, task).get(entry.family as usize) {
        Some(family) => !family.contains(entry.index),
        None => false,
    }
}

fn is_open_outside(events: &[Event], by: TaskNo, choice: Choice) -> bool
    requires { length events.now < 2 ^ 32 }
    ensures { result ≡ (choice.guard && refusals.is_outside (reverse events.now) by.0
        choice.entry) }
{
    choice.guard && is_outside(events, by, choice.entry)
}

fn has_open_outside(events: &[Event], by: TaskNo, choices: &[Choice]) -> bool
    requires { length events.now < 2 ^ 32 }
    ensures { result ≡ list_any (λ (c : ChoiceValue).
        c.guard && refusals.is_outside (reverse events.now) by.0 c.entry) choices.now }
{
    choices
        .iter()
        .any(|choice| is_open_outside(events, by, *choice))
}

#[tactic(auto, unfolding(ada_events::specs::Refusals::breaks_constraint))]
fn breaks_constraint(events: &[Event], request: &Request) -> bool
    requires { length events.now < 2 ^ 32 }
    ensures { result ≡ refusals.breaks_constraint (reverse events.now) request.now }
{
    match request {
        Request::Call { callee, entry, .. } => is_outside(events, *callee, *entry),
        Request::Wait { by, choices, .. } => has_open_outside(events, *by, choices.as_slice()),
        _ => false,
    }
}

fn nests_some_family(events: &[Event], by: TaskNo, choices: &[Choice]) -> bool
    requires { length events.now < 2 ^ 32 }
    ensures { result ≡ list_any (λ (c : ChoiceValue).
        list_any (refusals.is_rendezvous_for (reverse events.now) c.entry.family)
        (nests.nest (reverse events.now) by.0)) choices.now }
{
    choices.iter().any(|choice| is_in_rendezvous_for(events, by, choice.entry.family))
}

#[tactic(auto, unfolding(ada_events::specs::Refusals::nests_same_family))]
fn nests_same_family(events: &[Event], request: &Request) -> bool
    requires { length events.now < 2 ^ 32 }
    ensures { result ≡ refusals.nests_same_family (reverse events.now) request.now }
{
    match request {
        Request::Wait { by, choices, .. } => nests_some_family(events, *by, choices.as_slice()),
        _ => false,
    }
}

#[tactic(auto, unfolding(ada_events::specs::Refusals::terminates_in_accept))]
fn terminates_in_accept(events: &[Event], request: &Request) -> bool
    requires { length events.now < 2 ^ 32 }
    ensures { result ≡ refusals.terminates_in_accept (reverse events.now) request.now }
{
    match request {
        Request::Wait {
            by,
            tail: Tail::Terminate(_),
            ..
        } => is_in_rendezvous(events, *by),
        _ => false,
    }
}

#[tactic(auto, unfolding(ada_events::specs::Refusals::is_not_in_accept))]
fn is_not_in_accept(events: &[Event], request: &Request) -> bool
    requires { length events.now < 2 ^ 32 }
    ensures { result ≡ refusals.is_not_in_accept (reverse events.now) request.now }
{
    match request {
        Request::End { by, .. } => !Member::is_in_accept(innermost(events, *by)),
        _ => false,
    }
}

#[tactic(auto, unfolding(ada_events::specs::Refusals::has_no_block))]
fn has_no_block(events: &[Event], request: &Request) -> bool
    requires { length events.now < 2 ^ 32 }
    ensures { result ≡ refusals.has_no_block (reverse events.now) request.now }
{
    match request {
        Request::Close { by } => Member::has_no_block(innermost(events, *by)),
        _ => false,
    }
}

#[tactic(auto, unfolding(ada_events::specs::Refusals::is_still_nested))]
fn is_still_nested(events: &[Event], request: &Request) -> bool
    requires { length events.now < 2 ^ 32 }
    ensures { result ≡ refusals.is_still_nested (reverse events.now) request.now }
{
    match request {
        Request::Complete { by } | Request::Elaborated { by, .. } => depth(events, *by) != 0,
        _ => false,
    }
}

#[tactic(auto, unfolding(ada_events::specs::Refusals::aborts_main))]
fn aborts_main(request: &Request) -> bool
    ensures { result ≡ refusals.aborts_main request.now }
{
    match request {
        Request::Abort { tasks, .. } => TaskNo(0).is_listed(tasks.as_slice()),
        _ => false,
    }
}

// The first of the causes from the names of tasks to empty lists.
#[tactic(auto, unfolding(ada_events::specs::Refusals::first_cause))]
fn refused_name(events: &[Event], request: &Request) -> Option<Refusal>
    requires { length events.now < 2 ^ 32 }
    ensures { result ≡ refusals.first_cause
        (refusals.causes_by_name (reverse events.now) request.now) }
{
    if names_unknown_task(events, request) {
        return Some(Refusal::UnknownTask);
    }
    if asker_not_running(events, request) {
        return Some(Refusal::NotRunning);
    }
    if is_during_activation(events, request) {
        return Some(Refusal::DuringActivation);
    }
    if is_not_activating(events, request) {
        return Some(Refusal::NotActivating);
    }
    if is_not_your_master(events, request) {
        return Some(Refusal::NotYourMaster);
    }
    if has_empty_list(request) {
        return Some(Refusal::EmptyList);
    }
    None
}

// The first of the causes that have to do with activation and entries.
#[tactic(auto, unfolding(ada_events::specs::Refusals::first_cause))]
fn refused_entry(events: &[Event], request: &Request) -> Option<Refusal>
    requires { length events.now < 2 ^ 32 }
    ensures { result ≡ refusals.first_cause
        (refusals.causes_by_entry (reverse events.now) request.now) }
{
    if is_not_your_task(events, request) {
        return Some(Refusal::NotYourTask);
    }
    if has_no_accept(request) {
        return Some(Refusal::NoAccept);
    }
    if names_no_family(events, request) {
        return Some(Refusal::NoSuchFamily);
    }
    if breaks_constraint(events, request) {
        return Some(Refusal::ConstraintError);
    }
    None
}

// The first of the causes that have to do with the asking task's nest.
#[tactic(auto, unfolding(ada_events::specs::Refusals::first_cause))]
fn refused_nest(events: &[Event], request: &Request) -> Option<Refusal>
    requires { length events.now < 2 ^ 32 }
    ensures { result ≡ refusals.first_cause
        (refusals.causes_by_nest (reverse events.now) request.now) }
{
    if nests_same_family(events, request) {
        return Some(Refusal::SameFamilyNested);
    }
    if terminates_in_accept(events, request) {
        return Some(Refusal::TerminateInAccept);
    }
    if is_not_in_accept(events, request) {
        return Some(Refusal::NotInAccept);
    }
    if has_no_block(events, request) {
        return Some(Refusal::NoBlock);
    }
    if is_still_nested(events, request) {
        return Some(Refusal::StillNested);
    }
    None
}

// The first of the causes that have to do with the main program, the moment and the limits.
#[tactic(auto, unfolding(ada_events::specs::Refusals::first_cause))]
fn refused_limit(events: &[Event], request: &Request) -> Option<Refusal>
    requires { length events.now < 2 ^ 32 }
    ensures { result ≡ refusals.first_cause
        (refusals.causes_by_limit (reverse events.now) request.now) }
{
    if aborts_main(request) {
        return Some(Refusal::MainTask);
    }
    if moves_back(events, request) {
        return Some(Refusal::MomentBack);
    }
    if is_too_late(events, request) {
        return Some(Refusal::MomentTooLarge);
    }
    if makes_too_many_tasks(events, request) {
        return Some(Refusal::TooManyTasks);
    }
    if makes_too_many_slots(events, request) {
        return Some(Refusal::TooManySlots);
    }
    if is_too_deep(events, request) {
        return Some(Refusal::TooDeep);
    }
    if is_full(events) {
        return Some(Refusal::JournalFull);
    }
    None
}

/// The cause for which a request is refused, if there is one.
#[tactic(auto, unfolding(ada_events::specs::Refusals::refusal), using(ada_laws::proofs::asking::CauseParts::first_cause_in_parts))]
pub fn refusal(events: &[Event], request: &Request) -> Option<Refusal>
    requires { length events.now < 2 ^ 32 }
    ensures { result ≡ refusals.refusal (reverse events.now) request.now }
{
    if let Some(cause) = refused_name(events, request) {
        return Some(cause);
    }
    if let Some(cause) = refused_entry(events, request) {
        return Some(cause);
    }
    if let Some(cause) = refused_nest(events, request) {
        return Some(cause);
    }
    refused_limit(events, request)
}
