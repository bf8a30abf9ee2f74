//! The causes for which a selective wait is refused (9.7.1).

ghost use Rattle.std.specs.Prelude.{◌≡◌, ◌<◌, ◌&&◌, ◌++◌, ℕ, List};
ghost use Rattle.std.specs.List.{list_any};
ghost use Rattle.ada_events.specs.declared.names.Choice.{Choice as ChoiceValue};
ghost use Rattle.ada_events.specs.declared.names.Pause.{Pause as PauseValue};
ghost use Rattle.ada_events.specs.declared.names.TaskNo.{TaskNo as Task};
ghost use Rattle.ada_events.specs.declared.request.Request.TheVariants as asked;
ghost use Rattle.ada_events.specs.Limits as limits;
ghost use Rattle.ada_events.specs.Refusals as refusals;
ghost use Rattle.ada_events.specs.Tasks.{task_count};

use crate::entries::{has_open_outside, lacks_some_family};
use crate::limits::{ends_too_late, is_full};
use crate::names::{is_elaborated, is_known, is_running};
use crate::nests::{has_most_members, has_rendezvous, nests_some_family};
use ada_events::{Choice, Pause, Refusal, Tail, TaskNo};
use ada_view::View;

// Whether there is nothing to delay for.
#[tactic(auto, unfolding(ada_events::specs::Refusals::has_empty_list))]
fn has_no_delay(tail: &Tail) -> bool
    ensures { (by : Task) (choices : List ChoiceValue) (pick : ℕ)
        → result ≡ refusals.has_empty_list (asked.Wait by choices tail.now pick) }
{
    match tail {
        Tail::Delays(pauses) => pauses.is_empty(),
        _ => false,
    }
}

// Whether it is a terminate alternative, open or closed, within a rendezvous.
#[tactic(auto, unfolding(ada_events::specs::Refusals::terminates_in_accept))]
fn terminates_in_accept(view: &View, by: TaskNo, tail: &Tail) -> bool
    requires { by.0 < task_count view.now }
    ensures { (choices : List ChoiceValue) (pick : ℕ)
        → result ≡ refusals.terminates_in_accept view.now (asked.Wait by choices tail.now pick) }
{
    match tail {
        Tail::Terminate(_) => has_rendezvous(view.nest(by)),
        _ => false,
    }
}

fn is_open_too_late(now: i64, pause: Pause) -> bool
    ensures { result ≡ (pause.guard && limits.ends_too_late now pause.duration) }
{
    pause.guard && ends_too_late(now, pause.duration)
}

// Whether an open delay alternative ends behind the last moment.
fn has_open_too_late(now: i64, pauses: &[Pause]) -> bool
    ensures { result ≡ list_any
        (λ (d : PauseValue). d.guard && limits.ends_too_late now d.duration) pauses.now }
{
    pauses.iter().any(|pause| is_open_too_late(now, *pause))
}

// Whether a wait, for whichever entries, would be due behind the last moment.
#[tactic(auto, unfolding(ada_events::specs::Limits::is_too_late))]
fn is_late_wait(view: &View, tail: &Tail) -> bool
    ensures { (by : Task) (choices : List ChoiceValue) (pick : ℕ)
        → result ≡ limits.is_too_late view.now (asked.Wait by choices tail.now pick) }
{
    match tail {
        Tail::Delays(pauses) => has_open_too_late(view.moment(), pauses.as_slice()),
        _ => false,
    }
}

// The first of the causes that have to do with the nest, the moment and the limits.
#[inline(always)]
#[tactic(auto, unfolding(ada_events::specs::Refusals::first_cause), using(crate::proofs::Causes::wait_causes_by_nest))]
fn refused_by_nest(view: &View, by: TaskNo, choices: &[Choice], tail: &Tail) -> Option<Refusal>
    requires { by.0 < task_count view.now }
    ensures { (pick : ℕ) → result ≡ refusals.first_cause
        (refusals.causes_by_nest view.now (asked.Wait by choices.now tail.now pick)
        ++ refusals.causes_by_limit view.now (asked.Wait by choices.now tail.now pick)) }
{
    let nest = view.nest(by);
    if nests_some_family(view, nest, choices) {
        return Some(Refusal::SameFamilyNested);
    }
    if terminates_in_accept(view, by, tail) {
        return Some(Refusal::TerminateInAccept);
    }
    if is_late_wait(view, tail) {
        return Some(Refusal::MomentTooLarge);
    }
    if has_most_members(nest) {
        return Some(Refusal::TooDeep);
    }
    if is_full(view) {
        return Some(Refusal::JournalFull);
    }
    None
}

/// The cause for which a selective wait is refused, if there is one (9.7.1).
#[inline(always)]
#[tactic(auto, unfolding(ada_events::specs::Refusals::first_cause), using(crate::proofs::Causes::wait_causes))]
pub fn refusal_of_wait(view: &View, by: TaskNo, choices: &[Choice], tail: &Tail) -> Option<Refusal>
    ensures { (pick : ℕ)
        → result ≡ refusals.refusal view.now (asked.Wait by choices.now tail.now pick) }
{
    if !is_known(view, by) {
        return Some(Refusal::UnknownTask);
    }
    if !is_running(view, by) {
        return Some(Refusal::NotRunning);
    }
    if !is_elaborated(view, by) {
        return Some(Refusal::DuringActivation);
    }
    if has_no_delay(tail) {
        return Some(Refusal::EmptyList);
    }
    if choices.is_empty() {
        return Some(Refusal::NoAccept);
    }
    if lacks_some_family(view, by, choices) {
        return Some(Refusal::NoSuchFamily);
    }
    if has_open_outside(view, by, choices) {
        return Some(Refusal::ConstraintError);
    }
    refused_by_nest(view, by, choices, tail)
}
