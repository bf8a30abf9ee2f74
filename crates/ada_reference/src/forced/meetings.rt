//! The forced steps that begin, end or fail a rendezvous, a wait, a call or a delay: one function for each row.
ghost use Rattle.std.specs.Prelude.{◌≡◌, ◌<◌, ◌≤◌, ◌^◌, ◌&&◌, ◌||◌, if◌then◌else◌, int_le, length, reverse, slice_get};
ghost use Rattle.std.specs.Option.{option_map, option_or, option_and_then};
ghost use Rattle.std.specs.Bool.{then_some};
ghost use Rattle.ada_events.specs.declared.event.Event.TheVariants as event_of;
ghost use Rattle.ada_events.specs.Search.{is_some_and};
ghost use Rattle.ada_events.specs.Says as said;
ghost use Rattle.ada_events.specs.Phases as phases;
ghost use Rattle.ada_events.specs.Calls as calls;
ghost use Rattle.ada_events.specs.Waits as waits;
ghost use Rattle.ada_events.specs.Forced as forced;
ghost use Rattle.ada_events.specs.Tasks.{moment as moment_of};
ghost use Rattle.ada_events.specs.declared.limits.TheConstants.{MOST_CHOICES};

use crate::calls::{is_open_at, is_pending, is_queued_at};
use crate::phases::{has_ended, is_abnormal};
use crate::tasks::moment;
use crate::waits::taken_call;
use ada_events::{Choice, Event, EventTail, Patience, TaskNo, is_due, way_of};

fn is_uncallable(events: &[Event], callee: TaskNo) -> bool
    requires { length events.now < 2 ^ 32 }
    ensures { result ≡ (phases.has_ended (reverse events.now) callee.0
        || phases.is_abnormal (reverse events.now) callee.0) }
{
    has_ended(events, callee) || is_abnormal(events, callee)
}

#[tactic(auto, unfolding(ada_events::specs::Says::call_in))]
fn calls_in_vain(events: &[Event], event: &Event) -> bool
    requires { length events.now < 2 ^ 32 }
    ensures { result ≡ is_some_and (said.call_in event.now)
        (λ (c : said.Call). phases.has_ended (reverse events.now) c.callee
        || phases.is_abnormal (reverse events.now) c.callee) }
{
    match event {
        Event::Called { callee, .. } => is_uncallable(events, *callee),
        _ => false,
    }
}

#[tactic(auto, unfolding(ada_events::specs::Forced::is_to_fail))]
fn is_to_fail(events: &[Event], position: u32, event: &Event) -> bool
    requires { length events.now < 2 ^ 32 }
    ensures { result ≡ forced.is_to_fail (reverse events.now) position event.now }
{
    calls_in_vain(events, event) && is_open_at(events, position, event)
}

fn failed_call(events: &[Event], position: u32, event: &Event) -> Option<Event>
    requires { length events.now < 2 ^ 32 }
    ensures { result ≡ then_some (forced.is_to_fail (reverse events.now) position event.now)
        (event_of.Failed position) }
{
    if is_to_fail(events, position, event) {
        Some(Event::Failed { call: position })
    } else {
        None
    }
}

/// The first open call whose callee is completed, terminated or abnormal (9.5, 9.7.2, 9.7.3, 9.10).
#[tactic(auto, unfolding(ada_events::specs::Forced::failed, ada_events::specs::Search::first_given), using(crate::proofs::Loops::first_given_more))]
pub fn failed(events: &[Event]) -> Option<Event>
    requires { length events.now < 2 ^ 32 }
    ensures { result ≡ forced.failed (reverse events.now) }
{
    let mut found = None;
    for (i, event) in events.iter().enumerate() {
        if found.is_none() {
            found = failed_call(events, i as u32 + 1, event);
        }
    }
    found
}

fn met_wait(
    events: &[Event],
    position: u32,
    by: TaskNo,
    choices: &[Choice],
    pick: u32,
) -> Option<Event>
    requires few { length choices.now ≤ MOST_CHOICES }
    requires short { length events.now < 2 ^ 32 }
    ensures { result ≡ (if calls.is_pending (reverse events.now) position by.0
        then option_map (λ call.
        event_of.Met call position) (option_and_then (waits.front_of (reverse events.now) by.0)
        (option_and_then (slice_get choices.now)
        (waits.picked pick (waits.numbers_from (waits.is_selectable (reverse events.now) by.0) 0
        choices.now)))) else None) }
{
    if !is_pending(events, position, by) {
        return None;
    }
    match taken_call(events, by, choices, pick) {
        Some(call) => Some(Event::Met {
            call,
            wait: position,
        }),
        None => None,
    }
}

#[tactic(auto, unfolding(ada_events::specs::Forced::met_at, ada_events::specs::Waits::taken_call, ada_events::specs::Waits::taken_choice, ada_events::specs::Says::wait_in))]
fn met_at(events: &[Event], position: u32, event: &Event) -> Option<Event>
    requires { length events.now < 2 ^ 32 }
    ensures { result ≡ option_and_then (forced.met_at (reverse events.now) position)
        (said.wait_in event.now) }
{
    match event {
        Event::Waiting {
            by,
            choices,
            pick,
            ..
        } => met_wait(events, position, *by, choices.as_slice(), *pick),
        _ => None,
    }
}

/// The first wait that takes a call, with the call at the front of the queue of the choice that it picks
/// (9.5, 9.7.1).
#[tactic(auto, unfolding(ada_events::specs::Forced::met, ada_events::specs::Search::first_given), using(crate::proofs::Loops::first_given_more))]
pub fn met(events: &[Event]) -> Option<Event>
    requires { length events.now < 2 ^ 32 }
    ensures { result ≡ forced.met (reverse events.now) }
{
    let mut found = None;
    for (i, event) in events.iter().enumerate() {
        if found.is_none() {
            found = met_at(events, i as u32 + 1, event);
        }
    }
    found
}

fn is_conditional(patience: Patience) -> bool
    ensures { result ≡ forced.is_conditional patience }
{
    match patience {
        Patience::Conditional => true,
        _ => false,
    }
}

fn is_over(now: i64, patience: Patience, due: Option<i64>) -> bool
    ensures { result ≡ (forced.is_conditional patience || waits.is_due now due) }
{
    is_conditional(patience) || is_due(now, due)
}

#[tactic(auto, unfolding(ada_events::specs::Says::call_in))]
fn is_call_over(events: &[Event], event: &Event) -> bool
    ensures { result ≡ is_some_and (said.call_in event.now)
        (λ (c : said.Call). forced.is_conditional c.patience
        || waits.is_due (moment_of (reverse events.now)) c.due) }
{
    match event {
        Event::Called { patience, due, .. } => is_over(moment(events), *patience, *due),
        _ => false,
    }
}

#[tactic(auto, unfolding(ada_events::specs::Forced::is_to_cancel))]
fn is_to_cancel(events: &[Event], position: u32, event: &Event) -> bool
    requires { length events.now < 2 ^ 32 }
    ensures { result ≡ forced.is_to_cancel (reverse events.now) position event.now }
{
    is_call_over(events, event) && is_queued_at(events, position, event)
}

fn cancelled_call(events: &[Event], position: u32, event: &Event) -> Option<Event>
    requires { length events.now < 2 ^ 32 }
    ensures { result ≡ then_some (forced.is_to_cancel (reverse events.now) position event.now)
        (event_of.Cancelled position) }
{
    if is_to_cancel(events, position, event) {
        Some(Event::Cancelled { call: position })
    } else {
        None
    }
}

/// The first queued call that is conditional or due (9.7.2, 9.7.3).
#[tactic(auto, unfolding(ada_events::specs::Forced::cancelled, ada_events::specs::Search::first_given), using(crate::proofs::Loops::first_given_more))]
pub fn cancelled(events: &[Event]) -> Option<Event>
    requires { length events.now < 2 ^ 32 }
    ensures { result ≡ forced.cancelled (reverse events.now) }
{
    let mut found = None;
    for (i, event) in events.iter().enumerate() {
        if found.is_none() {
            found = cancelled_call(events, i as u32 + 1, event);
        }
    }
    found
}

fn passed_wait(
    events: &[Event],
    position: u32,
    by: TaskNo,
    choices: &[Choice],
    pick: u32,
    tail: &EventTail,
) -> Option<Event>
    requires { length events.now < 2 ^ 32 }
    ensures { result ≡ (if calls.is_pending (reverse events.now) position by.0
        then option_map (event_of.Passed position)
        (waits.way_of (moment_of (reverse events.now)) choices.now pick tail.now) else None) }
{
    if !is_pending(events, position, by) {
        return None;
    }
    match way_of(moment(events), choices, pick, tail) {
        Some(way) => Some(Event::Passed {
            wait: position,
            way,
        }),
        None => None,
    }
}

#[tactic(auto, unfolding(ada_events::specs::Forced::passed_at, ada_events::specs::Says::wait_in))]
fn passed_at(events: &[Event], position: u32, event: &Event) -> Option<Event>
    requires { length events.now < 2 ^ 32 }
    ensures { result ≡ option_and_then (forced.passed_at (reverse events.now) position)
        (said.wait_in event.now) }
{
    match event {
        Event::Waiting {
            by,
            choices,
            tail,
            pick,
        } => passed_wait(events, position, *by, choices.as_slice(), *pick, tail),
        _ => None,
    }
}

/// The first wait that ends by its else part, by a delay or by PROGRAM_ERROR (9.7.1).
#[tactic(auto, unfolding(ada_events::specs::Forced::passed, ada_events::specs::Search::first_given), using(crate::proofs::Loops::first_given_more))]
pub fn passed(events: &[Event]) -> Option<Event>
    requires { length events.now < 2 ^ 32 }
    ensures { result ≡ forced.passed (reverse events.now) }
{
    let mut found = None;
    for (i, event) in events.iter().enumerate() {
        if found.is_none() {
            found = passed_at(events, i as u32 + 1, event);
        }
    }
    found
}

fn is_to_wake(events: &[Event], position: u32, by: TaskNo, due: i64) -> bool
    requires { length events.now < 2 ^ 32 }
    ensures { result ≡ (int_le due (moment_of (reverse events.now))
        && calls.is_pending (reverse events.now) position by.0) }
{
    due <= moment(events) && is_pending(events, position, by)
}

#[tactic(auto, unfolding(ada_events::specs::Forced::is_to_wake, ada_events::specs::Says::delay_in))]
fn woken_delay(events: &[Event], position: u32, event: &Event) -> Option<Event>
    requires { length events.now < 2 ^ 32 }
    ensures { result ≡ option_and_then (λ (d : said.Delay). then_some
        (forced.is_to_wake (reverse events.now) position d) (event_of.Woken position))
        (said.delay_in event.now) }
{
    match event {
        Event::Paused { by, due } => if is_to_wake(events, position, *by, *due) {
            Some(Event::Woken { pause: position })
        } else {
            None
        },
        _ => None,
    }
}

/// The first delay that ends (9.6).
#[tactic(auto, unfolding(ada_events::specs::Forced::woken, ada_events::specs::Search::first_given), using(crate::proofs::Loops::first_given_more))]
pub fn woken(events: &[Event]) -> Option<Event>
    requires { length events.now < 2 ^ 32 }
    ensures { result ≡ forced.woken (reverse events.now) }
{
    let mut found = None;
    for (i, event) in events.iter().enumerate() {
        if found.is_none() {
            found = woken_delay(events, i as u32 + 1, event);
        }
    }
    found
}

/// The steps that begin, end or fail a rendezvous, a wait, a call or a delay.
pub fn communication(events: &[Event]) -> Option<Event>
    requires { length events.now < 2 ^ 32 }
    ensures { result ≡ option_or (forced.failed (reverse events.now))
        (option_or (forced.met (reverse events.now))
        (option_or (forced.cancelled (reverse events.now))
        (option_or (forced.passed (reverse events.now)) (forced.woken (reverse events.now))))) }
{
    if let Some(step) = failed(events) {
        return Some(step);
    }
    if let Some(step) = met(events) {
        return Some(step);
    }
    if let Some(step) = cancelled(events) {
        return Some(step);
    }
    if let Some(step) = passed(events) {
        return Some(step);
    }
    woken(events)
}
