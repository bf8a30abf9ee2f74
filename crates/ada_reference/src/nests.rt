//! What a task is within: the blocks that it opened and hasn't left, and the rendezvous that it accepted
//! and hasn't ended.
ghost use Rattle.std.specs.Prelude.{◌≡◌, ◌<◌, ◌≤◌, ◌+◌, ◌^◌, ◌&&◌, ◌||◌, ◌==◌, not, false, length, reverse};
ghost use Rattle.std.specs.List.{list_any};
ghost use Rattle.std.specs.Option.{option_map_or, option_len};
ghost use Rattle.ada_events.specs.Search.{is_some_and};
ghost use Rattle.ada_events.specs.Says as said;
ghost use Rattle.ada_events.specs.Calls as calls;
ghost use Rattle.ada_events.specs.Nests as nests;
ghost use Rattle.ada_events.specs.Refusals as refusals;
ghost use Rattle.ada_reference.specs.internal.Frames.{frame_with};

use crate::calls::is_open_call;
use crate::says;
use crate::says::{is_close_of, is_position, is_wait_by};
use ada_events::journal::event_in;
use ada_events::{Event, Master, Member, TaskNo};

/// The close at a position was followed by the task's leaving the block (9.4).
#[tactic(auto, unfolding(ada_events::specs::Nests::is_left_close))]
pub fn is_left_close(events: &[Event], close: u32) -> bool
    ensures { result ≡ nests.is_left_close (reverse events.now) close }
{
    events
        .iter()
        .rev()
        .any(|event| is_position(close, says::left_in(event)))
}

fn leaves(events: &[Event], block: u32, position: u32, event: &Event) -> bool
    ensures { result ≡ (is_some_and (said.closing_in event.now)
        (λ (c : said.Closing). c.block == block)
        && nests.is_left_close (reverse events.now) position) }
{
    is_close_of(block, event) && is_left_close(events, position)
}

/// The block is left.
#[tactic(auto, unfolding(ada_events::specs::Nests::is_left, ada_events::specs::Search::any_event), using(crate::proofs::Loops::any_event_more))]
pub fn is_left(events: &[Event], block: u32) -> bool
    requires { length events.now < 2 ^ 32 }
    ensures { result ≡ nests.is_left (reverse events.now) block }
{
    let mut left = false;
    for (i, event) in events.iter().enumerate() {
        left = leaves(events, block, i as u32 + 1, event) || left;
    }
    left
}

/// The wait at a position is the task's.
#[tactic(auto, unfolding(ada_events::specs::Nests::is_wait_of))]
pub fn is_wait_of(events: &[Event], task: TaskNo, wait: u32) -> bool
    ensures { result ≡ nests.is_wait_of (reverse events.now) task.0 wait }
{
    match event_in(events, wait) {
        Some(event) => is_wait_by(task, event),
        None => false,
    }
}

fn is_within_block(events: &[Event], task: TaskNo, by: TaskNo, block: u32) -> bool
    requires { length events.now < 2 ^ 32 }
    ensures { result ≡ ((by.0 == task.0) && not (nests.is_left (reverse events.now) block)) }
{
    by.0 == task.0 && !is_left(events, block)
}

fn is_within_rendezvous(events: &[Event], task: TaskNo, call: u32, wait: u32) -> bool
    requires { length events.now < 2 ^ 32 }
    ensures { result ≡ (nests.is_wait_of (reverse events.now) task.0 wait
        && calls.is_open_call (reverse events.now) call) }
{
    is_wait_of(events, task, wait) && is_open_call(events, call)
}

/// What the event at a position puts into the task's nest.
#[tactic(auto, unfolding(ada_events::specs::Nests::member_at, ada_events::specs::Says::opening_in, ada_events::specs::Says::meeting_in))]
pub fn member_at(events: &[Event], task: TaskNo, position: u32, event: &Event) -> Option<Member>
    requires { length events.now < 2 ^ 32 }
    ensures { result ≡ nests.member_at (reverse events.now) task.0 position event.now }
{
    match event {
        Event::Opened { by, .. } => if is_within_block(events, task, *by, position) {
            Some(Member::Block(position))
        } else {
            None
        },
        Event::Met { call, wait } => if is_within_rendezvous(events, task, *call, *wait) {
            Some(Member::Rendezvous(*call))
        } else {
            None
        },
        _ => None,
    }
}

/// The innermost member of a task's nest.
#[tactic(auto, unfolding(ada_events::specs::Nests::nest, ada_events::specs::Search::gathered))]
pub fn innermost(events: &[Event], task: TaskNo) -> Option<Member>
    requires { length events.now < 2 ^ 32 }
    ensures { result ≡ nests.innermost (nests.nest (reverse events.now) task.0) }
{
    let mut last = None;
    for (i, event) in events.iter().enumerate() {
        last = member_at(events, task, i as u32 + 1, event).or(last);
    }
    last
}

// One for a member, 0 for none.
fn one_if_some(member: Option<Member>) -> u32
    ensures value { result ≡ option_len member }
    ensures few { result ≤ 1 }
{
    match member {
        Some(_) => 1,
        None => 0,
    }
}

/// How many members a task's nest has.
#[tactic(auto, unfolding(ada_events::specs::Nests::nest, ada_events::specs::Search::gathered))]
pub fn depth(events: &[Event], task: TaskNo) -> u32
    requires { length events.now < 2 ^ 32 }
    ensures { result ≡ length (nests.nest (reverse events.now) task.0) }
{
    let mut depth = 0u32;
    for (i, event) in events.iter().enumerate() {
        depth += one_if_some(member_at(events, task, i as u32 + 1, event));
    }
    depth
}

// The block that the member is, else this master.
fn with_member(frame: Master, member: Option<Member>) -> Master
    ensures { result ≡ frame_with frame member }
{
    match member {
        Some(Member::Block(position)) => Master::Block(position),
        _ => frame,
    }
}

/// The frame of a task: the innermost block that it is in, else its body.
#[tactic(auto, unfolding(ada_events::specs::Nests::frame, ada_events::specs::Nests::innermost_block, ada_events::specs::Nests::nest, ada_events::specs::Search::gathered), using(crate::proofs::Members::frame_gathered_more))]
pub fn frame(events: &[Event], task: TaskNo) -> Master
    requires { length events.now < 2 ^ 32 }
    ensures { result ≡ nests.frame (reverse events.now) task.0 }
{
    let mut frame = Master::Body(task);
    for (i, event) in events.iter().enumerate() {
        frame = with_member(frame, member_at(events, task, i as u32 + 1, event));
    }
    frame
}

fn either(a: bool, b: bool) -> bool
    ensures { result ≡ (a || b) }
{
    a || b
}

fn is_some_rendezvous(member: Option<Member>) -> bool
    ensures { result ≡ option_map_or refusals.is_rendezvous member false }
{
    match member {
        Some(Member::Rendezvous(_)) => true,
        _ => false,
    }
}

/// The task is within a rendezvous that it accepted.
#[tactic(auto, unfolding(ada_events::specs::Nests::nest, ada_events::specs::Search::gathered))]
pub fn is_in_rendezvous(events: &[Event], task: TaskNo) -> bool
    requires { length events.now < 2 ^ 32 }
    ensures { result ≡ list_any refusals.is_rendezvous (nests.nest (reverse events.now) task.0) }
{
    let mut found = false;
    for (i, event) in events.iter().enumerate() {
        let member = member_at(events, task, i as u32 + 1, event);
        found = either(is_some_rendezvous(member), found);
    }
    found
}

#[tactic(auto, unfolding(ada_events::specs::Says::call_in))]
fn calls_family(event: &Event, family: u8) -> bool
    ensures { result ≡ is_some_and (said.call_in event.now)
        (λ (c : said.Call). c.entry.family == family) }
{
    match event {
        Event::Called { entry, .. } => entry.family == family,
        _ => false,
    }
}

// The call at a position is for the family.
fn has_call_for(events: &[Event], call: u32, family: u8) -> bool
    ensures { result ≡ is_some_and (said.call_at (reverse events.now) call)
        (λ (c : said.Call). c.entry.family == family) }
{
    match event_in(events, call) {
        Some(event) => calls_family(event, family),
        None => false,
    }
}

#[tactic(auto, unfolding(ada_events::specs::Refusals::is_rendezvous_for))]
fn is_some_rendezvous_for(events: &[Event], family: u8, member: Option<Member>) -> bool
    requires { length events.now < 2 ^ 32 }
    ensures { result ≡ option_map_or (refusals.is_rendezvous_for (reverse events.now) family)
        member false }
{
    match member {
        Some(Member::Rendezvous(call)) => has_call_for(events, call, family),
        Some(Member::Block(_)) => false,
        None => false,
    }
}

/// The task is within a rendezvous for the family of its entries.
#[tactic(auto, unfolding(ada_events::specs::Nests::nest, ada_events::specs::Search::gathered))]
pub fn is_in_rendezvous_for(events: &[Event], task: TaskNo, family: u8) -> bool
    requires { length events.now < 2 ^ 32 }
    ensures { result ≡ list_any (refusals.is_rendezvous_for (reverse events.now) family)
        (nests.nest (reverse events.now) task.0) }
{
    let mut found = false;
    for (i, event) in events.iter().enumerate() {
        let member = member_at(events, task, i as u32 + 1, event);
        found = either(is_some_rendezvous_for(events, family, member), found);
    }
    found
}
