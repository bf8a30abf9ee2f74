//! Events in plain numbers.
ghost use Rattle.std.specs.Prelude.{◌≡◌};
ghost use Rattle.ada_border.specs.Events as spec;

use ada_events::{Entry, Event, EventTail, Master, Patience, TaskNo, Way};

/// An event in plain numbers. What its kind has no use for is 0. The items of its lists are asked for one by one.
#[repr(C)]
#[derive(Clone, Copy, Debug, PartialEq, Eq)]
pub struct PlainEvent {
    /// The number of the kind, from 1, which never changes.
    pub kind: u32,
    /// Whether it is ok or raised; the kind of a call, of the last part of a wait, or of the way in which a wait ended.
    pub form: u32,
    /// The task that asked for it, or to which it happened.
    pub task: u64,
    /// The task whose entry was called.
    pub callee: u64,
    /// The family of the entry.
    pub family: u32,
    /// The index of the entry.
    pub index: i32,
    /// Whether the task was in a body (0) or a block (1).
    pub under_kind: u32,
    /// Whether the master is a body (0) or a block (1).
    pub master_kind: u32,
    /// The task whose body, or the position of the block, in which the task was.
    pub under: u64,
    /// The task whose body, or the position of the block, that is the master.
    pub master: u64,
    /// The position of the call.
    pub call: u64,
    /// The position of the wait, the delay, the start, the close or the block.
    pub position: u64,
    /// The pick of a wait, or the number of a delay alternative.
    pub number: u32,
    /// Whether a call has a moment at which it ends.
    pub is_timed: u32,
    /// The moment at which it is due, or to which the moment moved, in milliseconds.
    pub moment: i64,
    /// The duration of a timed call, in milliseconds.
    pub duration: i64,
}

/// An event of a kind, without more.
pub fn blank(kind: u32) -> PlainEvent
    ensures { result ≡ spec.blank kind }
{
    PlainEvent {
        kind,
        form: 0,
        task: 0,
        callee: 0,
        family: 0,
        index: 0,
        under_kind: 0,
        master_kind: 0,
        under: 0,
        master: 0,
        call: 0,
        position: 0,
        number: 0,
        is_timed: 0,
        moment: 0,
        duration: 0,
    }
}

/// What holds as a number: 1 if it does, else 0.
pub fn flag(holds: bool) -> u32
    ensures { result ≡ spec.flag holds }
{
    if holds { 1 } else { 0 }
}

fn master_kind(master: Master) -> u32
    ensures { result ≡ spec.master_kind master }
{
    match master {
        Master::Body(_) => 0,
        Master::Block(_) => 1,
    }
}

fn master_number(master: Master) -> u64
    ensures { result ≡ spec.master_number master }
{
    match master {
        Master::Body(task) => u64::from(task.0),
        Master::Block(opened) => u64::from(opened),
    }
}

fn patience_kind(patience: Patience) -> u32
    ensures { result ≡ spec.patience_kind patience }
{
    match patience {
        Patience::Simple => 0,
        Patience::Conditional => 1,
        Patience::Timed(_) => 2,
    }
}

fn patience_duration(patience: Patience) -> i64
    ensures { result ≡ spec.patience_duration patience }
{
    match patience {
        Patience::Timed(duration) => duration,
        _ => 0,
    }
}

fn tail_kind(tail: &EventTail) -> u32
    ensures { result ≡ spec.tail_kind tail.now }
{
    match tail {
        EventTail::Nothing => 0,
        EventTail::Otherwise => 1,
        EventTail::Delays(_) => 2,
        EventTail::Terminate(true) => 3,
        EventTail::Terminate(false) => 4,
    }
}

fn way_kind(way: Way) -> u32
    ensures { result ≡ spec.way_kind way }
{
    match way {
        Way::Otherwise => 0,
        Way::Delay(_) => 1,
        Way::ProgramError => 2,
    }
}

fn way_number(way: Way) -> u32
    ensures { result ≡ spec.way_number way }
{
    match way {
        Way::Delay(number) => u32::from(number),
        _ => 0,
    }
}

// An event of a kind, of a task.
fn of_task(kind: u32, task: TaskNo) -> PlainEvent
    ensures { result ≡ spec.of_task kind task.0 }
{
    PlainEvent {
        task: u64::from(task.0),
        ..blank(kind)
    }
}

// An event of a kind, about the event at a position.
fn of_position(kind: u32, position: u32) -> PlainEvent
    ensures { result ≡ spec.of_position kind position }
{
    PlainEvent {
        position: u64::from(position),
        ..blank(kind)
    }
}

// An event of a kind, about a call.
fn of_call(kind: u32, call: u32) -> PlainEvent
    ensures { result ≡ spec.of_call kind call }
{
    PlainEvent {
        call: u64::from(call),
        ..blank(kind)
    }
}

fn opened(by: TaskNo, under: Master) -> PlainEvent
    ensures { result ≡ spec.opened by.0 under }
{
    PlainEvent {
        under_kind: master_kind(under),
        under: master_number(under),
        ..of_task(1, by)
    }
}

fn created(by: TaskNo, under: Master, master: Master) -> PlainEvent
    ensures { result ≡ spec.created by.0 under master }
{
    PlainEvent {
        under_kind: master_kind(under),
        under: master_number(under),
        master_kind: master_kind(master),
        master: master_number(master),
        ..of_task(2, by)
    }
}

fn called(
    by: TaskNo,
    callee: TaskNo,
    entry: Entry,
    patience: Patience,
    due: Option<i64>,
) -> PlainEvent
    ensures { result ≡ spec.called by.0 callee.0 entry patience due }
{
    PlainEvent {
        callee: u64::from(callee.0),
        family: u32::from(entry.family),
        index: entry.index,
        form: patience_kind(patience),
        duration: patience_duration(patience),
        is_timed: flag(due.is_some()),
        moment: due.unwrap_or(0),
        ..of_task(5, by)
    }
}

/// The event in plain numbers.
#[tactic(auto, unfolding(crate::specs::Events::plain_of))]
pub fn plain_of(event: &Event) -> PlainEvent
    ensures { result ≡ spec.plain_of event.now }
{
    match event {
        Event::Opened { by, under } => opened(*by, *under),
        Event::Created {
            by,
            under,
            master,
            ..
        } => created(*by, *under, *master),
        Event::Started { by, .. } => of_task(3, *by),
        Event::Elaborated { by, ok } => PlainEvent {
            form: flag(*ok),
            ..of_task(4, *by)
        },
        Event::Called {
            by,
            callee,
            entry,
            patience,
            due,
        } => called(*by, *callee, *entry, *patience, *due),
        Event::Waiting { by, pick, tail, .. } => PlainEvent {
            number: *pick,
            form: tail_kind(tail),
            ..of_task(6, *by)
        },
        Event::Paused { by, due } => PlainEvent {
            moment: *due,
            ..of_task(7, *by)
        },
        Event::Ended { by, call, raised } => PlainEvent {
            call: u64::from(*call),
            form: flag(*raised),
            ..of_task(8, *by)
        },
        Event::Closed { by, block } => PlainEvent {
            position: u64::from(*block),
            ..of_task(9, *by)
        },
        Event::Completed { by } => of_task(10, *by),
        Event::Aborted { by, .. } => of_task(11, *by),
        Event::Ticked { now } => PlainEvent {
            moment: *now,
            ..blank(12)
        },
        Event::Halted { task } => of_task(13, *task),
        Event::Failed { call } => of_call(14, *call),
        Event::Met { call, wait } => PlainEvent {
            position: u64::from(*wait),
            ..of_call(15, *call)
        },
        Event::Cancelled { call } => of_call(16, *call),
        Event::Passed { wait, way } => PlainEvent {
            form: way_kind(*way),
            number: way_number(*way),
            ..of_position(17, *wait)
        },
        Event::Woken { pause } => of_position(18, *pause),
        Event::Activated { start, ok } => PlainEvent {
            form: flag(*ok),
            ..of_position(19, *start)
        },
        Event::Gone { task } => of_task(20, *task),
        Event::Quit { master } => PlainEvent {
            master_kind: master_kind(*master),
            master: master_number(*master),
            ..blank(21)
        },
        Event::Left { close } => of_position(22, *close),
    }
}
