//! Printing events.

ghost use Rattle.std.specs.Prelude.{◌≡◌, ◌++◌, OnOk, codes, decimal, if◌then◌else◌};
ghost use Rattle.std.specs.Fmt.{signed_decimal};
ghost use Rattle.std.specs.List.{flat_map};
ghost use Rattle.ada_printing.specs.internal.Appending.{KeepsStarts};
ghost use Rattle.ada_printing.specs.Texts.{task_text, master_text, listed_text, way_text, created_text, called_text, waiting_text, event_text};
ghost use Rattle.ada_printing.specs.Texts.{call_verb as verb_text};
ghost use Rattle.ada_events.specs.declared.event.Event.TheVariants as events;

use crate::parts::{
    put, put_block, put_byte, put_choices, put_entry, put_families, put_integer, put_made,
    put_master, put_number, put_tail, put_task, put_tasks, put_until, put_way,
};
use ada_events::{
    ChoiceList, Entry, Event, EventTail, FamilyList, Master, Patience, TaskList, TaskNo, Way,
};
use ada_statements::{Bound, Names};
use std::alloc::AllocError;

fn put_opened(
    out: &mut Vec<u8>,
    at: u32,
    by: TaskNo,
    under: Master,
    names: &Names,
) -> Result<(), AllocError>
    ensures text { OnOk result (out.new.items ≡ out.old.items
        ++ event_text names.now at (events.Opened by under)) }
    ensures starts { KeepsStarts out.old.items out.new.items }
{
    put_task(out, by, names)?;
    put(out, b" opened ")?;
    put_block(out, at, names)?;
    put(out, b" under ")?;
    put_master(out, under, names)
}

fn put_created(
    out: &mut Vec<u8>,
    at: u32,
    by: TaskNo,
    master: Master,
    families: &FamilyList,
    names: &Names,
) -> Result<(), AllocError>
    ensures text { OnOk result (out.new.items ≡ out.old.items
        ++ created_text names.now at by master families.now) }
    ensures starts { KeepsStarts out.old.items out.new.items }
{
    put_task(out, by, names)?;
    put(out, b" created ")?;
    put_made(out, at, names)?;
    put(out, b" under ")?;
    put_master(out, master, names)?;
    put_families(out, families, names.families(Bound::Made(at)))
}

/// The verb of a call.
fn call_verb(patience: Patience) -> &'static [u8]
    ensures { result.now ≡ verb_text patience }
{
    match patience {
        Patience::Conditional => b" tried ",
        _ => b" called ",
    }
}

fn put_called(
    out: &mut Vec<u8>,
    by: TaskNo,
    callee: TaskNo,
    entry: Entry,
    patience: Patience,
    due: Option<i64>,
    names: &Names,
) -> Result<(), AllocError>
    ensures text { OnOk result (out.new.items ≡ out.old.items
        ++ called_text names.now by callee entry patience due) }
    ensures starts { KeepsStarts out.old.items out.new.items }
{
    put_task(out, by, names)?;
    put(out, call_verb(patience))?;
    put_task(out, callee, names)?;
    put_byte(out, b'.')?;
    put_entry(out, callee, entry, names)?;
    put_until(out, due)
}

fn put_waiting(
    out: &mut Vec<u8>,
    by: TaskNo,
    choices: &ChoiceList,
    tail: &EventTail,
    pick: u32,
    names: &Names,
) -> Result<(), AllocError>
    ensures text { OnOk result (out.new.items ≡ out.old.items
        ++ waiting_text names.now by choices.now tail.now pick) }
    ensures starts { KeepsStarts out.old.items out.new.items }
{
    put_task(out, by, names)?;
    put(out, b" waits ")?;
    put_number(out, pick)?;
    put_choices(out, by, choices, names)?;
    put_tail(out, tail)
}

/// Appends a task and what it did.
fn put_deed(out: &mut Vec<u8>, by: TaskNo, deed: &[u8], names: &Names) -> Result<(), AllocError>
    ensures text { OnOk result (out.new.items ≡ out.old.items
        ++ (task_text names.now by ++ deed.now)) }
    ensures starts { KeepsStarts out.old.items out.new.items }
{
    put_task(out, by, names)?;
    put(out, deed)
}

/// Appends what happened to the event at a position.
fn put_numbered(out: &mut Vec<u8>, deed: &[u8], at: u32) -> Result<(), AllocError>
    ensures text { OnOk result (out.new.items ≡ out.old.items ++ (deed.now ++ decimal at)) }
    ensures starts { KeepsStarts out.old.items out.new.items }
{
    put(out, deed)?;
    put_number(out, at)
}

/// Appends a task, what it did, and the tasks that it did it to.
fn put_list(
    out: &mut Vec<u8>,
    by: TaskNo,
    deed: &[u8],
    tasks: &TaskList,
    names: &Names,
) -> Result<(), AllocError>
    ensures text { OnOk result (out.new.items ≡ out.old.items
        ++ (task_text names.now by ++ deed.now ++ flat_map (listed_text names.now) tasks.now)) }
    ensures starts { KeepsStarts out.old.items out.new.items }
{
    put_task(out, by, names)?;
    put(out, deed)?;
    put_tasks(out, tasks, names)
}

fn put_elaborated(out: &mut Vec<u8>, by: TaskNo, ok: bool, names: &Names) -> Result<(), AllocError>
    ensures text { OnOk result (out.new.items ≡ out.old.items
        ++ event_text names.now 0 (events.Elaborated by ok)) }
    ensures starts { KeepsStarts out.old.items out.new.items }
{
    put_task(out, by, names)?;
    if ok {
        put(out, b" up")
    } else {
        put(out, b" failed")
    }
}

fn put_paused(out: &mut Vec<u8>, by: TaskNo, due: i64, names: &Names) -> Result<(), AllocError>
    ensures text { OnOk result (out.new.items ≡ out.old.items
        ++ event_text names.now 0 (events.Paused by due)) }
    ensures starts { KeepsStarts out.old.items out.new.items }
{
    put_task(out, by, names)?;
    put(out, b" paused until ")?;
    put_integer(out, due)
}

fn put_ended(
    out: &mut Vec<u8>,
    by: TaskNo,
    call: u32,
    raised: bool,
    names: &Names,
) -> Result<(), AllocError>
    ensures text { OnOk result (out.new.items ≡ out.old.items
        ++ event_text names.now 0 (events.Ended by call raised)) }
    ensures starts { KeepsStarts out.old.items out.new.items }
{
    put_task(out, by, names)?;
    if raised {
        put(out, b" raised ")?;
    } else {
        put(out, b" ended ")?;
    }
    put_number(out, call)
}

fn put_closed(out: &mut Vec<u8>, by: TaskNo, block: u32, names: &Names) -> Result<(), AllocError>
    ensures text { OnOk result (out.new.items ≡ out.old.items
        ++ event_text names.now 0 (events.Closed by block)) }
    ensures starts { KeepsStarts out.old.items out.new.items }
{
    put_task(out, by, names)?;
    put(out, b" closed ")?;
    put_block(out, block, names)
}

fn put_ticked(out: &mut Vec<u8>, now: i64) -> Result<(), AllocError>
    ensures text { OnOk result (out.new.items ≡ out.old.items
        ++ (codes "ticked " ++ signed_decimal now)) }
    ensures starts { KeepsStarts out.old.items out.new.items }
{
    put(out, b"ticked ")?;
    put_integer(out, now)
}

/// Appends what happened to a task.
fn put_fate(out: &mut Vec<u8>, fate: &[u8], task: TaskNo, names: &Names) -> Result<(), AllocError>
    ensures text { OnOk result (out.new.items ≡ out.old.items
        ++ (fate.now ++ task_text names.now task)) }
    ensures starts { KeepsStarts out.old.items out.new.items }
{
    put(out, fate)?;
    put_task(out, task, names)
}

fn put_met(out: &mut Vec<u8>, call: u32, wait: u32) -> Result<(), AllocError>
    ensures text { OnOk result (out.new.items ≡ out.old.items
        ++ (codes "met " ++ decimal call ++ codes " " ++ decimal wait)) }
    ensures starts { KeepsStarts out.old.items out.new.items }
{
    put(out, b"met ")?;
    put_number(out, call)?;
    put_byte(out, b' ')?;
    put_number(out, wait)
}

fn put_passed(out: &mut Vec<u8>, wait: u32, way: Way) -> Result<(), AllocError>
    ensures text { OnOk result (out.new.items ≡ out.old.items
        ++ (codes "passed " ++ decimal wait ++ way_text way)) }
    ensures starts { KeepsStarts out.old.items out.new.items }
{
    put(out, b"passed ")?;
    put_number(out, wait)?;
    put_way(out, way)
}

fn put_activated(out: &mut Vec<u8>, start: u32, ok: bool) -> Result<(), AllocError>
    ensures text { OnOk result (out.new.items ≡ out.old.items
        ++ (codes "activated " ++ decimal start ++ (if ok then codes " ok" else codes " failed"))) }
    ensures starts { KeepsStarts out.old.items out.new.items }
{
    put(out, b"activated ")?;
    put_number(out, start)?;
    if ok {
        put(out, b" ok")
    } else {
        put(out, b" failed")
    }
}

fn put_quit(out: &mut Vec<u8>, master: Master, names: &Names) -> Result<(), AllocError>
    ensures text { OnOk result (out.new.items ≡ out.old.items
        ++ (codes "quit " ++ master_text names.now master)) }
    ensures starts { KeepsStarts out.old.items out.new.items }
{
    put(out, b"quit ")?;
    put_master(out, master, names)
}

/// Appends the text of the event at a position.
pub fn put_event(out: &mut Vec<u8>, at: u32, event: &Event, names: &Names) -> Result<(), AllocError>
    ensures text { OnOk result (out.new.items ≡ out.old.items
        ++ event_text names.now at event.now) }
    ensures starts { KeepsStarts out.old.items out.new.items }
{
    match event {
        Event::Opened { by, under } => put_opened(out, at, *by, *under, names),
        Event::Created {
            by,
            master,
            families,
            ..
        } => put_created(out, at, *by, *master, families, names),
        Event::Started { by, tasks } => put_list(out, *by, b" started", tasks, names),
        Event::Elaborated { by, ok } => put_elaborated(out, *by, *ok, names),
        Event::Called {
            by,
            callee,
            entry,
            patience,
            due,
        } => put_called(out, *by, *callee, *entry, *patience, *due, names),
        Event::Waiting {
            by,
            choices,
            tail,
            pick,
        } => put_waiting(out, *by, choices, tail, *pick, names),
        Event::Paused { by, due } => put_paused(out, *by, *due, names),
        Event::Ended { by, call, raised } => put_ended(out, *by, *call, *raised, names),
        Event::Closed { by, block } => put_closed(out, *by, *block, names),
        Event::Completed { by } => put_deed(out, *by, b" completed", names),
        Event::Aborted { by, tasks } => put_list(out, *by, b" aborted", tasks, names),
        Event::Ticked { now } => put_ticked(out, *now),
        Event::Halted { task } => put_fate(out, b"halted ", *task, names),
        Event::Failed { call } => put_numbered(out, b"failed ", *call),
        Event::Met { call, wait } => put_met(out, *call, *wait),
        Event::Cancelled { call } => put_numbered(out, b"cancelled ", *call),
        Event::Passed { wait, way } => put_passed(out, *wait, *way),
        Event::Woken { pause } => put_numbered(out, b"woken ", *pause),
        Event::Activated { start, ok } => put_activated(out, *start, *ok),
        Event::Gone { task } => put_fate(out, b"gone ", *task, names),
        Event::Quit { master } => put_quit(out, *master, names),
        Event::Left { close } => put_numbered(out, b"left ", *close),
    }
}
