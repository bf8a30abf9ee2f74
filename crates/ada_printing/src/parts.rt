//! Printing the parts of events.

ghost use Rattle.std.specs.Prelude.{◌≡◌, ◌++◌, ◌∷◌, [], OnOk, decimal};
ghost use Rattle.std.specs.Fmt.{signed_decimal};
ghost use Rattle.std.specs.List.{flat_map};
ghost use Rattle.ada_printing.specs.internal.Appending.{KeepsStarts};
ghost use Rattle.ada_printing.specs.Texts.{task_text, made_text, block_text, master_text, family_text, entry_text, listed_text, families_text, range_text};
ghost use Rattle.ada_printing.specs.Texts.{family_bounds_text, until_text, guard_text, choice_text, due_text, tail_text, way_text};

use ada_events::{
    Choice, ChoiceList, Dues, Entry, EventTail, Family, FamilyList, Master, TaskList, TaskNo, Way,
};
use ada_statements::{Bound, Name, Names};
use itoa::Buffer;
use std::alloc::AllocError;

/// Appends bytes.
pub fn put(out: &mut Vec<u8>, bytes: &[u8]) -> Result<(), AllocError>
    ensures text { OnOk result (out.new.items ≡ out.old.items ++ bytes.now) }
    ensures starts { KeepsStarts out.old.items out.new.items }
{
    out.extend_from_slice(bytes)
}

/// Appends a byte.
pub fn put_byte(out: &mut Vec<u8>, byte: u8) -> Result<(), AllocError>
    ensures text { OnOk result (out.new.items ≡ out.old.items ++ byte ∷ []) }
    ensures starts { KeepsStarts out.old.items out.new.items }
{
    out.push(byte)?;
    Ok(())
}

/// Appends a number in decimal.
pub fn put_number(out: &mut Vec<u8>, number: u32) -> Result<(), AllocError>
    ensures text { OnOk result (out.new.items ≡ out.old.items ++ decimal number) }
    ensures starts { KeepsStarts out.old.items out.new.items }
{
    let mut buffer = Buffer::new();
    put(out, buffer.format(number).as_bytes())
}

/// Appends a signed number in decimal.
pub fn put_integer(out: &mut Vec<u8>, number: i64) -> Result<(), AllocError>
    ensures text { OnOk result (out.new.items ≡ out.old.items ++ signed_decimal number) }
    ensures starts { KeepsStarts out.old.items out.new.items }
{
    let mut buffer = Buffer::new();
    put(out, buffer.format(number).as_bytes())
}

/// Appends what stands for a name where there is none: a sign and a number.
#[inline(never)]
fn put_unnamed(out: &mut Vec<u8>, sign: &[u8], number: u32) -> Result<(), AllocError>
    ensures text { OnOk result (out.new.items ≡ out.old.items ++ (sign.now ++ decimal number)) }
    ensures starts { KeepsStarts out.old.items out.new.items }
{
    put(out, sign)?;
    put_number(out, number)
}

/// Appends the name of a task.
#[inline(always)]
pub fn put_task(out: &mut Vec<u8>, task: TaskNo, names: &Names) -> Result<(), AllocError>
    ensures text { OnOk result (out.new.items ≡ out.old.items ++ task_text names.now task) }
    ensures starts { KeepsStarts out.old.items out.new.items }
{
    match names.bound_to(Bound::Task(task)) {
        Some((name, _)) => put(out, name.as_bytes()),
        None => put_unnamed(out, b"task#", u32::from(task.0)),
    }
}

/// Appends the name of the task that the event at a position made.
pub fn put_made(out: &mut Vec<u8>, at: u32, names: &Names) -> Result<(), AllocError>
    ensures text { OnOk result (out.new.items ≡ out.old.items ++ made_text names.now at) }
    ensures starts { KeepsStarts out.old.items out.new.items }
{
    match names.bound_to(Bound::Made(at)) {
        Some((name, _)) => put(out, name.as_bytes()),
        None => put(out, b"task#?"),
    }
}

/// Appends the name of the block that was opened at a position.
pub fn put_block(out: &mut Vec<u8>, at: u32, names: &Names) -> Result<(), AllocError>
    ensures text { OnOk result (out.new.items ≡ out.old.items ++ block_text names.now at) }
    ensures starts { KeepsStarts out.old.items out.new.items }
{
    match names.bound_to(Bound::Opened(at)) {
        Some((name, _)) => put(out, name.as_bytes()),
        None => put_unnamed(out, b"block#", at),
    }
}

/// Appends the name of a master.
pub fn put_master(out: &mut Vec<u8>, master: Master, names: &Names) -> Result<(), AllocError>
    ensures text { OnOk result (out.new.items ≡ out.old.items ++ master_text names.now master) }
    ensures starts { KeepsStarts out.old.items out.new.items }
{
    match master {
        Master::Body(task) => put_task(out, task, names),
        Master::Block(at) => put_block(out, at, names),
    }
}

/// Appends the name of the family at a place among others.
fn put_family(out: &mut Vec<u8>, place: u8, families: &[Name]) -> Result<(), AllocError>
    ensures text { OnOk result (out.new.items ≡ out.old.items ++ family_text families.now place) }
    ensures starts { KeepsStarts out.old.items out.new.items }
{
    match families.get(usize::from(place)) {
        Some(name) => put(out, name.as_bytes()),
        None => put_unnamed(out, b"entry#", u32::from(place)),
    }
}

/// Appends an entry of a task.
pub fn put_entry(
    out: &mut Vec<u8>,
    task: TaskNo,
    entry: Entry,
    names: &Names,
) -> Result<(), AllocError>
    ensures text { OnOk result (out.new.items ≡ out.old.items ++ entry_text names.now task entry) }
    ensures starts { KeepsStarts out.old.items out.new.items }
{
    put_family(out, entry.family, names.families(Bound::Task(task)))?;
    put_byte(out, b'(')?;
    put_integer(out, i64::from(entry.index))?;
    put_byte(out, b')')
}

/// Appends a task behind a space.
fn put_listed(out: &mut Vec<u8>, task: TaskNo, names: &Names) -> Result<(), AllocError>
    ensures text { OnOk result (out.new.items ≡ out.old.items ++ listed_text names.now task) }
    ensures starts { KeepsStarts out.old.items out.new.items }
{
    put_byte(out, b' ')?;
    put_task(out, task, names)
}

/// Appends tasks, each behind a space.
pub fn put_tasks(out: &mut Vec<u8>, tasks: &TaskList, names: &Names) -> Result<(), AllocError>
    ensures text { OnOk result (out.new.items ≡ out.old.items
        ++ flat_map (listed_text names.now) tasks.now) }
    ensures starts { KeepsStarts out.old.items out.new.items }
{
    for task in tasks.as_slice() {
        put_listed(out, *task, names)?;
    }
    Ok(())
}

/// Appends the bounds of a family.
fn put_range(out: &mut Vec<u8>, family: Family) -> Result<(), AllocError>
    ensures text { OnOk result (out.new.items ≡ out.old.items ++ range_text family) }
    ensures starts { KeepsStarts out.old.items out.new.items }
{
    put_byte(out, b'(')?;
    put_integer(out, i64::from(family.low))?;
    put(out, b"..")?;
    put_integer(out, i64::from(family.high))?;
    put_byte(out, b')')
}

/// Appends a family with its bounds.
fn put_bounds(
    out: &mut Vec<u8>,
    place: u8,
    family: Family,
    families: &[Name],
) -> Result<(), AllocError>
    ensures text { OnOk result (out.new.items ≡ out.old.items
        ++ family_bounds_text families.now place family) }
    ensures starts { KeepsStarts out.old.items out.new.items }
{
    put_byte(out, b' ')?;
    put_family(out, place, families)?;
    put_range(out, family)
}

/// Appends the families of the task that the event at a position made.
pub fn put_families(
    out: &mut Vec<u8>,
    families: &FamilyList,
    declared: &[Name],
) -> Result<(), AllocError>
    ensures text { OnOk result (out.new.items ≡ out.old.items
        ++ families_text declared.now families.now) }
    ensures starts { KeepsStarts out.old.items out.new.items }
{
    if families.as_slice().is_empty() {
        return Ok(());
    }
    put(out, b" with")?;
    for (place, family) in families.as_slice().iter().enumerate() {
        put_bounds(out, place as u8, *family, declared)?;
    }
    Ok(())
}

/// Appends the moment at which a timed call ends.
pub fn put_until(out: &mut Vec<u8>, due: Option<i64>) -> Result<(), AllocError>
    ensures text { OnOk result (out.new.items ≡ out.old.items ++ until_text due) }
    ensures starts { KeepsStarts out.old.items out.new.items }
{
    match due {
        None => Ok(()),
        Some(due) => {
            put(out, b" until ")?;
            put_integer(out, due)
        }
    }
}

/// Appends the guard of an alternative, which has a word where it is false.
fn put_guard(out: &mut Vec<u8>, guard: bool) -> Result<(), AllocError>
    ensures text { OnOk result (out.new.items ≡ out.old.items ++ guard_text guard) }
    ensures starts { KeepsStarts out.old.items out.new.items }
{
    if guard { Ok(()) } else { put(out, b" closed") }
}

/// Appends an accept alternative.
fn put_choice(
    out: &mut Vec<u8>,
    by: TaskNo,
    choice: Choice,
    names: &Names,
) -> Result<(), AllocError>
    ensures text { OnOk result (out.new.items ≡ out.old.items ++ choice_text names.now by choice) }
    ensures starts { KeepsStarts out.old.items out.new.items }
{
    put_guard(out, choice.guard)?;
    put(out, b" accept ")?;
    put_entry(out, by, choice.entry, names)
}

/// Appends accept alternatives.
pub fn put_choices(
    out: &mut Vec<u8>,
    by: TaskNo,
    choices: &ChoiceList,
    names: &Names,
) -> Result<(), AllocError>
    ensures text { OnOk result (out.new.items ≡ out.old.items
        ++ flat_map (choice_text names.now by) choices.now) }
    ensures starts { KeepsStarts out.old.items out.new.items }
{
    for choice in choices.as_slice() {
        put_choice(out, by, *choice, names)?;
    }
    Ok(())
}

/// Appends a delay alternative, which is closed where it is never due.
fn put_due(out: &mut Vec<u8>, due: Option<i64>) -> Result<(), AllocError>
    ensures text { OnOk result (out.new.items ≡ out.old.items ++ due_text due) }
    ensures starts { KeepsStarts out.old.items out.new.items }
{
    match due {
        None => put(out, b" closed delay"),
        Some(due) => {
            put(out, b" delay ")?;
            put_integer(out, due)
        }
    }
}

/// Appends delay alternatives.
fn put_dues(out: &mut Vec<u8>, dues: &Dues) -> Result<(), AllocError>
    ensures text { OnOk result (out.new.items ≡ out.old.items ++ flat_map due_text dues.now) }
    ensures starts { KeepsStarts out.old.items out.new.items }
{
    for due in dues.as_slice() {
        put_due(out, *due)?;
    }
    Ok(())
}

/// Appends the tail of a wait.
pub fn put_tail(out: &mut Vec<u8>, tail: &EventTail) -> Result<(), AllocError>
    ensures text { OnOk result (out.new.items ≡ out.old.items ++ tail_text tail.now) }
    ensures starts { KeepsStarts out.old.items out.new.items }
{
    match tail {
        EventTail::Nothing => Ok(()),
        EventTail::Otherwise => put(out, b" else"),
        EventTail::Delays(dues) => put_dues(out, dues.get()),
        EventTail::Terminate(guard) => {
            put_guard(out, *guard)?;
            put(out, b" terminate")
        }
    }
}

/// Appends the way in which a wait ended.
pub fn put_way(out: &mut Vec<u8>, way: Way) -> Result<(), AllocError>
    ensures text { OnOk result (out.new.items ≡ out.old.items ++ way_text way) }
    ensures starts { KeepsStarts out.old.items out.new.items }
{
    match way {
        Way::Otherwise => put(out, b" else"),
        Way::Delay(alternative) => {
            put(out, b" delay ")?;
            put_number(out, u32::from(alternative))
        }
        Way::ProgramError => put(out, b" program_error"),
    }
}
