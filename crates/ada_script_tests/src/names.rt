//! What statements ask once their names are bound, and what is printed.

use crate::common::{assert_found, assert_text, passed, script_of, with_script};
use ada_events::{Event, Refusal, Request, TaskNo};
use ada_script::{
    Cause, Line, Names, Script, Value, request, write_event, write_refusal, write_shown,
};
use ada_test_requests::{call, end};
use std::process::Abort;
use std::test::Fail;

const MAIN: TaskNo = TaskNo(0);

const TASK: TaskNo = TaskNo(1);

const CALLER: TaskNo = TaskNo(2);

const RENDEZVOUS: &[u8] = b"main: create S under main E
main: create C under main
main: activate S C
S: up
C: up
C: call S E
S: accept E
S: end
";

/// The names of a script, whose tasks were made in the order of its first lines.
fn bound_names(script: &Script) -> Result<Names, Cause> {
    let mut names = script.names()?;
    bind(&mut names, script.lines(), 0, 1, TASK);
    bind(&mut names, script.lines(), 1, 2, CALLER);
    Ok(names)
}

/// Writes a tick with the names of a script.
fn write_tick(script: &Script, text: &mut Vec<u8>) -> Result<(), Cause> {
    let names = script.names()?;
    write_event(1, &Event::Ticked { now: -5 }, &names, text)
}

fn assert_tick<R: Abort + AllocGlobal>(rt: &R, script: &Script) -> Result<(), Cause> {
    let mut text = Vec::new(rt.alloc());
    write_tick(script, &mut text)?;
    assert_text(rt, &text, b"1 ticked -5\n");
    Ok(())
}

// Where there is memory, a script has its names, and an event its line.
#[test]
fn always_out_of_memory(rt: HostRuntime) -> Result<(), Fail> {
    with_script(&rt, RENDEZVOUS, assert_tick)
}

/// What a line of the script asks under these names.
fn asked(script: &Script, names: &Names, place: usize) -> Option<Request> {
    request(&script.lines().get(place)?.statement, names)
}

fn assert_asks(rt: &impl Abort, script: &Script, names: &Names, place: usize, wanted: Request) {
    assert_found(rt, &asked(script, names, place), &Some(wanted));
}

/// The requests of two lines, once their names are bound.
fn asks_bound<R: Abort>(rt: &R, script: &Script) -> Result<(), Cause> {
    let names = bound_names(script)?;
    assert_asks(rt, script, &names, 5, call(2, 1, 0));
    assert_asks(rt, script, &names, 7, end(1, false));
    Ok(())
}

#[test]
fn asks_what_is_written(rt: HostRuntime) -> Result<(), Fail> {
    with_script(&rt, RENDEZVOUS, asks_bound)
}

/// The request of a line whose name isn't bound.
fn asks_unbound<R: Abort>(rt: &R, script: &Script) -> Result<(), Cause> {
    let names = script.names()?;
    assert_asks(rt, script, &names, 7, end(65_535, false));
    Ok(())
}

#[test]
fn unbound_names_stand_for_no_task(rt: HostRuntime) -> Result<(), Fail> {
    with_script(&rt, RENDEZVOUS, asks_unbound)
}

/// The number of the last line.
fn last_number(lines: &[Line]) -> Option<u32> {
    Some(lines.last()?.line)
}

fn assert_numbered<R: Abort>(rt: &R, script: &Script) -> Result<(), Cause> {
    assert_found(rt, &script.lines().len(), &8);
    assert_found(rt, &last_number(script.lines()), &Some(8));
    Ok(())
}

#[test]
fn lines_are_numbered(rt: HostRuntime) -> Result<(), Fail> {
    with_script(&rt, RENDEZVOUS, assert_numbered)
}

/// Binds what a line creates, at a position.
fn bind(names: &mut Names, lines: &[Line], place: usize, at: u32, made: TaskNo) {
    if let Some(line) = lines.get(place) {
        names.bind(&line.statement, at, made);
    }
}

fn write_halt(at: u32, task: TaskNo, names: &Names, text: &mut Vec<u8>) -> Result<(), Cause> {
    write_event(at, &Event::Halted { task }, names, text)
}

/// Bound beyond the room for tasks, two names to one position, and one name a second time.
fn write_halts(lines: &[Line], names: &mut Names, text: &mut Vec<u8>) -> Result<(), Cause> {
    write_halt(1, MAIN, names, text)?;
    bind(names, lines, 0, 1, TASK);
    write_halt(2, TASK, names, text)?;
    bind(names, lines, 1, 1, TaskNo(300));
    write_halt(3, TaskNo(300), names, text)?;
    bind(names, lines, 0, 1, CALLER);
    write_halt(4, CALLER, names, text)?;
    write_halt(5, TASK, names, text)
}

fn assert_halts<R: Abort + AllocGlobal>(
    rt: &R,
    lines: &[Line],
    names: &mut Names,
) -> Result<(), Fail> {
    let mut text = Vec::new(rt.alloc());
    passed(write_halts(lines, names, &mut text))?;
    assert_text(
        rt,
        &text,
        b"1 halted main\n2 halted S\n3 halted C\n4 halted S\n5 halted task#1\n",
    );
    Ok(())
}

#[test]
fn names_what_has_no_room(rt: HostRuntime) -> Result<(), Fail> {
    let script = script_of(&rt, RENDEZVOUS)?;
    let (lines, mut names) = script.into_parts()?;
    assert_halts(&rt, lines.as_slice(), &mut names)
}

/// Writes a line that was refused, and two that showed what they asked for.
fn write_answers(out: &mut Vec<u8>) -> Result<(), Cause> {
    write_refusal(14, Refusal::NotInAccept, out)?;
    write_shown(15, Value::Truth(true), out)?;
    write_shown(16, Value::Number(0), out)
}

// Where there is memory, a line that shows COUNT or another attribute is printed, and one that is refused.
#[test]
fn count_always_refuses(rt: HostRuntime) -> Result<(), Fail> {
    let mut out = Vec::new(rt.alloc());
    passed(write_answers(&mut out))?;
    assert_text(
        &rt,
        &out,
        b"refused line 14: NotInAccept\nshown line 15: true\nshown line 16: 0\n",
    );
    Ok(())
}
