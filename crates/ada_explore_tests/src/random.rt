//! Small random scripts, of which the search finds what a plain one finds.

use crate::plain::{AS_WRITTEN, Ends, ends_of};
use ada_explore::{Freedom, Halt, Space, Unwatched, explore};
use ada_script::read;
use ada_test_requests::Dice;
use std::alloc::{AllocError, Global};
use std::process::Abort;
use std::test::Fail;

/// So many scripts are tried by each test. One that has more schedules than these, with all that begin them, is left
/// out.
const SCRIPTS: u32 = 500;

const MOST: u32 = 300;

// A line or a few of a task, of which another one has the entry `E`, too.
fn write_body(text: &mut String, dice: &mut Dice, me: &str, other: &str) -> Result<(), AllocError> {
    match dice.below(11) {
        0 => write!(text, "{me}: accept E\n{me}: end\n"),
        1 => write!(text, "{me}: call {other} E\n"),
        2 => write!(text, "{me}: call {other} E\n{me}: accept E\n{me}: end\n"),
        3 => write!(text, "{me}: accept E\n{me}: end\n{me}: call {other} E\n"),
        4 => write!(text, "{me}: try {other} E\n"),
        5 => write!(text, "{me}: select 0 accept E or terminate\n{me}: end\n"),
        6 => write!(text, "{me}: call {other} E within 5\n"),
        7 => write!(text, "{me}: abort {other}\n"),
        8 => write!(text, "{me}: delay 5\n"),
        9 => write!(text, "{me}: select 0 accept E or delay 5\n{me}: end\n"),
        _ => Ok(()),
    }
}

fn write_task(text: &mut String, dice: &mut Dice, me: &str, other: &str) -> Result<(), AllocError> {
    write!(text, "{me}: up\n")?;
    write_body(text, dice, me, other)?;
    if dice.one_in(4) {
        return write_body(text, dice, me, other);
    }
    write!(text, "{me}: complete\n")
}

// Two tasks, or three, that call one another, and a main program that ends or doesn't.
fn script_text(alloc: Global, dice: &mut Dice) -> Result<String, AllocError> {
    let mut text = String::new(alloc);
    let has_third = dice.one_in(3);
    text.push_str("main: create A under main E\nmain: create B under main E\n")?;
    if has_third {
        text.push_str("main: create C under main E\n")?;
    }
    text.push_str(if has_third {
        "main: activate A B C\n"
    } else {
        "main: activate A B\n"
    })?;
    write_task(&mut text, dice, "A", "B")?;
    write_task(&mut text, dice, "B", if has_third { "C" } else { "A" })?;
    if has_third {
        write_task(&mut text, dice, "C", "A")?;
    }
    if !dice.one_in(3) {
        text.push_str("main: complete\n")?;
    }
    if dice.one_in(2) {
        text.push_str("tick 10\n")?;
    }
    Ok(text)
}

/// Whether the search finds of a script what there is.
pub fn finds(space: Space<'_>, ends: Ends) -> Result<bool, Halt> {
    let found = explore(space, u32::MAX, &mut Unwatched)?;
    let stuck = match &found.stuck {
        Some(path) => Some(path.len()),
        None => None,
    };
    let stops = ends.stuck.is_none() && ends.stops;
    let none = ends.stuck.is_none() && !ends.stops;
    Ok(stuck == ends.stuck && found.stopped.is_some() == stops && found.covered.is_some() == none)
}

/// The first script of these of which the search finds something else, and no text if there is none.
pub fn first_differing(alloc: Global, dice: &mut Dice, freedom: Freedom) -> Result<String, Halt> {
    let mut tried = 0u32;
    for _ in 0..u16::MAX {
        if tried == SCRIPTS {
            return Ok(String::new(alloc));
        }
        let text = script_text(alloc, dice).map_err(|_| Halt::Memory)?;
        let script = read(alloc, text.as_bytes()).map_err(|_| Halt::Memory)?;
        let space = Space::new(alloc, &script, freedom)?;
        match ends_of(space, MOST) {
            Err(Halt::TooLong) => {}
            Ok(ends) if finds(space, ends)? => tried = tried.saturating_add(1),
            Ok(_) => return Ok(text),
            Err(halt) => return Err(halt),
        }
    }
    Err(Halt::TooLong)
}

fn assert_alike<R: Abort + AllocGlobal>(rt: &R, seed: u64) -> Result<(), Fail> {
    let differing = first_differing(rt.alloc(), &mut Dice::new(seed), AS_WRITTEN)?;
    assert_eq!(rt; differing.as_str(), "");
    Ok(())
}

#[test]
fn finds_the_same_of_random_scripts(rt: HostRuntime) -> Result<(), Fail> {
    assert_alike(&rt, 1)
}

#[test]
fn finds_the_same_of_others(rt: HostRuntime) -> Result<(), Fail> {
    assert_alike(&rt, 2)
}

#[test]
fn finds_the_same_of_more(rt: HostRuntime) -> Result<(), Fail> {
    assert_alike(&rt, 3)
}

#[test]
fn finds_the_same_of_still_more(rt: HostRuntime) -> Result<(), Fail> {
    assert_alike(&rt, 4)
}
