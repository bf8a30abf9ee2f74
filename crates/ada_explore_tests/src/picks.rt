//! What is found of scripts whose selective waits may have other picks than those that are written.

use crate::plain::{AS_WRITTEN, Ends, ends_of};
use crate::random::finds;
use ada_explore::{Freedom, Halt, Picks, Space, Time, Turn, Unwatched, explore};
use ada_script::read;
use ada_test_requests::Dice;
use std::alloc::{AllocError, Global};
use std::test::Fail;

// A tick comes if nobody can act, so both calls are queued when S selects. As it is written it takes that of C, and
// then accepts that of D. With the other pick it takes that of D, and waits for another one. By hand: three creations,
// the activation, three tasks are up, a delay, two calls, `main: complete` and the tick; then S selects and ends, D
// completes, and S accepts.
static TWO_QUEUES: &[u8] = b"main: create S under main A B
main: create C under main
main: create D under main
main: activate S C D
S: up
C: up
D: up
S: delay 5
C: call S A
C: complete
D: call S B
D: complete
tick 5
S: select 0 accept A or accept B
S: end
S: accept B
S: end
S: complete
main: complete
";

// So many random scripts are tried. One that has more schedules than these, with all that begin them, is left out.
const SCRIPTS: u32 = 100;

const MOST: u32 = 300;

// Each selective wait is tried with so many picks by the plain search, more than it has alternatives of a kind.
const PICKS: u32 = 3;

fn stuck_in(alloc: Global, text: &[u8], picks: Picks) -> Result<Option<Vec<Turn>>, Halt> {
    let script = read(alloc, text).map_err(|_| Halt::Memory)?;
    let freedom = Freedom {
        picks,
        time: Time::ByTicks,
    };
    let space = Space::new(alloc, &script, freedom)?;
    let found = explore(space, u32::MAX, &mut Unwatched)?;
    if found.stuck.is_some() == found.covered.is_some() {
        return Err(Halt::TooLong);
    }
    Ok(found.stuck)
}

#[test]
fn finds_the_pick_that_gets_stuck(rt: HostRuntime) -> Result<(), Fail> {
    assert!(rt; stuck_in(rt.alloc(), TWO_QUEUES, Picks::AsWritten)?.is_none());
    let Some(path) = stuck_in(rt.alloc(), TWO_QUEUES, Picks::All)? else {
        assert!(rt; false);
        return Ok(());
    };
    assert_eq!(&rt; path.len(), 16);
    let select = Turn::Line {
        place: 13,
        pick: Some(1),
    };
    assert_eq!(&rt; path.get(12), Some(&select));
    Ok(())
}

// A selective wait of A, whose pick `#` stands for, and what A accepts after it.
fn write_waits(text: &mut String, dice: &mut Dice) -> Result<(), AllocError> {
    if dice.one_in(2) {
        text.push_str("A: delay 5\n")?;
    }
    text.push_str(match dice.below(4) {
        0 => "A: select # accept E or delay 5 or delay 5\nA: end\n",
        _ => "A: select # accept E or accept F\nA: end\n",
    })?;
    text.push_str(match dice.below(4) {
        0 => "A: accept E\nA: end\n",
        1 => "A: accept F\nA: end\n",
        2 => "A: select # accept F or accept E\nA: end\n",
        _ => "",
    })
}

// A call of A.
fn write_call(text: &mut String, dice: &mut Dice, me: &str) -> Result<(), AllocError> {
    match dice.below(6) {
        0 | 1 => write!(text, "{me}: call A E\n"),
        2 | 3 => write!(text, "{me}: call A F\n"),
        4 => write!(text, "{me}: call A E within 5\n"),
        _ => write!(text, "{me}: try A F\n"),
    }
}

// A task that waits for calls, and two that call it: another one and the main program.
fn script_text(alloc: Global, dice: &mut Dice) -> Result<String, AllocError> {
    let mut text = String::new(alloc);
    text.push_str("main: create A under main E F\nmain: create B under main\n")?;
    text.push_str("main: activate A B\nA: up\n")?;
    write_waits(&mut text, dice)?;
    text.push_str("A: complete\nB: up\n")?;
    write_call(&mut text, dice, "B")?;
    text.push_str("B: complete\n")?;
    write_call(&mut text, dice, "main")?;
    text.push_str("main: complete\ntick 10\n")?;
    Ok(text)
}

// A script with the picks that a number says, the first one by its last digit.
fn variant(alloc: Global, text: &str, number: u32) -> Result<String, AllocError> {
    let mut with_picks = String::new(alloc);
    let mut left = number;
    for part in text.split('#') {
        if !with_picks.is_empty() {
            write!(with_picks, "{}", left % PICKS)?;
            left /= PICKS;
        }
        with_picks.push_str(part)?;
    }
    Ok(with_picks)
}

// What the schedules of a script come to, with whatever picks.
fn ends_of_all(alloc: Global, text: &str, variants: u32) -> Result<Ends, Halt> {
    let mut all = Ends {
        stuck: None,
        stops: false,
    };
    for number in 0..variants {
        let with_picks = variant(alloc, text, number).map_err(|_| Halt::Memory)?;
        let script = read(alloc, with_picks.as_bytes()).map_err(|_| Halt::Memory)?;
        let space = Space::new(alloc, &script, AS_WRITTEN)?;
        all = all.with(ends_of(space, MOST)?);
    }
    Ok(all)
}

// The first script of these of which the search finds something else, and no text if there is none.
fn first_differing(alloc: Global, dice: &mut Dice) -> Result<String, Halt> {
    let mut tried = 0u32;
    for _ in 0..u16::MAX {
        if tried == SCRIPTS {
            return Ok(String::new(alloc));
        }
        let text = script_text(alloc, dice).map_err(|_| Halt::Memory)?;
        let waits = u32::try_from(text.split('#').count()).unwrap_or(u32::MAX);
        if waits < 2 {
            continue;
        }
        let ends = match ends_of_all(alloc, &text, PICKS.saturating_pow(waits - 1)) {
            Err(Halt::TooLong) => continue,
            ends => ends?,
        };
        let with_picks = variant(alloc, &text, dice.below(9)).map_err(|_| Halt::Memory)?;
        let script = read(alloc, with_picks.as_bytes()).map_err(|_| Halt::Memory)?;
        let freedom = Freedom {
            picks: Picks::All,
            time: Time::ByTicks,
        };
        let space = Space::new(alloc, &script, freedom)?;
        if !finds(space, ends)? {
            return Ok(with_picks);
        }
        tried = tried.saturating_add(1);
    }
    Err(Halt::TooLong)
}

#[test]
fn finds_the_same_with_all_picks(rt: HostRuntime) -> Result<(), Fail> {
    let differing = first_differing(rt.alloc(), &mut Dice::new(5))?;
    assert_eq!(&rt; differing.as_str(), "");
    Ok(())
}
