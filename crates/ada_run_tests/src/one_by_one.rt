//! Scripts of which each speaker's lines are played by work of its own, one after another.
ghost use Rattle.std.specs.Prelude.{◌≡◌};

use crate::all_at_once::AllAtOnce;
use ada_board::History;
use ada_events::Refusal;
use ada_hall::{Answer, Hall, Session};
use ada_run::{Free, Gate, InTurn, Report, Seat, Shared, open_hall, work};
use ada_script::{Script, Value, read};
use std::marker::Brand;
use std::sync::Wait;
use std::sync::ledger::Blank;
use std::test::Fail;

/// Two speakers, whose lines stand one speaker after the other.
const ONE_BY_ONE: &[u8] = b"main: create S under main E
main: activate S
S: up
S: show count E
S: accept E
";

/// A task that is never activated.
const UNSTARTED: &[u8] = b"main: create S under main E
main: show callable S
S: up
tick 5
";

/// A tick to the moment until which the main program is delayed, and a task that is never activated.
const TICKED: &[u8] = b"main: create S under main E
main: delay 5
tick 5
S: up
";

/// How many requests of each speaker were accepted and refused, the total, and the answers to two places.
type Came = ([(u32, u32); 2], u32, Option<Answer>, Option<Answer>);

/// The work of the speaker of a seat.
fn report<J: Session, R: Wait, G: Gate>(
    rt: &R,
    shared: &Shared<'_, J>,
    script: &Script,
    seat: Seat<J>,
    gate: &G,
) -> Report<J> {
    let Seat {
        speaker,
        reader,
        share,
    } = seat;
    work(rt, shared, script, speaker, reader, share, gate)
}

/// The work of two speakers, one after the other.
fn two_reports<J: Session, R: Wait, G: Gate>(
    rt: &R,
    shared: &Shared<'_, J>,
    script: &Script,
    mut seats: Vec<Seat<J>>,
    gate: &G,
) -> Result<(Report<J>, Report<J>), Fail> {
    let (Some(second), Some(first)) = (seats.pop(), seats.pop()) else {
        return Err("two seats".into());
    };
    let main = report(rt, shared, script, first, gate);
    let other = report(rt, shared, script, second, gate);
    Ok((main, other))
}

/// What two reports say, and the hall that they are of. What was accepted adds up to its total.
fn came_of<J: Session>(hall: &mut Hall<'_, J>, reports: (Report<J>, Report<J>)) -> Came
    requires { J.parts ≡ 2 }
{
    let (main, other) = reports;
    let counts = [
        (main.accepted, main.refused),
        (other.accepted, other.refused),
    ];
    let mut whole = main.share;
    whole.merge(other.share);
    hall.audit(&mut whole);
    (counts, hall.total(), hall.answer(2), hall.answer(3))
}

fn played<J: Session, R: Wait + AllocGlobal, G: Gate>(
    rt: &R,
    history: History,
    blank: Blank,
    script: &Script,
    gate: &G,
) -> Result<Came, Fail>
    requires named { history ≡ J.book }
    requires script { script.now ≡ J.script }
    requires ledger { (blank.name ≡ J.name) × (blank.parts ≡ J.parts) }
    requires parts { blank.parts ≡ 2 }
{
    let (hall, seats) = open_hall::<J, R>(rt, history, blank, script, 2)?;
    let shared = Shared::new(hall);
    let reports = two_reports(rt, &shared, script, seats, gate);
    let mut hall = shared.into_hall();
    let came = match reports {
        Ok(reports) => Ok(came_of(&mut hall, reports)),
        Err(fault) => Err(fault),
    };
    hall.close(rt);
    came
}

/// What came of a script.
fn came<R: Wait + AllocGlobal, G: Gate>(rt: &R, text: &[u8], gate: &G) -> Result<Came, Fail> {
    let script = read(rt.alloc(), text)?;
    played::<Brand, _, _>(rt, History::new(), Blank::new(2), &script, gate)
}

#[test]
fn work_plays_nothing(rt: HostRuntime) -> Result<(), Fail> {
    let (counts, total, third, fourth) = came(&rt, ONE_BY_ONE, &InTurn)?;
    assert_eq!(rt; counts, [(2, 0), (2, 0)]);
    assert_eq!(rt; total, 4);
    assert_eq!(rt; third, Some(Answer::Group { first: 3, last: 4 }));
    assert_eq!(rt; fourth, Some(Answer::Shown(Value::Number(0))));
    Ok(())
}

// Once the main program's work is done, nobody is left who could activate the task: its line is refused.
#[test]
fn waits_for_good_are_found(rt: HostRuntime) -> Result<(), Fail> {
    let (counts, total, third, fourth) = came(&rt, UNSTARTED, &Free)?;
    assert_eq!(rt; counts, [(2, 0), (0, 1)]);
    assert_eq!(rt; total, 2);
    assert_eq!(rt; third, Some(Answer::Refused(Refusal::NotRunning)));
    assert_eq!(rt; fourth, Some(Answer::Group { first: 2, last: 2 }));
    Ok(())
}

// A tick waits for nobody, the delayed main program included; else this thread would wait for the other for good.
#[test]
fn a_tick_goes_while_main_is_delayed(rt: HostRuntime) -> Result<(), Fail> {
    let (counts, total, third, fourth) = came(&rt, TICKED, &Free)?;
    assert_eq!(rt; counts, [(3, 0), (0, 1)]);
    assert_eq!(rt; total, 3);
    assert_eq!(rt; third, Some(Answer::Group { first: 3, last: 4 }));
    assert_eq!(rt; fourth, Some(Answer::Refused(Refusal::NotRunning)));
    Ok(())
}

// One thread that plays the lines of all speakers waits for the others in vain at a gate that holds the first
// lines until all have come.
#[test]
fn one_thread_is_late(rt: HostRuntime) -> Result<(), Fail> {
    let gate = AllAtOnce::new(1_000);
    let (_, total, _, _) = came(&rt, ONE_BY_ONE, &gate)?;
    assert!(rt; gate.is_late());
    assert_eq!(rt; total, 4);
    Ok(())
}
