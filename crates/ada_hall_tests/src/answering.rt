//! The answers to the lines of a script.
ghost use Rattle.std.specs.Prelude.{◌≡◌, ◌<◌};

use crate::scene::{Scene, played};
use ada_board::{BoardReader, Readers};
use ada_events::{Refusal, TaskNo};
use ada_hall::{Answer, Asking, Hall, Session};
use ada_script::{Value, read};
use std::sync::Wait;
use std::sync::ledger::Share;
use std::test::Fail;

/// A server with a queued call, lines that show attributes, and lines that are refused.
const LINES: &[u8] = b"main: create S under main E
main: create C under main
main: activate S C
S: up
C: up
C: call S E
S: show count E
main: show callable S
S: end
S: accept E
";

/// Plays the requests at the places up to the ninth.
fn say_all<J: Session, R: Wait>(
    rt: &R,
    hall: &mut Hall<'_, J>,
    share: &mut Share<J>,
) -> Result<(), Refusal>
    requires { 0 < share.old.parts }
    ensures { share.new.parts ≡ share.old.parts }
{
    for place in 0..10 {
        hall.say(rt, share, place)?;
    }
    Ok(())
}

/// Whether each request has the answer of its line, and the lines that show attributes have none.
fn are_said<J: Session>(hall: &Hall<'_, J>) -> bool {
    let ninth = Answer::Group { first: 8, last: 9 };
    hall.answer(0) == Some(Answer::Group { first: 1, last: 1 })
        && hall.answer(4) == Some(Answer::Group { first: 5, last: 6 })
        && hall.answer(6).is_none()
        && hall.answer(8) == Some(Answer::Refused(Refusal::NotInAccept))
        && hall.answer(9) == Some(ninth)
        && hall.answer(10).is_none()
        && hall.answers().len() == 8
        && hall.total() == 7
}

/// Whether places that exist no more, have an answer or hold the other kind stay as they were.
fn stay<J: Session, R: Wait>(rt: &R, hall: &mut Hall<'_, J>, share: &mut Share<J>) -> bool
    requires { 0 < share.old.parts }
{
    let said = hall.say(rt, share, 0).is_ok() && hall.say(rt, share, 99).is_ok();
    hall.note(1, Value::Truth(true));
    hall.note(6, Value::Number(7));
    hall.note_refusal(6, Refusal::UnknownTask);
    hall.note_refusal(99, Refusal::UnknownTask);
    said && hall.answers().len() == 10 && hall.total() == 7
}

/// Asks for two attributes: one is read and noted, and one is noted as refused.
fn are_shown<J: Session>(
    hall: &mut Hall<'_, J>,
    reader: &mut BoardReader<J>,
) -> Result<bool, Fail> {
    let callable = hall.ask(7)?;
    reader.learn(callable.mark);
    let Some(value) = reader.callable(TaskNo(1)) else {
        return Ok(false);
    };
    hall.note(7, Value::Truth(value));
    let count = hall.ask(6).err();
    hall.note_refusal(6, Refusal::NotRunning);
    Ok(
        callable.what == Asking::Callable(TaskNo(1))
            && value
            && count.is_none()
            && hall.answer(7) == Some(Answer::Shown(Value::Truth(true)))
            && hall.answer(6) == Some(Answer::Refused(Refusal::NotRunning))
            && hall.ask(0).err() == Some(Refusal::UnknownTask)
            && hall.ask(99).err() == Some(Refusal::UnknownTask),
    )
}

/// All requests are played, the attributes shown, and then places tried that are answered or none.
struct Answering;

impl Scene for Answering {
    fn play<J: Session, R: Wait>(
        rt: &R,
        hall: &mut Hall<'_, J>,
        share: &mut Share<J>,
        places: &mut Readers<J>,
    ) -> Result<bool, Fail> {
        let mut reader = places.take()?;
        say_all(rt, hall, share)?;
        let right = are_said(hall);
        let shown = are_shown(hall, &mut reader)?;
        Ok(right && shown && stay(rt, hall, share))
    }
}

#[test]
fn lines_have_their_own_answers(rt: HostRuntime) -> Result<(), Fail> {
    let script = read(rt.alloc(), LINES)?;
    assert!(rt; played::<Answering, _>(&rt, &script, 1)?);
    Ok(())
}
