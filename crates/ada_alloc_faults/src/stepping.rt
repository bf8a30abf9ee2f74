//! Trials of a hall's first step.
ghost use Rattle.std.specs.Prelude.{◌≡◌, ◌<◌};

use crate::boards::shows;
use crate::saying::is_at;
use crate::trial::{Answer, Reach, Seen};
use ada_board::BoardReader;
use ada_board::answers::opening_board;
use ada_events::{Request, TaskNo};
use ada_hall::{Hall, Session, Told};
use ada_test_requests::{MAIN, SINGLE, create};
use std::sync::Wait;
use std::sync::ledger::Share;

/// Makes a task in a new hall, and then ticks.
pub fn try_step<J: Session, R: Wait>(
    rt: &R,
    hall: &mut Hall<'_, J>,
    share: &mut Share<J>,
    reader: &mut BoardReader<J>,
    reach: Reach,
) -> Option<Seen>
    requires { 0 < share.old.parts }
{
    if reach == Reach::Before {
        return None;
    }
    let answer = step(rt, hall, share);
    if reach == Reach::Call {
        return None;
    }
    let unseen = shows(reader, &opening_board());
    let unchanged = match answer {
        Answer::Done => !unseen,
        Answer::Behind => unseen && hall.total() == 1 && hall.journal().len() == 1,
        _ => unseen && is_at(hall, 0) && !hall.behind(),
    };
    let again = answer != Answer::Refused || step(rt, hall, share) == Answer::Done;
    Some(Seen {
        answer,
        unchanged,
        again: again && goes_on(rt, hall, share, reader),
    })
}

// Makes a task, whose event is the first.
fn step<J: Session, R: Wait>(rt: &R, hall: &mut Hall<'_, J>, share: &mut Share<J>) -> Answer
    requires { 0 < share.old.parts }
    ensures { share.new.parts ≡ share.old.parts }
{
    match hall.step(rt, share, create(0, MAIN, &[SINGLE])) {
        Ok(told) => {
            if told.at != 1 || told.mark.is_none() != hall.behind() {
                Answer::Failed
            } else if hall.behind() {
                Answer::Behind
            } else {
                Answer::Done
            }
        }
        Err(cause) => Answer::from(cause),
    }
}

// Whether a tick is the second event, and a reader that is told of it sees the task.
fn goes_on<J: Session, R: Wait>(
    rt: &R,
    hall: &mut Hall<'_, J>,
    share: &mut Share<J>,
    reader: &mut BoardReader<J>,
) -> bool
    requires { 0 < share.old.parts }
{
    let at = told_step(rt, hall, share, reader, Request::Tick { now: 0 });
    at == Some(2)
        && !hall.behind()
        && hall.total() == 2
        && reader.callable(TaskNo(1)) == Some(true)
        && reader.count(0) == Some(0)
}

/// A step, of which the reader is told: the position of its event, if it was published.
pub fn told_step<J: Session, R: Wait>(
    rt: &R,
    hall: &mut Hall<'_, J>,
    share: &mut Share<J>,
    reader: &mut BoardReader<J>,
    request: Request,
) -> Option<u32>
    requires { 0 < share.old.parts }
    ensures { share.new.parts ≡ share.old.parts }
{
    let Ok(Told { at, mark }) = hall.step(rt, share, request) else {
        return None;
    };
    reader.learn(mark?);
    Some(at)
}
