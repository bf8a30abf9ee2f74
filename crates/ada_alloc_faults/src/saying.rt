//! Trials of saying the lines of a script in a hall.
ghost use Rattle.std.specs.Prelude.{◌≡◌, ◌<◌};

use crate::stepping::told_step;
use crate::trial::{Answer, Reach, Seen};
use ada_board::BoardReader;
use ada_events::{Request, TaskNo};
use ada_hall::{Answer as Given, Hall, Session};
use std::sync::Wait;
use std::sync::ledger::Share;

/// How many lines the script has.
pub const LINES: usize = 12;

/// A script, each of whose lines is accepted.
pub const SCRIPT: &[u8] = b"main: create S under main E
main: create A under main
main: activate S A
S: up
A: up
A: call S E
S: select 0 accept E or delay 3
S: end
A: delay 2
tick 2
main: open B
main: abort S
";

/// The position of the last event that each line leads to.
const ENDS: [u32; LINES] = [1, 2, 3, 4, 6, 7, 9, 10, 11, 13, 14, 17];

/// What a reader sees of the main program, of the two tasks and of the entry.
#[derive(Clone, Copy, Debug, PartialEq, Eq)]
struct Attributes {
    callable: [Option<bool>; 3],
    terminated: [Option<bool>; 3],
    count: Option<u16>,
}

/// What a reader sees after the whole script: the first task is terminated.
const LAST: Attributes = Attributes {
    callable: [Some(true), Some(false), Some(true)],
    terminated: [Some(false), Some(true), Some(false)],
    count: Some(0),
};

fn seen_by<J: Session>(reader: &mut BoardReader<J>) -> Attributes {
    Attributes {
        callable: [
            reader.callable(TaskNo(0)),
            reader.callable(TaskNo(1)),
            reader.callable(TaskNo(2)),
        ],
        terminated: [
            reader.terminated(TaskNo(0)),
            reader.terminated(TaskNo(1)),
            reader.terminated(TaskNo(2)),
        ],
        count: reader.count(0),
    }
}

/// Says the line of this number, from 1, after those before it.
pub fn try_say<J: Session, R: Wait>(
    rt: &R,
    hall: &mut Hall<'_, J>,
    share: &mut Share<J>,
    reader: &mut BoardReader<J>,
    line: usize,
    reach: Reach,
) -> Option<Seen>
    requires { 0 < share.old.parts }
{
    let before = line.saturating_sub(1);
    say_all(rt, hall, share, before);
    let seen = seen_by(reader);
    if reach == Reach::Before {
        return None;
    }
    let answer = say(rt, hall, share, before);
    if reach == Reach::Call {
        return None;
    }
    let unchanged = match answer {
        Answer::Done => true,
        Answer::Behind => is_at(hall, line) && seen_by(reader) == seen,
        _ => is_at(hall, before) && !hall.behind() && seen_by(reader) == seen,
    };
    let again = answer != Answer::Refused || say(rt, hall, share, before) == Answer::Done;
    let good = is_at(hall, line);
    say_all(rt, hall, share, LINES);
    Some(Seen {
        answer,
        unchanged,
        again: again && good && ends(rt, hall, share, reader),
    })
}

// Says the line at a place.
fn say<J: Session, R: Wait>(
    rt: &R,
    hall: &mut Hall<'_, J>,
    share: &mut Share<J>,
    place: usize,
) -> Answer
    requires { 0 < share.old.parts }
    ensures { share.new.parts ≡ share.old.parts }
{
    if let Err(cause) = hall.say(rt, share, place.min(LINES) as u32) {
        return Answer::from(cause);
    }
    if hall.behind() {
        Answer::Behind
    } else {
        Answer::Done
    }
}

// Says the lines at the first so many places. Those that have answers keep them.
fn say_all<J: Session, R: Wait>(rt: &R, hall: &mut Hall<'_, J>, share: &mut Share<J>, lines: usize)
    requires { 0 < share.old.parts }
    ensures { share.new.parts ≡ share.old.parts }
{
    for place in 0..lines {
        let _ = say(rt, hall, share, place);
    }
}

// Whether all lines were said, a last step is published, and a reader that is told of it sees how all has ended.
fn ends<J: Session, R: Wait>(
    rt: &R,
    hall: &mut Hall<'_, J>,
    share: &mut Share<J>,
    reader: &mut BoardReader<J>,
) -> bool
    requires { 0 < share.old.parts }
{
    let said = is_at(hall, LINES);
    let at = told_step(rt, hall, share, reader, Request::Tick { now: 2 });
    said && at == Some(18) && !hall.behind() && seen_by(reader) == LAST
}

/// Whether so many lines were said in their order, and nothing else happened.
pub fn is_at<J: Session>(hall: &Hall<'_, J>, lines: usize) -> bool {
    let said = lines.min(LINES);
    let end = end_of(said);
    hall.answers().len() == said
        && hall.journal().len() == end
        && hall.total() as usize == said
        && (0..LINES as u32).all(|place| is_answered(hall, place, said))
}

// The position of the last event that the first so many lines lead to.
fn end_of(lines: usize) -> u32 {
    match lines {
        0 => 0,
        _ => ENDS.get(lines - 1).copied().unwrap_or(0),
    }
}

// Whether the line at a place has its own answer, if it is one of the first so many, and else none.
fn is_answered<J: Session>(hall: &Hall<'_, J>, place: u32, lines: usize) -> bool {
    let given = hall.answer(place);
    let place = place as usize;
    if place >= lines {
        return given.is_none();
    }
    let first = end_of(place).saturating_add(1);
    let last = end_of(place.saturating_add(1));
    given == Some(Given::Group { first, last })
}
