//! Trials of the hall.
ghost use Rattle.std.specs.Prelude.{◌≡◌, ◌<◌, []};

use crate::saying::{SCRIPT, is_at, try_say};
use crate::stepping::try_step;
use crate::trial::{Answer, Reach, Seen};
use ada_board::{BoardReader, BoardWriter, History, open_board};
use ada_hall::{Hall, Session};
use ada_script::{Script, read};
use anyhow::anyhow;
use std::marker::Brand;
use std::sync::Wait;
use std::sync::ledger::{Blank, Book, Share};

/// What is asked of a trial of a hall.
#[derive(Clone, Copy, Debug, PartialEq, Eq)]
pub enum HallCall {
    New,
    /// The first step of a new hall.
    Step,
    /// The line of this number, from 1.
    Say(usize),
}

/// Makes a trial of a hall on a board of its own, so far as it is asked.
pub fn try_hall<R: Wait + AllocGlobal>(
    rt: &R,
    call: HallCall,
    reach: Reach,
) -> anyhow::Result<Option<Seen>> {
    let script = read(rt.alloc(), SCRIPT)?;
    match call {
        HallCall::New => made::<Brand, R>(rt, History::new(), Blank::new(1), &script, reach),
        _ => played::<Brand, R>(rt, History::new(), Blank::new(1), &script, call, reach),
    }
}

// Makes a hall; refused, none is left, and its writer is closed.
fn make_again<'s, J: Session, R: Wait + AllocGlobal>(
    rt: &R,
    script: &'s Script,
    writer: BoardWriter<J>,
    book: Book<J>,
) -> Option<Hall<'s, J>>
    requires script { script.now ≡ J.script }
    requires writer { writer ≡ record { published = []; offered = [] } }
    requires book { book.total ≡ 0 }
{
    match Hall::new(rt.alloc(), script, writer, book) {
        Ok(hall) => Some(hall),
        Err((_, writer, _book)) => {
            writer.close(rt);
            None
        }
    }
}

// Makes a hall, and where that is refused another of what came back: what the first call answered, and the hall.
fn make<'s, J: Session, R: Wait + AllocGlobal>(
    rt: &R,
    script: &'s Script,
    writer: BoardWriter<J>,
    book: Book<J>,
) -> (Answer, Option<Hall<'s, J>>)
    requires script { script.now ≡ J.script }
    requires writer { writer ≡ record { published = []; offered = [] } }
    requires book { book.total ≡ 0 }
{
    match Hall::new(rt.alloc(), script, writer, book) {
        Ok(hall) => (Answer::Done, Some(hall)),
        Err((cause, writer, book)) => (Answer::from(cause), make_again(rt, script, writer, book)),
    }
}

// What is seen of a hall that was made at last, whose first call answered so: it is new, and its steps are seen.
fn seen_of<J: Session, R: Wait>(
    rt: &R,
    hall: &mut Hall<'_, J>,
    share: &mut Share<J>,
    reader: &mut BoardReader<J>,
    answer: Answer,
) -> Option<Seen>
    requires { 0 < share.old.parts }
{
    let unchanged = is_at(hall, 0);
    let steps = try_step(rt, hall, share, reader, Reach::Whole)?;
    Some(Seen {
        answer,
        unchanged,
        again: steps.answer == Answer::Done && steps.again,
    })
}

fn made<J: Session, R: Wait + AllocGlobal>(
    rt: &R,
    history: History,
    blank: Blank,
    script: &Script,
    reach: Reach,
) -> anyhow::Result<Option<Seen>>
    requires named { history ≡ J.book }
    requires script { script.now ≡ J.script }
    requires ledger { (blank.name ≡ J.name) × (blank.parts ≡ J.parts) }
    requires parts { 0 < blank.parts }
{
    let (writer, mut places) = open_board::<J, R>(rt, rt.alloc(), history, 1)?;
    let (book, mut share) = blank.open::<J>();
    let reader = places.take();
    if reach == Reach::Before {
        writer.close(rt);
        return Ok(None);
    }
    let (answer, hall) = make(rt, script, writer, book);
    let Some(mut hall) = hall else {
        return Err(anyhow!("no hall"));
    };
    let seen = match (reach, reader) {
        (Reach::Whole, Ok(mut reader)) => {
            seen_of(rt, &mut hall, &mut share, &mut reader, answer)
        }
        _ => None,
    };
    hall.close(rt);
    Ok(seen)
}

fn played<J: Session, R: Wait + AllocGlobal>(
    rt: &R,
    history: History,
    blank: Blank,
    script: &Script,
    call: HallCall,
    reach: Reach,
) -> anyhow::Result<Option<Seen>>
    requires named { history ≡ J.book }
    requires script { script.now ≡ J.script }
    requires ledger { (blank.name ≡ J.name) × (blank.parts ≡ J.parts) }
    requires parts { 0 < blank.parts }
{
    let (writer, mut places) = open_board::<J, R>(rt, rt.alloc(), history, 1)?;
    let (book, mut share) = blank.open::<J>();
    let reader = places.take();
    match Hall::new(rt.alloc(), script, writer, book) {
        Ok(mut hall) => {
            let seen = match (reader, call) {
                (Ok(mut reader), HallCall::Say(line)) => {
                    try_say(rt, &mut hall, &mut share, &mut reader, line, reach)
                }
                (Ok(mut reader), _) => try_step(rt, &mut hall, &mut share, &mut reader, reach),
                (Err(_), _) => None,
            };
            hall.close(rt);
            Ok(seen)
        }
        Err((_, writer, _book)) => {
            writer.close(rt);
            Err(anyhow!("no hall"))
        }
    }
}
