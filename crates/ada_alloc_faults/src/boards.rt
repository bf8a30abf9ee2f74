//! Trials of the board.
ghost use Rattle.std.specs.Prelude.{◌≡◌, [], ◌++◌};

use crate::trial::{Answer, Reach, Seen};
use ada_board::answers::{callable_on, count_on, opening_board, terminated_on};
use ada_board::{BoardFault, BoardReader, BoardWriter, History, Naming, Readers, open_board};
use ada_events::{Board, TaskNo};
use ada_kernel::Kernel;
use ada_test_requests::{MAIN, SINGLE, create};
use std::marker::Brand;
use std::sync::Wait;

/// How many readers a board is opened for.
const READERS: usize = 3;

fn answer_of(fault: BoardFault) -> Answer {
    match fault {
        BoardFault::OutOfMemory => Answer::Refused,
        BoardFault::NoPlace => Answer::Failed,
    }
}

/// Whether a reader answers from this board.
pub fn shows<J: Naming>(reader: &mut BoardReader<J>, board: &Board) -> bool {
    for number in 0..300 {
        if reader.callable(TaskNo(number)) != callable_on(board, TaskNo(number))
            || reader.terminated(TaskNo(number)) != terminated_on(board, TaskNo(number))
            || reader.count(number) != count_on(board, number)
        {
            return false;
        }
    }
    true
}

/// Opens a board. Nothing is left of one that was refused, so it is opened again on a new history.
pub fn try_open<R: Wait + AllocGlobal>(rt: &R, reach: Reach) -> Option<Seen> {
    if reach == Reach::Before {
        return None;
    }
    let answer = open(rt);
    if reach == Reach::Call {
        return None;
    }
    let last = if answer == Answer::Refused {
        open(rt)
    } else {
        answer
    };
    Some(Seen {
        answer,
        unchanged: true,
        again: last == Answer::Done,
    })
}

fn open<R: Wait + AllocGlobal>(rt: &R) -> Answer {
    opened::<Brand, R>(rt, History::new())
}

// Opens a board, and looks whether each of its readers answers from the board of the empty journal.
fn opened<J: Naming, R: Wait + AllocGlobal>(rt: &R, history: History) -> Answer
    requires { history ≡ J.book }
{
    match open_board::<J, R>(rt, rt.alloc(), history, READERS) {
        Ok((writer, mut places)) => {
            let good = are_new(&mut places);
            writer.close(rt);
            if good { Answer::Done } else { Answer::Failed }
        }
        Err(fault) => answer_of(fault),
    }
}

fn are_new<J: Naming>(places: &mut Readers<J>) -> bool {
    for _ in 0..READERS {
        let Ok(mut reader) = places.take() else {
            return false;
        };
        if !shows(&mut reader, &opening_board()) {
            return false;
        }
    }
    true
}

/// Offers a board.
pub fn try_offer<R: Wait + AllocGlobal>(rt: &R, reach: Reach) -> anyhow::Result<Option<Seen>> {
    offered::<Brand, R>(rt, History::new(), reach)
}

fn offered<J: Naming, R: Wait + AllocGlobal>(
    rt: &R,
    history: History,
    reach: Reach,
) -> anyhow::Result<Option<Seen>>
    requires { history ≡ J.book }
{
    let (mut writer, mut places) = open_board::<J, R>(rt, rt.alloc(), history, 1)?;
    let seen = match places.take() {
        Ok(mut reader) => offer_first(rt, &mut writer, &mut reader, reach),
        Err(fault) => Err(fault.into()),
    };
    writer.close(rt);
    seen
}

/// Offers the board of a kernel with a task, the first to a writer.
pub fn offer_first<J: Naming, R: Wait + AllocGlobal>(
    rt: &R,
    writer: &mut BoardWriter<J>,
    reader: &mut BoardReader<J>,
    reach: Reach,
) -> anyhow::Result<Option<Seen>>
    requires { writer.old ≡ record { published = []; offered = [] } }
{
    let mut kernel = Kernel::new(rt.alloc())?;
    let _ = kernel.step(create(0, MAIN, &[SINGLE]));
    let seen = offer(rt, writer, reader, &kernel, reach);
    Ok(seen)
}

fn offer<J: Naming, R: Wait>(
    rt: &R,
    writer: &mut BoardWriter<J>,
    reader: &mut BoardReader<J>,
    kernel: &Kernel,
    reach: Reach,
) -> Option<Seen>
    requires { writer.old ≡ record { published = []; offered = [] } }
{
    if reach == Reach::Before {
        return None;
    }
    let _journal = kernel.journal();
    let board = kernel.board();
    let first = writer.offer(board);
    if reach == Reach::Call {
        return None;
    }
    match first {
        Ok(()) => Some(Seen {
            answer: Answer::Done,
            unchanged: true,
            again: is_shown(rt, writer, reader, &board),
        }),
        Err(fault) => {
            let unchanged = is_still(rt, writer, reader);
            let done = writer.offer(board).is_ok();
            Some(Seen {
                answer: answer_of(fault),
                unchanged,
                again: done && is_shown(rt, writer, reader, &board),
            })
        }
    }
}

// Shows nothing, and looks whether a reader still answers from the board of the empty journal.
fn is_still<J: Naming, R: Wait>(
    rt: &R,
    writer: &mut BoardWriter<J>,
    reader: &mut BoardReader<J>,
) -> bool
    requires { writer.old ≡ record { published = []; offered = [] } }
    ensures { writer.new ≡ record { published = []; offered = [] } }
{
    is_shown(rt, writer, reader, &opening_board())
}

// Shows what was offered, and looks whether a reader that is told of it answers from this board.
fn is_shown<J: Naming, R: Wait>(
    rt: &R,
    writer: &mut BoardWriter<J>,
    reader: &mut BoardReader<J>,
    board: &Board,
) -> bool
    ensures { writer.new ≡ record {
      published = writer.old.published ++ writer.old.offered;
      offered = [];
    } }
{
    writer.show(rt);
    reader.learn(writer.mark());
    shows(reader, board)
}
