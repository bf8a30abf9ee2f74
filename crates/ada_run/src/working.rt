//! The work of one thread.
ghost use Rattle.std.specs.Prelude.{◌≡◌, ◌+◌, ◌<◌, ◌≤◌, ◌^◌, cond};
ghost use Rattle.std.specs.List.{count_by};
ghost use Rattle.ada_statements.specs.Binding.{is_show};
ghost use Rattle.ada_hall.specs.Speakers.{is_request_of, request_count};

use crate::{Gate, Report, Shared};
use ada_board::BoardReader;
use ada_events::Refusal;
use ada_hall::speakers::{is_spoken_by, speaker_name};
use ada_hall::{Asked, Hall, Session};
use ada_script::{Line, Name, Script, Value};
use std::sync::Wait;
use std::sync::ledger::Share;

// Plays the request at a place: whether to go on. Where memory is refused, or the board stays behind, the hall
// is stopped.
fn say_line<J: Session, R: Wait>(
    rt: &R,
    shared: &Shared<'_, J>,
    place: u32,
    report: &mut Report<J>,
) -> bool
    requires room { report.old.accepted + report.old.refused + 1 < 2 ^ 32 }
    ensures one { report.new.accepted + report.new.refused
        ≤ report.old.accepted + report.old.refused + 1 }
{
    let mut guard = shared.hall.lock(rt);
    let hall: &mut Hall<'_, J> = &mut guard;
    if hall.turns().is_stopped() {
        return false;
    }
    let said = report.say(rt, hall, place);
    if said.is_ok() && !hall.behind() {
        return true;
    }
    hall.stop();
    false
}

// Asks what the line at a place shows. The lock is held no longer than that.
fn ask_line<J: Session, R: Wait>(
    rt: &R,
    shared: &Shared<'_, J>,
    place: u32,
) -> Result<Asked<J>, Refusal> {
    let guard = shared.hall.lock(rt);
    let hall: &Hall<'_, J> = &guard;
    hall.ask(place)
}

// Keeps what a place is answered: whether to go on.
fn note_line<J: Session, R: Wait>(
    rt: &R,
    shared: &Shared<'_, J>,
    place: u32,
    value: Result<Option<Value>, Refusal>,
) -> bool {
    let mut guard = shared.hall.lock(rt);
    let hall: &mut Hall<'_, J> = &mut guard;
    if hall.turns().is_stopped() {
        return false;
    }
    match value {
        Ok(Some(value)) => hall.note(place, value),
        Err(cause) => hall.note_refusal(place, cause),
        Ok(None) => hall.stop(),
    }
    !hall.turns().is_stopped()
}

// Shows the attribute of the line at a place: it is asked for under the lock, read without it, and kept under
// it again. Answers whether to go on.
fn show_line<J: Session, R: Wait, G: Gate>(
    rt: &R,
    shared: &Shared<'_, J>,
    place: u32,
    reader: &mut BoardReader<J>,
    gate: &G,
) -> bool {
    let value = match ask_line(rt, shared, place) {
        Ok(Asked { what, mark }) => {
            reader.learn(mark);
            Ok(gate.read(reader, what))
        }
        Err(cause) => Err(cause),
    };
    note_line(rt, shared, place, value)
}

// Plays a line, if no hall was stopped: whether to go on.
fn play_line<J: Session, R: Wait, G: Gate>(
    rt: &R,
    shared: &Shared<'_, J>,
    line: &Line,
    place: u32,
    reader: &mut BoardReader<J>,
    report: &mut Report<J>,
    gate: &G,
) -> bool
    requires room { report.old.accepted + report.old.refused + 1 < 2 ^ 32 }
    ensures one { report.new.accepted + report.new.refused
        ≤ report.old.accepted + report.old.refused + cond (is_show line.now.statement) 0 1 }
{
    if line.statement.is_show() {
        show_line(rt, shared, place, reader, gate)
    } else {
        say_line(rt, shared, place, report)
    }
}

// Plays the lines of the task of this name, one after another.
fn play_lines<J: Session, R: Wait, G: Gate>(
    rt: &R,
    shared: &Shared<'_, J>,
    lines: &[Line],
    speaker: (u32, &Name),
    reader: &mut BoardReader<J>,
    report: &mut Report<J>,
    gate: &G,
)
    requires { (report.old.accepted ≡ 0) × (report.old.refused ≡ 0) }
    ensures { report.new.accepted + report.new.refused
        ≤ count_by (is_request_of speaker.entry.1.now) lines.now }
{
    let (number, name) = speaker;
    for at in 0..lines.len() {
        let line = &lines[at];
        let Ok(place) = u16::try_from(at) else {
            return;
        };
        if !is_spoken_by(name, &line.statement) {
            continue;
        }
        let place = u32::from(place);
        gate.before(rt, shared, number, place);
        let goes_on = play_line(rt, shared, line, place, reader, report, gate);
        gate.after(rt, shared, number, place);
        if !goes_on {
            return;
        }
    }
}

/// Plays the lines of one speaker in their order, each once the gate lets it go, and answers how many of its
/// requests were accepted and refused. Speaker 0 is the main program, and speaker k the task that the k-th
/// `create` makes. Where memory is refused, or a line can't be answered, the hall is stopped.
pub fn work<J: Session, R: Wait, G: Gate>(
    rt: &R,
    shared: &Shared<'_, J>,
    script: &Script,
    speaker: u32,
    reader: BoardReader<J>,
    share: Share<J>,
    gate: &G,
) -> Report<J>
    requires { (share.parts ≡ 1) × (share.amount ≡ 0) }
    ensures { result.accepted + result.refused ≤ request_count script.now speaker }
{
    let mut report = Report::new(share);
    let mut reader = reader;
    let lines = script.lines();
    if let Some(name) = speaker_name(lines, speaker) {
        let who = (speaker, &name);
        play_lines(rt, shared, lines, who, &mut reader, &mut report, gate);
        shared.leave(rt);
    }
    report
}
