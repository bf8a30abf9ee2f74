//! The rows of a play: the beginning, and a row for each printed line.

use crate::queues::Queues;
use crate::telling::Said;
use crate::texts::{put_member, put_number, put_word};
use ada_events::journal::event_in;
use ada_events::{Event, TaskNo};
use ada_explain::Scene;
use ada_explain::arrival::Arrival;
use ada_explain::lives::Stage;
use ada_explain::past::Past;
use ada_renderings::json::members::put_truth;
use ada_renderings::json::telling::{kind_of, put_told};
use ada_replay::Answer;
use ada_script::Value;
use ada_script::cursor::Lines;
use std::alloc::{AllocError, Global};
use std::str;

/// The rows that were written, and what came by their events. The last row is open: members may be put to it.
#[derive(Drop)]
pub struct Rows {
    past: Past,
    /// The tasks that do something else by the last event.
    changed: Vec<TaskNo>,
    /// Why the last event came.
    because: String,
    /// A list of objects, whose last one is open.
    pub out: String,
}

/// The events of a line, from the first one to the last one.
#[derive(Clone, Copy)]
struct Group {
    line: u32,
    first: u32,
    last: u32,
}

impl Group {
    // How many of its events have come with that at a position.
    fn place(&self, position: u32) -> usize {
        position.saturating_sub(self.first).saturating_add(1) as usize
    }
}

// What a task does, in a word.
fn word_of(stage: Stage) -> &'static str {
    match stage {
        Stage::NotStarted => "not started",
        Stage::Activating => "activating",
        Stage::Running => "running",
        Stage::Starting => "starting",
        Stage::Calling => "calling",
        Stage::InRendezvous => "in rendezvous",
        Stage::Waiting => "waiting",
        Stage::Delayed => "delayed",
        Stage::Leaving => "leaving",
        Stage::Abnormal => "abnormal",
        Stage::Completed => "completed",
        Stage::Terminated => "terminated",
    }
}

// A printed line without the position in front of an event.
fn without_position(line: &str) -> &str {
    match line.split_once(' ') {
        Some((_, text)) => text,
        None => line,
    }
}

// The next printed line.
fn next_of<'a>(printed: &mut Lines<'a>) -> &'a str {
    match printed.next() {
        Some(line) => str::from_utf8(line).unwrap_or(""),
        None => "",
    }
}

// The tasks that an event ends by a quit, of those that do something else by it.
fn quit_by<'x>(event: &Event, changed: &'x [TaskNo]) -> &'x [TaskNo] {
    match event {
        Event::Quit { .. } => changed,
        _ => &[],
    }
}

impl Rows {
    /// The row of the beginning, before any line.
    pub fn new(alloc: Global) -> Result<Self, AllocError> {
        let mut out = String::new(alloc);
        out.push_str("[\n{\"line\":0,\"kind\":\"begin\"")?;
        out.push_str(",\"stages\":{\"main\":\"running\"}")?;
        Ok(Rows {
            past: Past::new(alloc)?,
            changed: Vec::new(alloc),
            because: String::new(alloc),
            out,
        })
    }

    /// Ends the last row and begins one of a line, after whose answer this is what was printed; in a row of an event it
    /// tells what stands in queues after it.
    pub fn write_answer(
        &mut self,
        scene: Scene<'_>,
        said: Said<'_>,
        queues: &mut Queues,
    ) -> Result<(), AllocError> {
        let line = said.line.line;
        let mut printed = Lines::new(said.printed);
        match said.answer {
            Answer::Group { first, last } => {
                let group = Group { line, first, last };
                self.write_group(scene, group, &mut printed, said.queued, queues)
            }
            Answer::Refused(cause) => {
                self.begin_row(line, "refused")?;
                put_word(&mut self.out, ",\"cause\":\"", cause.name())?;
                self.put_printed(next_of(&mut printed))
            }
            Answer::Shown(value) => {
                self.begin_row(line, "shown")?;
                self.put_value(value)?;
                self.put_printed(next_of(&mut printed))
            }
        }
    }

    fn begin_row(&mut self, line: u32, kind: &str) -> Result<(), AllocError> {
        self.begin_line(line)?;
        put_word(&mut self.out, ",\"kind\":\"", kind)
    }

    fn begin_line(&mut self, line: u32) -> Result<(), AllocError> {
        put_number(&mut self.out, "},\n{\"line\":", line)
    }

    fn put_printed(&mut self, printed: &str) -> Result<(), AllocError> {
        put_member(&mut self.out, ",\"printed\":", printed)
    }

    fn put_value(&mut self, value: Value) -> Result<(), AllocError> {
        match value {
            Value::Truth(truth) => put_truth(&mut self.out, "value", truth),
            Value::Number(number) => put_number(&mut self.out, ",\"value\":", u32::from(number)),
        }
    }

    // The event that a line asked for, and those that it forced.
    fn write_group(
        &mut self,
        scene: Scene<'_>,
        group: Group,
        printed: &mut Lines<'_>,
        queued: &[Vec<u32>],
        queues: &mut Queues,
    ) -> Result<(), AllocError> {
        for position in group.first..=group.last {
            self.begin_line(group.line)?;
            put_number(&mut self.out, ",\"position\":", position)?;
            if position > group.first {
                put_number(&mut self.out, ",\"forced_by\":", group.first)?;
            }
            self.put_printed(without_position(next_of(printed)))?;
            self.put_event(scene, position)?;
            if let Some(calls) = queued.get(group.place(position)) {
                queues.tell(&mut self.out, scene, calls)?;
            }
        }
        Ok(())
    }

    /// The text of the rows.
    pub fn into_text(self) -> String {
        self.out
    }

    // What happened by the event at a position, after those before it, why it came, and what tasks do then that did
    // something else.
    fn put_event(&mut self, scene: Scene<'_>, position: u32) -> Result<(), AllocError> {
        let Some(event) = event_in(scene.events, position) else {
            return Ok(());
        };
        put_word(&mut self.out, ",\"kind\":\"", kind_of(event))?;
        let made = TaskNo((self.past.lives().tasks() % 65_536) as u16);
        self.take(scene, position, event, made)?;
        let quit = quit_by(event, &self.changed);
        put_told(&mut self.out, scene, position, event, made, quit)?;
        self.put_because(scene, position)?;
        self.put_stages(scene)
    }

    // By which row the event at a position was forced, and why it came.
    fn put_because(&mut self, scene: Scene<'_>, position: u32) -> Result<(), AllocError> {
        let arrival = Arrival {
            scene,
            past: &self.past,
            position,
        };
        if let Some(row) = arrival.row() {
            put_number(&mut self.out, ",\"rule\":", u32::from(row))?;
        }
        self.because.clear();
        arrival.write(&mut self.because)?;
        put_member(&mut self.out, ",\"because\":", &self.because)
    }

    // Takes note of the tasks that do something else by an event, a new one among them.
    fn take(
        &mut self,
        scene: Scene<'_>,
        position: u32,
        event: &Event,
        made: TaskNo,
    ) -> Result<(), AllocError> {
        self.past.take(scene, position, event)?;
        self.changed.clear();
        for span in self.past.ended() {
            self.changed.push(span.task)?;
        }
        if let Event::Created { .. } = event {
            self.changed.push(made)?;
        }
        Ok(())
    }

    fn put_stages(&mut self, scene: Scene<'_>) -> Result<(), AllocError> {
        let mut before = ",\"stages\":{\"";
        for task in &self.changed {
            self.out.push_str(before)?;
            self.out.push_str(scene.task(*task))?;
            self.out.push_str("\":\"")?;
            self.out.push_str(word_of(self.past.lives().stage(*task)))?;
            before = "\",\"";
        }
        self.out
            .push_str(if self.changed.is_empty() { "" } else { "\"}" })
    }
}
