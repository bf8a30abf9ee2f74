//! All objects of a play.

use crate::json::ending::write_ending;
use crate::json::members::{
    begin_object, end_object, put_number, put_position, put_text, put_truth,
};
use crate::json::telling::{kind_of, put_told};
use ada_events::journal::event_in;
use ada_events::{Event, Refusal, TaskNo};
use ada_explain::lives::Lives;
use ada_explain::{Scene, Source};
use ada_replay::{Account, Answer};
use ada_script::{EntryName, Name, Statement, Value};
use std::alloc::{AllocError, Global};

/// Writes a play of a script of this text: a JSON object for each event, refusal and shown attribute, in the order in
/// which they came, and then how it ends, each on a line.
pub fn write_events(alloc: Global, source: &[u8], account: &Account) -> Result<String, AllocError> {
    let source = Source::of(alloc, source)?;
    let mut writer = Writer {
        alloc,
        scene: Scene::at_end(account),
        lives: Lives::new(alloc)?,
        out: String::new(alloc),
    };
    for (line, answer) in account.lines.iter().zip(account.answers.iter()) {
        match answer {
            Answer::Group { first, last } => writer.write_group(line.line, *first, *last)?,
            Answer::Refused(cause) => {
                write_refused(&mut writer.out, line.line, source.line(line.line), *cause)?;
            }
            Answer::Shown(value) => {
                write_shown(&mut writer.out, line.line, &line.statement, *value)?;
            }
        }
    }
    writer.write_end()?;
    Ok(writer.out)
}

/// What is written, and what all tasks do after the events that were written.
#[derive(Drop)]
struct Writer<'a> {
    alloc: Global,
    scene: Scene<'a>,
    lives: Lives,
    out: String,
}

impl Writer<'_> {
    // The event that a line asked for, and those that it forced.
    fn write_group(&mut self, line: u32, first: u32, last: u32) -> Result<(), AllocError> {
        for position in first..=last {
            begin_object(&mut self.out, line)?;
            put_position(&mut self.out, "position", position)?;
            if position > first {
                put_position(&mut self.out, "forced_by", first)?;
            }
            self.write_told(position)?;
            end_object(&mut self.out)?;
        }
        Ok(())
    }

    // How the play ends.
    fn write_end(&mut self) -> Result<(), AllocError> {
        let scene = self.scene;
        write_ending(self.alloc, &mut self.out, scene)
    }

    // What happened by the event at a position, after those before it.
    fn write_told(&mut self, position: u32) -> Result<(), AllocError> {
        let scene = self.scene;
        let Some(event) = event_in(scene.events, position) else {
            return Ok(());
        };
        put_text(&mut self.out, "kind", kind_of(event))?;
        let made = TaskNo((self.lives.tasks() % 65_536) as u16);
        let quit = self.quit(position, event)?;
        put_told(&mut self.out, scene, position, event, made, &quit)
    }

    // The tasks that an event terminates together.
    fn quit(&mut self, position: u32, event: &Event) -> Result<Vec<TaskNo>, AllocError> {
        let before = self.lives.spans().len();
        self.lives.take(self.scene.events, position, event)?;
        let mut quit = Vec::new(self.alloc);
        if let Event::Quit { .. } = event {
            for span in self.lives.spans().iter().skip(before) {
                quit.push(span.task)?;
            }
        }
        Ok(quit)
    }
}

fn write_refused(
    out: &mut String,
    line: u32,
    statement: &str,
    cause: Refusal,
) -> Result<(), AllocError> {
    begin_object(out, line)?;
    put_text(out, "kind", "refused")?;
    if let Some((by, _)) = statement.split_once(':') {
        put_text(out, "by", by)?;
    }
    put_text(out, "statement", statement)?;
    put_text(out, "cause", cause.name())?;
    end_object(out)
}

fn write_shown(
    out: &mut String,
    line: u32,
    statement: &Statement,
    value: Value,
) -> Result<(), AllocError> {
    begin_object(out, line)?;
    put_text(out, "kind", "shown")?;
    match statement {
        Statement::ShowCallable { by, task } => put_shown(out, by, "callable", task)?,
        Statement::ShowTerminated { by, task } => put_shown(out, by, "terminated", task)?,
        Statement::ShowCount { by, entry } => put_count(out, by, entry)?,
        _ => {}
    }
    match value {
        Value::Truth(truth) => put_truth(out, "value", truth)?,
        Value::Number(number) => put_number(out, "value", i64::from(number))?,
    }
    end_object(out)
}

fn put_shown(out: &mut String, by: &Name, attribute: &str, task: &Name) -> Result<(), AllocError> {
    put_text(out, "by", by.as_str())?;
    put_text(out, "attribute", attribute)?;
    put_text(out, "task", task.as_str())
}

fn put_count(out: &mut String, by: &Name, entry: &EntryName) -> Result<(), AllocError> {
    put_shown(out, by, "count", by)?;
    put_text(out, "entry", entry.family.as_str())?;
    put_number(out, "index", i64::from(entry.index.unwrap_or(0)))
}
