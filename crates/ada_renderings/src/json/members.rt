//! The members of objects. Texts are names and words of the script language, in which nothing has to be escaped.

use ada_events::TaskNo;
use ada_explain::Scene;
use itoa::Buffer;
use std::alloc::AllocError;

fn put_key(out: &mut String, key: &str) -> Result<(), AllocError> {
    out.push_str(",\"")?;
    out.push_str(key)?;
    out.push_str("\":")
}

fn put_quoted(out: &mut String, text: &str) -> Result<(), AllocError> {
    out.push('"')?;
    out.push_str(text)?;
    out.push('"')
}

/// Appends a text.
pub fn put_text(out: &mut String, key: &str, text: &str) -> Result<(), AllocError> {
    put_key(out, key)?;
    put_quoted(out, text)
}

/// Appends a number.
pub fn put_number(out: &mut String, key: &str, number: i64) -> Result<(), AllocError> {
    put_key(out, key)?;
    let mut buffer = Buffer::new();
    out.push_str(buffer.format(number))
}

/// Appends the position of an event.
pub fn put_position(out: &mut String, key: &str, position: u32) -> Result<(), AllocError> {
    put_number(out, key, i64::from(position))
}

/// Appends a truth.
pub fn put_truth(out: &mut String, key: &str, truth: bool) -> Result<(), AllocError> {
    put_key(out, key)?;
    out.push_str(if truth { "true" } else { "false" })
}

/// Appends the name of a task.
pub fn put_task(
    out: &mut String,
    key: &str,
    scene: Scene<'_>,
    task: TaskNo,
) -> Result<(), AllocError> {
    put_text(out, key, scene.task(task))
}

/// Appends the names of tasks as a list.
pub fn put_tasks(out: &mut String, scene: Scene<'_>, tasks: &[TaskNo]) -> Result<(), AllocError> {
    put_key(out, "tasks")?;
    out.push('[')?;
    for (i, task) in tasks.iter().enumerate() {
        if i > 0 {
            out.push(',')?;
        }
        put_quoted(out, scene.task(*task))?;
    }
    out.push(']')
}

/// Begins a list of objects or numbers.
pub fn begin_list(out: &mut String, key: &str) -> Result<(), AllocError> {
    put_key(out, key)?;
    out.push('[')
}

/// Begins an object of a list with an entry, after those before it.
pub fn begin_entry(out: &mut String, place: usize, entry: &str) -> Result<(), AllocError> {
    if place > 0 {
        out.push(',')?;
    }
    out.push_str("{\"entry\":")?;
    put_quoted(out, entry)
}

/// Appends a number of a list, or null, after those before it.
pub fn put_item(out: &mut String, place: usize, number: Option<i64>) -> Result<(), AllocError> {
    if place > 0 {
        out.push(',')?;
    }
    let mut buffer = Buffer::new();
    match number {
        Some(number) => out.push_str(buffer.format(number)),
        None => out.push_str("null"),
    }
}

/// Begins an object with the line of the script.
pub fn begin_object(out: &mut String, line: u32) -> Result<(), AllocError> {
    out.push_str("{\"line\":")?;
    let mut buffer = Buffer::new();
    out.push_str(buffer.format(line))
}

/// Begins an object of a kind, which is of no line of the script.
pub fn begin_kind(out: &mut String, kind: &str) -> Result<(), AllocError> {
    out.push_str("{\"kind\":")?;
    put_quoted(out, kind)
}

/// Ends an object and its line.
pub fn end_object(out: &mut String) -> Result<(), AllocError> {
    out.push_str("}\n")
}
