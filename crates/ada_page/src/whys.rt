//! Why each task doesn't go on, or that it runs.

use crate::changing::Changing;
use crate::sentence::write_sentence;
use crate::standing::{Doing, Standing};
use crate::texts::{put_number, put_quoted, put_word};
use ada_events::journal::event_in;
use ada_events::{Event, TaskNo};
use ada_explain::Scene;
use ada_explain::clients::Clients;
use ada_explain::end::End;
use ada_explain::reasons::meeting_of;
use ada_waiting::{Reason, awaits};
use std::alloc::{AllocError, Global};

/// What was told last of a task, and of what that depends.
#[derive(Drop)]
struct Last {
    reason: Option<Reason>,
    runs: bool,
    client: Option<Client>,
    /// As an object.
    told: Changing,
}

/// The task that a task served last, and why that doesn't go on.
#[derive(Clone, Copy, Debug, PartialEq, Eq)]
struct Client {
    task: TaskNo,
    reason: Option<Reason>,
}

/// What isn't as it was when something was told last.
#[derive(Clone, Copy, Debug)]
pub struct Change {
    /// Whether other tasks run.
    pub runs: bool,
    /// Whether a task was made, or came up, or came to its end.
    pub lives: bool,
}

/// On what it depends why tasks don't go on.
#[derive(Clone, Copy)]
pub struct Waits<'a, 'b> {
    pub end: &'a End<'a>,
    pub standing: &'a Standing,
    pub clients: &'b Clients,
    pub change: Change,
}

/// What was told last of each task.
#[derive(Drop)]
pub struct Whys {
    alloc: Global,
    last: Vec<Last>,
    /// Room for a sentence.
    sentence: String,
}

/// Whether a task was made, or came up, or came to its end, by one of some events.
pub fn change_lives(events: &[Event]) -> bool {
    events.iter().any(|event| {
        matches!(
            event,
            Event::Created { .. }
                | Event::Elaborated { .. }
                | Event::Completed { .. }
                | Event::Halted { .. }
                | Event::Gone { .. }
                | Event::Quit { .. }
        )
    })
}

// What tells why a task doesn't go on, as a member that is a word.
fn member_of(reason: Reason) -> &'static str {
    match reason {
        Reason::NotStarted => ",\"reason\":\"not started\"",
        Reason::Activating { .. } => ",\"reason\":\"activating\"",
        Reason::Queued { .. } => ",\"reason\":\"queued\"",
        Reason::InRendezvous { .. } => ",\"reason\":\"in rendezvous\"",
        Reason::Waiting { .. } => ",\"reason\":\"waiting\"",
        Reason::Delayed { .. } => ",\"reason\":\"delayed\"",
        Reason::Leaving { .. } => ",\"reason\":\"leaving\"",
        Reason::Completed => ",\"reason\":\"completed\"",
    }
}

// The event since which a task doesn't go on for a reason, if one holds it up.
fn since(end: &End<'_>, reason: Reason) -> Option<u32> {
    match reason {
        Reason::NotStarted | Reason::Completed => None,
        Reason::Activating { start } => Some(start),
        Reason::Queued { call } => Some(call),
        Reason::InRendezvous { call } => meeting_of(end.scene, call),
        Reason::Waiting { wait } => Some(wait),
        Reason::Delayed { pause } => Some(pause),
        Reason::Leaving { close } => Some(close),
    }
}

impl Last {
    fn new(alloc: Global) -> Self {
        Last {
            reason: None,
            runs: false,
            client: None,
            told: Changing::new(alloc),
        }
    }

    // Whether a task does what was told of it.
    fn is_of(&self, doing: &Doing) -> bool {
        self.reason == doing.reason && self.runs == doing.runs && !self.told.is_untold()
    }

    // Whether what was told of a task that does the same still holds.
    fn holds(&self, waits: &Waits<'_, '_>, task: TaskNo) -> bool {
        match self.reason {
            Some(Reason::Waiting { .. }) => {
                !waits.change.runs && self.client == client_of(waits, task)
            }
            Some(Reason::Activating { .. } | Reason::Leaving { .. } | Reason::Completed) => {
                !waits.change.lives
            }
            _ => true,
        }
    }
}

impl Whys {
    /// Nothing was told yet.
    pub fn new(alloc: Global) -> Self {
        Whys {
            alloc,
            last: Vec::new(alloc),
            sentence: String::new(alloc),
        }
    }

    /// Appends why tasks don't go on, as a member of an object, of those of which something else was told last.
    pub fn tell(&mut self, out: &mut String, waits: &Waits<'_, '_>) -> Result<(), AllocError> {
        let mut before = ",\"whys\":{\"";
        for (task, doing) in waits.standing.doings.iter().enumerate() {
            let task = TaskNo((task % 65_536) as u16);
            if !self.holds(waits, task, doing) && self.changes(waits, task, doing)? {
                out.push_str(before)?;
                out.push_str(waits.end.scene.task(task))?;
                out.push_str("\":")?;
                out.push_str(self.text(task))?;
                before = ",\"";
            }
        }
        out.push_str(if before == ",\"" { "}" } else { "" })
    }

    /// Whether other tasks run than when something was told last.
    pub fn is_other_run(&self, standing: &Standing) -> bool {
        let mut runs = standing.doings.iter().zip(self.last.iter());
        standing.doings.len() != self.last.len()
            || runs.any(|(doing, last)| doing.runs != last.runs)
    }

    // What was told last of a task.
    fn text(&self, task: TaskNo) -> &str {
        match self.last.get(usize::from(task.0)) {
            Some(last) => last.told.last(),
            None => "null",
        }
    }

    // Whether what was told last of a task still holds.
    fn holds(&self, waits: &Waits<'_, '_>, task: TaskNo, doing: &Doing) -> bool {
        match self.last.get(usize::from(task.0)) {
            Some(last) => last.is_of(doing) && last.holds(waits, task),
            None => false,
        }
    }

    // Whether something else is to be told of a task than was told last.
    fn changes(
        &mut self,
        waits: &Waits<'_, '_>,
        task: TaskNo,
        doing: &Doing,
    ) -> Result<bool, AllocError> {
        if usize::from(task.0) >= self.last.len() {
            self.last.push(Last::new(self.alloc))?;
        }
        let Some(last) = self.last.get_mut(usize::from(task.0)) else {
            return Ok(false);
        };
        let client = client_of(waits, task);
        last.client = client;
        last.reason = doing.reason;
        last.runs = doing.runs;
        self.sentence.clear();
        write_sentence(
            &mut self.sentence,
            waits.end,
            waits.clients,
            task,
            doing.reason,
        )?;
        let sentence = self.sentence.trim();
        write_why(last.told.anew(), waits.end, task, doing, client, sentence)?;
        Ok(last.told.take())
    }
}

// The task that a task served last, if it waits for other calls than that one.
fn client_of(waits: &Waits<'_, '_>, task: TaskNo) -> Option<Client> {
    let client = waits.clients.client_of(waits.end.scene, task)?;
    Some(Client {
        task: client,
        reason: waits.standing.doings.get(usize::from(client.0))?.reason,
    })
}

// Why a task doesn't go on, or that it runs, which a sentence says; null if there is none, since it is terminated.
fn write_why(
    out: &mut String,
    end: &End<'_>,
    task: TaskNo,
    doing: &Doing,
    client: Option<Client>,
    sentence: &str,
) -> Result<(), AllocError> {
    if sentence.is_empty() {
        return out.push_str("null");
    }
    out.push_str("{\"text\":")?;
    put_quoted(out, sentence)?;
    if let Some(reason) = doing.reason {
        write_reason(out, end, task, reason)?;
    }
    if let Some(due) = doing.due {
        write!(out, ",\"due\":{due}")?;
    }
    if let Some(client) = client {
        put_word(out, ",\"served\":\"", end.scene.task(client.task))?;
    }
    out.push('}')
}

fn write_reason(
    out: &mut String,
    end: &End<'_>,
    task: TaskNo,
    reason: Reason,
) -> Result<(), AllocError> {
    out.push_str(member_of(reason))?;
    if let Some(position) = since(end, reason) {
        put_number(out, ",\"since\":", position)?;
    }
    match reason {
        Reason::Queued { call } | Reason::InRendezvous { call } => {
            write_called(out, end.scene, call)
        }
        Reason::Waiting { .. } | Reason::Delayed { .. } => Ok(()),
        _ => write_awaited(out, end, task, reason),
    }
}

// The task that a call is for, for which its caller waits.
fn write_called(out: &mut String, scene: Scene<'_>, call: u32) -> Result<(), AllocError> {
    match event_in(scene.events, call) {
        Some(Event::Called { callee, .. }) => {
            put_word(out, ",\"awaits\":[\"", scene.task(*callee))?;
            out.push(']')
        }
        _ => Ok(()),
    }
}

// The tasks for which a task waits, if there are some.
fn write_awaited(
    out: &mut String,
    end: &End<'_>,
    task: TaskNo,
    reason: Reason,
) -> Result<(), AllocError> {
    let view = end.scene.kernel.view();
    let mut before = ",\"awaits\":[\"";
    for other in 0..end.tasks() {
        if awaits(&view, task, TaskNo(other), reason) {
            out.push_str(before)?;
            out.push_str(end.scene.task(TaskNo(other)))?;
            before = "\",\"";
        }
    }
    out.push_str(if before == "\",\"" { "\"]" } else { "" })
}
