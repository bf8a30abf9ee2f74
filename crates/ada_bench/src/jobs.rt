//! What is measured: a replay, its parts, and the floors of both.

use crate::floors::{Tokens, push_events, read_text, write_text};
use crate::sink::Sink;
use crate::turns::Job;
use ada_events::{Event, Patience, Request, TaskNo};
use ada_kernel::Kernel;
use ada_replay::replay;
use ada_script::read;
use std::time::{Duration, Instant};

/// The replay of a script, from its bytes to the text that is written.
#[derive(Drop)]
pub struct Replaying<'a> {
    pub text: &'a [u8],
}

impl Job<HostRuntime> for Replaying<'_> {
    fn turn(&mut self, rt: &HostRuntime) -> anyhow::Result<Duration> {
        let start = Instant::now(rt)?;
        let mut reader = self.text;
        let mut sink = Sink::default();
        let _ = replay(rt.alloc(), &mut reader, &mut sink);
        Ok(start.elapsed(rt)?)
    }
}

/// The reading of a script.
#[derive(Drop)]
pub struct Reading<'a> {
    pub text: &'a [u8],
}

impl Job<HostRuntime> for Reading<'_> {
    fn turn(&mut self, rt: &HostRuntime) -> anyhow::Result<Duration> {
        let start = Instant::now(rt)?;
        let _ = read(rt.alloc(), self.text);
        Ok(start.elapsed(rt)?)
    }
}

/// The floor of a replay: its bytes are read and cut into words, each looked up or read as a number, its
/// events made and kept, and its text made and written.
#[derive(Drop)]
pub struct Floor<'a> {
    text: &'a [u8],
    events: &'a [Event],
    output: &'a [u8],
    /// What came of the words, so that reading them isn't left out.
    digest: i64,
}

impl<'a> Floor<'a> {
    /// The floor of the replay of this text, which leads to these events and to this output.
    pub fn new(text: &'a [u8], events: &'a [Event], output: &'a [u8]) -> Self {
        Floor {
            text,
            events,
            output,
            digest: 0,
        }
    }
}

impl Job<HostRuntime> for Floor<'_> {
    fn turn(&mut self, rt: &HostRuntime) -> anyhow::Result<Duration> {
        let start = Instant::now(rt)?;
        let text = read_text(rt.alloc(), self.text)?;
        self.digest = Tokens::read(rt.alloc(), &text)?.digest();
        let _journal = push_events(rt.alloc(), self.events)?;
        write_text(rt.alloc(), self.output, &mut Sink::default())?;
        Ok(start.elapsed(rt)?)
    }
}

/// What takes requests, one after another.
pub trait Taker {
    fn take(&mut self, request: Request);
}

// Inlined, so that a request isn't copied on its way to who answers it.
impl Taker for Kernel {
    #[inline(always)]
    fn take(&mut self, request: Request) {
        let _ = self.step(request);
    }
}

/// What looks at requests, and does nothing else with them.
#[derive(Clone, Copy, Debug, Default)]
pub struct Looker {
    /// The sum of what they say, so that making them isn't left out.
    pub digest: i64,
}

impl Taker for Looker {
    #[inline(always)]
    fn take(&mut self, request: Request) {
        self.digest = self.digest.wrapping_add(look_at(&request));
    }
}

/// The sum of numbers that a request says.
#[inline(never)]
fn look_at(request: &Request) -> i64 {
    match request {
        Request::Call {
            by,
            callee,
            entry,
            patience,
        } => sum_of(*by, *callee, entry.index, *patience == Patience::Simple),
        Request::Wait {
            by,
            choices,
            pick,
            ..
        } => { i64::from(by.0) + choices.as_slice().len() as i64 + i64::from(*pick) }
        Request::End { by, raised } => sum_of(*by, *by, 0, *raised),
        Request::Activate { by, tasks } | Request::Abort { by, tasks } => {
            i64::from(by.0) + tasks.as_slice().len() as i64
        }
        Request::Tick { now } => *now,
        _ => 0,
    }
}

/// The sum of two tasks, an index, and 1 where that is so.
fn sum_of(by: TaskNo, callee: TaskNo, index: i32, so: bool) -> i64 {
    i64::from(by.0) + i64::from(callee.0) + i64::from(index) + i64::from(so)
}

/// Requests that can be made again and again.
pub trait Plan {
    /// Makes the requests that come before those that are measured.
    fn prepare<T: Taker>(&self, taker: &mut T);

    /// Makes the requests that are measured.
    fn measured<T: Taker>(&self, taker: &mut T);
}

/// The steps of a kernel: its answers to requests that are made one after another.
#[derive(Drop)]
pub struct Stepping<'a, P> {
    pub plan: &'a P,
}

impl<P: Plan> Job<HostRuntime> for Stepping<'_, P> {
    fn turn(&mut self, rt: &HostRuntime) -> anyhow::Result<Duration> {
        let mut kernel = Kernel::new(rt.alloc())?;
        time_steps(rt, self.plan, &mut kernel)
    }
}

/// How long a kernel takes for the requests of a plan that are measured, behind the others.
fn time_steps<P: Plan>(
    rt: &HostRuntime,
    plan: &P,
    kernel: &mut Kernel,
) -> anyhow::Result<Duration> {
    plan.prepare(kernel);
    let start = Instant::now(rt)?;
    plan.measured(kernel);
    Ok(start.elapsed(rt)?)
}

/// The floor of steps: the same requests are made, and their events are made and kept.
#[derive(Drop)]
pub struct Pushing<'a, P> {
    pub plan: &'a P,
    pub events: &'a [Event],
    pub looker: Looker,
}

impl<P: Plan> Job<HostRuntime> for Pushing<'_, P> {
    fn turn(&mut self, rt: &HostRuntime) -> anyhow::Result<Duration> {
        let start = Instant::now(rt)?;
        self.plan.measured(&mut self.looker);
        let _journal = push_events(rt.alloc(), self.events)?;
        Ok(start.elapsed(rt)?)
    }
}
