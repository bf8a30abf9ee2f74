//! What is measured of a script, and of the work of a kernel.

use crate::jobs::{Floor, Looker, Plan, Pushing, Reading, Replaying, Stepping};
use crate::kernels::Beside;
use crate::queries::{Asking, Listing, Looking, Making, Query};
use crate::report::{print_head, print_memory, print_row};
use crate::scripted::Scripted;
use crate::scripts::{Kind, script};
use crate::sink::Sink;
use crate::turns::{Job, measure};
use crate::works::Work;
use ada_events::Event;
use ada_kernel::Kernel;
use ada_replay::replay;
use ada_script::{Script, read};

/// Plays a script of so many lines, and prints how much it came to.
pub fn try_script(rt: &HostRuntime, kind: Kind, lines: usize) -> anyhow::Result<()> {
    let text = script(rt.alloc(), kind, lines)?;
    try_text(rt, kind.name(), &text)
}

/// Replays a text, and prints how much it came to.
fn try_text(rt: &HostRuntime, name: &str, text: &[u8]) -> anyhow::Result<()> {
    let mut reader = text;
    let mut sink = Sink::default();
    let _ = replay(rt.alloc(), &mut reader, &mut sink);
    println!(rt;
        "{}: {} bytes read, {} bytes written in {} writes",
        name,
        text.len(),
        sink.bytes,
        sink.writes
    )?;
    Ok(())
}

/// Does some work on a kernel, and prints how many events it came to.
pub fn try_work(rt: &HostRuntime, work: Work, idle: u16) -> anyhow::Result<()> {
    let size = work.small_size();
    let (before, events) = counted(rt, &Beside { work, size, idle })?;
    println!(rt;
        "{}: {} events, and {} before them",
        work.name(),
        events,
        before
    )?;
    Ok(())
}

/// How many events there are before the requests of a plan that are measured, and how many those lead to.
fn counted<P: Plan>(rt: &HostRuntime, plan: &P) -> anyhow::Result<(u32, u32)> {
    let (kernel, before) = done(rt, plan)?;
    Ok((before, kernel.journal().len().saturating_sub(before)))
}

/// Asks a kernel each question of its tasks, and prints what the answers come to.
pub fn try_query(rt: &HostRuntime, query: Query, idle: u16) -> anyhow::Result<()> {
    let kernel = with_idle_tasks(rt, idle)?;
    print_answers(rt, &kernel, query)
}

/// Prints what the answers to a question come to.
fn print_answers(rt: &HostRuntime, kernel: &Kernel, query: Query) -> anyhow::Result<()> {
    let mut asking = Asking {
        kernel,
        query,
        times: 256,
        digest: 0,
    };
    asking.turn(rt)?;
    println!(rt; "{}: {} in 256 answers", query.name(), asking.digest)?;
    Ok(())
}

/// A kernel on which the requests of a plan were made, and how long its journal was before those that
/// are measured.
fn done<P: Plan>(rt: &HostRuntime, plan: &P) -> anyhow::Result<(Kernel, u32)> {
    let mut kernel = Kernel::new(rt.alloc())?;
    let before = do_all(plan, &mut kernel);
    Ok((kernel, before))
}

/// Makes the requests of a plan: how long the journal was before those that are measured.
fn do_all<P: Plan>(plan: &P, kernel: &mut Kernel) -> u32 {
    plan.prepare(kernel);
    let before = kernel.journal().len();
    plan.measured(kernel);
    before
}

/// A kernel with so many tasks that have nothing to do, beside one that is called by another.
fn with_idle_tasks(rt: &HostRuntime, idle: u16) -> anyhow::Result<Kernel> {
    let plan = Beside {
        work: Work::Call,
        size: 2,
        idle,
    };
    Ok(done(rt, &plan)?.0)
}

/// Measures the replay of a script of so many lines, its reading alone, and its kernel's steps alone. The
/// memory is that of the first replay and of its script.
pub fn measure_script(rt: &HostRuntime, kind: Kind, lines: usize) -> anyhow::Result<()> {
    let text = script(rt.alloc(), kind, lines)?;
    try_text(rt, kind.name(), &text)?;
    print_memory(rt)?;
    print_head(rt)?;
    match read(rt.alloc(), &text) {
        Ok(script) => measure_play(rt, &text, script),
        Err(_) => measure_reading(rt, &text),
    }
}

/// Measures the replay of a text that is no script. Its floor is that of its reading.
fn measure_reading(rt: &HostRuntime, text: &[u8]) -> anyhow::Result<()> {
    let floor = measure(rt, &mut Floor::new(text, &[], b""))?;
    print_row(rt, "replay", measure(rt, &mut Replaying { text })?, floor)?;
    Ok(())
}

/// Measures the replay of a script, and its parts.
fn measure_play(rt: &HostRuntime, text: &[u8], script: Script) -> anyhow::Result<()> {
    let mut reader = text;
    let mut output = Vec::new(rt.alloc());
    let _ = replay(rt.alloc(), &mut reader, &mut output);
    let played = Scripted::play(rt.alloc(), script)?;
    measure_played(rt, text, &played, &output)
}

/// Measures the replay of a script that was played once, and its parts.
fn measure_played(
    rt: &HostRuntime,
    text: &[u8],
    plan: &Scripted,
    output: &[u8],
) -> anyhow::Result<()> {
    let events = plan.kernel.journal().as_slice();
    let floor = measure(rt, &mut Floor::new(text, events, output))?;
    print_row(rt, "replay", measure(rt, &mut Replaying { text })?, floor)?;
    let floor = measure(rt, &mut Floor::new(text, &[], b""))?;
    print_row(rt, "read", measure(rt, &mut Reading { text })?, floor)?;
    measure_answers_to(rt, "steps", plan, events)
}

/// Measures a kernel's answers to the requests of a plan, which lead to these events.
fn measure_answers_to<P: Plan>(
    rt: &HostRuntime,
    name: &str,
    plan: &P,
    events: &[Event],
) -> anyhow::Result<()> {
    let looker = Looker::default();
    let floor = measure(
        rt,
        &mut Pushing {
            plan,
            events,
            looker,
        },
    )?;
    print_row(rt, name, measure(rt, &mut Stepping { plan })?, floor)?;
    Ok(())
}

/// Measures some work on a kernel, beside so many idle tasks. A late thousand of events is measured
/// beside the first thousand.
pub fn measure_work(rt: &HostRuntime, work: Work, size: usize, idle: u16) -> anyhow::Result<()> {
    println!(rt; "{} of {} beside {} idle tasks", work.name(), size, idle)?;
    print_head(rt)?;
    if work == Work::Late {
        let size = 0;
        measure_plan(rt, "first", &Beside { work, size, idle })?;
    }
    measure_plan(rt, "steps", &Beside { work, size, idle })
}

/// Measures the requests of a plan.
fn measure_plan(rt: &HostRuntime, name: &str, plan: &Beside) -> anyhow::Result<()> {
    let (kernel, before) = done(rt, plan)?;
    let events = after(kernel.journal().as_slice(), before as usize);
    measure_steps(rt, name, plan, events)
}

/// Measures the requests of a plan beside the events that they lead to.
fn measure_steps(
    rt: &HostRuntime,
    name: &str,
    plan: &Beside,
    events: &[Event],
) -> anyhow::Result<()> {
    measure_answers_to(rt, name, plan, events)?;
    println!(rt; "  {} events", events.len())?;
    Ok(())
}

/// Measures so many questions to a kernel, beside so many idle tasks.
pub fn measure_query(rt: &HostRuntime, query: Query, times: u64, idle: u16) -> anyhow::Result<()> {
    println!(rt;
        "{} asked {} times beside {} idle tasks",
        query.name(),
        times,
        idle
    )?;
    print_head(rt)?;
    let kernel = with_idle_tasks(rt, idle)?;
    measure_answers(rt, &kernel, query, times)
}

/// Measures so many questions to a kernel.
fn measure_answers(
    rt: &HostRuntime,
    kernel: &Kernel,
    query: Query,
    times: u64,
) -> anyhow::Result<()> {
    let board = kernel.board();
    let mut looking = Looking {
        board: &board,
        query,
        times,
        digest: 0,
    };
    let floor = measure(rt, &mut looking)?;
    let mut asking = Asking {
        kernel,
        query,
        times,
        digest: 0,
    };
    print_row(rt, "asked", measure(rt, &mut asking)?, floor)?;
    println!(rt;
        "  {} answered, {} looked up",
        asking.digest, looking.digest
    )?;
    Ok(())
}

/// Measures so many kernels, made and dropped.
pub fn measure_making(rt: &HostRuntime, kernels: u64) -> anyhow::Result<()> {
    println!(rt; "{} kernels made and dropped", kernels)?;
    print_head(rt)?;
    let mut listing = Listing {
        journals: kernels,
        digest: 0,
    };
    let floor = measure(rt, &mut listing)?;
    let mut making = Making { kernels, digest: 0 };
    print_row(rt, "made", measure(rt, &mut making)?, floor)?;
    println!(rt; "  {} events", making.digest.wrapping_add(listing.digest))?;
    Ok(())
}

/// The events behind so many.
fn after(events: &[Event], before: usize) -> &[Event] {
    events.get(before..).unwrap_or(&[])
}
