//! The twelve requests, read from numbers. Each is inlined, so that a request isn't copied on its way to the kernel.
ghost use Rattle.std.specs.Prelude.{◌≡◌, [], ◌∷◌};
ghost use Rattle.ada_border.specs.Requests as spec;

use crate::Bad;
use crate::parts::{
    PlainChoice, PlainFamily, PlainPause, choice_in, choices_in, entry_in, families_in, flag_in,
    master_in, patience_in, pauses_in, task_in, tasks_in,
};
use ada_events::{Choices, Request, Tail};

/// Opens a block.
#[inline(always)]
pub fn open_in(by: u64) -> Result<Request, Bad>
    ensures { result ≡ spec.open_in by }
{
    let by = task_in(by)?;
    Ok(Request::Open { by })
}

/// Makes a task under a master, with families of entries.
#[inline(always)]
pub fn create_in(by: u64, kind: u32, master: u64, families: &[PlainFamily]) -> Result<Request, Bad>
    ensures { result ≡ spec.create_in by kind master families.now }
{
    let by = task_in(by)?;
    let master = master_in(kind, master)?;
    let families = families_in(families)?;
    Ok(Request::Create {
        by,
        master,
        families,
    })
}

/// Starts the activation of tasks.
#[inline(always)]
pub fn activate_in(by: u64, tasks: &[u64]) -> Result<Request, Bad>
    ensures { result ≡ spec.activate_in by tasks.now }
{
    let by = task_in(by)?;
    let tasks = tasks_in(tasks)?;
    Ok(Request::Activate { by, tasks })
}

/// Ends the task's own activation.
#[inline(always)]
pub fn elaborated_in(by: u64, ok: u32) -> Result<Request, Bad>
    ensures { result ≡ spec.elaborated_in by ok }
{
    let by = task_in(by)?;
    let ok = flag_in(ok)?;
    Ok(Request::Elaborated { by, ok })
}

/// Calls an entry.
#[inline(always)]
pub fn call_in(
    by: u64,
    callee: u64,
    family: u32,
    index: i32,
    patience: u32,
    duration: i64,
) -> Result<Request, Bad>
    ensures { result ≡ spec.call_in by callee family index patience duration }
{
    let by = task_in(by)?;
    let callee = task_in(callee)?;
    let entry = entry_in(family, index)?;
    let patience = patience_in(patience, duration)?;
    Ok(Request::Call {
        by,
        callee,
        entry,
        patience,
    })
}

/// The last part of a selective wait, by its kind.
#[inline(always)]
pub fn tail_in(kind: u32, delays: &[PlainPause]) -> Result<Tail, Bad>
    ensures { result ≡ spec.tail_in kind delays.now }
{
    if kind == 2 {
        let pauses = pauses_in(delays)?;
        return Ok(Tail::Delays(pauses));
    }
    if kind > 4 {
        return Err(Bad::NoSuchKind);
    }
    if !delays.is_empty() {
        return Err(Bad::TooLong);
    }
    Ok(match kind {
        0 => Tail::Nothing,
        1 => Tail::Otherwise,
        3 => Tail::Terminate(true),
        _ => Tail::Terminate(false),
    })
}

/// Waits selectively.
#[inline(always)]
pub fn wait_in(
    by: u64,
    choices: &[PlainChoice],
    tail: u32,
    delays: &[PlainPause],
    pick: u32,
) -> Result<Request, Bad>
    ensures { result ≡ spec.wait_in by choices.now tail delays.now pick }
{
    let by = task_in(by)?;
    let choices = choices_in(choices)?;
    let tail = tail_in(tail, delays)?;
    Ok(Request::Wait {
        by,
        choices,
        tail,
        pick,
    })
}

/// Accepts a call of one entry: waits selectively with one alternative and no last part. Its request is made without
/// the copies of lists that a wait's takes.
#[inline(always)]
#[tactic(auto, unfolding(crate::specs::Requests::all_in))]
pub fn accept_in(by: u64, choice: PlainChoice, pick: u32) -> Result<Request, Bad>
    ensures { result ≡ spec.wait_in by (choice ∷ []) 0 [] pick }
{
    let by = task_in(by)?;
    let choice = choice_in(choice)?;
    let mut choices = Choices::new();
    choices.push(choice);
    Ok(Request::Wait {
        by,
        choices,
        tail: Tail::Nothing,
        pick,
    })
}

/// Delays the task.
#[inline(always)]
pub fn delay_in(by: u64, duration: i64) -> Result<Request, Bad>
    ensures { result ≡ spec.delay_in by duration }
{
    let by = task_in(by)?;
    Ok(Request::Delay { by, duration })
}

/// Ends the innermost accept statement.
#[inline(always)]
pub fn end_in(by: u64, raised: u32) -> Result<Request, Bad>
    ensures { result ≡ spec.end_in by raised }
{
    let by = task_in(by)?;
    let raised = flag_in(raised)?;
    Ok(Request::End { by, raised })
}

/// Leaves the innermost block.
#[inline(always)]
pub fn close_in(by: u64) -> Result<Request, Bad>
    ensures { result ≡ spec.close_in by }
{
    let by = task_in(by)?;
    Ok(Request::Close { by })
}

/// Completes the task's body.
#[inline(always)]
pub fn complete_in(by: u64) -> Result<Request, Bad>
    ensures { result ≡ spec.complete_in by }
{
    let by = task_in(by)?;
    Ok(Request::Complete { by })
}

/// Aborts tasks.
#[inline(always)]
pub fn abort_in(by: u64, tasks: &[u64]) -> Result<Request, Bad>
    ensures { result ≡ spec.abort_in by tasks.now }
{
    let by = task_in(by)?;
    let tasks = tasks_in(tasks)?;
    Ok(Request::Abort { by, tasks })
}
