//! The requests to a kernel that lives on, read from numbers. Each is inlined, so that a request isn't copied on its
//! way to the kernel.
ghost use Rattle.std.specs.Prelude.{◌≡◌, [], ◌∷◌, map};
ghost use Rattle.ada_events.specs.Forced.{task_no};
ghost use Rattle.ada_lasting.specs.Meaning.{meant, meant_master};
ghost use Rattle.ada_embed.specs.Requests as spec;
ghost use Rattle.ada_embed.specs.Requests.{read_as};

use ada_border::Bad;
use ada_border::parts::{
    PlainChoice, PlainFamily, PlainPause, choice_in, choices_in, entry_in, families_in, flag_in,
    patience_in,
};
use ada_border::requests::tail_in;
use ada_events::limits::MOST_TASKS;
use ada_events::{Choices, Tail};
use ada_lasting::{LastingMaster, LastingRequest, LastingTasks};

/// Opens a block.
#[inline(always)]
#[tactic(auto, unfolding(ada_lasting::specs::Meaning::meant))]
pub fn open_in(by: u64) -> Result<LastingRequest, Bad>
    ensures { read_as meant result ≡ (spec.open_in by).lasting }
{
    Ok(LastingRequest::Open { by })
}

// The master of a kind: 0 for a task's body, 1 for a block by the position of its opening.
fn master_in(kind: u32, number: u64) -> Result<LastingMaster, Bad>
    ensures { read_as meant_master result ≡ spec.master_in kind number }
{
    match kind {
        0 => Ok(LastingMaster::Body(number)),
        1 => Ok(LastingMaster::Block(number)),
        _ => Err(Bad::NoSuchKind),
    }
}

/// Makes a task under a master, with families of entries.
#[inline(always)]
#[tactic(auto, unfolding(ada_lasting::specs::Meaning::meant))]
pub fn create_in(
    by: u64,
    kind: u32,
    master: u64,
    families: &[PlainFamily],
) -> Result<LastingRequest, Bad>
    ensures { read_as meant result ≡ (spec.create_in by kind master families.now).lasting }
{
    let master = master_in(kind, master)?;
    let families = families_in(families)?;
    Ok(LastingRequest::Create {
        by,
        master,
        families,
    })
}

// The tasks of a list.
fn tasks_in(numbers: &[u64]) -> Result<LastingTasks, Bad>
    ensures { read_as (map task_no) result ≡ spec.tasks_in numbers.now }
{
    if numbers.len() > MOST_TASKS {
        return Err(Bad::TooLong);
    }
    let mut tasks = LastingTasks::new();
    for number in numbers {
        tasks.push(*number);
    }
    Ok(tasks)
}

/// Starts the activation of tasks.
#[inline(always)]
#[tactic(auto, unfolding(ada_lasting::specs::Meaning::meant))]
pub fn activate_in(by: u64, tasks: &[u64]) -> Result<LastingRequest, Bad>
    ensures { read_as meant result ≡ (spec.activate_in by tasks.now).lasting }
{
    let tasks = tasks_in(tasks)?;
    Ok(LastingRequest::Activate { by, tasks })
}

/// Ends the task's own activation.
#[inline(always)]
#[tactic(auto, unfolding(ada_lasting::specs::Meaning::meant))]
pub fn elaborated_in(by: u64, ok: u32) -> Result<LastingRequest, Bad>
    ensures { read_as meant result ≡ (spec.elaborated_in by ok).lasting }
{
    let ok = flag_in(ok)?;
    Ok(LastingRequest::Elaborated { by, ok })
}

/// Calls an entry.
#[inline(always)]
#[tactic(auto, unfolding(ada_lasting::specs::Meaning::meant))]
pub fn call_in(
    by: u64,
    callee: u64,
    family: u32,
    index: i32,
    patience: u32,
    duration: i64,
) -> Result<LastingRequest, Bad>
    ensures { read_as meant result
        ≡ (spec.call_in by callee family index patience duration).lasting }
{
    let entry = entry_in(family, index)?;
    let patience = patience_in(patience, duration)?;
    Ok(LastingRequest::Call {
        by,
        callee,
        entry,
        patience,
    })
}

/// Waits selectively.
#[inline(always)]
#[tactic(auto, unfolding(ada_lasting::specs::Meaning::meant))]
pub fn wait_in(
    by: u64,
    choices: &[PlainChoice],
    tail: u32,
    delays: &[PlainPause],
    pick: u32,
) -> Result<LastingRequest, Bad>
    ensures { read_as meant result ≡ (spec.wait_in by choices.now tail delays.now pick).lasting }
{
    let choices = choices_in(choices)?;
    let tail = tail_in(tail, delays)?;
    Ok(LastingRequest::Wait {
        by,
        choices,
        tail,
        pick,
    })
}

/// Accepts a call of one entry: waits selectively with one alternative and no last part.
#[inline(always)]
#[tactic(auto, unfolding(ada_lasting::specs::Meaning::meant, ada_border::specs::Requests::all_in))]
pub fn accept_in(by: u64, choice: PlainChoice, pick: u32) -> Result<LastingRequest, Bad>
    ensures { read_as meant result ≡ (spec.wait_in by (choice ∷ []) 0 [] pick).lasting }
{
    let choice = choice_in(choice)?;
    let mut choices = Choices::new();
    choices.push(choice);
    Ok(LastingRequest::Wait {
        by,
        choices,
        tail: Tail::Nothing,
        pick,
    })
}

/// Delays the task.
#[inline(always)]
#[tactic(auto, unfolding(ada_lasting::specs::Meaning::meant))]
pub fn delay_in(by: u64, duration: i64) -> Result<LastingRequest, Bad>
    ensures { read_as meant result ≡ (spec.delay_in by duration).lasting }
{
    Ok(LastingRequest::Delay { by, duration })
}

/// Ends the innermost accept statement.
#[inline(always)]
#[tactic(auto, unfolding(ada_lasting::specs::Meaning::meant))]
pub fn end_in(by: u64, raised: u32) -> Result<LastingRequest, Bad>
    ensures { read_as meant result ≡ (spec.end_in by raised).lasting }
{
    let raised = flag_in(raised)?;
    Ok(LastingRequest::End { by, raised })
}

/// Leaves the innermost block.
#[inline(always)]
#[tactic(auto, unfolding(ada_lasting::specs::Meaning::meant))]
pub fn close_in(by: u64) -> Result<LastingRequest, Bad>
    ensures { read_as meant result ≡ (spec.close_in by).lasting }
{
    Ok(LastingRequest::Close { by })
}

/// Completes the task's body.
#[inline(always)]
#[tactic(auto, unfolding(ada_lasting::specs::Meaning::meant))]
pub fn complete_in(by: u64) -> Result<LastingRequest, Bad>
    ensures { read_as meant result ≡ (spec.complete_in by).lasting }
{
    Ok(LastingRequest::Complete { by })
}

/// Aborts tasks.
#[inline(always)]
#[tactic(auto, unfolding(ada_lasting::specs::Meaning::meant))]
pub fn abort_in(by: u64, tasks: &[u64]) -> Result<LastingRequest, Bad>
    ensures { read_as meant result ≡ (spec.abort_in by tasks.now).lasting }
{
    let tasks = tasks_in(tasks)?;
    Ok(LastingRequest::Abort { by, tasks })
}

/// Moves the moment.
#[inline(always)]
#[tactic(auto, unfolding(ada_lasting::specs::Meaning::meant))]
pub fn tick_to(now: i64) -> Result<LastingRequest, Bad>
    ensures { read_as meant result ≡ (spec.tick_to now).lasting }
{
    Ok(LastingRequest::Tick { now })
}
