//! What stands in the journal of a kernel.
ghost use Rattle.std.specs.Prelude.{◌≡◌, ◌<◌, IfOk};
ghost use Rattle.ada_events.specs.Tasks.{task_count};
ghost use Rattle.ada_tables.specs.Layers.{members};
ghost use Rattle.ada_page.specs.Standing.{IsDoing, AreDoings, IsStanding};

use ada_events::{Member, TaskNo};
use ada_kernel::Kernel;
use ada_tables::Layer;
use ada_waiting::{Reason, Verdict, due_in, reason_in, verdict_in};
use std::alloc::{AllocError, Global};

/// What a task does.
#[derive(Debug, Drop, PartialEq, Eq)]
pub struct Doing {
    /// Whether it runs.
    pub runs: bool,
    /// Why it doesn't go on by itself; none if it runs or is terminated.
    pub reason: Option<Reason>,
    /// The moment for which it is suspended, in milliseconds; none if it isn't, or for no moment (9.6, 9.7).
    pub due: Option<i64>,
    /// The blocks and the rendezvous that it is within, the outermost first (9.4, 9.5).
    pub nest: Vec<Member>,
}

/// What stands in a journal.
#[derive(Debug, Drop, PartialEq, Eq)]
pub struct Standing {
    /// What each task does, in order of their creation, the main program first.
    pub doings: Vec<Doing>,
    /// What can let the journal go on.
    pub verdict: Verdict,
}

// The members of a nest.
fn members_of(alloc: Global, layers: &[Layer]) -> Result<Vec<Member>, AllocError>
    ensures { IfOk result (λ nest. nest.items ≡ members layers.now) }
{
    layers.iter().map(|layer| layer.member()).collect(alloc)
}

// What a task does that there is.
fn doing_of(alloc: Global, kernel: &Kernel, task: TaskNo) -> Result<Doing, AllocError>
    requires { task.0 < task_count kernel.now }
    ensures { IfOk result (IsDoing kernel.now task.0) }
{
    let view = kernel.view();
    Ok(Doing {
        runs: kernel.running(task).unwrap_or(false),
        reason: reason_in(kernel, task),
        due: due_in(kernel, task),
        nest: members_of(alloc, view.nest(task).as_slice())?,
    })
}

// What each task does.
fn doings_of(alloc: Global, kernel: &Kernel) -> Result<Vec<Doing>, AllocError>
    ensures { IfOk result (λ doings. AreDoings kernel.now doings.items) }
{
    let mut doings = Vec::with_capacity(alloc, usize::from(kernel.tasks()))?;
    for task in 0..kernel.tasks() {
        doings.push(doing_of(alloc, kernel, TaskNo(task))?)?;
    }
    Ok(doings)
}

/// What stands in the journal of a kernel: what each task does, and what can let it go on.
pub fn standing_of(alloc: Global, kernel: &Kernel) -> Result<Standing, AllocError>
    ensures { IfOk result (IsStanding kernel.now) }
{
    let doings = doings_of(alloc, kernel)?;
    Ok(Standing {
        doings,
        verdict: verdict_in(kernel),
    })
}
