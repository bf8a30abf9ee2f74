//! A task is stopped.
ghost use Rattle.std.specs.Prelude.{◌≡◌, false, IfErr, OnOk, [], ◌∷◌};
ghost use Rattle.ada_events.specs.Attributes.{is_callable};
ghost use Rattle.ada_events.specs.Steps.{IsRefused};
ghost use Rattle.ada_events.specs.declared.request.Request.TheVariants as asked;

use ada_events::{Refusal, Request, TaskNo, Tasks};
use ada_kernel::Kernel;

/// Aborts a task for the task that asks (9.10). Afterwards the task isn't callable (9.9), and by the law
/// `uncallable_tasks_stay_so` it never is again. Refused, nothing has changed.
#[tactic(auto, using(crate::proofs::Stopping::stopped))]
pub fn stop(kernel: &mut Kernel, by: TaskNo, task: TaskNo) -> Result<(), Refusal>
    ensures stopped { OnOk result (is_callable kernel.new task.0 ≡ false) }
    ensures refused { IfErr result (λ cause.
        IsRefused kernel.old (asked.Abort by (task ∷ [])) cause kernel.new) }
{
    let tasks = Tasks::from_slice(&[task]);
    kernel.step(Request::Abort { by, tasks })?;
    Ok(())
}
