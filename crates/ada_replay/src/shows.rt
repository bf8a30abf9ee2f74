//! The attributes that lines show (9.9).
ghost use Rattle.std.specs.Prelude.{◌≡◌, Ok, Err, MatchOption};
ghost use Rattle.ada_events.specs.Attributes.{is_callable, own_count};
ghost use Rattle.ada_events.specs.Phases.{is_terminated as terminated_in};
ghost use Rattle.ada_replay.specs.Play.{attribute, count_value, shown as shown_of};

use ada_events::{Entry, Refusal, TaskNo};
use ada_kernel::Kernel;
use ada_script::{Names, Statement, Value};

fn truth_of(value: Option<bool>) -> Result<Value, Refusal>
    ensures { MatchOption value (result ≡ Err Refusal.UnknownTask) (λ truth.
        result ≡ Ok (Value.Truth truth)) }
{
    match value {
        Some(value) => Ok(Value::Truth(value)),
        None => Err(Refusal::UnknownTask),
    }
}

// CALLABLE of a task, where it and the asking task exist.
fn shown_callable(kernel: &Kernel, by: TaskNo, task: TaskNo) -> Result<Value, Refusal>
    ensures { result ≡ attribute kernel.now by task is_callable }
{
    match kernel.callable(by) {
        Some(_) => truth_of(kernel.callable(task)),
        None => Err(Refusal::UnknownTask),
    }
}

// TERMINATED of a task, where it and the asking task exist.
fn shown_terminated(kernel: &Kernel, by: TaskNo, task: TaskNo) -> Result<Value, Refusal>
    ensures { result ≡ attribute kernel.now by task terminated_in }
{
    match kernel.terminated(by) {
        Some(_) => truth_of(kernel.terminated(task)),
        None => Err(Refusal::UnknownTask),
    }
}

// COUNT of an entry of the asking task's own.
fn shown_count(kernel: &Kernel, by: TaskNo, entry: Entry) -> Result<Value, Refusal>
    ensures { result ≡ count_value (own_count kernel.now by.0 entry) }
{
    match kernel.count(by, entry) {
        Ok(count) => Ok(Value::Number(count)),
        Err(cause) => Err(cause),
    }
}

/// The attribute that a statement shows, or the cause for which it isn't shown.
pub fn shown(kernel: &Kernel, names: &Names, statement: &Statement) -> Result<Value, Refusal>
    ensures { result ≡ shown_of names.now kernel.now statement.now }
{
    match statement {
        Statement::ShowCallable { by, task } => shown_callable(
            kernel,
            names.task(by),
            names.task(task),
        ),
        Statement::ShowTerminated { by, task } => shown_terminated(
            kernel,
            names.task(by),
            names.task(task),
        ),
        Statement::ShowCount { by, entry } => shown_count(
            kernel,
            names.task(by),
            names.entry(by, entry),
        ),
        _ => Err(Refusal::UnknownTask),
    }
}
