//! What objects ask of the kernel, for the tasks that they have.

ghost use Rattle.std.specs.Prelude.{◌≡◌, ◌<◌, ◌≤◌, length, Option};
ghost use Rattle.std.specs.Option.{option_map};
ghost use Rattle.ada_events.specs.declared.limits.TheConstants.{MOST_TASKS};
ghost use Rattle.ada_events.specs.declared.request.Request.TheVariants as request;
ghost use Rattle.ada_events.specs.Forced.{task_no};
ghost use Rattle.ada_events.specs.Tasks.{task_count};
ghost use Rattle.ada_behaviours.specs.declared.want.ObjectNo.{ObjectNo as Number};
ghost use Rattle.ada_behaviours.specs.Moves as moves;

use crate::telling::{is_gone, task_of};
use ada_behaviours::{Action, ObjectNo, Objects, Question, Want};
use ada_events::{Entry, Patience, Request, TaskNo, Tasks};
use ada_kernel::Kernel;

// The tasks of several objects, if each has one.
fn tasks_of(tasks: &[Option<u16>], objects: &[ObjectNo]) -> Option<Tasks>
    requires { length objects.now ≤ MOST_TASKS }
    ensures { result ≡ moves.tasks_of tasks.now objects.now }
{
    let mut named = Tasks::new();
    for object in objects {
        named.push(TaskNo(task_of(tasks, *object)?));
    }
    Some(named)
}

// The start of an activation of the tasks of objects (9.3).
fn activation(tasks: &[Option<u16>], task: u16, objects: &Objects) -> Option<Request>
    ensures { result
        ≡ option_map (request.Activate (task_no task)) (moves.tasks_of tasks.now objects.now) }
{
    let by = TaskNo(task);
    let tasks = tasks_of(tasks, objects.as_slice())?;
    Some(Request::Activate { by, tasks })
}

// An abort of the tasks of objects (9.10).
fn abortion(tasks: &[Option<u16>], task: u16, objects: &Objects) -> Option<Request>
    ensures { result
        ≡ option_map (request.Abort (task_no task)) (moves.tasks_of tasks.now objects.now) }
{
    let by = TaskNo(task);
    let tasks = tasks_of(tasks, objects.as_slice())?;
    Some(Request::Abort { by, tasks })
}

// A call of an entry of an object's task (9.5).
fn call(
    tasks: &[Option<u16>],
    task: u16,
    callee: ObjectNo,
    entry: Entry,
    patience: Patience,
) -> Option<Request>
    ensures { result ≡ option_map
        (λ other. request.Call (task_no task) (task_no other) entry patience)
        (moves.task_of tasks.now callee.0) }
{
    let other = task_of(tasks, callee)?;
    Some(Request::Call {
        by: TaskNo(task),
        callee: TaskNo(other),
        entry,
        patience,
    })
}

/// The request of a task for an action, with a pick; none if it names an object without a task.
pub(crate) fn requested(
    kernel: &Kernel,
    tasks: &[Option<u16>],
    task: u16,
    pick: u32,
    action: Action,
) -> Option<Request>
    requires { task < task_count kernel.now }
    ensures { result ≡ moves.requested kernel.now tasks.now task pick action }
{
    let by = TaskNo(task);
    let request = match action {
        Action::Activate { objects } => return activation(tasks, task, &objects),
        Action::Abort { objects } => return abortion(tasks, task, &objects),
        Action::Call {
            callee,
            entry,
            patience,
        } => return call(tasks, task, callee, entry, patience),
        Action::Create { families, .. } => {
            let master = kernel.view().frame(by);
            Request::Create {
                by,
                master,
                families,
            }
        }
        Action::Wait { choices, tail } => Request::Wait {
            by,
            choices,
            tail,
            pick,
        },
        Action::Open => Request::Open { by },
        Action::Elaborated { ok } => Request::Elaborated { by, ok },
        Action::Delay { duration } => Request::Delay { by, duration },
        Action::End { raised } => Request::End { by, raised },
        Action::Close => Request::Close { by },
        Action::Complete => Request::Complete { by },
    };
    Some(request)
}

/// The object whose task an action makes.
pub(crate) fn made_by(action: &Action) -> Option<ObjectNo>
    ensures { option_map (λ (o : Number). o.0) result ≡ moves.made_by action.now }
{
    match action {
        Action::Create { object, .. } => Some(*object),
        _ => None,
    }
}

/// Whether an object wants nothing.
pub(crate) fn is_idle(wanted: &Want) -> bool
    ensures { result ≡ moves.is_idle wanted.now }
{
    matches!(wanted, Want::Nothing)
}

// The number of an answer of yes or no.
fn number(is: bool) -> u16
    ensures { result ≡ moves.number is }
{
    u16::from(is)
}

// Whether a task exists, and is callable (9.9).
fn may_be_called(kernel: &Kernel, task: u16) -> bool
    ensures { result ≡ moves.may_be_called kernel.now task }
{
    kernel.callable(TaskNo(task)).unwrap_or(false)
}

/// The answer to a question of a task, 0 or 1 of yes and no; none if it names an object without a task, or an entry
/// that the task doesn't have (9.9).
pub(crate) fn answer_to(
    kernel: &Kernel,
    tasks: &[Option<u16>],
    task: u16,
    question: Question,
) -> Option<u16>
    ensures { result ≡ moves.answer_to kernel.now tasks.now task question }
{
    match question {
        Question::Nothing => Some(0),
        Question::Callable(object) => {
            let other = task_of(tasks, object)?;
            Some(number(may_be_called(kernel, other)))
        }
        Question::Terminated(object) => {
            let other = task_of(tasks, object)?;
            Some(number(is_gone(kernel, other)))
        }
        Question::Count(entry) => kernel.count(TaskNo(task), entry).ok(),
    }
}
