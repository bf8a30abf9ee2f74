//! Whom the quitting of a master's dependents and an abort touch.

ghost use Rattle.std.specs.Prelude.{◌≡◌, ℕ, ◌<◌, ◌≤◌, false, true, List, length, slice_index_or};
ghost use Rattle.ada_events.specs.declared.limits.TheConstants.{MOST_TASKS};
ghost use Rattle.ada_events.specs.Forced.{is_to_quit};
ghost use Rattle.ada_events.specs.Masters as masters;
ghost use Rattle.ada_events.specs.Nests.{nest};
ghost use Rattle.ada_events.specs.Phases.{is_terminated, lists_task};
ghost use Rattle.ada_events.specs.Tasks.{task_count};
ghost use Rattle.ada_events.specs.declared.names.TaskNo.{TaskNo as Number};
ghost use Rattle.ada_events.specs.Holders.{holds};
ghost use Rattle.ada_records.specs.Records as records;
ghost use Rattle.ada_view.specs.Flags.{AreNamed};
ghost use Rattle.ada_view.specs.internal.Hitting.{TellsOfLive, hits_bodies};

use crate::View;
use ada_events::limits::MOST_TASKS;
use ada_events::{Bounded, Master, TaskNo, Tasks};

// A flag for each task.
type Flags = Bounded<bool, MOST_TASKS>;

// Whether a task that isn't terminated depends on a master whose dependents terminate together (9.4): who isn't at an
// open terminate alternative doesn't.
fn is_dependent(view: &View, task: TaskNo, master: Master) -> bool
    requires known { task.0 < task_count view.now }
    requires quits { is_to_quit view.now master ≡ true }
    ensures { is_terminated view.now task.0 ≡ false
        → result ≡ masters.depends_on view.now task.0 master }
{
    let kept = view.record(task);
    if !kept.suspension.quittable {
        return false;
    }
    if kept.stage.terminated {
        return false;
    }
    view.tables().depends_on(task, master)
}

/// Who depends on a master whose dependents terminate together (9.4).
pub fn dependents(view: &View, master: Master) -> Tasks
    requires { is_to_quit view.now master ≡ true }
    ensures { records.ListsLive view.now result
        (λ task. masters.depends_on view.now task master) }
{
    let mut dependents = Tasks::new();
    for number in 0..view.tables().tasks() {
        if is_dependent(view, TaskNo(number), master) {
            dependents.push(TaskNo(number));
        }
    }
    dependents
}

/// Which tasks a list names: a flag for each.
pub fn named(tasks: &[TaskNo]) -> [bool; MOST_TASKS]
    ensures { AreNamed result tasks.now }
{
    let mut flags = [false; MOST_TASKS];
    for task in tasks {
        let place = usize::from(task.0);
        if place < MOST_TASKS {
            flags[place] = true;
        }
    }
    flags
}

/// The flag of a task; false where there is none.
pub fn flag_of(flags: &[bool], task: TaskNo) -> bool
    ensures { result ≡ slice_index_or flags.now task.0 false }
{
    flags.get(usize::from(task.0)).copied().unwrap_or(false)
}

// The flag of the task that holds a master: of the body's task, or of the one that opened the block.
fn flag_of_holder(view: &View, master: Master, flags: &[bool]) -> bool
    ensures { (task : ℕ) → holds task (nest view.now task) master ≡ true
        → result ≡ slice_index_or flags.now task false }
{
    match master {
        Master::Body(task) => flag_of(flags, task),
        Master::Block(block) => match view.opener(block) {
            Some(task) => flag_of(flags, task),
            None => false,
        },
    }
}

// Whether an abort hits the task that holds what a task was made under. The flags say whom it hits of the tasks that
// were made before.
fn hits_holder(view: &View, task: TaskNo, hit: &[bool]) -> bool
    requires known { task.0 < task_count view.now }
    requires before { length hit.now ≡ task.0 }
    ensures { (tasks : List Number) → TellsOfLive view.now hit.now (records.is_hit view.now tasks)
        → is_terminated view.now task.0 ≡ false → result ≡ hits_bodies view.now tasks task.0 }
{
    match view.tables().master(task) {
        Some(master) => flag_of_holder(view, master, hit),
        None => false,
    }
}

// Whether an abort hits a task (9.10): it names that, or hits the task that holds what it was made under. The flags say
// whom it names, and whom it hits of the tasks that were made before.
fn is_hit(view: &View, task: TaskNo, named: &[bool], hit: &[bool]) -> bool
    requires known { task.0 < task_count view.now }
    requires few { task.0 < MOST_TASKS }
    requires before { length hit.now ≡ task.0 }
    ensures { (tasks : List Number) → AreNamed named.now tasks
        → TellsOfLive view.now hit.now (records.is_hit view.now tasks)
        → is_terminated view.now task.0 ≡ false → result ≡ records.is_hit view.now tasks task.0 }
{
    flag_of(named, task) || hits_holder(view, task, hit)
}

// The first task that a list names, or that many where it names no earlier one.
fn first_named(tasks: &[TaskNo], many: u16) -> u16
    ensures few { result ≤ many }
    ensures none { (task : ℕ) → task < result → lists_task task tasks.now ≡ false }
{
    let mut first = many;
    for task in tasks {
        first = first.min(task.0);
    }
    first
}

/// Whom an abort of these tasks hits (9.10). The task that holds what another was made under was made before that, so
/// the tasks are gone through by their numbers, from the first that is named.
pub fn hit(view: &View, tasks: &[TaskNo]) -> Tasks
    ensures { records.ListsLive view.now result (records.is_hit view.now tasks.now) }
{
    let named = named(tasks);
    let many = view.tables().tasks();
    let first = first_named(tasks, many);
    let mut flags = Flags::from_slice(&[false; MOST_TASKS][..usize::from(first)]);
    let mut hit = Tasks::new();
    for number in first..many {
        let hits = is_hit(view, TaskNo(number), &named, flags.as_slice());
        flags.push(hits);
        if hits {
            hit.push(TaskNo(number));
        }
    }
    hit
}
