//! What has to be alike of two kernels, and how long the journal of the second may be.

use ada_compact::Compacted;
use ada_events::{Member, Outcome, TaskNo};
use ada_kernel::Kernel;
use ada_standing::Renaming;
use ada_view::queries;
use std::process::Abort;

fn is_live(kernel: &Kernel, task: TaskNo) -> bool {
    kernel.terminated(task) == Some(false)
}

fn live_tasks(kernel: &Kernel) -> usize {
    (0..kernel.tasks())
        .filter(|number| is_live(kernel, TaskNo(*number)))
        .count()
}

// How many blocks a task is in.
fn blocks_of(kernel: &Kernel, task: TaskNo) -> usize {
    let view = kernel.view();
    if task.0 >= queries::tasks(&view) {
        return 0;
    }
    let layers = view.nest(task).as_slice();
    layers
        .iter()
        .filter(|layer| matches!(layer.member(), Member::Block(_)))
        .count()
}

fn live_blocks(kernel: &Kernel) -> usize {
    let mut blocks = 0usize;
    for number in 0..kernel.tasks() {
        if is_live(kernel, TaskNo(number)) {
            blocks = blocks.saturating_add(blocks_of(kernel, TaskNo(number)));
        }
    }
    blocks
}

/// The new journal is as short as the old one's live tasks, their blocks and the kept tasks allow.
pub fn assert_short<R: Abort>(rt: &R, old: &Kernel, kept: &[TaskNo], new: &Kernel) {
    let most = live_tasks(old)
        .saturating_mul(30)
        .saturating_add(live_blocks(old))
        .saturating_add(kept.len().saturating_mul(4))
        .saturating_add(12);
    let events = new.journal().len();
    assert!(rt; events as usize <= most, "{events} events, not {most}");
}

// An outcome of the old journal, as the new one tells it.
fn renamed(names: &Renaming, outcome: Option<Outcome>) -> Option<Outcome> {
    match outcome {
        Some(Outcome::Accepted { call, choice }) => {
            let call = names.position(call)?;
            Some(Outcome::Accepted { call, choice })
        }
        _ => outcome,
    }
}

fn assert_task<R: Abort>(rt: &R, old: &Kernel, new: &Compacted, task: TaskNo, copy: TaskNo) {
    let outcome = renamed(&new.names, old.outcome(task));
    assert_eq!(rt; new.kernel.outcome(copy), outcome, "task {}", task.0);
    assert_eq!(rt;
        new.kernel.callable(copy),
        old.callable(task),
        "task {}",
        task.0
    );
    assert_eq!(rt;
        new.kernel.terminated(copy),
        old.terminated(task),
        "task {}",
        task.0
    );
    assert_eq!(rt;
        new.kernel.running(copy),
        old.running(task),
        "task {}",
        task.0
    );
}

fn assert_forgotten<R: Abort>(rt: &R, old: &Kernel, kept: &[TaskNo], task: TaskNo) {
    assert!(rt; !task.is_listed(kept), "task {}", task.0);
    assert_eq!(rt; old.terminated(task), Some(true), "task {}", task.0);
}

/// Each live or kept task has one in its place, which answers the same, and no other task of the new kernel is live.
pub fn assert_alike<R: Abort>(rt: &R, old: &Kernel, kept: &[TaskNo], new: &Compacted) {
    assert_eq!(rt; new.names.tasks(), old.tasks());
    assert_eq!(rt; live_tasks(&new.kernel), live_tasks(old));
    for number in 0..old.tasks() {
        match new.names.task(TaskNo(number)) {
            Some(copy) => assert_task(rt, old, new, TaskNo(number), copy),
            None => assert_forgotten(rt, old, kept, TaskNo(number)),
        }
    }
}
