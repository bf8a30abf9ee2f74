//! Which tasks and positions of a second state may stand for those of a first one: the k-th that matters for the k-th
//! that matters, and the wait of a task for that of the task for which it stands. Nothing is promised of it: what is
//! guessed is checked.

use crate::keep::{Kept, Kind, Post};
use crate::{Schedules, Standing};
use ada_events::{Event, TaskNo};
use ada_kernel::Kernel;
use ada_standing::{Place, Renaming};
use std::alloc::{AllocError, Global};

/// Names that may lead from the first state to the second one.
pub(crate) fn guess<S: Schedules>(
    alloc: Global,
    space: &S,
    old: &Standing<S::Rest>,
    new: &Standing<S::Rest>,
) -> Result<Option<Renaming>, AllocError> {
    let kept = space.kept(old)?;
    let other = space.kept(new)?;
    let tasks = tasks(alloc, old.kernel.tasks(), &kept, &other)?;
    let mut places = places(alloc, &kept, &other)?;
    place_waits(&mut places, &tasks, &old.kernel, &new.kernel)?;
    places.sort_unstable_by_key(|place| place.old);
    Ok(Renaming::new(tasks, places))
}

// The tasks that may stand for so many tasks. The main program is the main program.
fn tasks(
    alloc: Global,
    count: u16,
    kept: &Kept,
    other: &Kept,
) -> Result<Vec<Option<TaskNo>>, AllocError> {
    let mut tasks = Vec::new(alloc);
    for number in 0..count {
        let named = if number == 0 {
            Some(TaskNo(0))
        } else {
            other.task_at(kept.place(TaskNo(number)))
        };
        tasks.push(named)?;
    }
    Ok(tasks)
}

// The positions that may stand for positions, but for those of waits.
fn places(alloc: Global, kept: &Kept, other: &Kept) -> Result<Vec<Place>, AllocError> {
    let mut places = Vec::new(alloc);
    for post in &kept.posts {
        if post.kind == Kind::Wait {
            continue;
        }
        if let Some(new) = like(other, *post) {
            places.push(Place { old: post.at, new })?;
        }
    }
    Ok(places)
}

// Places the waits of tasks at those of the tasks that stand for them.
fn place_waits(
    places: &mut Vec<Place>,
    tasks: &[Option<TaskNo>],
    old: &Kernel,
    new: &Kernel,
) -> Result<(), AllocError> {
    for number in 0..old.tasks() {
        let Some(Some(named)) = tasks.get(usize::from(number)) else {
            continue;
        };
        if let (Some(old), Some(new)) = (wait_of(old, TaskNo(number)), wait_of(new, *named)) {
            places.push(Place { old, new })?;
        }
    }
    Ok(())
}

// The position of the wait at which a task is suspended.
fn wait_of(kernel: &Kernel, task: TaskNo) -> Option<u32> {
    let view = kernel.view();
    let at = view.record(task).suspension.at;
    match view.event(at) {
        Some(Event::Waiting { .. }) => Some(at),
        _ => None,
    }
}

// The position of the same kind and rank.
fn like(other: &Kept, post: Post) -> Option<u32> {
    let same = other
        .posts
        .iter()
        .find(|place| place.kind == post.kind && place.rank == post.rank);
    match same {
        Some(place) => Some(place.at),
        None => None,
    }
}
